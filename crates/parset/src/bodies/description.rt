ghost use Rattle.std.specs.Prelude.{◌≡◌, ◌≤◌, length, IfNone, IfOk};
ghost use Rattle.parset.specs.Bodies.{description_of, name_of};
ghost use Rattle.parset.specs.BodyAnswers.{AnswersBody};
ghost use Rattle.parset.specs.Reasons.{description_reason, is_wrong_name};

use crate::bodies::aside::{Aside, BodyFault};
use crate::bodies::body_bytes::{copied, hash_at, is_over_limit, trimmed, u64_at};
use parfield::{Hash16, Sequence};
use std::alloc::{AllocError, Global};

// The most bytes that a name may have.
const NAME_LIMIT: usize = 4_096;

// The least file length that is too large.
const LENGTH_LIMIT: u64 = 1 << 63;

/// The fields of a File Description body.
#[derive(Drop)]
pub struct Desc {
    /// The file ID.
    pub id: Hash16,
    /// The MD5 of the whole file.
    pub whole: Hash16,
    /// The MD5 of the first 16,384 bytes of the file.
    pub front: Hash16,
    /// The length of the file in bytes.
    pub length: u64,
    /// The name, without the zero bytes that fill it up.
    pub name: Sequence<u8>,
}

/// Reads the fields of a File Description body, or returns the first reason why it isn't usable.
pub fn desc_body(alloc: Global, body: &[u8]) -> Result<Desc, BodyFault>
    ensures answer { AnswersBody (description_reason body.now) (description_of body.now) result }
{
    match description_reason(body) {
        Some(reason) => Err(reason.into()),
        None => Ok(description_of(alloc, body)?),
    }
}

/// Returns the first reason why a File Description body is not usable, or `None` if it is.
#[tactic(auto, unfolding(crate::specs::Reasons::description_reason, crate::specs::Bodies::file_length_field))]
pub(crate) fn description_reason(body: &[u8]) -> Option<Aside>
    ensures reason { result ≡ description_reason body.now }
    ensures long { IfNone result (56 ≤ length body.now) }
{
    if is_over_limit(body) {
        return Some(Aside::OverLimit);
    }
    if body.len() < 56 || body.len() % 4 != 0 {
        return Some(Aside::WrongLength);
    }
    if is_wrong_name(name_of(body)) {
        return Some(Aside::Name);
    }
    if u64_at(body, 48) >= LENGTH_LIMIT {
        return Some(Aside::OverLimit);
    }
    None
}

// Reads the fields of a body that is long enough for them.
#[tactic(auto, unfolding(crate::specs::Bodies::file_length_field))]
fn description_of(alloc: Global, body: &[u8]) -> Result<Desc, AllocError>
    requires { 56 ≤ length body.now }
    ensures { IfOk result (λ fields. fields ≡ description_of body.now) }
{
    Ok(Desc {
        id: hash_at(body, 0),
        whole: hash_at(body, 16),
        front: hash_at(body, 32),
        length: u64_at(body, 48),
        name: copied(alloc, name_of(body))?,
    })
}

// Returns the name without the zero bytes that fill it up.
fn name_of(body: &[u8]) -> &[u8]
    requires { 56 ≤ length body.now }
    ensures { result.now ≡ name_of body.now }
{
    trimmed(&body[56..])
}

// Whether the name is empty or too long, or has a zero byte inside.
#[tactic(auto, unfolding(crate::specs::Reasons::is_wrong_name))]
fn is_wrong_name(name: &[u8]) -> bool
    ensures { result ≡ is_wrong_name name.now }
{
    name.is_empty() || name.len() > NAME_LIMIT || name.contains(&0)
}
