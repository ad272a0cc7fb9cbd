ghost use Rattle.std.specs.Prelude.{◌≡◌, ◌≤◌, false, length, map, IfErr, IfNone, IfOk, None};
ghost use Rattle.parset.specs.Bodies.{file_count_field, file_ids_of, hash_of, main_of};
ghost use Rattle.parset.specs.Bodies.{slice_size_field};
ghost use Rattle.parset.specs.BodyAnswers.{AnswersBodyAfter};
ghost use Rattle.parset.specs.Reasons.{early_main_reason, has_repeat};
ghost use Rattle.parset.specs.Reasons.{has_wrong_main_length, has_wrong_size, is_large_main};
ghost use Rattle.parset.specs.Reasons.{main_reason};

use crate::bodies::aside::{Aside, BodyFault};
use crate::bodies::body_bytes::{is_over_limit, u32_at, u64_at};
use md5::{Digest, Md5};
use parfield::{Hash16, Sequence};
use std::alloc::{AllocError, Global};

// The largest slice size, in bytes.
const SIZE_LIMIT: u64 = 268_435_456;

// The most files, the non-recovery files included.
const FILES_LIMIT: usize = 32_768;

/// The fields of a Main body.
#[derive(Drop)]
pub struct Main {
    /// The slice size in bytes.
    pub size: u64,
    /// The file IDs of the recovery set, in the order of the body.
    pub recovery: Sequence<Hash16>,
    /// The file IDs of the non-recovery files, in the order of the body.
    pub others: Sequence<Hash16>,
}

/// Reads the fields of a Main body, or returns the first reason why it isn't usable in a packet
/// that has this recovery set ID.
pub fn main_body(alloc: Global, body: &[u8], set: Hash16) -> Result<Main, BodyFault>
    ensures answer { AnswersBodyAfter (early_main_reason body.now) (main_reason body.now set)
        (main_of body.now) result }
{
    match main_reason(alloc, body, set)? {
        Some(reason) => Err(reason.into()),
        None => Ok(main_of(alloc, body)?),
    }
}

/// Returns the first reason why a Main body isn't usable in a packet that has this recovery set
/// ID, or `None` if it is.
#[tactic(auto, unfolding(crate::specs::Reasons::main_reason, crate::specs::Reasons::early_main_reason))]
pub(crate) fn main_reason(
    alloc: Global,
    body: &[u8],
    set: Hash16,
) -> Result<Option<Aside>, AllocError>
    ensures reason { IfOk result (λ reason. reason ≡ main_reason body.now set) }
    ensures memory { IfErr result (λ _. early_main_reason body.now ≡ None) }
    ensures early { IfOk result (λ reason. reason ≡ None → early_main_reason body.now ≡ None) }
    ensures long { IfOk result (λ reason. reason ≡ None → has_wrong_main_length body.now ≡ false) }
{
    if let Some(reason) = early_main_reason(body) {
        return Ok(Some(reason));
    }
    if has_repeat(alloc, file_ids(body))? {
        return Ok(Some(Aside::IdTwice));
    }
    if Md5::digest(body) != set.0 {
        return Ok(Some(Aside::SetId));
    }
    Ok(None)
}

// Returns the first reason that follows from the lengths and numbers of a Main body. Testing
// these takes no memory.
#[tactic(auto, unfolding(crate::specs::Reasons::early_main_reason))]
fn early_main_reason(body: &[u8]) -> Option<Aside>
    ensures reason { result ≡ early_main_reason body.now }
    ensures long { IfNone result (has_wrong_main_length body.now ≡ false) }
{
    if is_over_limit(body) {
        return Some(Aside::OverLimit);
    }
    if has_wrong_main_length(body) {
        return Some(Aside::WrongLength);
    }
    if has_wrong_size(body) {
        return Some(Aside::SliceSize);
    }
    if is_large_main(body) {
        return Some(Aside::OverLimit);
    }
    None
}

// Whether the body ends within a field or an ID, or has fewer IDs than its count says.
fn has_wrong_main_length(body: &[u8]) -> bool
    ensures { result ≡ has_wrong_main_length body.now }
{
    body.len() < 12 || (body.len() - 12) % 16 != 0 || file_ids(body).len() < file_count(body)
}

// Whether the slice size is 0 or not a multiple of 4.
fn has_wrong_size(body: &[u8]) -> bool
    requires { 12 ≤ length body.now }
    ensures { result ≡ has_wrong_size body.now }
{
    let size = slice_size(body);
    size == 0 || size % 4 != 0
}

// Whether the slice size or the number of files is above its limit.
fn is_large_main(body: &[u8]) -> bool
    requires { 12 ≤ length body.now }
    ensures { result ≡ is_large_main body.now }
{
    slice_size(body) > SIZE_LIMIT || file_ids(body).len() > FILES_LIMIT
}

// Whether an ID is listed twice.
fn has_repeat(alloc: Global, ids: &[[u8; 16]]) -> Result<bool, AllocError>
    ensures { IfOk result (λ found. found ≡ has_repeat (map hash_of ids.now)) }
{
    let mut sorted = Vec::from_slice(alloc, ids)?;
    sorted.sort_unstable();
    Ok(!sorted.is_sorted_by(|a, b| a < b))
}

// Reads the fields of a body that has a right length.
fn main_of(alloc: Global, body: &[u8]) -> Result<Main, AllocError>
    requires { has_wrong_main_length body.now ≡ false }
    ensures { IfOk result (λ main. main ≡ main_of body.now) }
{
    let (recovery, others) = file_ids(body).split_at(file_count(body));
    Ok(Main {
        size: slice_size(body),
        recovery: Sequence::from_vec(hashes(alloc, recovery)?),
        others: Sequence::from_vec(hashes(alloc, others)?),
    })
}

// Reads the slice size in bytes.
#[tactic(auto, unfolding(crate::specs::Bodies::slice_size_field))]
fn slice_size(body: &[u8]) -> u64
    requires { 12 ≤ length body.now }
    ensures { result ≡ slice_size_field body.now }
{
    u64_at(body, 0)
}

// Reads how many files the recovery set has.
#[tactic(auto, unfolding(crate::specs::Bodies::file_count_field))]
fn file_count(body: &[u8]) -> usize
    requires { 12 ≤ length body.now }
    ensures { result ≡ file_count_field body.now }
{
    u32_at(body, 8) as usize
}

// Returns all file IDs as bytes; the files of the recovery set come first.
#[tactic(auto, unfolding(crate::specs::Bodies::file_ids_of))]
fn file_ids(body: &[u8]) -> &[[u8; 16]]
    requires { 12 ≤ length body.now }
    ensures { map hash_of result.now ≡ file_ids_of body.now }
{
    let (ids, _) = body[12..].as_chunks::<16>();
    ids
}

// Copies IDs as hashes.
fn hashes(alloc: Global, ids: &[[u8; 16]]) -> Result<Vec<Hash16>, AllocError>
    ensures { IfOk result (λ found. found.items ≡ map hash_of ids.now) }
{
    ids.iter().copied().map(Hash16).collect(alloc)
}
