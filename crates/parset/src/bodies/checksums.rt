ghost use Rattle.std.specs.Prelude.{◌≡◌, ◌≤◌, IfNone, IfOk, length, map};
ghost use Rattle.parset.specs.Bodies.{checksums_of, pair_of, pairs_of};
ghost use Rattle.parset.specs.BodyAnswers.{AnswersBody};
ghost use Rattle.parset.specs.Reasons.{checksums_reason};

use crate::bodies::aside::{Aside, BodyFault};
use crate::bodies::body_bytes::{hash_at, is_over_limit, u32_at};
use parfield::{Hash16, Sequence};
use std::alloc::{AllocError, Global};

/// The most slices that a recovery set may have, and so the most that a file may have.
pub(crate) const SLICES_LIMIT: usize = 32_768;

/// The fields of an Input File Slice Checksum body.
#[derive(Drop)]
pub struct Ifsc {
    /// The file ID.
    pub id: Hash16,
    /// The MD5 and the CRC-32 of each slice of the file, in order.
    pub sums: Sequence<(Hash16, u32)>,
}

/// Reads the fields of an Input File Slice Checksum body, or returns the first reason
/// why it isn't usable.
pub fn ifsc_body(alloc: Global, body: &[u8]) -> Result<Ifsc, BodyFault>
    ensures answer { AnswersBody (checksums_reason body.now) (checksums_of body.now) result }
{
    match checksums_reason(body) {
        Some(reason) => Err(reason.into()),
        None => Ok(checksums_of(alloc, body)?),
    }
}

/// Returns the first reason why an Input File Slice Checksum body is not
/// usable, or `None` if it is.
#[tactic(auto, unfolding(crate::specs::Reasons::checksums_reason))]
pub(crate) fn checksums_reason(body: &[u8]) -> Option<Aside>
    ensures reason { result ≡ checksums_reason body.now }
    ensures long { IfNone result (16 ≤ length body.now) }
{
    if is_over_limit(body) {
        return Some(Aside::OverLimit);
    }
    if body.len() < 16 || (body.len() - 16) % 20 != 0 {
        return Some(Aside::WrongLength);
    }
    if raw_pairs(body).len() > SLICES_LIMIT {
        return Some(Aside::OverLimit);
    }
    None
}

// Reads the fields of a body that is long enough for them.
fn checksums_of(alloc: Global, body: &[u8]) -> Result<Ifsc, AllocError>
    requires { 16 ≤ length body.now }
    ensures { IfOk result (λ fields. fields ≡ checksums_of body.now) }
{
    Ok(Ifsc {
        id: hash_at(body, 0),
        sums: Sequence::from_vec(pairs_of(alloc, raw_pairs(body))?),
    })
}

// Returns the checksums of the slices as bytes, twenty for each slice.
#[tactic(auto, unfolding(crate::specs::Bodies::pairs_of))]
fn raw_pairs(body: &[u8]) -> &[[u8; 20]]
    requires { 16 ≤ length body.now }
    ensures { map pair_of result.now ≡ pairs_of body.now }
{
    let (pairs, _) = body[16..].as_chunks::<20>();
    pairs
}

// Reads the checksums of each slice.
fn pairs_of(alloc: Global, pairs: &[[u8; 20]]) -> Result<Vec<(Hash16, u32)>, AllocError>
    ensures { IfOk result (λ found. found.items ≡ map pair_of pairs.now) }
{
    pairs.iter().map(pair_of).collect(alloc)
}

// Reads the MD5 and the CRC-32 of a slice.
fn pair_of(pair: &[u8; 20]) -> (Hash16, u32)
    ensures { result ≡ pair_of pair.now }
{
    (hash_at(pair, 0), u32_at(pair, 16))
}
