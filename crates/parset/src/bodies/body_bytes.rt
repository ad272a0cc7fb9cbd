ghost use Rattle.std.specs.Prelude.{◌≡◌, ◌+◌, ◌≤◌, IfOk, length, slice_range};
ghost use Rattle.parfield.specs.Bytes.{le_value};
ghost use Rattle.parset.specs.Bodies.{hash_of, without_end_zeros};
ghost use Rattle.parset.specs.Reasons.{is_over_limit};

use byteorder::{ByteOrder, LittleEndian};
use parfield::{Hash16, Sequence, field_at};
use parsalvage::BODY_LIMIT;
use std::alloc::{AllocError, Global};

/// Whether the body has more bytes than are kept.
pub fn is_over_limit(body: &[u8]) -> bool
    ensures { result ≡ is_over_limit body.now }
{
    body.len() as u64 > BODY_LIMIT
}

/// Reads the hash or the ID in the sixteen bytes from an offset on.
pub fn hash_at(bytes: &[u8], at: usize) -> Hash16
    requires { at + 16 ≤ length bytes.now }
    ensures { result ≡ hash_of (slice_range bytes.now at (at + 16)) }
{
    Hash16(field_at(bytes, at))
}

/// Reads the little-endian number in the eight bytes from an offset on.
pub fn u64_at(bytes: &[u8], at: usize) -> u64
    requires { at + 8 ≤ length bytes.now }
    ensures { result ≡ le_value (slice_range bytes.now at (at + 8)) }
{
    LittleEndian::read_u64(&bytes[at..at + 8])
}

/// Reads the little-endian number in the four bytes from an offset on.
pub fn u32_at(bytes: &[u8], at: usize) -> u32
    requires { at + 4 ≤ length bytes.now }
    ensures { result ≡ le_value (slice_range bytes.now at (at + 4)) }
{
    LittleEndian::read_u32(&bytes[at..at + 4])
}

/// Copies bytes into new memory.
pub fn copied(alloc: Global, bytes: &[u8]) -> Result<Sequence<u8>, AllocError>
    ensures { IfOk result (λ copy. copy ≡ bytes.now) }
{
    Ok(Sequence::from_vec(Vec::from_slice(alloc, bytes)?))
}

/// Returns the bytes without the zero bytes at their end; nothing is copied.
pub fn trimmed(bytes: &[u8]) -> &[u8]
    ensures { result.now ≡ without_end_zeros bytes.now }
{
    let mut end = bytes.len();
    while end > 0 && bytes[end - 1] == 0 {
        end -= 1;
    }
    &bytes[..end]
}
