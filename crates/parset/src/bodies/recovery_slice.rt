ghost use Rattle.std.specs.Prelude.{◌≡◌};
ghost use Rattle.parset.specs.Bodies.{exponent_of};
ghost use Rattle.parset.specs.BodyAnswers.{answer_of};
ghost use Rattle.parset.specs.Reasons.{slice_reason};

use crate::bodies::aside::Aside;
use crate::bodies::body_bytes::u32_at;

/// The largest exponent that a recovery slice may have.
pub(crate) const EXPONENT_LIMIT: u32 = 65_534;

/// Reads the exponent of a Recovery Slice body, or returns the first reason why it isn't
/// usable. The body is given by its first four bytes and its length in bytes, and the
/// set by its slice size.
#[tactic(auto, unfolding(crate::specs::Reasons::slice_reason, crate::specs::Bodies::exponent_of))]
pub fn slice_body(first: [u8; 4], len: u64, size: u64) -> Result<u32, Aside>
    ensures { result ≡ answer_of (slice_reason first len size) (exponent_of first) }
{
    if len < 4 || len - 4 != size {
        return Err(Aside::WrongLength);
    }
    let exponent = u32_at(&first, 0);
    if exponent > EXPONENT_LIMIT {
        return Err(Aside::OverLimit);
    }
    Ok(exponent)
}
