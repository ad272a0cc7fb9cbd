ghost use Rattle.std.specs.Prelude.{◌≡◌, ◌<◌, ◌↔◌, IfSome, IsTrue, slice_index};
ghost use Rattle.std.specs.Int.{IsInRange};
ghost use Rattle.parplan.specs.Limit.{limit_of};

/// Reads a limit from a text in canonical decimal, from 1 on; `None` for any other text.
pub fn read_limit(text: &str) -> Option<u64>
    ensures limit { result ≡ limit_of text.now }
    ensures positive { IfSome result (λ limit. 0 < limit) }
{
    if !begins_above_zero(text.as_bytes()) {
        return None;
    }
    text.parse().ok()
}

// Whether the first byte is a digit from `1` to `9`.
fn begins_above_zero(text: &[u8]) -> bool
    ensures { IsTrue result ↔ IsInRange 49 57 (slice_index text.now 0) }
{
    matches!(text, [b'1'..=b'9', ..])
}
