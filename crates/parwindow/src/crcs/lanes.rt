ghost use Rattle.std.specs.Prelude.{◌≡◌, ◌≢◌, ℕ, ◌+◌, ◌/◌, ◌%◌, ◌<◌, ◌≤◌, length, slice_index, bit_and, bit_xor};
ghost use Rattle.std.specs.Int.{bit_at};
ghost use Rattle.parwindow.specs.Lanes.{HasLanes};

use std::simd::prelude::*;

/// Returns sixteen bytes, from index `at` on.
#[inline(always)]
pub fn bytes_at(bytes: &[u8], at: usize) -> u8x16
    requires { at + 16 ≤ length bytes.now }
    ensures { HasLanes result (λ i. slice_index bytes.now (at + i)) }
{
    u8x16::from_slice(&bytes[at..])
}

/// Returns the low bytes of sixteen registers, from index `at` on.
#[inline(always)]
pub fn low_bytes_at(registers: &[u32], at: usize) -> u8x16
    requires { at + 16 ≤ length registers.now }
    ensures { HasLanes result (λ i. slice_index registers.now (at + i) % 256) }
{
    (u32x16::from_slice(&registers[at..]) & u32x16::splat(0xFF)).cast::<u8>()
}

/// Returns the bytes of a table at sixteen indices.
#[inline(always)]
pub fn looked_up(table: u8x16, places: u8x16) -> u8x16
    requires { (i : ℕ) → i < 16 → slice_index places i < 16 }
    ensures { HasLanes result (λ i. slice_index table (slice_index places i)) }
{
    table.swizzle_dyn(places)
}

/// Returns the xor of two vectors, byte by byte.
#[inline(always)]
pub fn xored(a: u8x16, b: u8x16) -> u8x16
    ensures { HasLanes result (λ i. bit_xor (slice_index a i) (slice_index b i)) }
{
    a ^ b
}

/// Returns a bit for each byte, which is set if the two bytes there have a bit in common.
#[inline(always)]
pub fn shared(a: u8x16, b: u8x16) -> u64
    ensures { (i : ℕ) → i < 16 → bit_and (slice_index a i) (slice_index b i) ≢ 0
        → bit_at result i ≡ 1 }
{
    (a & b).simd_ne(u8x16::splat(0)).to_bitmask()
}

/// Returns the low nibbles of sixteen bytes.
#[inline(always)]
pub fn low_nibbles(bytes: u8x16) -> u8x16
    ensures { HasLanes result (λ i. slice_index bytes i % 16) }
{
    bytes & u8x16::splat(15)
}

/// Returns the high nibbles of sixteen bytes.
#[inline(always)]
pub fn high_nibbles(bytes: u8x16) -> u8x16
    ensures { HasLanes result (λ i. slice_index bytes i / 16) }
{
    bytes >> u8x16::splat(4)
}
