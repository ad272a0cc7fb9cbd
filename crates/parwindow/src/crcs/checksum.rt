ghost use Rattle.std.specs.Prelude.{◌≡◌, fold};
ghost use Rattle.parwindow.specs.Crc32.{crc_of, register_after};

use crate::crcs::far_table::{
    STEPPED_24, STEPPED_32, STEPPED_40, STEPPED_48, STEPPED_56, STEPPED_64,
};
use crate::crcs::table::{STEPPED_BYTES, STEPPED_TWICE};

/// Computes the CRC-32 of the bytes.
#[tactic(auto, unfolding(crate::specs::Crc32::crc_of, crate::specs::Crc32::register_of))]
pub fn crc32(bytes: &[u8]) -> u32
    ensures { result ≡ crc_of bytes.now }
{
    after_bytes(0xFFFF_FFFF, bytes) ^ 0xFFFF_FFFF
}

/// Returns the register after more bytes: it takes eight at a time, and the rest one at a time.
pub fn after_bytes(register: u32, bytes: &[u8]) -> u32
    ensures { result ≡ fold register_after register bytes.now }
{
    let (eights, rest) = bytes.as_chunks::<8>();
    after_each(after_eights(register, eights), rest)
}

// Returns the register after these groups of eight bytes.
fn after_eights(register: u32, eights: &[[u8; 8]]) -> u32
    ensures { result ≡ fold (fold register_after) register eights.now }
{
    eights
        .iter()
        .fold(register, |register, eight| after_eight(register, eight))
}

// Returns the register after these bytes, which it takes one at a time.
fn after_each(register: u32, bytes: &[u8]) -> u32
    ensures { result ≡ fold register_after register bytes.now }
{
    bytes
        .iter()
        .fold(register, |register, &byte| after_byte(register, byte))
}

// Returns the register after eight more bytes, with one look-up for each; none waits for another.
fn after_eight(register: u32, bytes: &[u8; 8]) -> u32
    ensures { result ≡ fold register_after register bytes.now }
{
    let word = u64::from(register) ^ u64::from_le_bytes(*bytes);
    STEPPED_BYTES[(word >> 56) as usize]
        ^ STEPPED_TWICE[((word >> 48) & 0xFF) as usize]
        ^ STEPPED_24[((word >> 40) & 0xFF) as usize]
        ^ STEPPED_32[((word >> 32) & 0xFF) as usize]
        ^ STEPPED_40[((word >> 24) & 0xFF) as usize]
        ^ STEPPED_48[((word >> 16) & 0xFF) as usize]
        ^ STEPPED_56[((word >> 8) & 0xFF) as usize]
        ^ STEPPED_64[(word & 0xFF) as usize]
}

/// Returns the register after one more byte, with one look-up instead of eight steps.
#[tactic(auto, using(crate::proofs::crc_laws::TableLaws::look_up))]
pub fn after_byte(register: u32, byte: u8) -> u32
    ensures { result ≡ register_after register byte }
{
    (register >> 8) ^ STEPPED_BYTES[((register ^ u32::from(byte)) & 0xFF) as usize]
}

/// Returns the register after two more bytes, with two look-ups that don't wait for one another.
pub fn after_two(register: u32, first: u8, second: u8) -> u32
    ensures { result ≡ register_after (register_after register first) second }
{
    (register >> 16)
        ^ STEPPED_TWICE[((register ^ u32::from(first)) & 0xFF) as usize]
        ^ STEPPED_BYTES[(((register >> 8) ^ u32::from(second)) & 0xFF) as usize]
}
