ghost use Rattle.std.specs.Prelude.{◌≡◌, reverse};
ghost use Rattle.std.specs.Cmp.{partial_order_from_own_ties};
ghost use Rattle.std.specs.Cmp.Lexicographic.{slice_cmp};
ghost use Rattle.std.specs.Cmp.Rules.{comparing};
ghost use Rattle.std.specs.Ordering.{nat_cmp, on, as_partial_cmp};
ghost use Rattle.std.proofs.Common.{rules};
ghost use Rattle.parfield.specs.HashOrder.{bytes_eq-reversed};

use crate::hex_byte::HexByte;
use hex::FromHex;
use std::cmp::Ordering;
use std::fmt;

/// An MD5 hash, or an ID that is one, as its sixteen bytes in order.
#[derive(Clone, Copy, Debug, PartialEq, Eq, Hash)]
pub struct Hash16(pub [u8; 16]);

impl Hash16 {
    ghost use Rattle.parfield.specs.Hash16.{hex_hash_of};

    /// Reads a hash from 32 hexadecimal digits of either case; `None` for any other text.
    pub fn read(text: &[u8]) -> Option<Hash16>
        ensures { result ≡ hex_hash_of text.now }
    {
        match <[u8; 16] as FromHex>::from_hex(text) {
            Ok(bytes) => Some(Hash16(bytes)),
            Err(_) => None,
        }
    }
}

impl Ord for Hash16 {
    ghost cmp = { on (λ hash. reverse hash.0) (slice_cmp nat_cmp) };

    ghost total = { Prim.search (comparing, rules) };

    ghost matches_partial_cmp = { Prim.search (comparing, rules) };

    ghost matches_eq = { λ a b. bytes_eq-reversed a.0 b.0 };

    /// Compares the sixteen bytes as little-endian numbers: the last byte weighs most.
    fn cmp(&self, other: &Hash16) -> Ordering {
        cmp_as_numbers(self.0, other.0)
    }
}

// Compares two hashes as little-endian numbers. They come by value: of bytes that are only
// borrowed, the proof doesn't know that they are below 256.
fn cmp_as_numbers(a: [u8; 16], b: [u8; 16]) -> Ordering
    ensures { result ≡ slice_cmp nat_cmp (reverse a) (reverse b) }
{
    u128::from_le_bytes(a).cmp(&u128::from_le_bytes(b))
}

impl PartialOrd for Hash16 {
    ghost partial_cmp = { as_partial_cmp (on (λ hash. reverse hash.0) (slice_cmp nat_cmp)) };

    ghost laws = { partial_order_from_own_ties (Prim.search (comparing, rules))
        (λ a b. bytes_eq-reversed a.0 b.0) };

    fn partial_cmp(&self, other: &Hash16) -> Option<Ordering> {
        Some(self.cmp(other))
    }
}

impl fmt::Display for Hash16 {
    ghost use Rattle.std.specs.Prelude.{Some};
    ghost use Rattle.hex.specs.Hex.{encode_lower};

    ghost output = { λ hash. Some (encode_lower hash.0) };

    /// Writes 32 hexadecimal digits in lower case.
    #[tactic(auto, unfolding(hex::specs::Hex::encode_with))]
    fn fmt<W: fmt::Write>(&self, f: &mut fmt::Formatter<W>) -> fmt::Result {
        for &byte in &self.0 {
            HexByte(byte).fmt(f)?;
        }
        Ok(())
    }
}
