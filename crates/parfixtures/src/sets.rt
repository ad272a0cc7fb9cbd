// Recovery sets of one file, in slices of four bytes.
use crate::bytes::joined;
use parfield::{Hash16, Kind, Packet};
use parsalvage::kept_of;
use parset::{RecoverySet, SetFault, build};
use std::alloc::Global;

// The body of the Main packet of the set.
static MAIN: [u8; 28] = *b"\x04\0\0\0\0\0\0\0\x01\0\0\0ffffffffffffffff";

// The MD5 of that body, as Python's `hashlib` has it.
const SET: Hash16 = Hash16(*b"\x20\xa7\xc3\x3f\xa4\x10\x7d\x0a\x46\xc2\x84\x3a\x68\x0b\xe5\x12");

// Returns a packet of the set.
fn packet(kind: Kind, body: &[u8]) -> Packet<'_> {
    Packet {
        at: 0,
        length: 64,
        set: SET,
        kind,
        body,
    }
}

/// Returns the set of one file of this length, in slices of four bytes, with these bytes as its
/// checksums. The checksums are known if their number is that of the slices.
pub fn set_with(alloc: Global, length: u64, pairs: &[u8]) -> Result<RecoverySet, SetFault> {
    let desc = joined(alloc, &[&[b'f'; 48], &length.to_le_bytes(), b"name"])?;
    let ifsc = joined(alloc, &[&[b'f'; 16], pairs])?;
    let packets = [
        packet(Kind::Main, &MAIN),
        packet(Kind::FileDesc, &desc),
        packet(Kind::Ifsc, &ifsc),
    ];
    build(alloc, &kept_of(alloc, 0, &packets)?, None)
}
