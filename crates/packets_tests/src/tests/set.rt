mod reasons;

use super::{holds, is, must};
use md5::{Digest, Md5};
use parfield::Hash16;
use parfixtures::WORKED;
use parsalvage::{kept_of, salvage};
use parset::*;
use std::process::Abort;

// The IDs of the worked set and of its file `g.bin`, and the MD5 of the file's bytes `abcdefgh`.
// `tools/make/vectors.py` writes the set.
const SET: Hash16 = Hash16(*b"a|\xdcr\xbaS\xd9O\xe7\x13\xfe\xa2\xae\x18\xf7v");

const FILE: Hash16 = Hash16(*b"\xe3E\xea\xcb\xe6V\xc0\xe6\xfd \xedc\xcb{\x06,");

const CONTENT: Hash16 = Hash16(*b"\xe8\xdc@\x81\xb144\xb4Q\x89\xa7 \xb7{h\x18");

// The checksums of its slices.
static SUMS: [(Hash16, u32); 2] = [
    (
        Hash16(*b"\xe2\xfcqLG'\xee\x93\x95\xf3$\xcd.\x7f3\x1f"),
        0xed82_cd11,
    ),
    (
        Hash16(*b"\x1fv\x90\xeb\xdd\x9bL\xaf\x8f\xabI\xca\x17W\xbf'"),
        0x0833_7bb5,
    ),
];

// Returns the MD5 of bytes.
fn digest_of(bytes: &[u8]) -> Hash16 {
    Hash16(Md5::digest(bytes))
}

// A Main body of slices of eight bytes, with an ID of sixteen bytes 1 and one of sixteen bytes 2 of
// a file that isn't recovered, and the MD5 of the body.
const MAIN: &[u8] =
    b"\x08\0\0\0\0\0\0\0\x01\0\0\0\x01\x01\x01\x01\x01\x01\x01\x01\x01\x01\x01\x01\x01\x01\x01\x01\x02\x02\x02\x02\x02\x02\x02\x02\x02\x02\x02\x02\x02\x02\x02\x02";

const OF_MAIN: Hash16 = Hash16(*b"Z\xa4\xe0\x8c-\x8c\x8a\xe7\xbd\xa6\xa1\xc1\xe4!\xcf\xa0");

#[test]
fn the_fields_of_a_main_body_are_read(rt: HostRuntime) {
    let main = must(&rt, main_body(rt.alloc(), MAIN, OF_MAIN));
    is(&rt, &"size", &main.size, &8);
    let (recovery, others) = (main.recovery.as_slice(), main.others.as_slice());
    is(&rt, &"ids", &recovery, &[Hash16([1; 16])].as_slice());
    is(&rt, &"others", &others, &[Hash16([2; 16])].as_slice());
}

// The description of a file `l.bin` of 16,385 letters `a`. The first 16,384 bytes have another MD5
// than the whole file. Both are as Python's `hashlib` computes them.
const LONG_DESC: &[u8] =
    b"\x10\xa1\xa0\xe8\xa38\x16\xd0RjVdEU\xa3\xe7\x8d\x07_r5V\xe7v\xf6\xf5\xdc\xf2\x8eh\x89\xa7\t\xb4|\xf0|\x9d\x0e\xa5\x89\xe0\xe2\xaa}\r5P\x01@\0\0\0\0\0\0l.bin\0\0\0";

// Its file ID, and the MD5s of the whole file and of its front.
static HASHES: [Hash16; 3] = [
    Hash16(*b"\x10\xa1\xa0\xe8\xa38\x16\xd0RjVdEU\xa3\xe7"),
    Hash16(*b"\x8d\x07_r5V\xe7v\xf6\xf5\xdc\xf2\x8eh\x89\xa7"),
    Hash16(*b"\t\xb4|\xf0|\x9d\x0e\xa5\x89\xe0\xe2\xaa}\r5P"),
];

#[test]
fn the_fields_of_a_description_are_read(rt: HostRuntime) {
    let desc = must(&rt, desc_body(rt.alloc(), LONG_DESC));
    is(&rt, &"hashes", &[desc.id, desc.whole, desc.front], &HASHES);
    is(&rt, &"length", &desc.length, &16_385);
    is(&rt, &"name", &desc.name.as_slice(), &b"l.bin".as_slice());
}

#[test]
fn the_fields_of_a_checksum_body_are_read(rt: HostRuntime) {
    let ifsc = must(&rt, ifsc_body(rt.alloc(), &WORKED[284..340]));
    is(&rt, &"id", &ifsc.id, &FILE);
    is(&rt, &"sums", &ifsc.sums.as_slice(), &SUMS.as_slice());
}

// Creator bodies and their texts.
static TEXTS: [(&[u8], &[u8]); 3] = [
    (b"a\0b\0\0\0\0\0", b"a\0b"),
    (b"a\nb\\", b"a\nb\\"),
    (b"\0\0\0\0", b""),
];

// Checks the text of a Creator body.
fn is_text(rt: &(impl Abort + AllocGlobal), body: &[u8], text: &[u8]) {
    let found = must(rt, creator_body(rt.alloc(), body));
    holds(rt, &body, found.as_slice() == text);
}

#[test]
fn the_texts_of_creator_bodies_are_read(rt: HostRuntime) {
    for row in &TEXTS {
        is_text(&rt, row.0, row.1);
    }
}

// The first four bytes of a recovery slice's body, the length of the body, the slice size, and the
// exponent or the reason.
static SLICES: [([u8; 4], u64, u64, Result<u32, Aside>); 15] = [
    ([0, 0, 0, 0], 12, 8, Ok(0)),
    ([1, 2, 0, 0], 8, 4, Ok(513)),
    ([0xfe, 0xff, 0, 0], 8, 4, Ok(65_534)),
    ([0xff, 0xff, 0, 0], 8, 4, Err(Aside::OverLimit)),
    ([0, 0, 1, 0], 8, 4, Err(Aside::OverLimit)),
    ([0, 0, 0, 0], 7, 4, Err(Aside::WrongLength)),
    ([0, 0, 0, 0], 9, 4, Err(Aside::WrongLength)),
    ([0, 0, 0, 0], 12, 4, Err(Aside::WrongLength)),
    ([0, 0, 0, 0], 0, 4, Err(Aside::WrongLength)),
    ([0, 0, 0, 0], 4, 4, Err(Aside::WrongLength)),
    ([0, 0, 0, 0], 4, 0, Ok(0)),
    ([0, 0, 0, 0], 3, u64::MAX, Err(Aside::WrongLength)),
    ([0, 0, 0, 0], u64::MAX, u64::MAX, Err(Aside::WrongLength)),
    ([9, 0, 0, 0], u64::MAX, u64::MAX - 4, Ok(9)),
    ([0xff, 0xff, 0, 0], 12, 4, Err(Aside::WrongLength)),
];

#[test]
fn recovery_slices_have_their_exponent_or_a_reason(rt: HostRuntime) {
    for row in &SLICES {
        let (first, len, size, wanted) = *row;
        is(&rt, row, &slice_body(first, len, size), &wanted);
    }
}

static NUMBERS: [(Aside, u8); 6] = [
    (Aside::WrongLength, 1),
    (Aside::SliceSize, 2),
    (Aside::IdTwice, 3),
    (Aside::SetId, 4),
    (Aside::Name, 5),
    (Aside::OverLimit, 7),
];

#[test]
fn each_reason_has_its_number(rt: HostRuntime) {
    for row in &NUMBERS {
        is(&rt, row, &row.0.number(), &row.1);
    }
}

// Checks the only file of the worked set.
fn is_worked_file(rt: &impl Abort, files: &[SetFile]) {
    let is_so = match files {
        [file] => {
            (file.id, file.whole, file.length, file.known) == (FILE, CONTENT, 8, true)
                && file.name.as_slice() == b"g.bin".as_slice()
        }
        _ => false,
    };
    holds(rt, &files, is_so);
}

// Checks the slices of the worked set.
fn are_worked_slices(rt: &impl Abort, slices: &[SetSlice]) {
    is(rt, &"slices", &slices.len(), &2);
    for (slice, number) in slices.iter().zip(0..2u32) {
        is(
            rt,
            &number,
            &(slice.id, slice.number, slice.length),
            &(FILE, number, 4),
        );
        is(
            rt,
            &number,
            &slice.sums.as_ref(),
            &SUMS.get(number as usize),
        );
    }
}

// Checks the rejected packet of the worked set.
fn is_worked_aside(rt: &impl Abort, asides: &[SetAside]) {
    let slice = SetAside {
        file: 0,
        at: 340,
        reason: Aside::WrongLength,
    };
    is(rt, &"aside", &asides, &[slice].as_slice());
}

#[test]
fn the_parts_of_the_worked_set_are_read(rt: HostRuntime) {
    let packets = must(&rt, salvage(rt.alloc(), &WORKED));
    let kept = must(&rt, kept_of(rt.alloc(), 0, &packets));
    let set = must(&rt, build(rt.alloc(), &kept, Some(SET)));
    is(&rt, &"numbers", &(set.id(), set.size()), &(SET, 4));
    is(&rt, &"counts", &(set.others(), set.have()), &(0, 0));
    is(&rt, &"creator", &set.creator(), &None);
    is_worked_file(&rt, set.files());
    are_worked_slices(&rt, set.slices());
    is_worked_aside(&rt, set.aside());
}
