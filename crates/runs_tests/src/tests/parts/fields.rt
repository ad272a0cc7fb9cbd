use super::is;
use crate::runs::must;
use md5::{Digest, Md5};
use parfield::{
    Counts, Hash16, Header, HeaderFault, Kind, Packet, Readings, Tally, Transcript, header,
    ids_follow_numbers, packet_at, show_name,
};
use std::cmp::Ordering;
use std::process::Abort;
use std::test::Fail;

// Messages and their MD5s, from RFC 1321.
static DIGESTS: [(&[u8], &str); 4] = [
    (b"", "d41d8cd98f00b204e9800998ecf8427e"),
    (b"a", "0cc175b9c0f1b6a831c399e269772661"),
    (b"abc", "900150983cd24fb0d6963f7d28e17f72"),
    (b"message digest", "f96b697d7cb7938d525a2f31aaf161d0"),
];

// Checks the MD5 of a message, as it is written.
fn is_digest(rt: &(impl Abort + AllocGlobal), message: &[u8], digits: &str) {
    let written = must(rt, Hash16(Md5::digest(message)).to_string(rt.alloc()));
    is(rt, &written.as_str(), &digits);
}

#[test]
fn md5_gives_the_digests_of_standard_vectors(rt: HostRuntime) {
    for (message, digest) in &DIGESTS {
        is_digest(&rt, message, digest);
    }
}

// A Creator packet with a set ID of zeros and no body.
const CREATOR: [u8; 64] =
    *b"PAR2\0PKT\x40\0\0\0\0\0\0\0\x90\xb7\x2c\x62\xf3\xda\xe9\x4b\x3d\xe0\x28\xf3\x1e\x19\x95\x02\0\0\0\0\0\0\0\0\0\0\0\0\0\0\0\0PAR 2.0\0Creator\0";

// Headers that begin with these sixteen bytes, followed by zeros up to `size` bytes in all, and
// their lengths or errors.
type Front = (&'static [u8; 16], usize, Result<u64, HeaderFault>);

static FRONTS: [Front; 7] = [
    (b"PAR2\0PKT\x40\0\0\0\0\0\0\0", 63, Err(HeaderFault::Short)),
    (b"PAR2\0PKT\x84\0\0\0\0\0\0\0", 64, Ok(132)),
    (
        b"\0\0\0\0\0\0\0\0\0\0\0\0\0\0\0\0",
        64,
        Err(HeaderFault::NoMagic),
    ),
    (
        b"PAR2\0PKT\x3c\0\0\0\0\0\0\0",
        64,
        Err(HeaderFault::BadLength),
    ),
    (
        b"PAR2\0PKT\x42\0\0\0\0\0\0\0",
        64,
        Err(HeaderFault::BadLength),
    ),
    (b"PAR2\0PKT\x40\0\0\0\0\0\0\0", 64, Ok(64)),
    (
        b"PAR2\0PKT\x84\x01\0\0\0\0\0\x80",
        64,
        Ok(0x8000_0000_0000_0184),
    ),
];

// Checks the length of a header, or its error.
fn has_length(rt: &(impl Abort + AllocGlobal), (front, size, wanted): &Front) {
    let mut bytes = must(rt, Vec::from_slice(rt.alloc(), *front));
    must(rt, bytes.resize(*size, 0));
    let length = match header(&bytes) {
        Ok(head) => Ok(head.length),
        Err(fault) => Err(fault),
    };
    is(rt, &length, wanted);
}

#[test]
fn faults_of_a_header_come_in_order(rt: HostRuntime) {
    for front in &FRONTS {
        has_length(&rt, front);
    }
}

#[test]
fn the_fields_of_a_header_are_read(rt: HostRuntime) {
    let wanted = Header {
        length: 64,
        hash: Hash16(*b"\x90\xb7\x2c\x62\xf3\xda\xe9\x4b\x3d\xe0\x28\xf3\x1e\x19\x95\x02"),
        set: Hash16([0; 16]),
        kind: Kind::Creator,
    };
    is(&rt, &header(&CREATOR), &Ok(wanted));
}

static KINDS: [([u8; 16], Kind); 6] = [
    (*b"PAR 2.0\0Main\0\0\0\0", Kind::Main),
    (*b"PAR 2.0\0FileDesc", Kind::FileDesc),
    (*b"PAR 2.0\0IFSC\0\0\0\0", Kind::Ifsc),
    (*b"PAR 2.0\0RecvSlic", Kind::RecvSlic),
    (*b"PAR 2.0\0Creator\0", Kind::Creator),
    (*b"PAR 2.0\0CommASCI", Kind::Other(*b"PAR 2.0\0CommASCI")),
];

#[test]
fn each_type_field_names_its_kind(rt: HostRuntime) {
    for (field, kind) in &KINDS {
        is(&rt, &Kind::of_type(*field), kind);
    }
}

#[test]
fn a_packet_without_a_body_is_found(rt: HostRuntime) {
    let packet = Packet {
        at: 0,
        length: 64,
        set: Hash16([0; 16]),
        kind: Kind::Creator,
        body: &[],
    };
    is(&rt, &packet_at(&CREATOR, 0), &Some(packet));
}

// A byte of the packet by its offset, another value of it, and an offset at which no packet begins
// then. None of the lengths fits both the hash and the file.
static CHANGES: [(usize, u8, usize); 9] = [
    (63, 1, 0),
    (8, 0, 0),
    (8, 60, 0),
    (8, 66, 0),
    (8, 68, 0),
    (8, 128, 0),
    (15, 255, 0),
    (0, b'P', 1),
    (0, b'P', usize::MAX),
];

// Checks that no packet begins there.
fn has_no_packet(rt: &impl Abort, (field, value, at): &(usize, u8, usize)) {
    let mut changed = CREATOR;
    if let Some(byte) = changed.get_mut(*field) {
        *byte = *value;
    }
    is(rt, &packet_at(&changed, *at), &None);
}

#[test]
fn no_packet_is_found_with_another_type_length_or_offset(rt: HostRuntime) {
    for change in &CHANGES {
        has_no_packet(&rt, change);
    }
}

#[test]
fn names_are_shown_in_printable_ascii(rt: HostRuntime) -> Result<(), Fail> {
    let shown = show_name(rt.alloc(), b"a\\\x0a\xc3\xa9\x1f ~\x7f\0")?;
    let wanted = b"a\\\\\\x0a\\xc3\\xa9\\x1f ~\\x7f\\x00".as_slice();
    is(&rt, &shown.as_slice(), &wanted);
    Ok(())
}

#[test]
fn counts_take_no_bytes() {
    const _: () = prove!(std::mem::size_of::<Counts>() == 0);
    const _: () = prove!(std::mem::size_of::<Tally>() == 0);
    const _: () = prove!(std::mem::size_of::<Transcript>() == 0);
    const _: () = prove!(std::mem::size_of::<Readings>() == 0);
}

const LAST: Hash16 = Hash16(*b"\0\0\0\0\0\0\0\0\0\0\0\0\0\0\0\x01");

const FIRST: Hash16 = Hash16(*b"\x02\0\0\0\0\0\0\0\0\0\0\0\0\0\0\0");

#[test]
fn the_last_byte_of_an_id_weighs_most(rt: HostRuntime) {
    is(&rt, &FIRST.cmp(&LAST), &Ordering::Less);
    is(&rt, &(FIRST < LAST), &true);
    ids_follow_numbers();
}
