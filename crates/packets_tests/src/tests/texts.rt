// The texts of public types in formats for which there is no contract: `{:#}` and `{:?}`.

use super::{holds, is, must};
use parfield::{Hash16, Header, HeaderFault, Kind, Shown, header};
use parfixtures::WORKED;
use parsalvage::{Kept, Part, kept_of, salvage};
use parset::{Aside, BodyFault, SetFault};
use std::fmt::{Debug, Display};
use std::process::Abort;
use std::rc::RcSlice;

// The ID of the worked set. Its bytes are 97, 124, 220 and so on.
const SET: Hash16 = Hash16(*b"a|\xdcr\xbaS\xd9O\xe7\x13\xfe\xa2\xae\x18\xf7v");

// Checks the text of a value: plain, in the alternative form, and with a width of 1.
fn is_shown(rt: &(impl Abort + AllocGlobal), value: &impl Display, wanted: &str) {
    let plain = must(rt, format!(in rt.alloc(); "{value}"));
    is(rt, &"{}", &plain.as_str(), &wanted);
    let other = must(rt, format!(in rt.alloc(); "{value:#}"));
    is(rt, &"{:#}", &other.as_str(), &wanted);
    let wide = must(rt, format!(in rt.alloc(); "{value:1}"));
    is(rt, &"{:1}", &wide.as_str(), &wanted);
}

// Checks what `{:?}` makes of a value.
fn is_debugged(rt: &(impl Abort + AllocGlobal), value: &impl Debug, wanted: &str) {
    let shown = must(rt, format!(in rt.alloc(); "{value:?}"));
    is(rt, &"{:?}", &shown.as_str(), &wanted);
}

#[test]
fn hashes_are_shown_alike_in_each_format(rt: HostRuntime) {
    is_shown(&rt, &SET, "617cdc72ba53d94fe713fea2ae18f776");
    is_shown(&rt, &Hash16([0; 16]), "00000000000000000000000000000000");
}

#[test]
fn names_are_shown_alike_in_each_format(rt: HostRuntime) {
    is_shown(&rt, &Shown(b"a\n\\~\x7f"), "a\\x0a\\\\~\\x7f");
    is_shown(&rt, &Shown(b""), "");
}

#[test]
fn public_types_are_told_with_their_fields(rt: HostRuntime) {
    let hash =
        "Hash16([97, 124, 220, 114, 186, 83, 217, 79, 231, 19, 254, 162, 174, 24, 247, 118])";
    is_debugged(&rt, &SET, hash);
    is_debugged(&rt, &Some(Kind::RecvSlic), "Some(RecvSlic)");
    let short: Result<Header, HeaderFault> = header(b"");
    is_debugged(&rt, &short, "Err(Short)");
    is_debugged(&rt, &BodyFault::Aside(Aside::SetId), "Aside(SetId)");
    is_debugged(&rt, &SetFault::TooManySlices, "TooManySlices");
    is_debugged(&rt, &Shown(b"\x01a"), "Shown([1, 97])");
}

#[test]
fn a_hash_is_told_over_lines(rt: HostRuntime) {
    let told = must(&rt, format!(in rt.alloc(); "{SET:#?}"));
    let wanted =
        "Hash16(\n    [\n        97,\n        124,\n        220,\n        114,\n        186,\n        83,\n        217,\n        79,\n        231,\n        19,\n        254,\n        162,\n        174,\n        24,\n        247,\n        118,\n    ],\n)";
    is(&rt, &"{:#?}", &told.as_str(), &wanted);
}

// Checks what `{:?}` makes of the body of a packet.
fn is_told(rt: &(impl Abort + AllocGlobal), packet: Option<&Kept>, wanted: &str) {
    match packet {
        Some(packet) => is_debugged(rt, &packet.body, wanted),
        None => holds(rt, &wanted, false),
    }
}

#[test]
fn bodies_are_told_by_the_bytes_that_are_held(rt: HostRuntime) {
    let packets = must(&rt, salvage(rt.alloc(), &WORKED));
    let kept = must(&rt, kept_of(rt.alloc(), 0, &packets));
    holds(&rt, &"packets", kept.len() == 4);
    let main =
        "Whole([4, 0, 0, 0, 0, 0, 0, 0, 1, 0, 0, 0, 227, 69, 234, 203, 230, 86, 192, 230, 253, 32, 237, 99, 203, 123, 6, 44])";
    let slice = "Front { first: [0, 0, 0, 0], len: 12 }";
    is_told(&rt, kept.first(), main);
    is_told(&rt, kept.last(), slice);
}

#[test]
fn a_part_is_told_by_its_own_bytes(rt: HostRuntime) {
    let store = must(&rt, Vec::from_slice(rt.alloc(), b"abcd"));
    let shared = must(&rt, RcSlice::from_vec(store));
    match shared.as_slice().len() {
        4 => is_debugged(&rt, &must(&rt, Part::new(&shared, 1, 2)), "[98, 99]"),
        _ => holds(&rt, &"bytes", false),
    }
}
