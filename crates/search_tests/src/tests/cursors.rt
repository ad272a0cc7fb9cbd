// Texts of cursors.
use crate::tests::fixtures::is;
use parfield::Hash16;
use parfind::{Cursor, CursorFault, CursorText, read_cursor, split_cursor};
use std::process::Abort;
use std::test::Fail;

const ZEROS: Hash16 = Hash16([0; 16]);

// The ID of a set.
const SET: Hash16 = Hash16([
    0x61, 0x7c, 0xdc, 0x72, 0xba, 0x53, 0xd9, 0x4f, 0xe7, 0x13, 0xfe, 0xa2, 0xae, 0x18, 0xf7, 0x76,
]);

// The fingerprint of the list of one file, `x.bin` of ten bytes, as Python's `hashlib` computes it.
const LIST: Hash16 = Hash16([
    0x53, 0xe1, 0x26, 0x07, 0xa1, 0xd1, 0x1c, 0xab, 0x6b, 0x92, 0x71, 0x47, 0x96, 0x9f, 0xc3, 0x8c,
]);

// A cursor, and its texts in the set, with the fingerprint and without.
const AT: Cursor = Cursor {
    file: 0,
    offset: 2,
    slice: 1,
};

const LISTED: &[u8] = b"2:617cdc72ba53d94fe713fea2ae18f776:53e12607a1d11cab6b927147969fc38c:0:2:1";

const UNLISTED: &[u8] = b"617cdc72ba53d94fe713fea2ae18f776:0:2:1";

// The greatest cursor, and its texts.
const GREATEST: Cursor = Cursor {
    file: 4_294_967_295,
    offset: 18_446_744_073_709_551_615,
    slice: 4_294_967_295,
};

const GREATEST_LISTED: &[u8; 110] =
    b"2:617cdc72ba53d94fe713fea2ae18f776:53e12607a1d11cab6b927147969fc38c:4294967295:18446744073709551615:4294967295";

const GREATEST_UNLISTED: &[u8; 75] =
    b"617cdc72ba53d94fe713fea2ae18f776:4294967295:18446744073709551615:4294967295";

// Checks the text of a cursor of the set and the list.
fn is_written(rt: &(impl Abort + AllocGlobal), at: Cursor, wanted: &[u8]) -> Result<(), Fail> {
    let text = at.text(rt.alloc(), SET, LIST)?;
    is(rt, &text.as_slice(), &wanted);
    Ok(())
}

#[test]
fn a_cursor_is_written(rt: HostRuntime) -> Result<(), Fail> {
    is_written(&rt, AT, LISTED)?;
    is_written(&rt, GREATEST, GREATEST_LISTED)
}

// A text, and the fingerprint and the cursor that it tells.
static TEXTS: [(&[u8], Option<Hash16>, Cursor); 4] = [
    (LISTED, Some(LIST), AT),
    (UNLISTED, None, AT),
    (GREATEST_LISTED, Some(LIST), GREATEST),
    (GREATEST_UNLISTED, None, GREATEST),
];

#[test]
fn a_text_of_either_version_tells_its_cursor(rt: HostRuntime) {
    for (text, list, at) in &TEXTS {
        let told = CursorText {
            set: SET,
            list: *list,
            at: *at,
        };
        is(&rt, &split_cursor(text), &Some(told));
    }
}

// A text, the ID of a set, the fingerprint of a list, and the cursor, or why it isn't one of that
// set and that list. A wrong set is reported before a wrong list. A text without a fingerprint fits
// every list.
static READ: [(&[u8], Hash16, Hash16, Result<Cursor, CursorFault>); 8] = [
    (LISTED, SET, LIST, Ok(AT)),
    (LISTED, ZEROS, LIST, Err(CursorFault::OtherSet)),
    (LISTED, SET, ZEROS, Err(CursorFault::OtherList)),
    (LISTED, LIST, SET, Err(CursorFault::OtherSet)),
    (UNLISTED, SET, LIST, Ok(AT)),
    (UNLISTED, SET, ZEROS, Ok(AT)),
    (UNLISTED, LIST, SET, Err(CursorFault::OtherSet)),
    (b"", ZEROS, ZEROS, Err(CursorFault::Form)),
];

// Returns the cursor of a text for a set and a list, as `read_cursor` does, in two calls.
fn told_for(text: &[u8], set: Hash16, list: Hash16) -> Result<Cursor, CursorFault> {
    match split_cursor(text) {
        Some(told) => Ok(told.cursor_for(set, list)?),
        None => Err(CursorFault::Form),
    }
}

#[test]
fn a_cursor_is_read_for_its_set_and_its_list(rt: HostRuntime) {
    for (text, set, list, wanted) in &READ {
        is(&rt, &read_cursor(text, *set, *list), wanted);
        is(&rt, &told_for(text, *set, *list), wanted);
    }
}

// Texts that aren't a cursor's. `tools/checks/cursors.sh` has more of them.
static OTHERS: [&[u8]; 11] = [
    b"",
    b"00000000000000000000000000000000:0:1",
    b"00000000000000000000000000000000:0:01:1",
    b"00000000000000000000000000000000:0:1:4294967296",
    b"00000000000000000000000000000000:4294967296:0:0",
    b"00000000000000000000000000000000:0:18446744073709551616:0",
    b"0000000000000000000000000000000A:0:1:1",
    b"00000000000000000000000000000000:0:1:1:",
    b"3:00000000000000000000000000000000:00000000000000000000000000000000:0:2:1",
    b"2:00000000000000000000000000000000:0:2:1",
    b"2:00000000000000000000000000000000:00000000000000000000000000000000:0:02:1",
];

#[test]
fn any_other_text_is_refused(rt: HostRuntime) {
    for text in &OTHERS {
        is(&rt, &split_cursor(text), &None);
    }
}
