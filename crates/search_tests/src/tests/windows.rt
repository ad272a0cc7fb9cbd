// Checksums, and windows and their checksums.
ghost use Rattle.std.specs.Prelude.{◌≡◌, ◌∷◌, []};

use crate::tests::fixtures::{index_with, is, must};
use crate::tests::indexes::TEN_BYTES;
use parwindow::{Index, Window, crc32};
use std::process::Abort;
use std::test::Fail;

const TEXT: &[u8; 43] = b"The quick brown fox jumps over the lazy dog";

// The check values of CRC-32.
static VECTORS: [(&[u8], u32); 6] = [
    (b"123456789", 0xCBF4_3926),
    (b"", 0),
    (b"\0", 0xD202_EF8D),
    (b"\0\0\0\0", 0x2144_DF1C),
    (b"a", 0xE8B7_BE43),
    (TEXT, 0x414F_A339),
];

#[test]
fn crc32_gives_the_sums_of_standard_vectors(rt: HostRuntime) {
    for (bytes, crc) in &VECTORS {
        is(&rt, &crc32(bytes), crc);
    }
}

// A byte; the byte that then falls out of a window of four; and the CRC-32 and the MD5 of the
// content after that. The MD5 is the number that its text is in base 16.
static SLIDES: [(u8, Option<u8>, u32, u128); 6] = [
    (b'a', None, 0xE8B7_BE43, 0x0cc175b9c0f1b6a831c399e269772661),
    (b'b', None, 0x9E83_486D, 0x187ef4436122d1cc2f40dc2b92f0eba0),
    (b'c', None, 0x3524_41C2, 0x900150983cd24fb0d6963f7d28e17f72),
    (b'd', None, 0xED82_CD11, 0xe2fc714c4727ee9395f324cd2e7f331f),
    (
        b'e',
        Some(b'a'),
        0xC6B3_AE99,
        0xe02cfbe5502b64aa5ae9f2d0d69eaa8d,
    ),
    (
        b'f',
        Some(b'b'),
        0xFB52_BF82,
        0x5bede32673c99367bc54a5e5cb41ae96,
    ),
];

// Checks both checksums of a window.
fn has_sums(rt: &impl Abort, window: &mut Window, crc: u32, digest: u128) {
    is(rt, &window.crc(), &crc);
    is(rt, &u128::from_be_bytes(window.digest().0), &digest);
}

#[test]
fn a_window_of_four_slides_over_six_bytes(rt: HostRuntime) -> Result<(), Fail> {
    let mut window = Window::new(rt.alloc(), 4)?;
    for (byte, fallen, crc, digest) in &SLIDES {
        is(&rt, &window.push(*byte), fallen);
        has_sums(&rt, &mut window, *crc, *digest);
    }
    Ok(())
}

// Extends a window by a piece that fits into it.
fn takes(rt: &impl Abort, window: &mut Window, piece: &[u8])
    ensures { window.new.tails ≡ window.old.tails }
{
    assert!(rt; piece.len() <= window.size() - window.len());
    window.extend(piece);
}

// Checks a window that takes the text in two pieces, cut at a place, and then a byte more.
fn takes_both(rt: &impl Abort, window: &mut Window, cut: usize) {
    window.clear();
    is(rt, &window.len(), &0);
    takes(rt, window, TEXT.get(..cut).unwrap_or(TEXT));
    takes(rt, window, TEXT.get(cut..).unwrap_or(&[]));
    is(rt, &window.is_full(), &true);
    has_sums(rt, window, 0x414F_A339, 0x9e107d9d372bb6826bd81d3542a419d6);
    is(rt, &window.push(b'!'), &Some(b'T'));
}

#[test]
fn a_window_takes_a_text_in_two_pieces(rt: HostRuntime) {
    let mut window = must(&rt, Window::new(rt.alloc(), 43));
    for cut in [0, 1, 7, 24, 43] {
        takes_both(&rt, &mut window, cut);
    }
}

// Checks both checksums of the first two bytes of a window, with zeros in place of the others.
fn has_tail(rt: &impl Abort, window: &mut Window, crc: u32, digest: u128)
    requires { window.old.tails ≡ 2 ∷ [] }
    ensures { window.new.tails ≡ window.old.tails }
{
    assert!(rt; window.len() >= 2);
    is(rt, &window.tail_crc(0), &crc);
    is(rt, &u128::from_be_bytes(window.tail_digest(0).0), &digest);
}

// The sums are those of `ab` and of `bc` with two zeros each.
#[test]
fn first_bytes_of_a_window_that_slides_have_their_sums(rt: HostRuntime) {
    let mut window = must(&rt, Window::with_tails(rt.alloc(), 4, &[2]));
    takes(&rt, &mut window, b"abcd");
    has_tail(
        &rt,
        &mut window,
        0xE98D_5034,
        0x66271d2e70372c1b4dc5b46e79a6f001,
    );
    let _ = window.push(b'e');
    has_tail(
        &rt,
        &mut window,
        0xFAFA_95ED,
        0xcea8967efbe43d656da3f10f82d797b3,
    );
}

// A piece, the number of its bytes that are pushed, and whether one of the slices `abcd` and `ab`
// ends there.
static PIECES: [(&[u8], usize, bool); 7] = [
    (b"cdxx", 2, true),
    (b"", 0, true),
    (b"xabcdab\0\0xx", 5, true),
    (b"ab\0\0xx", 4, true),
    (b"xx", 2, false),
    (b"a stream without a slic", 23, false),
    (b"abcd", 4, true),
];

// Pushes each piece into a full window. Checks the number of pushed bytes, and whether the window
// then has the CRC-32 of a slice.
fn stops(rt: &impl Abort, window: &mut Window, index: &Index) {
    for (bytes, count, seen) in &PIECES {
        assert!(rt; window.is_full() && window.size() as u64 == index.size());
        is(rt, &window.push_until(index, bytes), count);
        is(rt, &index.has_crc(window.crc()), seen);
    }
}

#[test]
fn pieces_stop_where_a_slice_ends(rt: HostRuntime) {
    let index = must(&rt, index_with(rt.alloc(), 10, &TEN_BYTES));
    let mut window = must(&rt, Window::new(rt.alloc(), 4));
    takes(&rt, &mut window, b"xyab");
    stops(&rt, &mut window, &index);
    drop(index);
}
