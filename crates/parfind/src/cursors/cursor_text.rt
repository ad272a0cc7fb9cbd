ghost use Rattle.std.specs.Prelude.{◌≡◌, ◌^◌, ◌≤◌, ◌∷◌, [], length, IfOk, IfSome, IfNone, true, false};
ghost use Rattle.std.specs.Char.{is_ascii_digit};
ghost use Rattle.std.specs.List.{list_all, position, slice_split};
ghost use Rattle.parfind.specs.CursorText.{cursor_for, cursor_of_parts, cursor_text, cursor_text_of, cursor_fault_of, parsed_hash, is_canonical, is_colon, is_lower_digit, number_of, read_for, second_version};

use crate::cursors::cursor::Cursor;
use parfield::Hash16;
use std::alloc::{AllocError, Global};

/// Why a text is no cursor of a given set and list of scanned files. The first reason that applies
/// is returned.
#[derive(Clone, Copy, Debug, PartialEq, Eq)]
pub enum CursorFault {
    /// It is no cursor text.
    Form,
    /// It is the text of a cursor of another set.
    OtherSet,
    /// It is the text of a cursor of another list of files: one that differs in a name, a length or
    /// the order.
    OtherList,
}

/// Why a cursor isn't one of a given set and list of scanned files. The first reason that applies
/// is returned.
#[derive(Clone, Copy, Debug, PartialEq, Eq)]
pub enum Foreign {
    /// It is a cursor of another set.
    OtherSet,
    /// It is a cursor of another list of files: one that differs in a name, a length or the order.
    OtherList,
}

impl From<Foreign> for CursorFault {
    ghost from_gives = { λ other fault. fault ≡ cursor_fault_of other };

    fn from(other: Foreign) -> CursorFault {
        match other {
            Foreign::OtherSet => CursorFault::OtherSet,
            Foreign::OtherList => CursorFault::OtherList,
        }
    }
}

/// The parts of a cursor's text.
#[derive(Clone, Copy, Debug, PartialEq, Eq)]
pub struct CursorText {
    /// The ID of the set.
    pub set: Hash16,
    /// The mark (fingerprint) of the list of scanned files; `None` in the first version, which has
    /// no mark.
    pub list: Option<Hash16>,
    /// The cursor.
    pub at: Cursor,
}

impl CursorText {
    /// Returns the cursor if it is one of this set and of the list with this mark. A text without a
    /// mark is accepted for every list.
    pub fn cursor_for(self, set: Hash16, list: Hash16) -> Result<Cursor, Foreign>
        ensures { result ≡ cursor_for set list self }
    {
        if self.set != set {
            return Err(Foreign::OtherSet);
        }
        match self.list {
            Some(mark) if mark != list => Err(Foreign::OtherList),
            _ => Ok(self.at),
        }
    }
}

impl Cursor {
    /// Returns the text of this cursor, in the second version, for the set with this ID and the
    /// list of scanned files with this mark.
    #[tactic(auto, unfolding(crate::specs::CursorText::cursor_text))]
    pub fn text(self, alloc: Global, set: Hash16, list: Hash16) -> Result<Vec<u8>, AllocError>
        ensures text { IfOk result (λ text.
            text.items ≡ cursor_text (record { set = set; list = Some list; at = self })) }
        ensures short { IfOk result (λ text. length text.items ≤ 110) }
    {
        let text = format!(in alloc;
            "2:{set}:{list}:{}:{}:{}",
            self.file, self.offset, self.slice
        )?;
        Ok(text.into_bytes())
    }
}

/// Splits the text of a cursor, of either version, into its parts. Returns `None` for any other
/// text.
#[tactic(auto, unfolding(crate::specs::CursorText::cursor_text_of))]
pub fn split_cursor(text: &[u8]) -> Option<CursorText>
    ensures { result ≡ cursor_text_of text.now }
{
    let (first, rest) = split_at_colon(text)?;
    if first == b"2".as_slice() {
        split_second(rest)
    } else {
        let set = parsed_hash(first)?;
        let at = cursor_of(rest)?;
        Some(CursorText {
            set,
            list: None,
            at,
        })
    }
}

/// Returns the cursor in a text, if it is one of this set and of the list of scanned files with
/// this mark; else the first error of the text.
pub fn read_cursor(text: &[u8], set: Hash16, list: Hash16) -> Result<Cursor, CursorFault>
    ensures { result ≡ read_for set list (cursor_text_of text.now) }
{
    let text = split_cursor(text).ok_or(CursorFault::Form)?;
    Ok(text.cursor_for(set, list)?)
}

// Splits the parts of a text of the second version that follow its `2`.
fn split_second(text: &[u8]) -> Option<CursorText>
    ensures { result ≡ second_version (slice_split is_colon text.now) }
{
    let (id, rest) = split_at_colon(text)?;
    let (mark, rest) = split_at_colon(rest)?;
    let set = parsed_hash(id)?;
    let list = parsed_hash(mark)?;
    let at = cursor_of(rest)?;
    Some(CursorText {
        set,
        list: Some(list),
        at,
    })
}

// Returns the cursor that three numbers write, with a colon between each two.
fn cursor_of(text: &[u8]) -> Option<Cursor>
    ensures { result ≡ cursor_of_parts (slice_split is_colon text.now) }
{
    let (file, rest) = split_at_colon(text)?;
    let (offset, slice) = split_at_colon(rest)?;
    cursor_of_parts(file, offset, slice)
}

// Returns the bytes before the first colon and all bytes after it; `None` if there is no colon.
fn split_at_colon(text: &[u8]) -> Option<(&[u8], &[u8])>
    ensures parts { IfSome result (λ p.
        slice_split is_colon text.now ≡ p.0.now ∷ slice_split is_colon p.1.now) }
    ensures whole { IfNone result (slice_split is_colon text.now ≡ text.now ∷ []) }
{
    let at = first_colon(text)?;
    Some((&text[..at], &text[at + 1..]))
}

fn first_colon(text: &[u8]) -> Option<usize>
    ensures { result ≡ position is_colon text.now }
{
    text.iter().position(|byte| *byte == b':')
}

// Returns the cursor with these numbers; `None` if a part isn't canonical decimal, or its number is
// too large.
fn cursor_of_parts(file: &[u8], offset: &[u8], slice: &[u8]) -> Option<Cursor>
    ensures { result ≡ cursor_of_parts (file.now ∷ offset.now ∷ slice.now ∷ []) }
{
    let file = u32_of(file)?;
    let offset = u64_of(offset)?;
    let slice = u32_of(slice)?;
    Some(Cursor {
        file,
        offset,
        slice,
    })
}

// Returns the sixteen bytes that a part of 32 lower-case hexadecimal digits writes; `None` for any
// other part.
fn parsed_hash(part: &[u8]) -> Option<Hash16>
    ensures { result ≡ parsed_hash part.now }
{
    if are_lower_hex_digits(part) {
        Hash16::read(part)
    } else {
        None
    }
}

// Whether each byte is a lower-case hexadecimal digit.
fn are_lower_hex_digits(part: &[u8]) -> bool
    ensures { result ≡ list_all is_lower_digit part.now }
{
    part.iter()
        .all(|byte| matches!(*byte, b'0'..=b'9' | b'a'..=b'f'))
}

// Returns the number that a part writes in canonical decimal, if it is below 2^32.
fn u32_of(part: &[u8]) -> Option<u32>
    ensures { result ≡ number_of (2 ^ 32) part.now }
{
    canonical(part)?.parse::<u32>().ok()
}

// Returns the number that a part writes in canonical decimal, if it is below 2^64.
fn u64_of(part: &[u8]) -> Option<u64>
    ensures { result ≡ number_of (2 ^ 64) part.now }
{
    canonical(part)?.parse::<u64>().ok()
}

// Returns the part as text, if it is canonical decimal.
fn canonical(part: &[u8]) -> Option<&str>
    ensures text { IfSome result (λ digits. digits.now ≡ part.now) }
    ensures some { IfSome result (λ _. is_canonical part.now ≡ true) }
    ensures none { IfNone result (is_canonical part.now ≡ false) }
{
    if is_canonical(part) {
        str::from_utf8(part).ok()
    } else {
        None
    }
}

// Whether the part is canonical decimal: `0`, or digits of which the first is not 0.
fn is_canonical(part: &[u8]) -> bool
    ensures { result ≡ is_canonical part.now }
{
    let Some((first, others)) = part.split_first() else {
        return false;
    };
    if *first == b'0' {
        others.is_empty()
    } else {
        are_decimal_digits(part)
    }
}

fn are_decimal_digits(part: &[u8]) -> bool
    ensures { result ≡ list_all is_ascii_digit part.now }
{
    part.iter().all(|byte| byte.is_ascii_digit())
}
