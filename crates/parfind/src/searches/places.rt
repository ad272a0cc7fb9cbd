ghost use Rattle.std.specs.Prelude.{◌≡◌, ◌<◌, length, IfSome, IfNone};
ghost use Rattle.parfind.specs.NextPlace.{IsAtPlace, IsNextPlace, NoPlaceFrom, rest_of};

use crate::cursors::Cursor;
use parshelf::Shelf;

/// Returns the first place from a cursor on. If the cursor itself is at a place, it keeps its
/// slice.
pub fn next_place<H: Shelf>(shelf: &H, from: Cursor) -> Option<Cursor>
    ensures found { IfSome result (IsNextPlace (H.state shelf.now).lengths from) }
    ensures none { IfNone result (NoPlaceFrom (H.state shelf.now).lengths from) }
{
    let mut at = from;
    while at.file < shelf.count() {
        if at.offset < shelf.length(at.file) {
            return Some(at);
        }
        at = Cursor {
            file: at.file + 1,
            offset: 0,
            slice: 0,
        };
    }
    None
}

/// Returns how many bytes of its file are left from a place on.
pub fn rest_of<H: Shelf>(shelf: &H, at: Cursor) -> u64
    requires counted { at.file < length (H.state shelf.now).lengths }
    requires there { IsAtPlace (H.state shelf.now).lengths at }
    ensures { result ≡ rest_of (H.state shelf.now).lengths at }
{
    shelf.length(at.file) - at.offset
}
