ghost use Rattle.std.specs.Prelude.{◌≡◌};
ghost use Rattle.std.specs.Ordering.{is_lt, is_gt};
ghost use Rattle.parfind.specs.Order.{is_before};
ghost use Rattle.parfind.specs.CursorText.{ReadsItsText, HasOneText};
ghost use Rattle.parfind.specs.Sightings.{SightingsRise, AllFromOrigin, RestFollows, BetweenJoins};

use crate::cursors::cursor::Cursor;

/// States that the order of cursors is that of searches: by file, then by offset, then by slice.
/// Does nothing.
pub fn cursor_order_law()
    ensures less { (a b : Cursor) → is_lt (⟦<Cursor as Ord>⟧.cmp a b) ≡ is_before a b }
    ensures greater { (a b : Cursor) → is_gt (⟦<Cursor as Ord>⟧.cmp a b) ≡ is_before b a }
{}

/// States the law of cursor texts: a text gives at most one set, mark (or none) and cursor, and is
/// the only text of them. Does nothing.
pub fn cursor_text_law()
    ensures read { ReadsItsText }
    ensures one { HasOneText }
{}

/// States the laws of sightings: their order is strictly rising, and parts of their list can be
/// joined. Does nothing.
pub fn sighting_laws()
    ensures rise { SightingsRise }
    ensures all { AllFromOrigin }
    ensures rest { RestFollows }
    ensures joins { BetweenJoins }
{}
