//! Cursors and sightings: `cursor` is a point in a search, `sighting` a slice that it saw, and
//! `cursor_text` the text of a cursor. `laws` are the theorems about the order of cursors, their
//! texts, and sightings.

mod cursor;
mod cursor_text;
mod laws;
mod sighting;

pub use crate::cursors::cursor::Cursor;
pub use crate::cursors::cursor_text::{
    CursorFault, CursorText, Foreign, read_cursor, split_cursor,
};
pub use crate::cursors::laws::{cursor_order_law, cursor_text_law, sighting_laws};
pub use crate::cursors::sighting::Sighting;
