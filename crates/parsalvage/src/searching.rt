ghost use Rattle.std.specs.Prelude.{◌≡◌, ◌≢◌, ◌+◌, ◌-◌, ◌<◌, ◌≤◌, ℕ, List, [], length, slice_index, IfOk, OnOk};
ghost use Rattle.parshelf.specs.Shelf.{ReadsAs, file_of};
ghost use Rattle.parsalvage.specs.Hands.{SalvagesAtMost};
ghost use Rattle.parsalvage.specs.FileScans.{LiesIn, FindsBelow};
ghost use Rattle.parsalvage.specs.Packets.{packets_of};
ghost use Rattle.parsalvage.specs.Pieces.{IsPieceOf};
ghost use Rattle.parsalvage.specs.MagicPlaces.{limit_between, salvage_limit};

use crate::body_store::BodyStore;
use crate::file_scan::FileScan;
use crate::piece::Piece;
use crate::salvage_fault::SalvageFault;
use memchr::memmem;
use parfield::MAGIC;
use parshelf::{Shelf, fill};
use std::alloc::Global;

// How many bytes of a file are searched at a time.
const PIECE: usize = 65_536;

// Stores the packets that begin in a chunk of a file, except in its last seven bytes.
fn search_piece<H: Shelf>(
    shelf: &mut H,
    piece: &Piece<'_>,
    buffer: &mut [u8],
    found: &mut FileScan,
) -> Result<(), SalvageFault>
    requires within { piece.now.base + length piece.now.bytes.now
        ≤ slice_index (H.state shelf.old).lengths piece.now.file }
    requires long { 7 ≤ length piece.now.bytes.now }
    requires buffer { 0 < length buffer.old }
    requires piece { IsPieceOf (H.state shelf.old) piece.now }
    requires lies { LiesIn (slice_index (H.state shelf.old).lengths piece.now.file)
        piece.now.base found.old }
    requires found { FindsBelow (H.state shelf.old) piece.now.file piece.now.base found.old }

    ensures lies { OnOk result (LiesIn (slice_index (H.state shelf.old).lengths piece.now.file)
        (piece.now.base + (length piece.now.bytes.now - 7)) found.new) }
    ensures found { OnOk result (FindsBelow (H.state shelf.new) piece.now.file
        (piece.now.base + (length piece.now.bytes.now - 7)) found.new) }

    ensures leaves { SalvagesAtMost (λ bytes. limit_between bytes
        piece.now.base (piece.now.base + (length piece.now.bytes.now - 7)))
        piece.now.file (H.state shelf.old) (H.state shelf.new) result }
    ensures empty { (files : List (List ℕ)) → ReadsAs (H.state shelf.new) files
        → packets_of (file_of files piece.now.file) ≡ [] → result ≢ Err SalvageFault.Memory }
{
    // No packet is missed: two occurrences of the magic never overlap.
    for place in memmem::find_iter(piece.bytes, &MAGIC) {
        found.scan_at(shelf, piece, piece.base + place as u64, buffer)?;
    }
    Ok(())
}

/// Finds the packets of a file, by offset, with their bodies. Bytes that are read for another
/// reason than the search go through `buffer`, or into the store of the bodies.
pub fn search_file<H: Shelf>(
    alloc: Global,
    shelf: &mut H,
    file: u32,
    buffer: &mut [u8],
) -> Result<FileScan, SalvageFault>
    requires file { file < length (H.state shelf.old).lengths }
    requires buffer { 0 < length buffer.old }

    ensures lies { IfOk result (λ found. LiesIn (slice_index (H.state shelf.old).lengths file)
        (slice_index (H.state shelf.old).lengths file) found) }
    ensures found { IfOk result (λ found. FindsBelow (H.state shelf.new) file
        (slice_index (H.state shelf.old).lengths file) found) }

    ensures leaves { SalvagesAtMost salvage_limit
        file (H.state shelf.old) (H.state shelf.new) result }
    ensures empty { (files : List (List ℕ)) → ReadsAs (H.state shelf.new) files
        → packets_of (file_of files file) ≡ [] → result ≢ Err SalvageFault.Memory }
{
    let end = shelf.length(file);
    let mut found = FileScan {
        packets: Vec::new(alloc),
        bodies: BodyStore {
            bytes: Vec::new(alloc),
            start: 0,
            end: 0,
        },
    };
    let mut window = [0; PIECE];
    let mut base = 0;
    let mut held = 0;
    // No packet is shorter than its header.
    while base + 64 <= end {
        let size = (end - base).min(PIECE as u64) as usize;
        fill(shelf, file, base + held as u64, &mut window[held..size])?;
        let piece = Piece {
            file,
            base,
            bytes: &window[..size],
        };
        search_piece(shelf, &piece, buffer, &mut found)?;
        // A magic may begin in the last seven bytes, which begin the next piece.
        window.copy_within(size - 7..size, 0);
        base += (size - 7) as u64;
        held = 7;
    }
    Ok(found)
}
