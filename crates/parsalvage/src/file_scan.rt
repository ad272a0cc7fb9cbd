ghost use Rattle.std.specs.Prelude.{◌≡◌, ◌+◌, ◌*◌, ◌<◌, ◌≤◌, ℕ, List, length, drop, slice_index, IsTrue, OnOk};
ghost use Rattle.parfield.specs.Packet.{header_of};
ghost use Rattle.parshelf.specs.Shelf.{ReadsAs, file_of};
ghost use Rattle.parsalvage.specs.Hands.{SalvagesAtMost};
ghost use Rattle.parsalvage.specs.FileScans.{LiesIn, FindsBelow};
ghost use Rattle.parsalvage.specs.Packets.{is_packet_at};
ghost use Rattle.parsalvage.specs.Pieces.{IsPieceOf};
ghost use Rattle.parsalvage.specs.MagicPlaces.{framed_size};

use crate::body_store::BodyStore;
use crate::piece::Piece;
use crate::salvage_fault::SalvageFault;
use crate::stored::StoredPacket;
use crate::validating::validate;
use parfield::Header;
use parshelf::Shelf;

/// The packets of a file that were found so far, by offset, and their bodies.
#[derive(Drop)]
pub struct FileScan {
    pub packets: Vec<StoredPacket>,
    pub bodies: BodyStore,
}

impl FileScan {
    /// Stores the packet at this offset, if there is one. Packets are stored by rising offset.
    pub fn scan_at<H: Shelf>(
        &mut self,
        shelf: &mut H,
        piece: &Piece<'_>,
        at: u64,
        buffer: &mut [u8],
    ) -> Result<(), SalvageFault>
        requires within { at ≤ slice_index (H.state shelf.old).lengths piece.now.file }
        requires buffer { 0 < length buffer.old }
        requires piece { IsPieceOf (H.state shelf.old) piece.now }
        requires lies { LiesIn (slice_index (H.state shelf.old).lengths piece.now.file) at self.old }
        requires found { FindsBelow (H.state shelf.old) piece.now.file at self.old }

        ensures lies { OnOk result
            (LiesIn (slice_index (H.state shelf.old).lengths piece.now.file) (at + 1) self.new) }
        ensures found { OnOk result
            (FindsBelow (H.state shelf.new) piece.now.file (at + 1) self.new) }

        ensures leaves { SalvagesAtMost (λ bytes. 64 + 2 * framed_size (drop at bytes))
            piece.now.file (H.state shelf.old) (H.state shelf.new) result }
        ensures memory { (files : List (List ℕ)) → ReadsAs (H.state shelf.new) files
            → result ≡ Err SalvageFault.Memory
            → IsTrue (is_packet_at (file_of files piece.now.file) at) }
    {
        // No packet is shorter than its header.
        if shelf.length(piece.file) - at < 64 {
            return Ok(());
        }
        match validate(shelf, piece, at, buffer)? {
            Some(head) => self.store_packet(shelf, piece, at, head),
            None => Ok(()),
        }
    }

    // Stores the packet at this offset, which has this header.
    fn store_packet<H: Shelf>(
        &mut self,
        shelf: &mut H,
        piece: &Piece<'_>,
        at: u64,
        head: Header,
    ) -> Result<(), SalvageFault>
        requires within { at + head.length
            ≤ slice_index (H.state shelf.old).lengths piece.now.file }
        requires long { 64 ≤ head.length }
        requires piece { IsPieceOf (H.state shelf.old) piece.now }
        requires packet { (files : List (List ℕ)) → ReadsAs (H.state shelf.old) files
            → IsTrue (is_packet_at (file_of files piece.now.file) at) }
        requires fields { (files : List (List ℕ)) → ReadsAs (H.state shelf.old) files
            → head ≡ header_of (drop at (file_of files piece.now.file)) }
        requires lies { LiesIn (slice_index (H.state shelf.old).lengths piece.now.file) at self.old }
        requires found { FindsBelow (H.state shelf.old) piece.now.file at self.old }

        ensures lies { OnOk result
            (LiesIn (slice_index (H.state shelf.old).lengths piece.now.file) (at + 1) self.new) }
        ensures found { OnOk result
            (FindsBelow (H.state shelf.new) piece.now.file (at + 1) self.new) }

        ensures leaves { SalvagesAtMost (λ _. head.length)
            piece.now.file (H.state shelf.old) (H.state shelf.new) result }
    {
        let body = self.bodies.hold_body(shelf, piece, at, head)?;
        let packet = StoredPacket {
            at,
            length: head.length,
            set: head.set,
            kind: head.kind,
            body,
        };
        if self.packets.push(packet).is_err() {
            return Err(SalvageFault::Memory);
        }
        Ok(())
    }
}
