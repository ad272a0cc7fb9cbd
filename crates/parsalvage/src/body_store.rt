ghost use Rattle.std.specs.Prelude.{◌≡◌, ◌+◌, ◌-◌, ◌<◌, ◌≤◌, ℕ, List, length, take, drop, slice_index, IfOk, OnOk};
ghost use Rattle.parshelf.specs.Shelf.{ReadsAs, bytes_at};
ghost use Rattle.parsalvage.specs.Hands.{SalvagesAtMost};
ghost use Rattle.parsalvage.specs.Kept.{kept_body};
ghost use Rattle.parsalvage.specs.FileScans.{kept_body_from, FitsStore};
ghost use Rattle.parsalvage.specs.Pieces.{IsPieceOf};
ghost use Rattle.parsalvage.specs.BodyStores.{IsStore, HoldsRun, HoldsRunOf};

use crate::keeping::is_whole;
use crate::piece::Piece;
use crate::salvage_fault::SalvageFault;
use crate::stored::StoredBody;
use parfield::Header;
use parshelf::Shelf;

/// The store of a file's packet bodies. Bodies that overlap make a run, which is a part of the file
/// without a gap; a run has each byte once. The last run is the file from offset `start` up to
/// `end`, and its bytes are the last of `bytes`.
#[derive(Drop)]
pub struct BodyStore {
    pub bytes: Vec<u8>,
    pub start: u64,
    pub end: u64,
}

impl BodyStore {
    /// Holds what is wanted of the body of the packet at this offset, which has this header. The
    /// body begins no earlier than the last run.
    pub fn hold_body<H: Shelf>(
        &mut self,
        shelf: &mut H,
        piece: &Piece<'_>,
        at: u64,
        head: Header,
    ) -> Result<StoredBody, SalvageFault>
        requires within { at + head.length
            ≤ slice_index (H.state shelf.old).lengths piece.now.file }
        requires long { 64 ≤ head.length }
        requires later { self.old.start ≤ at + 64 }
        requires store { IsStore (slice_index (H.state shelf.old).lengths piece.now.file) self.old }
        requires piece { IsPieceOf (H.state shelf.old) piece.now }
        requires run { HoldsRunOf (H.state shelf.old) piece.now.file self.old }

        ensures store { OnOk result
            (IsStore (slice_index (H.state shelf.old).lengths piece.now.file) self.new) }
        ensures begins { OnOk result (self.new.start ≤ at + 64) }
        ensures fits { IfOk result (λ held. FitsStore (length self.new.bytes.items) held) }
        ensures keeps { OnOk result
            (take (length self.old.bytes.items) self.new.bytes.items ≡ self.old.bytes.items) }
        ensures run { OnOk result (HoldsRunOf (H.state shelf.new) piece.now.file self.new) }
        ensures body { (files : List (List ℕ)) → ReadsAs (H.state shelf.new) files
            → IfOk result (λ held. kept_body_from self.new.bytes.items held
            ≡ kept_body head.kind (bytes_at files piece.now.file (at + 64) (head.length - 64))) }

        ensures leaves { SalvagesAtMost (λ _. head.length - 64)
            piece.now.file (H.state shelf.old) (H.state shelf.new) result }
    {
        let from = at + 64;
        let size = head.length - 64;
        if is_whole(head.kind, size) {
            let place = self.hold(shelf, piece, from, size)?;
            return Ok(StoredBody::Whole {
                place,
                size: size as usize,
            });
        }
        let first = piece.read_front(shelf, from, size)?;
        Ok(StoredBody::Front { first, len: size })
    }

    // Holds a part of a file that begins no earlier than the last run, and returns its place in the
    // bytes. What is held already isn't read again.
    fn hold<H: Shelf>(
        &mut self,
        shelf: &mut H,
        piece: &Piece<'_>,
        from: u64,
        size: u64,
    ) -> Result<usize, SalvageFault>
        requires within { from + size ≤ slice_index (H.state shelf.old).lengths piece.now.file }
        requires later { self.old.start ≤ from }
        requires store { IsStore (slice_index (H.state shelf.old).lengths piece.now.file) self.old }
        requires piece { IsPieceOf (H.state shelf.old) piece.now }
        requires run { HoldsRunOf (H.state shelf.old) piece.now.file self.old }

        ensures store { OnOk result
            (IsStore (slice_index (H.state shelf.old).lengths piece.now.file) self.new) }
        ensures begins { OnOk result (self.new.start ≤ from) }
        ensures fits { IfOk result (λ place. place + size ≤ length self.new.bytes.items) }
        ensures keeps { OnOk result
            (take (length self.old.bytes.items) self.new.bytes.items ≡ self.old.bytes.items) }
        ensures run { OnOk result (HoldsRunOf (H.state shelf.new) piece.now.file self.new) }
        ensures part { (files : List (List ℕ)) → ReadsAs (H.state shelf.new) files
            → IfOk result (λ place. take size (drop place self.new.bytes.items)
            ≡ bytes_at files piece.now.file from size) }

        ensures leaves { SalvagesAtMost (λ _. size)
            piece.now.file (H.state shelf.old) (H.state shelf.new) result }
    {
        self.reach(from);
        let last = self.end.max(from + size);
        self.extend_to(shelf, piece, last)?;
        Ok(self.bytes.len() - (self.end - from) as usize)
    }

    // Begins a run at this place of the file, if that lies after the last run.
    fn reach(&mut self, from: u64)
        requires later { self.old.start ≤ from }
        ensures bytes { self.new.bytes.items ≡ self.old.bytes.items }
        ensures low { self.new.start ≤ from }
        ensures high { from ≤ self.new.end }
        ensures store { (size : ℕ) → from ≤ size → IsStore size self.old → IsStore size self.new }
        ensures run { (file : List ℕ) → HoldsRun file self.old → HoldsRun file self.new }
    {
        if self.end <= from {
            self.start = from;
            self.end = from;
        }
    }

    // Extends the last run up to this place of the file.
    fn extend_to<H: Shelf>(
        &mut self,
        shelf: &mut H,
        piece: &Piece<'_>,
        last: u64,
    ) -> Result<(), SalvageFault>
        requires more { self.old.end ≤ last }
        requires within { last ≤ slice_index (H.state shelf.old).lengths piece.now.file }
        requires short { length self.old.bytes.items ≤ self.old.end }
        requires piece { IsPieceOf (H.state shelf.old) piece.now }

        ensures start { OnOk result (self.new.start ≡ self.old.start) }
        ensures end { OnOk result (self.new.end ≡ last) }
        ensures len { OnOk result (length self.new.bytes.items
            ≡ length self.old.bytes.items + (last - self.old.end)) }
        ensures keeps { OnOk result
            (take (length self.old.bytes.items) self.new.bytes.items ≡ self.old.bytes.items) }
        ensures bytes { (files : List (List ℕ)) → ReadsAs (H.state shelf.new) files → OnOk result
            (drop (length self.old.bytes.items) self.new.bytes.items
            ≡ bytes_at files piece.now.file self.old.end (last - self.old.end)) }

        ensures leaves { SalvagesAtMost (λ _. last - self.old.end)
            piece.now.file (H.state shelf.old) (H.state shelf.new) result }
    {
        let held = self.bytes.len();
        self.bytes.resize(held + (last - self.end) as usize, 0)?;
        piece.read(shelf, self.end, &mut self.bytes[held..])?;
        self.end = last;
        Ok(())
    }
}
