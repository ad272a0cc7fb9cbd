ghost use Rattle.std.specs.Prelude.{◌≡◌, ℕ, List, ◌+◌, ◌-◌, ◌≤◌, ◌<◌, length, take, drop, slice_index, IfSome, IfNone, IfOk, OnOk};
ghost use Rattle.parshelf.specs.Shelf.{ReadsAs, bytes_at};
ghost use Rattle.parsalvage.specs.Hands.{ReadsAtMost};
ghost use Rattle.parsalvage.specs.Kept.{front_of};
ghost use Rattle.parsalvage.specs.Pieces.{IsPiece, IsPieceOf};

use parshelf::{ReadFault, Shelf, fill};

/// A chunk of a file that was read already.
#[derive(Clone, Copy)]
pub struct Piece<'a> {
    /// The number of the file.
    pub file: u32,
    /// The offset of its first byte in the file.
    pub base: u64,
    /// The chunk's bytes.
    pub bytes: &'a [u8],
}

impl<'a> Piece<'a> {
    /// Returns a part of the file, if all of it is in the chunk.
    pub fn part(&self, from: u64, size: u64) -> Option<&'a [u8]>
        ensures size { IfSome result (λ part. length part.now ≡ size) }
        ensures bytes { (file : List ℕ) → IsPiece file self.now.base self.now.bytes.now
            → IfSome result (λ part. part.now ≡ take size (drop from file)) }
        ensures none { IfNone result (self.now.base ≤ from
            → self.now.base + length self.now.bytes.now < from + size) }
    {
        let front = self.front_of_part(from, size);
        if (front.len() as u64) < size {
            return None;
        }
        Some(front)
    }

    /// Returns the front of a part of the file, as far as it is in the chunk.
    pub fn front_of_part(&self, from: u64, size: u64) -> &'a [u8]
        ensures size { length result.now ≤ size }
        ensures bytes { (file : List ℕ) → IsPiece file self.now.base self.now.bytes.now
            → result.now ≡ take (length result.now) (drop from file) }
        ensures most { self.now.base ≤ from → size - length result.now
            ≤ from + size - (self.now.base + length self.now.bytes.now) }
    {
        let room = self.bytes.len() as u64;
        if from < self.base || from - self.base > room {
            return &[];
        }
        let place = from - self.base;
        let count = size.min(room - place);
        &self.bytes[place as usize..(place + count) as usize]
    }

    /// Fills `buf` with the file's bytes from an offset on. Reads nothing if the piece has all of
    /// them.
    pub fn read<H: Shelf>(
        &self,
        shelf: &mut H,
        offset: u64,
        buf: &mut [u8],
    ) -> Result<(), ReadFault>
        requires within { offset + length buf.old
            ≤ slice_index (H.state shelf.old).lengths self.now.file }
        requires piece { IsPieceOf (H.state shelf.old) self.now }

        ensures bytes { (files : List (List ℕ)) → ReadsAs (H.state shelf.new) files
            → OnOk result (buf.new ≡ bytes_at files self.now.file offset (length buf.old)) }
        ensures leaves { ReadsAtMost (λ _. length buf.old)
            self.now.file (H.state shelf.old) (H.state shelf.new) result }
    {
        match self.part(offset, buf.len() as u64) {
            Some(part) => {
                buf.copy_from_slice(part);
                Ok(())
            }
            None => fill(shelf, self.file, offset, buf),
        }
    }

    /// Returns the first four bytes of a part of the file, filled with zeros if it is shorter.
    pub fn read_front<H: Shelf>(
        &self,
        shelf: &mut H,
        from: u64,
        size: u64,
    ) -> Result<[u8; 4], ReadFault>
        requires within { from + size ≤ slice_index (H.state shelf.old).lengths self.now.file }
        requires piece { IsPieceOf (H.state shelf.old) self.now }

        ensures front { (files : List (List ℕ)) → ReadsAs (H.state shelf.new) files
            → IfOk result (λ first. first ≡ front_of (bytes_at files self.now.file from size)) }
        ensures leaves { ReadsAtMost (λ _. size)
            self.now.file (H.state shelf.old) (H.state shelf.new) result }
    {
        let mut first = [0; 4];
        let count = size.min(4) as usize;
        self.read(shelf, from, &mut first[..count])?;
        Ok(first)
    }
}
