ghost use Rattle.std.specs.Prelude.{◌≡◌, ◌+◌, ◌-◌, ◌<◌, ◌≤◌, ℕ, List, length, drop, slice_index, is_some, IfOk, IfSome};
ghost use Rattle.md5.specs.Md5.{md5};
ghost use Rattle.parfield.specs.Packet.{begins_packet, header_of};
ghost use Rattle.parshelf.specs.Shelf.{ReadsAs, file_of, bytes_at};
ghost use Rattle.parsalvage.specs.MagicPlaces.{begins_framed, framed_size};
ghost use Rattle.parsalvage.specs.Hands.{ReadsAtMost};
ghost use Rattle.parsalvage.specs.Pieces.{IsPieceOf};

use crate::piece::Piece;
use md5::{Digest, Md5};
use parfield::{Hash16, Header, header};
use parshelf::{ReadFault, Shelf, hash_part};

/// Reads the header at this offset of a file, if a packet begins there. Bytes that aren't in the
/// chunk are hashed through `buffer`.
pub fn validate<H: Shelf>(
    shelf: &mut H,
    piece: &Piece<'_>,
    at: u64,
    buffer: &mut [u8],
) -> Result<Option<Header>, ReadFault>
    requires within { at + 64 ≤ slice_index (H.state shelf.old).lengths piece.now.file }
    requires buffer { 0 < length buffer.old }
    requires piece { IsPieceOf (H.state shelf.old) piece.now }

    ensures fits { IfOk result (λ head. IfSome head
        (λ head. at + head.length ≤ slice_index (H.state shelf.old).lengths piece.now.file)) }
    ensures long { IfOk result (λ head. IfSome head (λ head. 64 ≤ head.length)) }
    ensures found { (files : List (List ℕ)) → ReadsAs (H.state shelf.new) files → IfOk result
        (λ head. is_some head ≡ begins_packet (drop at (file_of files piece.now.file))) }
    ensures fields { (files : List (List ℕ)) → ReadsAs (H.state shelf.new) files → IfOk result
        (λ head. IfSome head (λ head. head ≡ header_of (drop at (file_of files piece.now.file)))) }

    ensures leaves { ReadsAtMost (λ bytes. 64 + framed_size (drop at bytes))
        piece.now.file (H.state shelf.old) (H.state shelf.new) result }
    ensures rest { piece.now.base ≤ at
        → ReadsAtMost (λ bytes. 64 + (at + framed_size (drop at bytes)
        - (piece.now.base + length piece.now.bytes.now)))
        piece.now.file (H.state shelf.old) (H.state shelf.new) result }
{
    match header_at(shelf, piece, at)? {
        Some(head) => {
            let hash = hash_at(shelf, piece, at + 32, head.length - 32, buffer)?;
            Ok(if hash == head.hash { Some(head) } else { None })
        }
        None => Ok(None),
    }
}

// Reads the header at this offset of a file, if there is one and the file is long
// enough for its packet.
fn header_at<H: Shelf>(
    shelf: &mut H,
    piece: &Piece<'_>,
    at: u64,
) -> Result<Option<Header>, ReadFault>
    requires within { at + 64 ≤ slice_index (H.state shelf.old).lengths piece.now.file }
    requires piece { IsPieceOf (H.state shelf.old) piece.now }

    ensures fits { IfOk result (λ head. IfSome head
        (λ head. at + head.length ≤ slice_index (H.state shelf.old).lengths piece.now.file)) }
    ensures long { IfOk result (λ head. IfSome head (λ head. 64 ≤ head.length)) }
    ensures found { (files : List (List ℕ)) → ReadsAs (H.state shelf.new) files → IfOk result
        (λ head. is_some head ≡ begins_framed (drop at (file_of files piece.now.file))) }
    ensures fields { (files : List (List ℕ)) → ReadsAs (H.state shelf.new) files → IfOk result
        (λ head. IfSome head (λ head. head ≡ header_of (drop at (file_of files piece.now.file)))) }

    ensures leaves { ReadsAtMost (λ _. 64)
        piece.now.file (H.state shelf.old) (H.state shelf.new) result }
{
    let room = shelf.length(piece.file) - at;
    let mut bytes = [0; 64];
    piece.read(shelf, at, &mut bytes)?;
    let Ok(head) = header(&bytes) else {
        return Ok(None);
    };
    Ok(if head.length <= room {
        Some(head)
    } else {
        None
    })
}

// Computes the MD5 of a part of a file. Bytes that are in the chunk aren't read again.
fn hash_at<H: Shelf>(
    shelf: &mut H,
    piece: &Piece<'_>,
    from: u64,
    size: u64,
    buffer: &mut [u8],
) -> Result<Hash16, ReadFault>
    requires within { from + size ≤ slice_index (H.state shelf.old).lengths piece.now.file }
    requires buffer { 0 < length buffer.old }
    requires piece { IsPieceOf (H.state shelf.old) piece.now }

    ensures digest { (files : List (List ℕ)) → ReadsAs (H.state shelf.new) files
        → IfOk result (λ hash. hash.0 ≡ md5 (bytes_at files piece.now.file from size)) }
    ensures leaves { ReadsAtMost (λ _. size)
        piece.now.file (H.state shelf.old) (H.state shelf.new) result }
    ensures rest { piece.now.base ≤ from
        → ReadsAtMost (λ _. from + size - (piece.now.base + length piece.now.bytes.now))
        piece.now.file (H.state shelf.old) (H.state shelf.new) result }
{
    let front = piece.front_of_part(from, size);
    let held = front.len() as u64;
    let mut hasher = Md5::new_with_prefix(front);
    hash_part(
        shelf,
        piece.file,
        from + held,
        size - held,
        buffer,
        &mut hasher,
    )?;
    Ok(Hash16(hasher.finalize()))
}
