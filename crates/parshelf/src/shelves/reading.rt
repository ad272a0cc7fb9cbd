ghost use Rattle.std.specs.Prelude.{◌≡◌, ◌+◌, ◌++◌, ◌<◌, ◌≤◌, List, ℕ, length, slice_index, OnOk, IfOk};
ghost use Rattle.md5.specs.Md5.{md5, Holds};
ghost use Rattle.parshelf.specs.Shelf.{ReadsAs, bytes_at, file_of};
ghost use Rattle.parshelf.specs.Reads.{ReadsPart};

use crate::shelves::shelf::Shelf;
use crate::sinks::Failed;
use md5::{Digest, Md5};
use parfield::Hash16;

/// Why a part of a file could not be read.
#[derive(Clone, Copy, Debug, PartialEq, Eq)]
pub enum ReadFault {
    /// A read failed.
    Failed,
    /// A read gave no byte before the file's length.
    Ended,
}

/// Fills `buf` with a file's bytes from an offset on. The first failed read or early end is returned,
/// and then `buf` may contain anything.
pub fn fill<H: Shelf>(
    shelf: &mut H,
    file: u32,
    offset: u64,
    buf: &mut [u8],
) -> Result<(), ReadFault>
    requires file { file < length (H.state shelf.old).lengths }
    requires within { offset + length buf.old ≤ slice_index (H.state shelf.old).lengths file }
    ensures leaves { ReadsPart file (length buf.old) (H.state shelf.old) (H.state shelf.new) result }
    ensures bytes { (files : List (List ℕ)) → ReadsAs (H.state shelf.new) files →
        OnOk result (buf.new ≡ bytes_at files file offset (length buf.old)) }
{
    let mut done = 0;
    while done < buf.len() {
        match shelf.read_at(file, offset + done as u64, &mut buf[done..]) {
            Ok(0) => return Err(ReadFault::Ended),
            Ok(n) => done += n,
            Err(Failed) => return Err(ReadFault::Failed),
        }
    }
    Ok(())
}

// The number of bytes of a file that are hashed at a time. Larger pieces are no faster, and their array is
// filled with zeros at each call.
const PIECE: usize = 32_768;

/// Returns the MD5 of a whole file.
pub fn digest_of<H: Shelf>(shelf: &mut H, file: u32) -> Result<Hash16, ReadFault>
    requires { file < length (H.state shelf.old).lengths }
    ensures leaves { ReadsPart file (slice_index (H.state shelf.old).lengths file)
        (H.state shelf.old) (H.state shelf.new) result }
    ensures digest { (files : List (List ℕ)) → ReadsAs (H.state shelf.new) files →
        IfOk result (λ hash. hash.0 ≡ md5 (file_of files file)) }
{
    let end = shelf.length(file);
    let mut buffer = [0; PIECE];
    digest_of_part(shelf, file, 0, end, &mut buffer)
}

/// Returns the MD5 of a part of a file, which is read into `buffer` piece by piece.
pub fn digest_of_part<H: Shelf>(
    shelf: &mut H,
    file: u32,
    offset: u64,
    size: u64,
    buffer: &mut [u8],
) -> Result<Hash16, ReadFault>
    requires file { file < length (H.state shelf.old).lengths }
    requires within { offset + size ≤ slice_index (H.state shelf.old).lengths file }
    requires buffer { 0 < length buffer.old }
    ensures leaves { ReadsPart file size (H.state shelf.old) (H.state shelf.new) result }
    ensures digest { (files : List (List ℕ)) → ReadsAs (H.state shelf.new) files →
        IfOk result (λ hash. hash.0 ≡ md5 (bytes_at files file offset size)) }
{
    let mut hasher = Md5::new();
    hash_part(shelf, file, offset, size, buffer, &mut hasher)?;
    Ok(Hash16(hasher.finalize()))
}

/// Hashes a part of a file, after the bytes that the hasher holds. The part is read into `buffer`
/// piece by piece.
/// After a fault the hasher may hold anything.
pub fn hash_part<H: Shelf>(
    shelf: &mut H,
    file: u32,
    offset: u64,
    size: u64,
    buffer: &mut [u8],
    hasher: &mut Md5,
) -> Result<(), ReadFault>
    requires file { file < length (H.state shelf.old).lengths }
    requires within { offset + size ≤ slice_index (H.state shelf.old).lengths file }
    requires buffer { 0 < length buffer.old }
    ensures leaves { ReadsPart file size (H.state shelf.old) (H.state shelf.new) result }
    ensures hashed { (files : List (List ℕ)) → ReadsAs (H.state shelf.new) files
        → (front : List ℕ) → Holds hasher.old front
        → OnOk result (Holds hasher.new (front ++ bytes_at files file offset size)) }
{
    let room = buffer.len() as u64;
    let mut done = 0;
    while done < size {
        let next = (size - done).min(room) as usize;
        let piece = &mut buffer[..next];
        fill(shelf, file, offset + done, piece)?;
        hasher.update(&*piece);
        done += next as u64;
    }
    Ok(())
}
