ghost use Rattle.std.specs.Prelude.{◌≡◌, ◌-◌, ◌<◌, ◌≤◌, ◌^◌, length, take, slice_index, IfOk, OnErr};
ghost use Rattle.parshelf.specs.Shelf.{ShelfState, IsShelf, after_read, after_failure};

use crate::sinks::Failed;

/// Read-only files, which are read by number; the first has number 0.
pub trait Shelf {
    /// The state: the files' lengths, and the reads and counts so far.
    ghost state: { Self → ShelfState };

    /// Returns the number of files.
    fn count(&self) -> u32
        ensures { result ≡ length (state self.now).lengths };

    /// Returns the length of a file in bytes.
    fn length(&self, file: u32) -> u64
        requires { file < length (state self.now).lengths }
        ensures value { result ≡ slice_index (state self.now).lengths file }
        ensures bound { result < 2 ^ 63 };

    /// Reads a file from an offset on into the front of `buf`, and returns the number of bytes
    /// read. After a failed read `buf` may contain anything.
    fn read_at(&mut self, file: u32, offset: u64, buf: &mut [u8]) -> Result<usize, Failed>
        requires { file < length (state self.old).lengths }

        // The read is noted, and one count of this file changes.
        ensures ok { IfOk result (λ n. state self.new
            ≡ after_read (state self.old) file offset (length buf.old) (take n buf.new)) }
        ensures failed { OnErr result (state self.new ≡ after_failure (state self.old) file) }

        ensures bound { IfOk result (λ n. n ≤ length buf.old) }

        // No byte past the file's noted length is read, even if the file has grown.
        ensures within { IfOk result (λ n. n ≤ slice_index (state self.old).lengths file - offset) };

    /// The facts that hold for all read-only files.
    ghost well_formed: { (shelf : Self) → IsShelf (state shelf) };
}
