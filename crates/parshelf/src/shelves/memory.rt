ghost use Rattle.std.specs.Prelude.{◌≡◌, ◌+◌, ◌-◌, ◌<◌, ◌≤◌, ◌^◌, ◌↔◌, min, sum, length, take, drop, map, slice_index, All, Contains, IsErr, IfOk, OnErr, vec_len};
ghost use Rattle.parshelf.specs.Shelf.{IsReadingOf};

use crate::shelves::shelf::Shelf;
use crate::sinks::Failed;
use parfield::{Counts, Readings};

/// Files in memory, some of whose reads fail.
#[derive(Drop)]
pub struct MemShelf {
    files: Vec<Vec<u8>>,
    piece: usize,
    failing: Vec<u64>,
    calls: u64,
    handed: u64,
    readings: Readings,
    failures_by_file: Counts,
    early_ends_by_file: Counts,
    handed_by_file: Counts,
    ghost few: { length files.items < 2 ^ 32 },
    ghost short: { All (λ file. length file.items < 2 ^ 63) files.items },
    ghost has_piece: { 0 < piece },
    ghost failures_each: { length failures_by_file.counts ≡ length files.items },
    ghost early_ends_each: { length early_ends_by_file.counts ≡ length files.items },
    ghost handed_each: { length handed_by_file.counts ≡ length files.items },
    ghost told: { All (IsReadingOf (map (λ file. file.items) files.items)) readings.readings },
    ghost handed_total: { handed ≡ min (sum handed_by_file.counts) (2 ^ 64 - 1) },
}

impl MemShelf {
    ghost use Rattle.parshelf.specs.Memory.{unread_files_of, shelf_state_of, read_piece, failing_of, read_number_of};

    /// Makes files in memory that are read at most `piece` bytes at a time. `failing` has the
    /// numbers of the reads that fail; reads are numbered from 1, over all files.
    #[tactic(auto, using(crate::proofs::MemoryLaws::maps))]
    pub fn new(files: Vec<Vec<u8>>, piece: usize, failing: Vec<u64>) -> MemShelf
        requires few { vec_len files < 2 ^ 32 }
        requires short { All (λ file. length file.items < 2 ^ 63) files.items }
        requires piece { 0 < piece }

        ensures state { shelf_state_of result ≡ unread_files_of (map (λ file. file.items) files.items) }
        ensures piece { read_piece result ≡ piece }
        ensures failing { failing_of result ≡ failing.items }
        ensures number { read_number_of result ≡ 0 }
    {
        let count = files.len();
        MemShelf {
            files,
            piece,
            failing,
            calls: 0,
            handed: 0,
            readings: Readings::new(),
            failures_by_file: Counts::new(count),
            early_ends_by_file: Counts::new(count),
            handed_by_file: Counts::new(count),
        }
    }

    /// Returns how many bytes were read of all files, at most the greatest `u64`.
    pub fn handed(&self) -> u64
        ensures { result ≡ min (sum (shelf_state_of self.now).handed) (2 ^ 64 - 1) }
    {
        self.handed
    }
}

impl Shelf for MemShelf {
    ghost use Rattle.parshelf.specs.Shelf.{after_read, after_failure};
    ghost use Rattle.parshelf.specs.Memory.{shelf_state_of, read_piece, failing_of, read_number_of, shelf_state_of-IsShelf};

    ghost state = { shelf_state_of };

    fn count(&self) -> u32 {
        self.files.len() as u32
    }

    fn length(&self, file: u32) -> u64 {
        self.files[file as usize].len() as u64
    }

    #[tactic(auto, using(parfield::specs::Added::added, crate::proofs::MemoryLaws::maps))]
    fn read_at(&mut self, file: u32, offset: u64, buf: &mut [u8]) -> Result<usize, Failed>
        requires { file < length (shelf_state_of self.old).lengths }

        // The clauses of every list of read-only files.
        ensures ok { IfOk result (λ n. shelf_state_of self.new
            ≡ after_read (shelf_state_of self.old) file offset (length buf.old) (take n buf.new)) }
        ensures failed { OnErr result
            (shelf_state_of self.new ≡ after_failure (shelf_state_of self.old) file) }

        // Which reads fail, and how many bytes the others return.
        ensures number { read_number_of self.new ≡ min (read_number_of self.old + 1) (2 ^ 64 - 1) }
        ensures failing { IsErr result ↔ Contains (failing_of self.old) (read_number_of self.new) }
        ensures piece { IfOk result (λ n. n ≡ min (min (read_piece self.old) (length buf.old))
            (slice_index (shelf_state_of self.old).lengths file - offset)) }
        ensures same_piece { read_piece self.new ≡ read_piece self.old }
        ensures same_failing { failing_of self.new ≡ failing_of self.old }
    {
        self.calls = self.calls.saturating_add(1);
        if self.failing.contains(&self.calls) {
            self.failures_by_file.add_at(file, 1);
            return Err(Failed);
        }
        let bytes = self.files[file as usize].as_slice();
        let size = copy_piece(bytes, offset, self.piece, buf);
        self.readings.add(file, offset, buf.len(), &buf[..size]);
        self.handed_by_file.add_at(file, size as u64);
        self.handed = self.handed.saturating_add(size as u64);
        Ok(size)
    }

    ghost well_formed = { shelf_state_of-IsShelf };
}

// Copies the bytes from an offset on, at most `piece` of them, to the front of `buf`, and
// returns their number.
fn copy_piece(bytes: &[u8], offset: u64, piece: usize, buf: &mut [u8]) -> usize
    ensures size { result ≡ min (min piece (length buf.old)) (length bytes.now - offset) }
    ensures bytes { take result buf.new ≡ take result (drop offset bytes.now) }
{
    if offset >= bytes.len() as u64 {
        return 0;
    }
    let rest = &bytes[offset as usize..];
    let size = piece.min(buf.len()).min(rest.len());
    buf[..size].copy_from_slice(&rest[..size]);
    size
}
