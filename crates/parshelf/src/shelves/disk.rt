ghost use Rattle.std.specs.Prelude.{◌≡◌, ◌<◌, ◌≤◌, ◌^◌, length, map, All, IfOk, IfErr, IfSome};

use crate::shelves::shelf::Shelf;
use crate::sinks::Failed;
use parfield::{Counts, Readings, Transcript};
use std::alloc::{AllocError, Global};
use std::convert::AsStr;
use std::fs::{File, Files};
use std::os::unix::fs::FileExt;
use std::{fs, io};

/// Regular files on disk, with the lengths that they had when they were opened. If a file grows,
/// nothing past its noted length is read.
#[derive(Drop)]
pub struct DiskShelf {
    files: Vec<Opened>,
    readings: Readings,
    failures_by_file: Counts,
    early_ends_by_file: Counts,
    handed_by_file: Counts,
    ghost few: { length files.items < 2 ^ 32 },
    ghost short: { All (λ file. file.length < 2 ^ 63) files.items },
    ghost failures_each: { length failures_by_file.counts ≡ length files.items },
    ghost early_ends_each: { length early_ends_by_file.counts ≡ length files.items },
    ghost handed_each: { length handed_by_file.counts ≡ length files.items },
}

// An open file, and the path that it was opened at.
#[derive(Drop)]
struct Opened {
    path: Transcript,
    file: File,
    length: u64,
}

/// Why the files could not all be opened.
#[derive(Clone, Copy, Debug, PartialEq, Eq)]
pub enum OpenFault {
    /// The path at this index is the first whose file can't be opened, is not regular or is longer
    /// than 2^63 - 1 bytes.
    CannotOpen(usize),
    /// Memory was refused.
    Memory,
}

impl From<AllocError> for OpenFault {
    ghost use Rattle.parshelf.specs.declared.shelves.disk.OpenFault.TheVariants.{Memory};

    ghost from_gives = { λ _ e. e ≡ Memory };

    fn from(_e: AllocError) -> OpenFault {
        OpenFault::Memory
    }
}

impl DiskShelf {
    ghost use Rattle.parshelf.specs.Disk.{disk_state_of, open_file_limit, unread_of, NamesPath};

    /// Opens the files at these paths, in order. Fails at a folder, a pipe or a device.
    pub fn open<R: Files<File = File>, S: AsStr>(
        rt: &R,
        alloc: Global,
        paths: &[S],
    ) -> Result<DiskShelf, OpenFault>
        requires { length paths.now ≤ open_file_limit }

        ensures count { IfOk result (λ shelf.
            length (disk_state_of shelf).lengths ≡ length paths.now) }
        ensures paths { IfOk result (λ shelf. (disk_state_of shelf).paths ≡ map S.text paths.now) }
        ensures state { IfOk result (λ shelf.
            disk_state_of shelf ≡ unread_of (disk_state_of shelf).paths (disk_state_of shelf).lengths) }
        ensures fault { IfErr result (NamesPath (length paths.now)) }
    {
        let mut files = Vec::new(alloc);
        for (index, path) in paths.iter().enumerate() {
            match open_regular(rt, path.as_str()) {
                Ok(Some(opened)) => files.push(opened).map_err(AllocError::from)?,
                Err(error) if error.kind() == io::ErrorKind::OutOfMemory => {
                    return Err(OpenFault::Memory);
                }
                _ => return Err(OpenFault::CannotOpen(index)),
            }
        }
        let count = files.len();
        Ok(DiskShelf {
            files,
            readings: Readings::new(),
            failures_by_file: Counts::new(count),
            early_ends_by_file: Counts::new(count),
            handed_by_file: Counts::new(count),
        })
    }
}

// Opens the regular file at a path; `None` if what is there isn't a regular file or is too long.
fn open_regular<R: Files<File = File>>(rt: &R, path: &str) -> io::Result<Option<Opened>>
    ensures path { IfOk result (λ found. IfSome found (λ opened. opened.path.bytes ≡ path.now)) }
    ensures short { IfOk result (λ found. IfSome found (λ opened. opened.length < 2 ^ 63)) }
{
    // Opening a pipe could wait for its writer.
    if !fs::metadata(rt, path)?.is_file() {
        return Ok(None);
    }
    let file = File::open(rt, path)?;
    let mut opened_at = Transcript::new();
    opened_at.append(path.as_bytes());
    let found = file.metadata()?;
    let length = found.len();
    if !found.is_file() || length > i64::MAX as u64 {
        return Ok(None);
    }
    Ok(Some(Opened {
        path: opened_at,
        file,
        length,
    }))
}

impl Shelf for DiskShelf {
    ghost use Rattle.parshelf.specs.Disk.{disk_state_of, disk_state_of-IsShelf};

    ghost state = { disk_state_of };

    fn count(&self) -> u32 {
        self.files.len() as u32
    }

    fn length(&self, file: u32) -> u64 {
        self.files[file as usize].length
    }

    #[tactic(auto, using(parfield::specs::Added::added))]
    fn read_at(&mut self, file: u32, offset: u64, buf: &mut [u8]) -> Result<usize, Failed> {
        // A file may have grown since it was opened.
        let left = self.length(file).saturating_sub(offset);
        let room = left.min(buf.len() as u64) as usize;
        let opened = &self.files[file as usize];
        match opened.file.read_at(&mut buf[..room], offset) {
            Ok(size) => {
                self.readings.add(file, offset, buf.len(), &buf[..size]);
                if size == 0 && !buf.is_empty() && offset < self.length(file) {
                    self.early_ends_by_file.add_at(file, 1);
                } else {
                    self.handed_by_file.add_at(file, size as u64);
                }
                Ok(size)
            }
            Err(_) => {
                self.failures_by_file.add_at(file, 1);
                Err(Failed)
            }
        }
    }

    ghost well_formed = { disk_state_of-IsShelf };
}
