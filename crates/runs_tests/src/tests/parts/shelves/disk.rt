ghost use Rattle.std.specs.Prelude.{◌≤◌, length};

use super::*;
use std::fs::{File, Files};
use std::os::unix::fs::FileExt;
use std::{fs, io, process};

// Writes a file, and returns its path. The path has the number of a process and a letter.
fn written(
    rt: &(impl Abort + AllocGlobal + Files),
    own: u32,
    letter: char,
    bytes: &[u8],
) -> String {
    let path = must(rt, format!(in rt.alloc(); "/tmp/parshelf_{own}{letter}"));
    must(rt, fs::write(rt, path.as_str(), bytes));
    path
}

// Opens the files at these paths, and removes them once they are open or refused.
fn opened(
    rt: &(impl Abort + AllocGlobal + Files<File = File>),
    paths: &[&str],
) -> Result<DiskShelf, OpenFault>
    requires { length paths.now ≤ 65535 }
{
    let opened = DiskShelf::open(rt, rt.alloc(), paths);
    for path in paths {
        must(rt, fs::remove_file(rt, *path));
    }
    opened
}

// Returns a shelf of three files: of three letters, of no bytes and of 100,000 bytes.
fn three_files(
    rt: &(impl Abort + AllocGlobal + Files<File = File>),
    own: u32,
) -> Result<DiskShelf, OpenFault> {
    let letters = written(rt, own, 'l', b"abc");
    let empty = written(rt, own, 'e', b"");
    let long = written(rt, own, 'x', &[b'x'; 100_000]);
    opened(rt, &[letters.as_str(), empty.as_str(), long.as_str()])
}

// The MD5 of the third file, as `md5sum` computes it.
const OF_LONG: Hash16 = Hash16(
    *b"\xd5\x81\x6f\x35\x91\x6d\x1d\x94\x82\xfb\x0f\x1e\xc2\x01\x10\x1d",
);

// The lengths and the MD5s of these files.
static OF_THREE: [(u32, u64, Hash16); 3] = [
    (0, 3, OF_ABC),
    (1, 0, OF_NOTHING),
    (2, 100_000, OF_LONG),
];

#[test]
fn files_on_disk_are_read_whole(rt: HostRuntime) -> Result<(), OpenFault> {
    let mut shelf = three_files(&rt, process::id(rt.process()))?;
    for (file, length, digest) in &OF_THREE {
        is(
            &rt,
            &digested(&rt, &mut shelf, *file),
            &(*length, Ok(*digest)),
        );
    }
    Ok(())
}

#[test]
fn a_file_that_is_not_there_cannot_be_opened(rt: HostRuntime) {
    let fault = DiskShelf::open(&rt, rt.alloc(), &["/tmp/parv_has_no_such_file"]).err();
    is(&rt, &fault, &Some(OpenFault::CannotOpen(0)));
}

// Reads from two files of the same length: the file, the offset, and the two bytes that are read.
static EACH: [(u32, u64, [u8; 2]); 5] = [
    (0, 1, *b"bc"),
    (1, 1, *b"yz"),
    (1, 0, *b"xy"),
    (0, 2, *b"cd"),
    (1, 2, *b"zw"),
];

#[test]
fn files_on_disk_of_one_length_are_told_apart(rt: HostRuntime) {
    let own = process::id(rt.process());
    let first = written(&rt, own, 'a', b"abcd");
    let second = written(&rt, own, 'b', b"xyzw");
    let mut shelf = must(&rt, opened(&rt, &[first.as_str(), second.as_str()]));
    for (file, offset, bytes) in &EACH {
        let mut buf = *b"??";
        is(
            &rt,
            &read(&rt, &mut shelf, *file, *offset, &mut buf),
            &Ok(2),
        );
        is(&rt, &buf, bytes);
    }
}

// The length of a file of 4 TiB and five bytes. Nearly all of it is a hole, which takes no space on
// the disk.
const LONG: u64 = (1 << 42) + 5;

// Writes letters around 4 GiB into a file, and lengthens the file.
fn spread(file: &File) -> io::Result<()> {
    file.write_all_at(b"abcdefgh", (1 << 32) - 4)?;
    file.set_len(LONG)
}

// Returns a shelf of a file of this length with some letters around 4 GiB.
fn sparse_file(rt: &(impl Abort + AllocGlobal + Files<File = File>), own: u32) -> DiskShelf {
    let path = written(rt, own, 's', b"first");
    let file = must(rt, File::options().write(true).open(rt, path.as_str()));
    must(rt, spread(&file));
    must(rt, opened(rt, &[path.as_str()]))
}

// Reads of that file: the offset, the result, and then the content of a buffer of four bytes. After
// three of the offsets the rest of the file is a power of two. The system refuses the last offset,
// which no file can have.
static SPARSE: [(u64, Result<usize, Failed>, [u8; 4]); 10] = [
    (0, Ok(4), *b"firs"),
    ((1 << 32) - 4, Ok(4), *b"abcd"),
    ((1 << 32) - 2, Ok(4), *b"cdef"),
    (1 << 32, Ok(4), *b"efgh"),
    (LONG - (1 << 42), Ok(4), *b"\0\0\0\0"),
    (LONG - (1 << 40), Ok(4), *b"\0\0\0\0"),
    (LONG - (1 << 32), Ok(4), *b"\0\0\0\0"),
    (LONG - 4, Ok(4), *b"\0\0\0\0"),
    (LONG, Ok(0), *b"????"),
    (1 << 63, Err(Failed), *b"????"),
];

// Checks the result of a read, and the content of the buffer after it.
fn gives(
    rt: &impl Abort,
    shelf: &mut DiskShelf,
    offset: u64,
    answer: Result<usize, Failed>,
    bytes: [u8; 4],
) {
    let mut buf = *b"????";
    is(rt, &read(rt, shelf, 0, offset, &mut buf), &answer);
    is(rt, &buf, &bytes);
}

#[test]
fn a_file_above_4_gib_is_read_at_each_offset(rt: HostRuntime) {
    let mut shelf = sparse_file(&rt, process::id(rt.process()));
    for row in &SPARSE {
        gives(&rt, &mut shelf, row.0, row.1, row.2);
    }
}

// Reads of a file of three bytes that has grown to six since it was opened: the offset, the result,
// and then the content of a buffer of four bytes.
static GROWN: [(u64, Result<usize, Failed>, [u8; 4]); 5] = [
    (0, Ok(3), *b"abc?"),
    (1, Ok(2), *b"bc??"),
    (2, Ok(1), *b"c???"),
    (3, Ok(0), *b"????"),
    (5, Ok(0), *b"????"),
];

// Returns a shelf of a file with the letters `abc`, to which `def` is added once it is open.
fn grown_file(rt: &(impl Abort + AllocGlobal + Files<File = File>), own: u32) -> DiskShelf {
    let path = written(rt, own, 'g', b"abc");
    let file = must(rt, File::options().write(true).open(rt, path.as_str()));
    let shelf = must(rt, opened(rt, &[path.as_str()]));
    must(rt, file.write_all_at(b"def", 3));
    is(rt, &must(rt, file.metadata()).len(), &6);
    shelf
}

#[test]
fn a_file_that_has_grown_is_read_up_to_its_noted_length(rt: HostRuntime) {
    let mut shelf = grown_file(&rt, process::id(rt.process()));
    for row in &GROWN {
        gives(&rt, &mut shelf, row.0, row.1, row.2);
    }
    is(&rt, &digested(&rt, &mut shelf, 0), &(3, Ok(OF_ABC)));
}
