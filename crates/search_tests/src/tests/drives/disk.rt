// Scripts of calls over a file on disk.
use crate::tests::drives::driven;
use crate::tests::fixtures::{index_of, is, must};
use crate::tests::places::{START, cursor};
use parfind::{Cursor, Mode};
use parshelf::DiskShelf;
use parwindow::Index;
use std::fs::{File, Files};
use std::process::Abort;
use std::{fs, process};

// Searches a file of ten bytes that is cut to five bytes once it is open. Then all ten bytes are
// written again, and the search goes on. The file is removed while it is open.
fn resumes(
    rt: &(impl Abort + AllocGlobal + Files<File = File>),
    path: &str,
    index: &Index,
) -> Cursor {
    must(rt, fs::write(rt, path, b"XXabcdefgh"));
    let mut shelf = must(rt, DiskShelf::open(rt, rt.alloc(), &[path]));
    must(rt, fs::write(rt, path, b"XXabc"));
    let ended = "next ended,reopen reopened,next ended";
    let at = driven(rt, index, &mut shelf, cursor(START), Mode::Plain, ended);
    must(rt, fs::write(rt, path, b"XXabcdefgh"));
    must(rt, fs::remove_file(rt, path));
    let found = "next 0:2:0,reopen reopened,next 0:6:1";
    driven(rt, index, &mut shelf, at, Mode::Plain, found)
}

// Searches a file whose name has this number.
fn goes_on(rt: &(impl Abort + AllocGlobal + Files<File = File>), number: u32) {
    let path = must(rt, format!(in rt.alloc(); "/tmp/parfind_{number}"));
    let index = must(rt, index_of(rt.alloc(), "abcdefgh"));
    let end = resumes(rt, path.as_str(), &index);
    drop(index);
    is(rt, &end, &cursor((0, 6, 2)));
}

// The file has five of its ten bytes during the first search, and all of them when the search goes
// on.
#[test]
fn a_search_goes_on_where_a_shortened_file_ended(rt: HostRuntime) {
    goes_on(&rt, process::id(rt.process()));
}
