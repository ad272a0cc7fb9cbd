use crate::tests::{is, must};
use parfixtures::{WORKED, shelf_of};
use parshelf::MemShelf;
use std::alloc::{AllocError, Global};

// The worked packet file in memory. Reads give at most 64 bytes, and the second read fails.
fn worked_file(alloc: Global) -> Result<MemShelf, AllocError> {
    shelf_of(alloc, &[&WORKED], 64, &[2])
}

#[test]
fn the_readme_of_parfixtures_reads_the_worked_file(rt: HostRuntime) {
    use parshelf::{Failed, Shelf};
    let mut shelf = must(&rt, worked_file(rt.alloc()));
    assert!(rt; shelf.count() == 1);
    let mut buffer = [0; 100];
    is(&rt, &1, &shelf.read_at(0, 0, &mut buffer), &Ok(64));
    is(&rt, &2, &shelf.read_at(0, 64, &mut buffer), &Err(Failed));
    is(&rt, &3, &buffer.get(..64), &WORKED.get(..64));
}
