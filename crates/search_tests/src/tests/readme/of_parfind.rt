use crate::tests::fixtures::{files_in, index_of, is, must};
use parfind::{Cursor, Finder, Mode, StartFault, Step};
use parshelf::Shelf;
use parwindow::Index;
use std::alloc::Global;

// Whether any slice has a match in these files.
fn has_match(alloc: Global, index: &Index, shelf: &mut impl Shelf) -> Result<bool, StartFault> {
    let start = Cursor {
        file: 0,
        offset: 0,
        slice: 0,
    };
    let mut finder = Finder::open(alloc, index, shelf, start, Mode::Plain)?;
    match finder.next(index, shelf) {
        Ok(Step::Hit(_)) => Ok(true),
        _ => Ok(false),
    }
}

#[test]
fn the_readme_of_parfind_looks_for_a_match(rt: HostRuntime) {
    let index = must(&rt, index_of(rt.alloc(), "abcdefgh"));
    for (files, wanted) in [("abc,XXefgh", true), ("abc,XXefg", false), ("-", false)] {
        let mut shelf = must(&rt, files_in(rt.alloc(), files, 64, &[]));
        let found = must(&rt, has_match(rt.alloc(), &index, &mut shelf));
        is(&rt, &found, &wanted);
    }
    drop(index);
}
