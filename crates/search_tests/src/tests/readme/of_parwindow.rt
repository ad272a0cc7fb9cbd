use crate::tests::fixtures::{index_of, is, must};
use parwindow::{Index, Window};
use std::alloc::{AllocError, Global};

// The number of the first slice with these bytes as its content, padding included.
fn slice_with(alloc: Global, index: &Index, bytes: &[u8]) -> Result<Option<u32>, AllocError> {
    let mut window = Window::new(alloc, index.size() as usize)?;
    for byte in bytes {
        let _ = window.push(*byte);
    }
    Ok(index.next_match(window.crc(), window.digest(), 0))
}

#[test]
fn the_readme_of_parwindow_finds_the_first_slice(rt: HostRuntime) {
    let index = must(&rt, index_of(rt.alloc(), "abcdabcdij"));
    for (bytes, wanted) in [
        ("abcd", Some(0)),
        ("ij\0\0", Some(2)),
        ("ij", None),
        ("XXabcd", Some(0)),
        ("abce", None),
    ] {
        let found = must(&rt, slice_with(rt.alloc(), &index, bytes.as_bytes()));
        is(&rt, &found, &wanted);
    }
    drop(index);
}
