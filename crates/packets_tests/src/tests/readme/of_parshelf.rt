use crate::tests::{is, must};
use parfield::Hash16;
use parfixtures::{file_of, shelf_of};
use parshelf::{ReadFault, Shelf, digest_of};

// The MD5 of the first file, if there is one.
fn first_digest(shelf: &mut impl Shelf) -> Result<Option<Hash16>, ReadFault> {
    if shelf.count() == 0 {
        return Ok(None);
    }
    Ok(Some(digest_of(shelf, 0)?))
}

#[test]
fn the_readme_of_parshelf_hashes_the_first_file(rt: HostRuntime) {
    let mut none = must(&rt, shelf_of(rt.alloc(), &[], 64, &[]));
    is(&rt, &"none", &first_digest(&mut none), &Ok(None));
    // The MD5 of `abcdefgh`, as Python's `hashlib` has it.
    let digest = Hash16(*b"\xe8\xdc@\x81\xb144\xb4Q\x89\xa7 \xb7{h\x18");
    let mut one = must(&rt, file_of(rt.alloc(), b"abcdefgh", 3, &[2]));
    is(
        &rt,
        &"failed",
        &first_digest(&mut one),
        &Err(ReadFault::Failed),
    );
    is(&rt, &"one", &first_digest(&mut one), &Ok(Some(digest)));
}
