use super::*;
use parfield::Text;
use parfixtures::shelf_of;

// The names of files, their contents, of which `''` is none, and the fingerprint of the list, as
// Python's `hashlib` computes it.
static LISTS: [(&str, &str, Hash16); 7] = [
    (
        "",
        "",
        Hash16(*b"\xd4\x1d\x8c\xd9\x8f\x00\xb2\x04\xe9\x80\x09\x98\xec\xf8\x42\x7e"),
    ),
    (
        "x.bin",
        "XXabcdefgh",
        Hash16(*b"\x53\xe1\x26\x07\xa1\xd1\x1c\xab\x6b\x92\x71\x47\x96\x9f\xc3\x8c"),
    ),
    (
        "x.bin y.bin",
        "XXabcdefgh yyyy",
        Hash16(*b"\xee\x8c\x42\x3d\xae\xec\xb6\xf4\xea\x42\x3c\x63\xdd\x32\x78\xec"),
    ),
    (
        "y.bin x.bin",
        "XXabcdefgh yyyy",
        Hash16(*b"\x98\xac\x0e\xfc\x77\xcd\x52\x9d\x42\xad\x92\xf2\x26\x89\x16\x9e"),
    ),
    (
        "ab c",
        "'' ''",
        Hash16(*b"\x7b\x5b\x4a\xad\xc8\x70\xb1\xc0\x0d\x41\x88\xe3\x54\x7a\xb4\x19"),
    ),
    (
        "a bc",
        "'' ''",
        Hash16(*b"\x65\x60\xb7\x90\xd1\xab\x16\x5a\xcb\xdd\xe7\xb1\x94\x0c\xef\xb2"),
    ),
    (
        "é",
        "x",
        Hash16(*b"\x31\xd8\x0a\x7a\xb3\x07\xea\x0c\xe6\x50\x40\x43\x3c\x04\x50\xfc"),
    ),
];

// Returns the names of a row.
fn names_of(rt: &(impl Abort + AllocGlobal), words: &str) -> Vec<Text> {
    let mut names = Vec::new(rt.alloc());
    for word in words.split_whitespace() {
        let name = must(rt, String::from_str(rt.alloc(), word));
        must(rt, names.push(Text::from_string(name)));
    }
    names
}

// Returns the files of a row.
fn files_of(rt: &(impl Abort + AllocGlobal), words: &str) -> MemShelf {
    let mut files = Vec::new(rt.alloc());
    for word in words.split_whitespace() {
        let bytes: &[u8] = if word == "''" { b"" } else { word.as_bytes() };
        must(rt, files.push(bytes));
    }
    must(rt, shelf_of(rt.alloc(), &files, 64, &[]))
}

// Checks the fingerprint of files with these names.
fn is_mark(rt: &(impl Abort + AllocGlobal), names: &str, files: &str, mark: &Hash16) {
    let shelf = files_of(rt, files);
    let names = names_of(rt, names);
    assert!(rt; shelf.count() as usize == names.len());
    is(rt, &list_mark(&shelf, &names), mark);
}

#[test]
fn the_mark_of_a_list_is_that_of_its_names_and_lengths(rt: HostRuntime) {
    for (names, files, mark) in &LISTS {
        is_mark(&rt, names, files, mark);
    }
}
