ghost use Rattle.std.specs.Prelude.{◌≡◌, ℕ, List, ◌++◌, length, map, string_bytes};
ghost use Rattle.md5.specs.Md5.{Holds};
ghost use Rattle.parshelf.specs.FileList.{listed_file, mark_of_list};

use crate::shelves::shelf::Shelf;
use md5::{Digest, Md5};
use parfield::{Hash16, Text};

/// A thing that has a name.
pub trait Named {
    /// The bytes of the name.
    ghost name: { Self → List ℕ };

    /// Returns the name.
    fn name(&self) -> &str
        ensures { result.now ≡ name self.now };
}

impl Named for Text {
    ghost name = { λ text. text };

    fn name(&self) -> &str {
        self.as_str()
    }
}

impl Named for String {
    ghost name = { string_bytes };

    fn name(&self) -> &str {
        String::as_str(self)
    }
}

/// Computes the fingerprint of a list of files, which identifies it: the MD5 of the name and the
/// length of each file in order, each name after its own length. The files' contents play no part.
pub fn list_mark<H: Shelf, N: Named>(shelf: &H, names: &[N]) -> Hash16
    requires { length names.now ≡ length (H.state shelf.now).lengths }
    ensures { result.0 ≡ mark_of_list (map N.name names.now) (H.state shelf.now).lengths }
{
    let mut hasher = Md5::new();
    for (file, named) in names.iter().enumerate() {
        hash_file(&mut hasher, named.name(), shelf.length(file as u32));
    }
    Hash16(hasher.finalize())
}

// Hashes a file's name and length, as `listed_file` has them.
fn hash_file(hasher: &mut Md5, name: &str, size: u64)
    ensures { (files : List ℕ) → Holds hasher.old files
        → Holds hasher.new (files ++ listed_file (name.now, size)) }
{
    hasher.update(&(name.len() as u64).to_le_bytes());
    hasher.update(name.as_bytes());
    hasher.update(&size.to_le_bytes());
}
