ghost use Rattle.std.specs.Prelude.{◌≡◌, ◌||◌, ◌==◌, ◌<◌, ℕ, List, length, map, slice_index, IfOk, OnOk, IfErr};
ghost use Rattle.std.specs.BTreeSet.{contains};
ghost use Rattle.std.specs.Ordering.{nat_cmp};
ghost use Rattle.parshelf.specs.Reads.{ReadsOnly, HandsAtMost};
ghost use Rattle.parshelf.specs.Shelf.{ReadsAs, file_of};
ghost use Rattle.parreport.specs.Contents.{ReadsCandidates, checked_length_of};
ghost use Rattle.parreport.specs.Outcomes.{FaultTells};
ghost use Rattle.parreport.specs.States.{has_length, checked_of};

use crate::faults::RunFault;
use parfield::Hash16;
use parset::SetFile;
use parshelf::{Shelf, digest_of};
use std::alloc::{AllocError, Global};
use std::collections::BTreeSet;

/// The length and the MD5 of a file, by which contents are compared.
#[derive(Clone, Copy, PartialEq, Eq, PartialOrd, Ord)]
pub struct LengthAndMd5 {
    /// The length in bytes.
    pub length: u64,
    /// The MD5 of the whole file.
    pub whole: Hash16,
}

/// Returns, for each scanned file in order, its length and its MD5 if some file of the set has that
/// length. Nothing is read of any other file.
pub fn contents<Q: Shelf>(
    alloc: Global,
    files: &[SetFile],
    shelf: &mut Q,
) -> Result<Vec<Option<LengthAndMd5>>, RunFault>
    ensures contents { (scanned : List (List ℕ)) → ReadsAs (Q.state shelf.new) scanned
        → IfOk result (λ contents. contents.items ≡ map (checked_of files.now) scanned) }
    ensures bytes { ReadsCandidates files.now (Q.state shelf.old) (Q.state shelf.new) }
    ensures ok { OnOk result (ReadsOnly (Q.state shelf.old) (Q.state shelf.new)) }
    ensures fault { IfErr result (FaultTells (Q.state shelf.old) (Q.state shelf.new)) }
{
    let lengths = lengths_of(alloc, files)?;
    let mut contents = Vec::new(alloc);
    for file in 0..shelf.count() {
        contents
            .push(content_at(files, &lengths, shelf, file)?)
            .map_err(AllocError::from)?;
    }
    Ok(contents)
}

// Returns the lengths of the files.
fn lengths_of(alloc: Global, files: &[SetFile]) -> Result<BTreeSet<u64>, AllocError>
    ensures { IfOk result (λ lengths. (n : ℕ)
        → contains nat_cmp lengths n ≡ has_length files.now n) }
{
    let mut lengths = BTreeSet::new(alloc);
    for file in files {
        add_length(&mut lengths, file.length)?;
    }
    Ok(lengths)
}

// Adds a length.
fn add_length(lengths: &mut BTreeSet<u64>, length: u64) -> Result<(), AllocError>
    ensures { OnOk result ((n : ℕ) → contains nat_cmp lengths.new n
        ≡ (length == n || contains nat_cmp lengths.old n)) }
{
    lengths.insert(length)?;
    Ok(())
}

// Returns the length and the MD5 of a file, if its length is one of those of the files of the set.
// If it were inlined, the array of a digest would stay on the stack beside the window of a survey.
#[inline(never)]
fn content_at<Q: Shelf>(
    files: &[SetFile],
    lengths: &BTreeSet<u64>,
    shelf: &mut Q,
    file: u32,
) -> Result<Option<LengthAndMd5>, RunFault>
    requires lengths { (n : ℕ) → contains nat_cmp lengths.now n ≡ has_length files.now n }
    requires file { file < length (Q.state shelf.old).lengths }
    ensures content { (scanned : List (List ℕ)) → ReadsAs (Q.state shelf.new) scanned
        → IfOk result (λ content. content ≡ checked_of files.now (file_of scanned file)) }
    ensures bytes { HandsAtMost (Q.state shelf.old) (Q.state shelf.new) file
        (checked_length_of files.now (slice_index (Q.state shelf.old).lengths file)) }
    ensures ok { OnOk result (ReadsOnly (Q.state shelf.old) (Q.state shelf.new)) }
    ensures fault { IfErr result (FaultTells (Q.state shelf.old) (Q.state shelf.new)) }
{
    let _ = files;
    let length = shelf.length(file);
    if !lengths.contains(&length) {
        return Ok(None);
    }
    match digest_of(shelf, file) {
        Ok(whole) => Ok(Some(LengthAndMd5 { length, whole })),
        Err(fault) => Err(RunFault::Read {
            packet: false,
            file,
            fault,
        }),
    }
}
