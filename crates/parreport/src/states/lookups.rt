ghost use Rattle.std.specs.Prelude.{◌≡◌, ◌&&◌, ◌||◌, position, if◌then◌else◌, IfOk, OnOk};
ghost use Rattle.std.specs.Option.{option_or};
ghost use Rattle.std.specs.List.{list_any, zip};
ghost use Rattle.parset.specs.declared.recovery_set.SetFile.{SetFile};
ghost use Rattle.parreport.specs.States.{shows_content_of, shows_both, is_name_of};
ghost use Rattle.parreport.specs.Lookups.{length_and_md5_of, first_at, has_name_of, has_both_of};

use crate::states::contents::LengthAndMd5;
use parplan::Scanned;
use parset::SetFile;
use std::alloc::{AllocError, Global};
use std::collections::{BTreeMap, BTreeSet};

/// The maps and sets in which scanned files are looked up, so that a file of the set is not
/// compared with each of them.
#[derive(Drop)]
pub struct Lookups<'a> {
    /// The number of the first scanned file with each length and MD5.
    pub firsts: BTreeMap<LengthAndMd5, usize>,
    /// The names of the scanned files, borrowed from them.
    pub names: BTreeSet<&'a [u8]>,
    /// The lengths and MD5s of the scanned files, each with the name of its file.
    pub both: BTreeSet<(LengthAndMd5, &'a [u8])>,
}

impl<'a> Lookups<'a> {
    /// Makes the lookups of scanned files with these names and contents.
    pub fn new(
        alloc: Global,
        files: &'a [Scanned],
        contents: &[Option<LengthAndMd5>],
    ) -> Result<Lookups<'a>, AllocError>
        ensures firsts { IfOk result (λ lookups. (file : SetFile)
            → first_at lookups.firsts file ≡ position (shows_content_of file) contents.now) }
        ensures names { IfOk result (λ lookups. (file : SetFile) → has_name_of lookups.names file
            ≡ list_any (λ one. is_name_of file one.name) files.now) }
        ensures both { IfOk result (λ lookups. (file : SetFile) → has_both_of lookups.both file
            ≡ list_any (shows_both file) (zip files.now contents.now)) }
    {
        Ok(Lookups {
            firsts: firsts_of(alloc, contents)?,
            names: names_of(alloc, files)?,
            both: both_of(alloc, files, contents)?,
        })
    }

    /// Returns the number of the first scanned file with the content of a file of the set.
    pub fn first(&self, file: &SetFile) -> Option<usize>
        ensures { result ≡ first_at self.now.firsts file.now }
    {
        self.firsts.get(&length_and_md5_of(file)).copied()
    }

    /// Whether a scanned file has the name of a file of the set.
    pub fn has_name(&self, file: &SetFile) -> bool
        ensures { result ≡ has_name_of self.now.names file.now }
    {
        self.names.contains(file.name.as_slice())
    }

    /// Whether a scanned file has the content and the name of a file of the set. The file is
    /// borrowed as long as the names here, since its own name is in the key that is looked up.
    pub fn has_both(&self, file: &'a SetFile) -> bool
        ensures { result ≡ has_both_of self.now.both file.now }
    {
        self.both
            .contains(&(length_and_md5_of(file), file.name.as_slice()))
    }
}

// Returns the length and the MD5 of a file of the set.
fn length_and_md5_of(file: &SetFile) -> LengthAndMd5
    ensures { result ≡ length_and_md5_of file.now }
{
    LengthAndMd5 {
        length: file.length,
        whole: file.whole,
    }
}

// Returns the number of the first file with each content.
fn firsts_of(
    alloc: Global,
    contents: &[Option<LengthAndMd5>],
) -> Result<BTreeMap<LengthAndMd5, usize>, AllocError>
    ensures { IfOk result (λ firsts. (file : SetFile)
        → first_at firsts file ≡ position (shows_content_of file) contents.now) }
{
    let mut firsts = BTreeMap::new(alloc);
    for (number, content) in contents.iter().enumerate() {
        add_first(&mut firsts, *content, number)?;
    }
    Ok(firsts)
}

// Adds the number of a file for its content, unless an earlier file has that content.
fn add_first(
    firsts: &mut BTreeMap<LengthAndMd5, usize>,
    content: Option<LengthAndMd5>,
    number: usize,
) -> Result<(), AllocError>
    ensures { OnOk result ((file : SetFile) → first_at firsts.new file
        ≡ option_or (first_at firsts.old file)
        (if shows_content_of file content then Some number else None)) }
{
    if let Some(content) = content {
        firsts.entry(content)?.or_insert(number);
    }
    Ok(())
}

// Returns the names of the files.
fn names_of<'a>(alloc: Global, files: &'a [Scanned]) -> Result<BTreeSet<&'a [u8]>, AllocError>
    ensures { IfOk result (λ names. (file : SetFile)
        → has_name_of names file ≡ list_any (λ one. is_name_of file one.name) files.now) }
{
    let mut names = BTreeSet::new(alloc);
    for scanned in files {
        add_name(&mut names, scanned.name.as_str().as_bytes())?;
    }
    Ok(names)
}

// Adds a name.
fn add_name<'a>(names: &mut BTreeSet<&'a [u8]>, name: &'a [u8]) -> Result<(), AllocError>
    ensures { OnOk result ((file : SetFile) → has_name_of names.new file
        ≡ (has_name_of names.old file || is_name_of file name.now)) }
{
    names.insert(name)?;
    Ok(())
}

// Returns the contents of the files, each with its file's name.
fn both_of<'a>(
    alloc: Global,
    files: &'a [Scanned],
    contents: &[Option<LengthAndMd5>],
) -> Result<BTreeSet<(LengthAndMd5, &'a [u8])>, AllocError>
    ensures { IfOk result (λ both. (file : SetFile)
        → has_both_of both file ≡ list_any (shows_both file) (zip files.now contents.now)) }
{
    let mut both = BTreeSet::new(alloc);
    for (scanned, content) in files.iter().zip(contents) {
        add_both(&mut both, *content, scanned.name.as_str().as_bytes())?;
    }
    Ok(both)
}

// Adds a content with its file's name.
fn add_both<'a>(
    both: &mut BTreeSet<(LengthAndMd5, &'a [u8])>,
    content: Option<LengthAndMd5>,
    name: &'a [u8],
) -> Result<(), AllocError>
    ensures { OnOk result ((file : SetFile) → has_both_of both.new file
        ≡ (has_both_of both.old file
        || (shows_content_of file content && is_name_of file name.now))) }
{
    if let Some(content) = content {
        both.insert((content, name))?;
    }
    Ok(())
}
