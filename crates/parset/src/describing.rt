ghost use Rattle.std.specs.Prelude.{◌≡◌, [], ◌∷◌, ◌++◌, map, IfOk, option_map};
ghost use Rattle.parset.specs.RecoverySet.{AnswersSet, descriptions_of, names_checked};
ghost use Rattle.parset.specs.SharedNames.{repeated_name};

use crate::bodies::{Desc, copied};
use crate::choosing::descriptions;
use crate::recovery_set::SetFault;
use parfield::{Hash16, Sequence};
use parsalvage::Kept;
use std::alloc::{AllocError, Global};
use std::collections::BTreeSet;

/// Returns the descriptions of the files that have these IDs, in order, or the
/// first ID that has none.
pub fn described(alloc: Global, own: &[&Kept], ids: &[Hash16]) -> Result<Sequence<Desc>, SetFault>
    ensures { AnswersSet (descriptions_of (map (λ k. k.now) own.now) ids.now) result }
{
    let found = descriptions(alloc, own)?;
    let mut files = Vec::new(alloc);
    for id in ids {
        match found.get(id) {
            Some(file) => push_description(alloc, file, &mut files)?,
            None => return Err(SetFault::NoDesc(*id)),
        }
    }
    Ok(Sequence::from_vec(files))
}

// Appends a copy of a description.
fn push_description(alloc: Global, file: &Desc, files: &mut Vec<Desc>) -> Result<(), AllocError>
    ensures { IfOk result (λ _. files.new.items ≡ files.old.items ++ file.now ∷ []) }
{
    files.push(description_copy(alloc, file)?)?;
    Ok(())
}

// Copies a description into new memory.
fn description_copy(alloc: Global, file: &Desc) -> Result<Desc, AllocError>
    ensures { IfOk result (λ copy. copy ≡ file.now) }
{
    Ok(Desc {
        id: file.id,
        whole: file.whole,
        front: file.front,
        length: file.length,
        name: copied(alloc, file.name.as_slice())?,
    })
}

/// Returns the files if no two have the same name, else the first ID whose name
/// an earlier file has.
pub fn names_checked(alloc: Global, files: Sequence<Desc>) -> Result<Sequence<Desc>, SetFault>
    ensures { AnswersSet (names_checked files) result }
{
    match repeated_name(alloc, files.as_slice())? {
        Some(id) => Err(SetFault::NameTwice(id)),
        None => Ok(files),
    }
}

// Finds the ID of the first file that has the same name as a file before it.
fn repeated_name(alloc: Global, files: &[Desc]) -> Result<Option<Hash16>, AllocError>
    ensures { IfOk result (λ found. found
        ≡ option_map (λ file. file.id) (repeated_name files.now)) }
{
    let mut names = BTreeSet::new(alloc);
    for file in files {
        if !names.insert(file.name.as_slice())? {
            return Ok(Some(file.id));
        }
    }
    Ok(None)
}
