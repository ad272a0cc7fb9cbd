ghost use Rattle.std.specs.Prelude.{◌≡◌, ◌<◌, ◌≤◌, ◌++◌, map, IfOk, Option, is_some, nat_lt};
ghost use Rattle.std.specs.Prelude.{option_map};
ghost use Rattle.std.specs.List.{flat_map};
ghost use Rattle.parset.specs.declared.bodies.checksums.Ifsc.{Ifsc};
ghost use Rattle.parset.specs.Limits.{slice_limit};
ghost use Rattle.parset.specs.RecoverySet.{AnswersSet, slices_checked};
ghost use Rattle.parset.specs.Slices.{HasCounts, file_view, file_views, set_file_of, slice_count};
ghost use Rattle.parset.specs.Slices.{slice_of, slice_total, slices_of_file};

use crate::bodies::{Desc, Ifsc, SLICES_LIMIT, copied};
use crate::recovery_set::{SetFault, SetFile, SetSlice};
use parfield::{Hash16, Sequence};
use std::alloc::{AllocError, Global};
use std::collections::BTreeMap;

/// Returns how many slices of this size a file of this length has, both in bytes.
pub fn slice_count(size: u64, length: u64) -> u64
    requires { 0 < size }
    ensures { result ≡ slice_count size length }
{
    length.div_ceil(size)
}

/// Returns the files if they have no more slices than a recovery set may have.
pub fn slices_checked(size: u64, files: Sequence<Desc>) -> Result<Sequence<Desc>, SetFault>
    requires { 0 < size }
    ensures { AnswersSet (slices_checked size files) result }
{
    if exceeds_slice_limit(size, files.as_slice()) {
        return Err(SetFault::TooManySlices);
    }
    Ok(files)
}

// Whether the files have more slices than a recovery set may have.
fn exceeds_slice_limit(size: u64, files: &[Desc]) -> bool
    requires { 0 < size }
    ensures { result ≡ nat_lt slice_limit (slice_total size files.now) }
{
    let mut left = SLICES_LIMIT as u64;
    for file in files {
        let count = slice_count(size, file.length);
        if count > left {
            return true;
        }
        left -= count;
    }
    false
}

/// Makes a map from each file's ID to its number of slices.
pub fn slice_counts(
    alloc: Global,
    size: u64,
    files: &[Desc],
) -> Result<BTreeMap<Hash16, u64>, AllocError>
    requires { 0 < size }
    ensures { IfOk result (λ counts. HasCounts size counts files.now) }
{
    let mut counts = BTreeMap::new(alloc);
    for file in files {
        counts.insert(file.id, slice_count(size, file.length))?;
    }
    Ok(counts)
}

/// Returns the files as a recovery set shows them. `sums` has the checksums that
/// are known, by file ID.
pub fn set_files(
    alloc: Global,
    files: &[Desc],
    sums: &BTreeMap<Hash16, Ifsc>,
) -> Result<Vec<SetFile>, AllocError>
    ensures { IfOk result (λ shown. shown.items ≡ map set_file_of (file_views sums.now files.now)) }
{
    let mut shown = Vec::new(alloc);
    for file in files {
        shown.push(set_file(alloc, file, sums.contains_key(&file.id))?)?;
    }
    Ok(shown)
}

// Returns a file as a recovery set shows it. `known` is whether its checksums are known.
fn set_file(alloc: Global, file: &Desc, known: bool) -> Result<SetFile, AllocError>
    ensures { IfOk result (λ shown. (sums : Option Ifsc) → known ≡ is_some sums
        → shown ≡ set_file_of (file_view file.now sums)) }
{
    Ok(SetFile {
        id: file.id,
        name: copied(alloc, file.name.as_slice())?,
        length: file.length,
        whole: file.whole,
        known,
    })
}

/// Returns the slices of all files, in order. `sums` has the checksums that are known, by file ID.
pub fn set_slices(
    alloc: Global,
    size: u64,
    files: &[Desc],
    sums: &BTreeMap<Hash16, Ifsc>,
) -> Result<Vec<SetSlice>, AllocError>
    requires size { 0 < size }
    requires few { slice_total size files.now ≤ slice_limit }
    ensures { IfOk result (λ slices. slices.items
        ≡ flat_map (slices_of_file size) (file_views sums.now files.now)) }
{
    let mut slices = Vec::new(alloc);
    for file in files {
        add_slices(size, file, sums.get(&file.id), &mut slices)?;
    }
    Ok(slices)
}

// Appends the slices of a file, in order.
fn add_slices(
    size: u64,
    file: &Desc,
    sums: Option<&Ifsc>,
    slices: &mut Vec<SetSlice>,
) -> Result<(), AllocError>
    requires size { 0 < size }
    requires few { slice_count size file.now.length ≤ slice_limit }
    ensures { IfOk result (λ _. slices.new.items ≡ slices.old.items
        ++ slices_of_file size (file_view file.now (option_map (λ c. c.now) sums.entry))) }
{
    for number in 0..slice_count(size, file.length) as u32 {
        slices.push(set_slice(size, file, sums, number))?;
    }
    Ok(())
}

// Makes slice `number` of a file.
fn set_slice(size: u64, file: &Desc, sums: Option<&Ifsc>, number: u32) -> SetSlice
    requires { number < slice_count size file.now.length }
    ensures { result
        ≡ slice_of size (file_view file.now (option_map (λ c. c.now) sums.entry)) number }
{
    SetSlice {
        id: file.id,
        number,
        length: (file.length - u64::from(number) * size).min(size),
        sums: match sums {
            Some(sums) => sums.sums.as_slice().get(number as usize).copied(),
            None => None,
        },
    }
}
