ghost use Rattle.std.specs.Prelude.{◌≡◌, ◌==◌, ℕ, count_by, length, map, is_some, IfOk, OnOk, Some};
ghost use Rattle.std.specs.Prelude.{None, if◌then◌else◌};
ghost use Rattle.std.specs.List.{list_any};
ghost use Rattle.std.specs.Option.{option_or};
ghost use Rattle.std.specs.Str.{bytes_eq};
ghost use Rattle.std.specs.BTreeMap.{get};
ghost use Rattle.parfield.specs.HashOrder.{id_cmp};
ghost use Rattle.parset.specs.Choosing.{all_exponents, chosen_main_of, has_exponent, only_if};
ghost use Rattle.parset.specs.Choosing.{first_main_of, set_packets_of, file_description_of};
ghost use Rattle.parset.specs.Choosing.{file_sums_of, exponent_count_of, first_creator_of};
ghost use Rattle.parset.specs.Choosing.{asides_of};

use crate::bodies::{Desc, EXPONENT_LIMIT, Ifsc, Main};
use crate::reading::{
    read_aside, read_checksums, read_creator, read_description, read_exponent, read_main,
};
use crate::recovery_set::SetAside;
use parfield::{Hash16, Sequence};
use parsalvage::Kept;
use std::alloc::{AllocError, Global};
use std::collections::BTreeMap;

// How many exponents are allowed: 0 to the largest one.
const EXPONENTS: usize = EXPONENT_LIMIT as usize + 1;

/// Returns the first usable Main packet of the chosen set (of any set if none is
/// chosen), with its set ID.
pub fn first_main(
    alloc: Global,
    packets: &[Kept],
    choice: Option<Hash16>,
) -> Result<Option<(Hash16, Main)>, AllocError>
    ensures { IfOk result (λ found. found ≡ first_main_of choice packets.now) }
{
    for kept in packets {
        if let Some(main) = read_chosen_main(alloc, kept, choice)? {
            return Ok(Some(main));
        }
    }
    Ok(None)
}

/// Returns the packets that have this recovery set ID, in order.
pub fn set_packets<'a>(
    alloc: Global,
    packets: &'a [Kept],
    set: Hash16,
) -> Result<Vec<&'a Kept>, AllocError>
    ensures { IfOk result (λ own. map (λ k. k.now) own.items
        ≡ set_packets_of set packets.entry.now) }
{
    packets.iter().filter(|kept| kept.set == set).collect(alloc)
}

/// Returns the first usable description of each file ID.
pub fn descriptions(alloc: Global, own: &[&Kept]) -> Result<BTreeMap<Hash16, Desc>, AllocError>
    ensures { IfOk result (λ found. (id : Hash16) → get id_cmp found id
        ≡ file_description_of id (map (λ k. k.now) own.now)) }
{
    let mut found = BTreeMap::new(alloc);
    for kept in own {
        if let Some(description) = read_description(alloc, kept)? {
            put_first(&mut found, description.id, description)?;
        }
    }
    Ok(found)
}

/// Returns, for each file, the first checksums whose number is the number of its slices, by file
/// ID. `counts` has the number of slices of each file; files that it lacks are left out.
pub fn checksums(
    alloc: Global,
    own: &[&Kept],
    counts: &BTreeMap<Hash16, u64>,
) -> Result<BTreeMap<Hash16, Ifsc>, AllocError>
    ensures { IfOk result (λ found. (id : Hash16) (count : ℕ)
        → get id_cmp counts.now id ≡ Some count
        → get id_cmp found id ≡ file_sums_of id count (map (λ k. k.now) own.now)) }
{
    let mut found = BTreeMap::new(alloc);
    for kept in own {
        if let Some(sums) = read_checksums(alloc, kept)? {
            if is_counted(&sums, counts) {
                put_first(&mut found, sums.id, sums)?;
            }
        }
    }
    Ok(found)
}

/// Counts the distinct exponents that the usable RecvSlic packets have.
pub fn exponent_count(alloc: Global, own: &[&Kept], size: u64) -> Result<u32, AllocError>
    ensures { IfOk result (λ count. count ≡ exponent_count_of size (map (λ k. k.now) own.now)) }
{
    let seen = seen_exponents(alloc, own, size)?;
    Ok(set_flags(seen.as_slice()) as u32)
}

/// Returns the first text of a usable Creator packet that isn't empty.
pub fn creator(alloc: Global, own: &[&Kept]) -> Result<Option<Sequence<u8>>, AllocError>
    ensures { IfOk result (λ text. text ≡ first_creator_of (map (λ k. k.now) own.now)) }
{
    for kept in own {
        if let Some(text) = read_creator(alloc, kept)? {
            return Ok(Some(text));
        }
    }
    Ok(None)
}

/// Returns the packets whose bodies are not usable, with the reasons, in order.
pub fn asides(alloc: Global, own: &[&Kept], size: u64) -> Result<Sequence<SetAside>, AllocError>
    ensures { IfOk result (λ asides. asides ≡ asides_of size (map (λ k. k.now) own.now)) }
{
    let mut asides = Vec::new(alloc);
    for kept in own {
        if let Some(aside) = read_aside(alloc, kept, size)? {
            asides.push(aside)?;
        }
    }
    Ok(Sequence::from_vec(asides))
}

// Reads the set ID and the fields of a packet if it is a usable Main packet of the chosen set (of
// any set if none is chosen).
fn read_chosen_main(
    alloc: Global,
    kept: &Kept,
    choice: Option<Hash16>,
) -> Result<Option<(Hash16, Main)>, AllocError>
    ensures { IfOk result (λ found. found ≡ chosen_main_of choice kept.now) }
{
    if !kept.is_chosen(choice) {
        return Ok(None);
    }
    match read_main(alloc, kept)? {
        Some(main) => Ok(Some((kept.set, main))),
        None => Ok(None),
    }
}

// Puts the fields into the map, if it has nothing under their ID yet.
fn put_first<T: Drop>(
    found: &mut BTreeMap<Hash16, T>,
    id: Hash16,
    fields: T,
) -> Result<(), AllocError>
    ensures { OnOk result ((q : Hash16) → get id_cmp found.new q
        ≡ option_or (get id_cmp found.old q) (if bytes_eq id.0 q.0 then Some fields else None)) }
{
    if !found.contains_key(&id) {
        found.insert(id, fields)?;
    }
    Ok(())
}

// Whether the number of checksums is the number of their file's slices; not if that isn't known.
fn is_counted(sums: &Ifsc, counts: &BTreeMap<Hash16, u64>) -> bool
    ensures { result ≡ is_some (only_if (λ count. length sums.now.sums == count)
        (get id_cmp counts.now sums.now.id)) }
{
    match counts.get(&sums.id) {
        Some(count) => sums.sums.len() as u64 == *count,
        None => false,
    }
}

// Returns a flag for each allowed exponent: whether a usable RecvSlic packet has it.
fn seen_exponents(alloc: Global, own: &[&Kept], size: u64) -> Result<Vec<bool>, AllocError>
    ensures { IfOk result (λ seen. seen.items
        ≡ map (λ e. list_any (has_exponent size e) (map (λ k. k.now) own.now)) all_exponents) }
{
    let mut seen = vec![in alloc; false; EXPONENTS]?;
    for kept in own {
        if let Some(exponent) = read_exponent(kept, size) {
            seen[exponent as usize] = true;
        }
    }
    Ok(seen)
}

// Counts the flags that are set.
fn set_flags(flags: &[bool]) -> usize
    ensures { result ≡ count_by (λ flag. flag) flags.now }
{
    flags.iter().filter(|flag| **flag).count()
}
