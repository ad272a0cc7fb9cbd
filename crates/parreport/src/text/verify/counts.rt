ghost use Rattle.std.specs.Prelude.{◌≡◌, ◌&&◌, ◌+◌, ◌-◌, ◌^◌, ◌<◌, if◌then◌else◌, length, unwrap_or, IfOk, OnOk};
ghost use Rattle.std.specs.BTreeMap.{get};
ghost use Rattle.std.specs.Str.{bytes_eq};
ghost use Rattle.parfield.specs.HashOrder.{id_cmp};
ghost use Rattle.parreport.specs.Findings.{found_count_of};

use parfield::Hash16;
use parset::SetSlice;
use std::alloc::{AllocError, Global};
use std::collections::BTreeMap;

/// Returns how many slices of each file are found, by the file's ID. A file of which none is found
/// has no count.
pub fn found_counts(
    alloc: Global,
    slices: &[SetSlice],
    found: &[bool],
) -> Result<BTreeMap<Hash16, u64>, AllocError>
    requires { length found.now ≡ length slices.now }
    ensures { IfOk result (λ counts. (id : Hash16)
        → unwrap_or (get id_cmp counts id) 0 ≡ found_count_of slices.now found.now id) }
{
    let mut counts = BTreeMap::new(alloc);
    for (index, slice) in slices.iter().enumerate() {
        count_if(&mut counts, slice.id, found[index])?;
    }
    Ok(counts)
}

// Counts a slice of the file of this ID, if it is found.
fn count_if(counts: &mut BTreeMap<Hash16, u64>, id: Hash16, found: bool) -> Result<(), AllocError>
    requires { unwrap_or (get id_cmp counts.old id) 0 < 2 ^ 64 - 1 }
    ensures { OnOk result ((q : Hash16) → unwrap_or (get id_cmp counts.new q) 0
        ≡ unwrap_or (get id_cmp counts.old q) 0 + (if bytes_eq id.0 q.0 && found then 1 else 0)) }
{
    if found {
        let count = count_at(counts, id);
        counts.insert(id, count + 1)?;
    }
    Ok(())
}

/// Returns the count at an ID, or 0 if it has none.
pub fn count_at(counts: &BTreeMap<Hash16, u64>, id: Hash16) -> u64
    ensures { result ≡ unwrap_or (get id_cmp counts.now id) 0 }
{
    counts.get(&id).copied().unwrap_or(0)
}
