ghost use Rattle.std.specs.Prelude.{◌≡◌, ◌<◌, map, IfOk};
ghost use Rattle.parset.specs.Choosing.{AreDescribed};
ghost use Rattle.parset.specs.RecoverySet.{AnswersSet, AreSetFiles};
ghost use Rattle.parset.specs.RecoverySet.{set_of, set_of_files, set_of_main};
ghost use Rattle.parset.specs.SetLimits.{IsWithinLimits};
ghost use Rattle.parset.specs.Slices.{file_view_from, file_views};

use crate::bodies::{Desc, Ifsc, Main};
use crate::choosing::{asides, checksums, creator, exponent_count, first_main, set_packets};
use crate::describing::{described, names_checked};
use crate::in_order::in_order;
use crate::recovery_set::{RecoverySet, SetFault};
use crate::slicing::{set_files, set_slices, slice_counts, slices_checked};
use parfield::Hash16;
use parsalvage::Kept;
use std::alloc::{AllocError, Global};
use std::collections::BTreeMap;

/// Makes the recovery set of the first usable Main packet, or of the first one of the chosen set;
/// or returns the first reason why there is none. Every "first" is in the order of `packets`.
pub fn build(
    alloc: Global,
    packets: &[Kept],
    choice: Option<Hash16>,
) -> Result<RecoverySet, SetFault>
    ensures { AnswersSet (set_of packets.now choice) result }
{
    match first_main(alloc, packets, choice)? {
        Some((set, main)) => {
            let own = set_packets(alloc, packets, set)?;
            set_of_main(alloc, set, &main, own.as_slice())
        }
        None => Err(SetFault::NoMain),
    }
}

// Makes the set of this Main packet. `own` are the packets of the set.
fn set_of_main(
    alloc: Global,
    id: Hash16,
    main: &Main,
    own: &[&Kept],
) -> Result<RecoverySet, SetFault>
    requires { IsWithinLimits main.now }
    ensures { AnswersSet (set_of_main id main.now (map (λ k. k.now) own.now)) result }
{
    let ids = in_order(alloc, main.recovery.as_slice())?;
    let described = described(alloc, own, ids.as_slice())?;
    let named = names_checked(alloc, described)?;
    let files = slices_checked(main.size, named)?;
    Ok(set_of_files(alloc, id, main, own, files.as_slice())?)
}

// Makes the set that has these files.
fn set_of_files(
    alloc: Global,
    id: Hash16,
    main: &Main,
    own: &[&Kept],
    files: &[Desc],
) -> Result<RecoverySet, AllocError>
    requires limits { IsWithinLimits main.now }
    requires files { AreSetFiles main.now (map (λ k. k.now) own.now) files.now }
    ensures { IfOk result (λ set. set ≡ set_of_files id main.now (map (λ k. k.now) own.now)
        (map (file_view_from main.now.size (map (λ k. k.now) own.now)) files.now)) }
{
    let sums = sums_of(alloc, main.size, own, files)?;
    Ok(RecoverySet {
        id,
        size: main.size,
        files: set_files(alloc, files, &sums)?,
        slices: set_slices(alloc, main.size, files, &sums)?,
        others: main.others.len() as u32,
        have: exponent_count(alloc, own, main.size)?,
        creator: creator(alloc, own)?,
        aside: asides(alloc, own, main.size)?,
    })
}

// Finds the checksums of each file, by file ID.
fn sums_of(
    alloc: Global,
    size: u64,
    own: &[&Kept],
    files: &[Desc],
) -> Result<BTreeMap<Hash16, Ifsc>, AllocError>
    requires size { 0 < size }
    requires described { AreDescribed (map (λ k. k.now) own.now) files.now }
    ensures { IfOk result (λ sums. file_views sums files.now
        ≡ map (file_view_from size (map (λ k. k.now) own.now)) files.now) }
{
    let counts = slice_counts(alloc, size, files)?;
    checksums(alloc, own, &counts)
}
