use crate::tests::{is, must};
use parfixtures::WORKED;
use parsalvage::Kept;
use parset::{SetFault, build};
use std::alloc::Global;

// The number of slices of the set that these packets describe.
fn slice_count(alloc: Global, packets: &[Kept]) -> Result<usize, SetFault> {
    let set = build(alloc, packets, None)?;
    Ok(set.slices().len())
}

#[test]
fn the_readme_of_parset_counts_the_slices(rt: HostRuntime) {
    use parsalvage::{kept_of, salvage};
    let packets = must(&rt, salvage(rt.alloc(), &WORKED));
    let kept = must(&rt, kept_of(rt.alloc(), 0, &packets));
    is(&rt, &"worked", &slice_count(rt.alloc(), &kept), &Ok(2));
    is(
        &rt,
        &"no packets",
        &slice_count(rt.alloc(), &[]),
        &Err(SetFault::NoMain),
    );
}
