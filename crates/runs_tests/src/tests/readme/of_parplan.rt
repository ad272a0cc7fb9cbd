use crate::runs::{is_same, words_of};
use parplan::{PlanFault, plan};
use std::alloc::Global;

// The number of packet files and of files to scan that a command line names.
fn file_counts(alloc: Global, words: &[String]) -> Result<(usize, usize), PlanFault> {
    let plan = plan(alloc, words)?;
    Ok((plan.packets.len(), plan.scanned.len()))
}

#[test]
fn the_readme_of_parplan_counts_files(rt: HostRuntime) {
    for (words, wanted) in [
        ("find v.par2 w.par2 x.bin", Ok((2, 1))),
        ("packets v.par2", Ok((1, 0))),
        ("find x.bin", Err(PlanFault::NoPacketFile)),
        ("frobnicate v.par2", Err(PlanFault::Usage)),
    ] {
        is_same(
            &rt,
            &words,
            &file_counts(rt.alloc(), &words_of(&rt, words)),
            &wanted,
        );
    }
}
