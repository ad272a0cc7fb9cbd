ghost use Rattle.std.specs.Prelude.{◌≡◌, ℕ, List, IfOk, IfErr};
ghost use Rattle.parshelf.specs.Shelf.{ReadsAs};
ghost use Rattle.parsalvage.specs.Kept.{kept_of_files};
ghost use Rattle.parreport.specs.Faults.{IsPacketFault};
ghost use Rattle.parreport.specs.Costs.{HandsWithinSalvage};
ghost use Rattle.parreport.specs.Outcomes.{TellsPackets};

use crate::faults::RunFault;
use parsalvage::{Kept, SalvageFault, salvage_file};
use parshelf::Shelf;
use std::alloc::Global;

/// Collects the packets of all packet files, by file and then by offset.
// If it were inlined, its arrays would stay on the stack beside those for scanned files.
#[inline(never)]
pub fn salvage_files<H: Shelf>(alloc: Global, shelf: &mut H) -> Result<Vec<Kept>, RunFault>
    ensures kept { (files : List (List ℕ)) → ReadsAs (H.state shelf.new) files
        → IfOk result (λ kept. kept.items ≡ kept_of_files files) }
    ensures fault { IfErr result IsPacketFault }
    ensures reads { TellsPackets result (H.state shelf.old) (H.state shelf.new) }
    ensures handed { HandsWithinSalvage (H.state shelf.old) (H.state shelf.new) }
{
    let mut all = Vec::new(alloc);
    for file in 0..shelf.count() {
        match salvage_file(alloc, shelf, file) {
            Ok(mut kept) => all.append(&mut kept)?,
            Err(SalvageFault::Memory) => return Err(RunFault::Memory),
            Err(SalvageFault::Read(fault)) => {
                let packet = true;
                return Err(RunFault::Read {
                    packet,
                    file,
                    fault,
                });
            }
        }
    }
    Ok(all)
}
