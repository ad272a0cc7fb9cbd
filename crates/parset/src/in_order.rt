ghost use Rattle.std.specs.Prelude.{◌≡◌, IfOk};
ghost use Rattle.parset.specs.RecoverySet.{ids_in_order};

use parfield::Hash16;
use std::alloc::{AllocError, Global};

/// Returns a sorted copy of the IDs.
pub fn in_order(alloc: Global, ids: &[Hash16]) -> Result<Vec<Hash16>, AllocError>
    ensures { IfOk result (λ sorted. sorted.items ≡ ids_in_order ids.now) }
{
    let mut sorted = Vec::from_slice(alloc, ids)?;
    sorted.sort_unstable();
    Ok(sorted)
}
