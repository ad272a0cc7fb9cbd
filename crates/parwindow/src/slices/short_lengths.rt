ghost use Rattle.std.specs.Prelude.{◌≡◌, ◌<◌, ◌≤◌, All, IfOk};
ghost use Rattle.parset.specs.Limits.{slice_size_limit};
ghost use Rattle.parwindow.specs.Index.{slice_set_of, tails_of};
ghost use Rattle.parwindow.specs.TailLengths.{AreShortOf};

use parset::SetSlice;
use std::alloc::{AllocError, Global};

/// Returns the short-slice lengths: the unpadded lengths below the slice size of slices with known
/// checksums, in increasing order.
pub fn tail_lengths(alloc: Global, size: u64, slices: &[SetSlice]) -> Result<Vec<usize>, AllocError>
    requires size { size ≤ slice_size_limit }
    requires own { All (λ slice. 0 < slice.length) slices.now }
    ensures { IfOk result (λ tails. tails.items ≡ tails_of (slice_set_of size slices.now)) }
{
    let mut lengths = short_lengths(alloc, size, slices)?;
    lengths.sort_unstable();
    lengths.dedup();
    Ok(lengths)
}

// Returns these lengths in the order of the slices, with repeats.
fn short_lengths(alloc: Global, size: u64, slices: &[SetSlice]) -> Result<Vec<usize>, AllocError>
    requires { size ≤ slice_size_limit }
    ensures { IfOk result (λ lengths. AreShortOf size slices.now lengths.items) }
{
    let mut lengths = Vec::new(alloc);
    for slice in slices {
        if slice.sums.is_some() && slice.length < size {
            lengths.push(slice.length as usize)?;
        }
    }
    Ok(lengths)
}
