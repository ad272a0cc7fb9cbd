ghost use Rattle.std.specs.Prelude.{◌≡◌, ◌<◌, ◌≤◌, ◌+◌, length, replicate, IfOk, IfSome, IsTrue, None};
ghost use Rattle.parfield.specs.Md5.{md5};
ghost use Rattle.parset.specs.Limits.{slice_limit};
ghost use Rattle.parwindow.specs.Index.{slice_passes};
ghost use Rattle.parwindow.specs.Least.{IsLeastFrom};
ghost use Rattle.parfind.specs.Fitting.{is_fitting_compared, is_fitting_of};
ghost use Rattle.parfind.specs.KeptDigests.{Keeps, KeepsDigests, IsFullFor, lesser_of};
ghost use Rattle.parfind.specs.Sought.{has_compared_crc, compared_bytes, compared_lengths, nth_compared};

use crate::tracks::sought::Sought;
use parfield::Hash16;
use parwindow::Window;
use std::alloc::{AllocError, Global};

/// The digests (MD5s) that were taken of a window: one for each compared length, which is kept
/// until the window moves.
#[derive(Drop)]
pub(crate) struct Digests {
    pub kept: Vec<Option<Hash16>>,
}

impl Digests {
    /// Makes room for a digest of each compared length; none is kept yet.
    pub fn new(alloc: Global, sought: &Sought) -> Result<Digests, AllocError>
        ensures { IfOk result (λ digests. digests.kept.items
            ≡ replicate (length (compared_lengths sought.now)) None) }
    {
        let kept = vec![in alloc; None; sought.count_lengths()]?;
        Ok(Digests { kept })
    }

    /// Forgets all digests.
    pub fn forget(&mut self)
        ensures { self.new.kept.items ≡ replicate (length self.old.kept.items) None }
    {
        for k in 0..self.kept.len() {
            self.kept[k] = None;
        }
    }

    /// Returns the first slice from a number on that has both checksums of the bytes of a full
    /// window that are compared for it, and that fits into the `left` bytes of the file. An MD5 is
    /// taken only if some slice of its compared length has the CRC-32 and fits, and only once.
    pub fn first_seen(
        &mut self,
        window: &mut Window,
        sought: &Sought,
        left: u64,
        first: u32,
    ) -> Option<u32>
        requires full { IsFullFor sought.now window.old }
        requires keeps { Keeps sought.now window.old self.old.kept.items }
        ensures first { IsLeastFrom (slice_passes sought.now.set.slices
            (is_fitting_compared sought.now.mode window.old.content left)) first result }
        ensures there { IfSome result (λ n. n < length sought.now.set.slices) }
        ensures few { length sought.now.set.slices ≤ slice_limit }
        ensures stays { KeepsDigests window.old self.old.kept.items window.new self.new.kept.items }
        ensures keeps { Keeps sought.now window.new self.new.kept.items }
    {
        let size = sought.index.size();
        prove!(window.size() as u64 == size);
        let mut least = None;
        for k in 0..sought.count_lengths() {
            let found = self.first_seen_at(window, sought, k, left, first);
            least = lesser(least, found);
        }
        least
    }

    // Returns the first such slice of compared length `k`.
    fn first_seen_at(
        &mut self,
        window: &mut Window,
        sought: &Sought,
        k: usize,
        left: u64,
        first: u32,
    ) -> Option<u32>
        requires there { k < length (compared_lengths sought.now) }
        requires full { IsFullFor sought.now window.old }
        requires keeps { Keeps sought.now window.old self.old.kept.items }
        ensures first { IsLeastFrom (slice_passes sought.now.set.slices
            (is_fitting_of sought.now window.old.content left
            (nth_compared sought.now k))) first result }
        ensures there { IfSome result (λ n. n < length sought.now.set.slices) }
        ensures stays { KeepsDigests window.old self.old.kept.items window.new self.new.kept.items }
        ensures keeps { Keeps sought.now window.new self.new.kept.items }
    {
        let crc = sought.crc_at(window, k);
        if !sought.has_fitting_crc(k, crc, left) {
            return None;
        }
        let digest = self.digest_of(window, sought, k);
        sought.first_match_at(k, (digest, crc), left, first)
    }

    // Returns the MD5 of a full window at compared length `k`, which is taken only once.
    fn digest_of(&mut self, window: &mut Window, sought: &Sought, k: usize) -> Hash16
        requires there { k < length (compared_lengths sought.now) }
        requires full { IsFullFor sought.now window.old }
        requires keeps { Keeps sought.now window.old self.old.kept.items }
        requires marked { IsTrue (has_compared_crc sought.now
            window.old.content (nth_compared sought.now k)) }
        ensures digest { result.0 ≡ md5 (compared_bytes window.old.content
            (nth_compared sought.now k)) }
        ensures stays { KeepsDigests window.old self.old.kept.items window.new self.new.kept.items }
        ensures keeps { Keeps sought.now window.new self.new.kept.items }
    {
        if let Some(digest) = self.kept[k] {
            return digest;
        }
        let digest = sought.digest_at(window, k);
        self.kept[k] = Some(digest);
        digest
    }
}

// Returns the lesser of two numbers, or the only one that is given.
fn lesser(a: Option<u32>, b: Option<u32>) -> Option<u32>
    ensures { result ≡ lesser_of a b }
{
    match (a, b) {
        (Some(a), Some(b)) => Some(a.min(b)),
        (Some(a), None) => Some(a),
        (None, found) => found,
    }
}
