ghost use Rattle.std.specs.Prelude.{◌≡◌, ◌<◌, ◌+◌, length, replicate, if◌then◌else◌};
ghost use Rattle.parwindow.specs.Index.{slice_passes};
ghost use Rattle.parfind.specs.Fitting.{is_fitting_compared, is_fitting_match, is_fitting_of};
ghost use Rattle.parfind.specs.KeptDigests.{IsFullFor};
ghost use Rattle.parfind.specs.Noting.{FindsMore, TakesDigests, AreExhausted};
ghost use Rattle.parfind.specs.Marks.{count_missing, has_compared_missing};
ghost use Rattle.parfind.specs.Sought.{is_compared, compared_lengths, nth_compared};

use crate::surveys::noted::Noted;
use crate::tracks::{MOST_TAILS, Sought};
use parfield::Hash16;
use parwindow::Window;

// The greatest number of lengths of a window that are compared.
const MOST_LENGTHS: usize = MOST_TAILS + 1;

/// For each compared length, a CRC-32 that is exhausted: each slice that has it and fits is found.
/// So a run of equal windows, as of zeros, is looked up once. Also what the lookups cost.
#[derive(Drop)]
pub struct Exhausted {
    pub crcs: [Option<u32>; MOST_LENGTHS],
    /// The cost of the lookups that found no slice missing: one for each compared length at a
    /// place, if some slice has the CRC-32 or it is noted as exhausted, and one more for every
    /// sixteen slices that were looked through.
    pub in_vain: u64,
    /// The slices that were found last.
    pub noted: Noted,
}

impl Exhausted {
    /// Makes a state in which no CRC-32 is noted.
    pub fn none() -> Exhausted
        ensures { result.crcs ≡ replicate 257 None }
    {
        Exhausted {
            crcs: [None; MOST_LENGTHS],
            in_vain: 0,
            noted: Noted::none(),
        }
    }

    /// Forgets the CRC-32s. The cost of the lookups stays.
    pub fn forget(&mut self)
        ensures { self.new.crcs ≡ replicate 257 None }
    {
        self.crcs = [None; MOST_LENGTHS];
    }

    /// Notes as found each slice that has both checksums of the bytes of a full window that are
    /// compared for it, and that fits into the `left` bytes of the file. An MD5 is taken only if
    /// some slice of its compared length with the CRC-32 fits and isn't found.
    pub fn note_seen(&mut self, window: &mut Window, sought: &Sought, left: u64, found: &mut [bool])
        requires full { IsFullFor sought.now window.old }
        requires each { length found.old ≡ length sought.now.set.slices }
        requires exhausted { AreExhausted sought.now found.old left self.old.crcs }
        ensures exhausted { AreExhausted sought.now found.new left self.new.crcs }
        ensures found { FindsMore (slice_passes sought.now.set.slices
            (is_fitting_compared sought.now.mode window.old.content left)) found.old found.new }
        ensures digests { TakesDigests (count_missing sought.now found.old
            window.old.content left) window.old window.new }
    {
        let size = sought.index.size();
        prove!(window.size() as u64 == size);
        for k in 0..sought.count_lengths() {
            self.note_seen_at(window, sought, k, left, found);
        }
    }

    // Notes those of these slices whose compared length is number `k`.
    fn note_seen_at(
        &mut self,
        window: &mut Window,
        sought: &Sought,
        k: usize,
        left: u64,
        found: &mut [bool],
    )
        requires there { k < length (compared_lengths sought.now) }
        requires full { IsFullFor sought.now window.old }
        requires each { length found.old ≡ length sought.now.set.slices }
        requires exhausted { AreExhausted sought.now found.old left self.old.crcs }
        ensures exhausted { AreExhausted sought.now found.new left self.new.crcs }
        ensures found { FindsMore (slice_passes sought.now.set.slices
            (is_fitting_of sought.now window.old.content left
            (nth_compared sought.now k))) found.old found.new }
        ensures digests { TakesDigests (if has_compared_missing sought.now found.old
            window.old.content left (nth_compared sought.now k)
            then 1 else 0) window.old window.new }
    {
        let crc = sought.crc_at(window, k);
        if self.crcs[k] == Some(crc) {
            self.in_vain = self.in_vain.saturating_add(1);
            return;
        }
        if sought.is_missing_at(k, crc, left, found) {
            let digest = sought.digest_at(window, k);
            self.note_matches(sought, k, (digest, crc), left, found);
        } else {
            self.crcs[k] = Some(crc);
            let asked = u64::from(sought.index.count_crc(crc));
            self.in_vain = self.in_vain.saturating_add(asked.min(1) + asked / 16);
        }
    }

    // Notes as found each slice of compared length `k` that has both checksums and fits into the
    // `left` bytes of the file.
    fn note_matches(
        &mut self,
        sought: &Sought,
        k: usize,
        sums: (Hash16, u32),
        left: u64,
        found: &mut [bool],
    )
        requires there { k < length (compared_lengths sought.now) }
        requires each { length found.old ≡ length sought.now.set.slices }
        ensures found { FindsMore (slice_passes sought.now.set.slices (is_compared sought.now
            (nth_compared sought.now k) (is_fitting_match sums left)))
            found.old found.new }
        ensures crcs { self.new.crcs ≡ self.old.crcs }
    {
        let mut from = 0;
        while let Some(slice) = sought.first_match_at(k, sums, left, from) {
            found[slice as usize] = true;
            self.noted.push(slice);
            from = slice + 1;
        }
    }
}
