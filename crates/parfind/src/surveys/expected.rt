ghost use Rattle.std.specs.Prelude.{◌≡◌, ◌≤◌, ◌<◌, ◌+◌, false, MatchOption};

// The greatest number of expected slices. A survey looks everywhere for those that are beyond it.
const MOST_EXPECTED: usize = 16;

/// The offsets of a file at which a short slice is expected, each with the slice.
#[derive(Drop)]
pub struct Expected {
    pub offsets: [u64; 16],
    pub slices: [u32; 16],
    pub count: usize,
    ghost few: { count ≤ 16 },
}

impl Expected {
    ghost use Rattle.parfind.specs.Waiting.{is_waiting};

    /// Makes a list without expected slices.
    pub fn none() -> Expected
        ensures { is_waiting result ≡ false }
    {
        Expected {
            offsets: [0; 16],
            slices: [0; 16],
            count: 0,
        }
    }

    /// Whether some slice is expected.
    pub fn is_waiting(&self) -> bool
        ensures { result ≡ is_waiting self.now }
    {
        self.count > 0
    }

    /// Forgets all slices that are expected.
    pub fn forget(&mut self)
        ensures { is_waiting self.new ≡ false }
    {
        self.count = 0;
    }

    /// Expects a slice at an offset, if there is room.
    pub fn expect(&mut self, offset: u64, slice: u32) {
        if self.count < MOST_EXPECTED {
            self.offsets[self.count] = offset;
            self.slices[self.count] = slice;
            self.count += 1;
        }
    }

    /// Takes out a slice that is expected at this offset or before it, and returns the offset and
    /// the slice.
    pub fn next_until(&mut self, offset: u64) -> Option<(u64, u32)>
        ensures { MatchOption result (self.new ≡ self.old)
            (λ _. self.new.count + 1 ≡ self.old.count) }
    {
        for k in 0..self.count {
            if self.offsets[k] <= offset {
                let found = (self.offsets[k], self.slices[k]);
                self.count -= 1;
                self.offsets[k] = self.offsets[self.count];
                self.slices[k] = self.slices[self.count];
                return Some(found);
            }
        }
        None
    }

    /// Returns the number of bytes from an offset to the next one after it at which a slice is
    /// expected; the greatest number, if there is none.
    pub fn distance(&self, offset: u64) -> u64
        ensures { 0 < result }
    {
        let mut least = u64::MAX;
        for &place in &self.offsets[..self.count] {
            if place > offset {
                least = least.min(place - offset);
            }
        }
        least
    }
}
