ghost use Rattle.std.specs.Prelude.{◌≤◌};

// The greatest number of slices that are kept of those that are found at one place.
const MOST_NOTED: usize = 16;

/// The slices that were found last, or the first 16 of them: short slices are expected after them.
#[derive(Drop)]
pub struct Noted {
    slices: [u32; 16],
    count: usize,
    ghost few: { count ≤ 16 },
}

impl Noted {
    /// Makes an empty list.
    pub fn none() -> Noted {
        Noted {
            slices: [0; 16],
            count: 0,
        }
    }

    /// Appends a slice, if there is room.
    pub fn push(&mut self, slice: u32) {
        if self.count < MOST_NOTED {
            self.slices[self.count] = slice;
            self.count += 1;
        }
    }

    /// Returns the slices in the list.
    pub fn slices(&self) -> &[u32] {
        &self.slices[..self.count]
    }

    /// Removes all slices from the list.
    pub fn clear(&mut self) {
        self.count = 0;
    }
}
