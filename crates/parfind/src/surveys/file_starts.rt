ghost use Rattle.std.specs.Prelude.{◌<◌};

use parwindow::Window;

// In images and archives, files begin at multiples of this number of bytes.
const BLOCK: u64 = 512;

// How many bytes ahead the next place is looked for, and how many blocks begin in them.
const REACH: u64 = 4_096;

const BLOCKS: u64 = 8;

// How many bytes at a place are looked at: if they are all zeros, no file begins there.
const FRONT: u64 = 8;

// In a smaller window no place is looked for: few files are shorter than such a slice.
const LEAST_SIZE: u64 = 1_024;

// How many windows may be looked at in the beginning.
const WINDOWS: u64 = 64;

// How many more windows may be looked at for each file that is seen.
const MORE: u64 = 4;

/// The places at which a file may begin that is shorter than a slice: the beginning of a scanned
/// file; the end of another such file; and a multiple of 512 after a zero byte, since zeros fill up
/// the last block of a file before it.
#[derive(Drop)]
pub struct FileStarts {
    /// The last such place that was found.
    next: u64,
    /// The offset up to which such places were looked for.
    looked_to: u64,
    /// How many bytes may still be looked at.
    spare: u64,
}

impl FileStarts {
    /// Starts at the beginning of a scanned file, for slices of `size` bytes.
    pub fn of(size: u64) -> FileStarts {
        FileStarts {
            next: 0,
            looked_to: 0,
            spare: size.saturating_mul(WINDOWS),
        }
    }

    /// Goes to the beginning of another scanned file.
    pub fn enter(&mut self) {
        self.next = 0;
        self.looked_to = 0;
    }

    /// Whether such a file may begin at this offset.
    pub fn is_at(&self, offset: u64) -> bool {
        self.next == offset
    }

    /// Takes `size` bytes from those that may still be looked at, if there are enough, and returns
    /// whether there were.
    pub fn pays(&mut self, size: u64) -> bool {
        if self.spare < size {
            return false;
        }
        self.spare -= size;
        true
    }

    /// Adds to the bytes that may be looked at, since a file was seen for the first time.
    pub fn earn(&mut self, size: u64) {
        self.spare = self.spare.saturating_add(size.saturating_mul(MORE));
    }

    /// Notes the end of a slice that was seen. If it isn't filled up with zeros, another file may
    /// begin there.
    pub fn pass(&mut self, end: u64, is_filled_up: bool) {
        self.looked_to = self.looked_to.max(end);
        if !is_filled_up {
            self.next = end;
        }
    }

    /// Looks for the next place in the window at an offset. For each byte that is passed, one more
    /// byte may be looked at.
    pub fn look_ahead(&mut self, window: &Window, offset: u64) {
        let size = window.size() as u64;
        if self.looked_to > offset || size < LEAST_SIZE {
            return;
        }
        let reach = REACH.min(size.saturating_sub(FRONT));
        let mut end = offset.saturating_add(reach);
        for k in 1..=BLOCKS {
            let place = (offset - offset % BLOCK).saturating_add(k * BLOCK);
            let ahead = place.saturating_sub(offset) as usize;
            if place <= end && may_begin(window, ahead) {
                self.next = place;
                end = place;
            }
        }
        self.spare = self.spare.saturating_add(end.saturating_sub(offset));
        self.looked_to = end;
    }

    /// Returns the number of bytes from an offset to the next place, or to the end of the bytes in
    /// which one was looked for; the greatest number, if none was looked for after the offset.
    pub fn distance(&self, offset: u64) -> u64
        ensures { 0 < result }
    {
        if self.looked_to > offset {
            return self.looked_to - offset;
        }
        u64::MAX
    }
}

// Whether the byte before a place of the window is zero, and the next eight bytes aren't all zeros.
fn may_begin(window: &Window, place: usize) -> bool {
    place > 0 && window.get(place - 1) == Some(0) && !is_filled_up(window, place)
}

/// Whether the next eight bytes from a place of the window on are zeros, as far as it has them.
pub fn is_filled_up(window: &Window, place: usize) -> bool {
    for k in 0..FRONT as usize {
        if window.get(place.saturating_add(k)).unwrap_or(0) != 0 {
            return false;
        }
    }
    true
}
