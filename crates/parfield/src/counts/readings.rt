ghost use Rattle.std.specs.Prelude.{◌≡◌, List, [], ◌∷◌};
ghost use Rattle.std.specs.Borrow.{ftrue};
ghost use Rattle.parfield.specs.Readings.{Reading};

use std::marker::Model;

/// What reads gave, the last one first, that only contracts see.
#[derive(Drop)]
pub struct Readings {
    /// The readings.
    pub ghost readings: { List Reading },
}

impl Model for Readings {
    ghost also_owns = { λ _. ftrue };
}

impl Readings {
    /// No reading.
    pub fn new() -> Readings
        ensures { result.readings ≡ [] }
    {
        Readings {}
    }

    /// Adds a reading.
    pub fn add(&mut self, _file: u32, _offset: u64, _room: usize, _part: &[u8])
        ensures { self.new.readings ≡ record {
          file = _file;
          offset = _offset;
          room = _room;
          bytes = _part.now;
        } ∷ self.old.readings }
    {}
}
