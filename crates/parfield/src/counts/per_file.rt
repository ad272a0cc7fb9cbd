ghost use Rattle.std.specs.Prelude.{◌≡◌, ℕ, List, replicate};
ghost use Rattle.std.specs.Borrow.{ftrue};
ghost use Rattle.parfield.specs.Added.{added_at};

use std::marker::Model;

/// A number for each place, that only contracts see. None has an upper bound.
#[derive(Drop)]
pub struct Counts {
    /// The numbers, by place.
    pub ghost counts: { List ℕ },
}

impl Model for Counts {
    ghost also_owns = { λ _. ftrue };
}

impl Counts {
    /// Counts of 0, as many as there are places.
    pub fn new(_places: usize) -> Counts
        ensures { result.counts ≡ replicate _places 0 }
    {
        Counts {}
    }

    /// Adds to the count of one place, and to none where there is no such place.
    pub fn add_at(&mut self, _place: u32, _amount: u64)
        ensures { self.new.counts ≡ added_at self.old.counts _place _amount }
    {}
}
