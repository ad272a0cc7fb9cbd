ghost use Rattle.std.specs.Prelude.{◌≡◌, ℕ, Bool};

/// The registers at which a roll stops.
pub trait RegisterSet {
    /// The registers of the set: whether a register is one of them.
    ghost has: { Self → ℕ → Bool };

    /// Whether this register is in the set.
    fn has(&self, register: u32) -> bool
        ensures { result ≡ has self.now register };
}
