ghost use Rattle.std.specs.Prelude.{◌≡◌, ◌+◌, ◌^◌, ◌<◌, true, false};
ghost use Rattle.parwindow.specs.Ahead.{passed_of};

/// How far a register rolled (the number of bytes), its value there, and whether it stopped there
/// because it is one of those that are looked for (a hit).
#[derive(Clone, Copy, Drop)]
pub struct Roll {
    pub count: usize,
    pub register: u32,
    pub hit: bool,
}

impl Roll {
    /// Returns how many bytes it rolled without a hit: all of them, or all but the last one.
    pub fn passed(&self) -> usize
        ensures { result ≡ passed_of self.now }
    {
        if self.hit {
            self.count.saturating_sub(1)
        } else {
            self.count
        }
    }

    /// Returns this roll and the one after it, as one roll.
    pub fn then(self, next: Roll) -> Roll
        requires { self.count + next.count < 2 ^ 64 }
        ensures { result ≡ record next { count = self.count + next.count } }
    {
        Roll {
            count: self.count + next.count,
            ..next
        }
    }

    /// Makes a roll that stopped with a hit, at this register.
    pub fn hit(count: usize, register: u32) -> Roll
        ensures { result ≡ record { count = count; register = register; hit = true } }
    {
        Roll {
            count,
            register,
            hit: true,
        }
    }

    /// Makes a roll that went to the end without a hit.
    pub fn missed(count: usize, register: u32) -> Roll
        ensures { result ≡ record { count = count; register = register; hit = false } }
    {
        Roll {
            count,
            register,
            hit: false,
        }
    }
}
