ghost use Rattle.std.specs.Prelude.{◌≡◌, ◌<◌, ◌≤◌, length, take, Ok, IfOk, OnErr};
ghost use Rattle.parshelf.specs.SinkState.{SinkState, appended, refused};

/// A read or a write that failed.
#[derive(Clone, Copy, Debug, PartialEq, Eq)]
pub struct Failed;

/// A thing that bytes are written to.
pub trait Sink {
    /// The state: the bytes that were written, and how often the sink refused some.
    ghost state: { Self → SinkState };

    /// Writes some first bytes of `part`, and returns their number.
    fn put(&mut self, part: &[u8]) -> Result<usize, Failed>
        ensures bound { IfOk result (λ n. n ≤ length part.now) }
        ensures taken { IfOk result (λ n. 0 < n
            → state self.new ≡ appended (state self.old) (take n part.now)) }

        // An empty part never fails and changes nothing. Taking nothing of any
        // other part is a failure.
        ensures empty { length part.now ≡ 0 → result ≡ Ok 0 }
        ensures nothing { IfOk result (λ _. length part.now ≡ 0 → state self.new ≡ state self.old) }
        ensures full { IfOk result (λ n. n ≡ 0 → 0 < length part.now
            → state self.new ≡ refused (state self.old)) }
        ensures failed { OnErr result (state self.new ≡ refused (state self.old)) };
}
