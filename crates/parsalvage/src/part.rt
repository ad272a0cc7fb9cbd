ghost use Rattle.std.specs.Prelude.{◌≡◌, ◌+◌, ◌≤◌, ◌==◌, length, take, drop, IfOk};
ghost use Rattle.std.specs.Rc.{rc_slice_items};

use std::alloc::AllocError;
use std::fmt;
use std::marker::Model;
use std::rc::RcSlice;

/// A part of bytes, which several parts may share. Contracts see it as the list of its bytes.
#[derive(Drop)]
pub struct Part {
    store: RcSlice<u8>,
    place: usize,
    size: usize,
}

impl Model for Part {
    ghost use Rattle.std.specs.Prelude.{List, ℕ, ◌+◌, ◌≤◌, length, take, drop};
    ghost use Rattle.std.specs.Rc.{rc_slice_items};

    ghost Value = { List ℕ };

    ghost view = { λ p. take p.size (drop p.place (rc_slice_items p.store)) };

    ghost invariant = { λ p. p.place + p.size ≤ length (rc_slice_items p.store) };
}

impl Part {
    /// Makes a part of these bytes; nothing is copied.
    pub fn new(store: &RcSlice<u8>, place: usize, size: usize) -> Result<Part, AllocError>
        requires { place + size ≤ length (rc_slice_items store.now) }
        ensures { IfOk result (λ part. part ≡ take size (drop place (rc_slice_items store.now))) }
    {
        Ok(Part {
            store: store.clone()?,
            place,
            size,
        })
    }

    /// Makes a part that has all of these bytes; nothing is copied.
    pub fn from_vec(bytes: Vec<u8>) -> Result<Part, AllocError>
        ensures { IfOk result (λ part. part ≡ bytes.items) }
    {
        let size = bytes.len();
        Ok(Part {
            store: RcSlice::from_vec(bytes)?,
            place: 0,
            size,
        })
    }

    /// Lends the bytes, in order.
    pub fn as_slice(&self) -> &[u8]
        ensures { result.now ≡ self.now }
    {
        &self.store.as_slice()[self.place..self.place + self.size]
    }

    /// Returns the number of bytes.
    pub fn len(&self) -> usize
        ensures { result ≡ length self.now }
    {
        self.size
    }

    /// Whether there are no bytes.
    pub fn is_empty(&self) -> bool
        ensures { result ≡ (length self.now == 0) }
    {
        self.size == 0
    }
}

impl fmt::Debug for Part {
    fn fmt<W: fmt::Write>(&self, f: &mut fmt::Formatter<W>) -> fmt::Result {
        fmt::Debug::fmt(self.as_slice(), f)
    }
}
