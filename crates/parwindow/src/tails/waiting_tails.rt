ghost use Rattle.std.specs.Prelude.{◌≡◌, ◌≤◌, ◌==◌, [], All, filter, length, IfOk, IfSome};
ghost use Rattle.std.specs.List.{list_any};
ghost use Rattle.parset.specs.Limits.{slice_size_limit};
ghost use Rattle.parwindow.specs.Index.{tails_of};
ghost use Rattle.parwindow.specs.Running.{IsRun};
ghost use Rattle.parwindow.specs.Tails.{tail_lengths_of, IsTail};
ghost use Rattle.parwindow.specs.Window.{AreTails, tail_limit};

use crate::index::Index;
use crate::tails::running::{Running, for_several, running_for};
use crate::tails::tail::Tail;
use crate::tails::tail_list::tails_for;
use std::alloc::{AllocError, Global};
use std::marker::Model;

/// The tails of a window that doesn't look for short slices yet.
#[derive(Drop)]
pub struct WaitingTails {
    size: usize,
    list: Vec<Tail>,
    running: Option<Running>,
}

impl Model for WaitingTails {
    ghost use Rattle.parwindow.specs.WaitingTails.{WaitingState};

    ghost Value = { WaitingState };

    ghost use Rattle.parwindow.specs.Waits.{waiting_view, IsWaiting};

    ghost view = { waiting_view };

    ghost invariant = { IsWaiting };
}

impl WaitingTails {
    /// Makes the tails of up to 256 lengths, for a window of `size` bytes. No
    /// other call takes memory.
    pub fn new(alloc: Global, size: usize, lengths: &[usize]) -> Result<WaitingTails, AllocError>
        requires within { size ≤ slice_size_limit }
        requires few { length lengths.now ≤ tail_limit }
        requires tails { AreTails size lengths.now }
        ensures { IfOk result (λ waiting. waiting ≡ record { size = size; lengths = lengths.now }) }
    {
        let running = running_for(alloc, size, lengths.len())?;
        let list = tails_for(alloc, size, lengths)?;
        Ok(WaitingTails {
            size,
            list,
            running,
        })
    }

    /// Removes each length that isn't a short-slice length of this index.
    pub fn keep_those_of(&mut self, index: &Index)
        ensures { self.new ≡ record self.old {
          lengths
              = filter (λ own. list_any (λ tail. tail == own) (tails_of index.now)) self.old.lengths;
        } }
    {
        self.list.retain(|tail| index.has_tail(tail.length));
    }

    /// Returns the tails themselves, and the running register if there are several tails.
    pub(crate) fn into_parts(self) -> (Vec<Tail>, Option<Running>)
        ensures lengths { tail_lengths_of result.0.items ≡ self.lengths }
        ensures each { All (IsTail self.size []) result.0.items }
        ensures running { IfSome result.1 (IsRun self.size []) }
    {
        let running = for_several(self.running, self.list.len());
        (self.list, running)
    }
}
