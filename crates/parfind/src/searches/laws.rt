ghost use Rattle.parfind.specs.PlainMode.{PlainSees, PlainMarks, PlainMisses, ModesAgree};
ghost use Rattle.parfind.specs.Finders.{BelongsLater};
ghost use Rattle.parfind.specs.OnePass.{ReachAddsUp};
ghost use Rattle.parfind.specs.Steps.{StepHandsOut, SpentSeesNone};

/// States the laws of steps: each returns exactly the sightings that it passes, and if a budget is
/// spent, none is at its places. Does nothing.
pub fn step_law()
    ensures hits { StepHandsOut }
    ensures spent { SpentSeesNone }
{}

/// States the law of reading: how much all calls since an opening read, given what is true of each
/// of them. Does nothing.
pub fn reach_law()
    ensures { ReachAddsUp }
{}

/// States the law of finders: a finder still belongs to its shelf after others have read in it
/// between two calls. Does nothing.
pub fn finder_law()
    ensures { BelongsLater }
{}

/// States the laws of modes: the plain mode compares the whole window, and its marks are places; if
/// zeros follow a slice's unpadded length in a window, both modes see the slice. Does nothing.
pub fn mode_law()
    ensures sees { PlainSees }
    ensures marks { PlainMarks }
    ensures misses { PlainMisses }
    ensures agree { ModesAgree }
{}
