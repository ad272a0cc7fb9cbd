ghost use Rattle.parfind.specs.Runs.{CallsHandOut, CallsTellFailures};

/// States the laws of scripts of calls: they return exactly the sightings that they pass, and
/// report each read that failed. Does nothing.
pub fn calls_law()
    ensures hits { CallsHandOut }
    ensures failures { CallsTellFailures }
{}
