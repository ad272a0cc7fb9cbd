// The number of MD5s that may be computed.
ghost use Rattle.std.specs.Prelude.{◌≡◌, ◌∷◌, [], true, false};
ghost use Rattle.parfind.specs.declared.tracks.mode.Mode.TheVariants.{Plain, Tails};
ghost use Rattle.parfind.specs.Marks.{marks, missing_count};
ghost use Rattle.parfind.specs.Moves.{end_of};
ghost use Rattle.parfind.specs.Order.{origin};
ghost use Rattle.search_tests.specs.Worked.{two_slices, equal_slices, three_lengths};

// Does nothing. Its clauses give the values of `marks`, which limits the MD5s of a search, for
// worked searches.
fn marks_law()
    ensures two { marks two_slices origin (end_of (10 ∷ [])) ≡ 2 }
    ensures equal { marks equal_slices origin (end_of (6 ∷ [])) ≡ 6 }
    ensures tails { marks (three_lengths Tails) origin (end_of (4 ∷ [])) ≡ 3 }
    ensures there { marks (three_lengths Tails) origin origin ≡ 3 }
    ensures plain { marks (three_lengths Plain) origin (end_of (4 ∷ [])) ≡ 1 }
{}

#[test]
fn marks_are_the_lengths_at_places_with_the_crc_of_a_slice(_rt: HostRuntime) {
    marks_law();
}

// Does nothing. Its clauses give the values of `missing_count`, which limits the MD5s of a survey,
// for worked searches.
fn missing_law()
    ensures none { missing_count two_slices (false ∷ false ∷ []) ≡ 2 }
    ensures one { missing_count two_slices (true ∷ false ∷ []) ≡ 1 }
    ensures all { missing_count two_slices (true ∷ true ∷ []) ≡ 0 }
    ensures equal { missing_count equal_slices (true ∷ false ∷ []) ≡ 3 }
    ensures both { missing_count equal_slices (true ∷ true ∷ []) ≡ 0 }
{}

// Does nothing. Its clauses give the same for slices of three lengths at one position.
fn missing_lengths_law()
    ensures none { missing_count (three_lengths Tails) (false ∷ false ∷ false ∷ []) ≡ 3 }
    ensures one { missing_count (three_lengths Tails) (true ∷ false ∷ false ∷ []) ≡ 2 }
    ensures two { missing_count (three_lengths Tails) (true ∷ false ∷ true ∷ []) ≡ 1 }
    ensures all { missing_count (three_lengths Tails) (true ∷ true ∷ true ∷ []) ≡ 0 }
    ensures plain { missing_count (three_lengths Plain) (false ∷ false ∷ false ∷ []) ≡ 1 }
{}

#[test]
fn digests_are_counted_where_a_slice_is_missing(_rt: HostRuntime) {
    missing_law();
    missing_lengths_law();
}
