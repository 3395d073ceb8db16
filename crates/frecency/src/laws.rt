// The table of points rises, and the frecency after a use at known pairs.

ghost use Rattle.std.specs.Prelude.{◌≡◌};
ghost use Rattle.frecency.specs.Frecency.{next};
ghost use Rattle.frecency.specs.Laws.{TableRises};

/// The table rises, so the points between two places lie between theirs.
pub fn table_rises()
    ensures { TableRises }
{}

/// The frecency after a use, at known pairs.
#[tactic(auto, unfolding(crate::specs::Frecency::next))]
pub fn known_frecencies()
    ensures first_use { next 0 1000 ≡ 1000 }
    ensures at_the_moment { next 1000000 1000000 ≡ 1021600 }
    ensures between_places { next 1010800 1000000 ≡ 1027917 }
    ensures a_second_before { next 999 1000 ≡ 22599 }
    ensures start_of_table { next 827200 1000000 ≡ 1000121 }
    ensures end_of_table { next 1172800 1000000 ≡ 1172921 }
    ensures capped_after { next 4294967295 0 ≡ 4294967295 }
    ensures capped_before { next 1 4294967295 ≡ 4294967295 }
{}
