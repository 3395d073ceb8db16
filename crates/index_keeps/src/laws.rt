//! Work on the index leaves the entries, and what a crash may leave of them, as they were.

ghost use Rattle.index_keeps.specs.Keeps.{LeftIsFiledOnce, LeftIsSafe, SparedIsFiledOnce, SparedIsSafe, StandsScan};

/// What leaves the entries alone keeps what a crash may leave of them, and that no file stands at the places of two.
pub fn left_is_safe()
    ensures safe { LeftIsSafe }
    ensures once { LeftIsFiledOnce }
{}

/// So do the opening, the writing and the closing of the index, which sync between their changes.
pub fn spared_is_safe()
    ensures safe { SparedIsSafe }
    ensures once { SparedIsFiledOnce }
{}

/// A scan of the entries that stand is a scan of the machine's shelf.
pub fn stands_scan()
    ensures { StandsScan }
{}
