//! When an index is written, and what a clearing leaves.

ghost use Rattle.cache_store.specs.Clearing.{ClearingLeavesNone};
ghost use Rattle.cache_store.specs.InUse.{FewAreSpared, FewStayInUse};
ghost use Rattle.cache_store.specs.StoppedClearing.{ResumedClearingIsNoneOrAll, StoppedClearingIsNoneOrAll, StoppedResumeKeepsMark};

/// Where few records differ from those of the index that stands, a `flush` does not write it, and a closing leaves it
/// as it is with a journal of what differs.
pub fn few_leave_index()
    ensures spared { FewAreSpared }
    ensures in_use { FewStayInUse }
{}

/// Once a clearing of an origin is answered, no crash leaves a version of it that is not pinned, where the records in
/// memory were right: where the directory was honest at the opening, or a `rebuild` has answered. What later commands
/// may bring there is said by `cache_theory::cleared_stay_gone`.
pub fn clearing_leaves_none()
    ensures { ClearingLeavesNone }
{}

/// Wherever a clearing of an origin stops, a crash leaves the mark of the origin, or all entries as before, or none
/// of the origin that is not pinned, where the records in memory were right. What is meant by as before is what the
/// marks of the commands before the clearing allow. Where no mark could stand before it, an opening and the clearing
/// that is resumed there leave the first or the last. And wherever a clearing stops that is resumed, its mark still
/// stands, or none is left.
pub fn stopped_clearing_is_none_or_all()
    ensures stopped { StoppedClearingIsNoneOrAll }
    ensures resumed { ResumedClearingIsNoneOrAll }
    ensures again { StoppedResumeKeepsMark }
{}
