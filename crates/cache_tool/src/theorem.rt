//! The theorem on one page: what follows from the contract of `run`, in the words of a reader. Each law goes by the
//! clause `performs` alone, so a caller of `run` has it in one step.

ghost use Rattle.cache_tool.specs.Theorem.{ClearIsNoneOrAll, ClearedStaysGone, PutDoesStoppedClearing, PutIsAllOrNothing, PutIsGot, ScriptDoesStoppedClearing, ScriptUpdatesIndex, StoppedClearingIsDone, StoppedClearingIsNoneOrAll, TouchedIsGoneOrWhole, TrustedIndexIsScan, UntouchedIsIntact, UpdatedIndexIsTrusted};

/// Wherever a script stopped, an entry that no command touched since the last acknowledged flush or clearing is intact.
pub fn untouched_is_intact()
    ensures { UntouchedIsIntact }
{}

/// Each other one is gone, or is one complete version, body and metadata together: the one of that flush or clearing,
/// or a later one.
pub fn touched_is_gone_or_whole()
    ensures { TouchedIsGoneOrWhole }
{}

/// What an acknowledged clearing of an origin took does not come back.
pub fn cleared_stays_gone()
    ensures { ClearedStaysGone }
{}

/// A clearing that is stopped leaves nothing of it, its mark, or all of it; and where its mark stands it is done by the
/// next run.
pub fn stopped_clearing_is_done()
    ensures stopped { StoppedClearingIsNoneOrAll }
    ensures clear { ClearIsNoneOrAll }
    ensures one { StoppedClearingIsDone }
    ensures script { ScriptDoesStoppedClearing }
    ensures put { PutDoesStoppedClearing }
{}

/// An index that is trusted agrees with the files, and so does one after an update.
pub fn trusted_index_agrees()
    ensures trusted { TrustedIndexIsScan }
    ensures updated { UpdatedIndexIsTrusted }
    ensures script { ScriptUpdatesIndex }
{}

/// What a `put` that ended with 0 stored is what a later `get` of the key prints, if nothing touched it in between.
pub fn put_is_got()
    ensures { PutIsGot }
{}

/// Wherever a `put` stops, its key has nothing, what it had before, or the whole body; and keys of other names are intact.
pub fn put_is_all_or_nothing()
    ensures { PutIsAllOrNothing }
{}
