//! What commands keep: the shelf, the records, and what a crash may leave of the entries.

ghost use Rattle.cache_theory.specs.Cleared.{ClearedStayGone, ResumedLeavesNone, WrittenAreSpared};
ghost use Rattle.cache_theory.specs.Faulted.{CutIsTold, FaultCutIsTold, FaultedIsRead, FaultedIsTold, FaultsAreInFront, FaultsAreWithin, FrontIsTold, KeptAreCounted, NextIsNumbered, NextMayFault, NoReplyIsFault, WholeIsTold};
ghost use Rattle.cache_theory.specs.Keeps.{BeginKeeps, CreateFilesOnce, CreateKeeps, CreateLeavesUnpublished, CreateUnpublished, MoveAsideFilesOnce, MoveAsideKeeps, PublishFilesOnce, PublishKeeps, PublishLeavesUnpublished, QuietFilesOnce, QuietIsSafe, QuietUnpublished, RemoveFilesOnce, RemoveKeeps, RemoveLeavesUnpublished, RenameFilesOnce, RenameKeeps, RenameLeavesUnpublished, SafeIsCrashSafe, SyncFilesOnce, SyncKeeps, SyncLeavesUnpublished, WholeIsFine, WriteAsideKeeps, WriteFilesOnce, WriteKeeps, WriteLeavesUnpublished};
ghost use Rattle.cache_theory.specs.Laws.{AltIsOfGet, AltStays, BegunTouchesMore, ChangesAreTouched, ChangesLeaveRest, ClearGoesByScan, ClearIsOfNames, MarkStays, NoMarkIsLeft, ResumeGoesByScan, ResumeIsOfNames, ResumeWithoutMark, DoomedAreLost, EntriesHaveRecords, EvictIsOfNames, EvictMeetsLimit, EvictTakesOff, HasIsOfShelf, ListIsOfRecords, EvictedMayGo, RecordTellsCovered, ShelfStaysTable, UnusedAreTakenOff, VerifyIsOfRecords};
ghost use Rattle.cache_theory.specs.Loading.{DumpLoadsBack, ItemsAreStocked, StockIsFound};
ghost use Rattle.cache_theory.specs.Proper.{OpensProper, StaysProper};
ghost use Rattle.cache_theory.specs.Refiled.{EntriesAreRefiled};
ghost use Rattle.cache_theory.specs.Session.{MarksAreOfKept};
ghost use Rattle.cache_theory.specs.Text.{ReplyIsNotEmpty};
ghost use Rattle.cache_theory.specs.Wording.{MarksAreWorded};

/// The shelf stays a table, whatever commands come: names rise, and none stands twice.
pub fn shelf_stays_table()
    ensures { ShelfStaysTable }
{}

/// A name that the update has still to read after a command had to be read before it as well, and
/// what stands there is unchanged.
pub fn changes_leave_rest()
    ensures { ChangesLeaveRest }
{}

/// What stands under a name changes only where a command touches the name.
pub fn changes_are_touched()
    ensures { ChangesAreTouched }
{}

/// Eviction takes entries that stand and are not in use off the shelf until all take at most the
/// limit or none is left that may go. It ends the update, and does nothing else.
pub fn evict_takes_off()
    ensures unused { UnusedAreTakenOff }
    ensures off { EvictTakesOff }
    ensures may { EvictedMayGo }
    ensures limit { EvictMeetsLimit }
{}

/// The machine's own eviction is that of the names of its victims, and a crash may lose at least as much
/// by it as by an eviction of no names.
pub fn evict_is_of_names()
    ensures same { EvictIsOfNames }
    ensures more { BegunTouchesMore }
{}

/// The machine's own clearing of an origin is that of its names, and the records of a scan tell which these are: the
/// record of an entry says whether it is of the origin and not pinned. What stands under them is off the shelf then,
/// and the update has ended.
pub fn clear_goes_by_scan()
    ensures same { ClearIsOfNames }
    ensures scan { ClearGoesByScan }
    ensures resumed { ResumeIsOfNames }
    ensures unmarked { ResumeWithoutMark }
    ensures resumed_scan { ResumeGoesByScan }
    ensures stays { MarkStays }
    ensures left { NoMarkIsLeft }
    ensures records { RecordTellsCovered }
    ensures lost { DoomedAreLost }
{}

/// The machine's own check is that against the records of a scan, its list is that of these records, and an entry is
/// there where one fits.
pub fn replies_go_by_scan()
    ensures verify { VerifyIsOfRecords }
    ensures list { ListIsOfRecords }
    ensures has { HasIsOfShelf }
{}

/// A `getalt` and a `main` answer by what a `get` finds, and refuse where it does. They change nothing.
pub fn alt_goes_by_get()
    ensures replies { AltIsOfGet }
    ensures stays { AltStays }
{}

/// A command on entries changes what stands under one name at most, and no other name leaves the
/// rest of the update.
pub fn entries_are_refiled()
    ensures { EntriesAreRefiled }
{}

/// A name has an entry exactly where the scan has a record of it.
pub fn entries_have_records()
    ensures { EntriesHaveRecords }
{}

/// The machine begins in a proper state.
pub fn opens_proper()
    ensures { OpensProper }
{}

/// And every command leaves it in one.
pub fn stays_proper()
    ensures { StaysProper }
{}

/// What is kept of the disk makes every image safe, and a disk at rest keeps it.
pub fn safe_is_crash_safe()
    ensures safe { SafeIsCrashSafe }
    ensures quiet { QuietIsSafe }
{}

/// Each change of the disk keeps it.
pub fn changes_keep_safe()
    ensures begin { BeginKeeps }
    ensures whole { WholeIsFine }
    ensures write { WriteKeeps }
    ensures aside { WriteAsideKeeps }
    ensures create { CreateKeeps }
    ensures rename { RenameKeeps }
    ensures publish { PublishKeeps }
    ensures move_aside { MoveAsideKeeps }
    ensures remove { RemoveKeeps }
    ensures sync { SyncKeeps }
{}

/// After each change of the disk no file stands at the entry places of two names.
pub fn changes_file_once()
    ensures quiet { QuietFilesOnce }
    ensures write { WriteFilesOnce }
    ensures create { CreateFilesOnce }
    ensures rename { RenameFilesOnce }
    ensures publish { PublishFilesOnce }
    ensures move_aside { MoveAsideFilesOnce }
    ensures remove { RemoveFilesOnce }
    ensures sync { SyncFilesOnce }
{}

/// A file that is new among the doomed stands at no entry place, and so it stays until it is published.
pub fn changes_leave_unpublished()
    ensures new { CreateUnpublished }
    ensures create { CreateLeavesUnpublished }
    ensures write { WriteLeavesUnpublished }
    ensures rename { RenameLeavesUnpublished }
    ensures publish { PublishLeavesUnpublished }
    ensures remove { RemoveLeavesUnpublished }
    ensures sync { SyncLeavesUnpublished }
    ensures quiet { QuietUnpublished }
{}

/// Each reply has some bytes.
pub fn replies_are_not_empty()
    ensures { ReplyIsNotEmpty }
{}

/// No reply begins with `fault`. So what went out tells how many commands are answered, and which of them by `fault`;
/// and that is what it begins with.
pub fn faults_are_told()
    ensures reply { NoReplyIsFault }
    ensures told { FaultedIsTold }
    ensures whole { WholeIsTold }
    ensures front { FrontIsTold }
    ensures cut { CutIsTold }
    ensures fault_cut { FaultCutIsTold }
    ensures read { FaultedIsRead }
{}

/// Commands that are answered `fault` are left out: the later ones begin with the state that the others left, and so do the
/// marks.
pub fn faults_are_left_out()
    ensures front { FaultsAreInFront }
    ensures next { NextMayFault }
    ensures counted { KeptAreCounted }
    ensures within { FaultsAreWithin }
    ensures numbered { NextIsNumbered }
    ensures marks { MarksAreOfKept }
{}

/// The marks, which are a fold over the commands, say what was touched and what was written since the last flush that
/// is acknowledged.
pub fn marks_are_worded()
    ensures { MarksAreWorded }
{}

/// Once a clearing of an origin is acknowledged, no crash brings back a version that it took: what is found of the
/// origin and is not pinned was written after the clearing, through an object that came after it or that it did not
/// cover.
pub fn cleared_stay_gone()
    ensures gone { ClearedStayGone }
    ensures spared { WrittenAreSpared }
    ensures resumed { ResumedLeavesNone }
{}

/// The items of a dump are written one after the other, each is found then, and each key of another name is found as
/// before. So a dump brings back what may be dumped, and nothing else.
pub fn items_are_stocked()
    ensures stocked { ItemsAreStocked }
    ensures found { StockIsFound }
    ensures back { DumpLoadsBack }
{}
