//! All entries, held against all records.

ghost use Rattle.std.specs.BTreeSet.{contains as contains_of};
ghost use Rattle.std.specs.Prelude.{◌≡◌, ◌++◌, IfOk, OnOk, IsTrue};
ghost use Rattle.cache_base.specs.Names.{AreSorted, name_cmp};
ghost use Rattle.cache_check.specs.Findings.{AreFindings, findings as findings_in};
ghost use Rattle.disk_theory.specs.Account.{Looks, ending};
ghost use Rattle.disk_theory.specs.State.{standing};
ghost use Rattle.entry_file.specs.Looks.{LooksAtMost};
ghost use Rattle.index_theory.specs.Ever.{entries_on};
ghost use Rattle.record_list.specs.Lists.{AreSorted as AreByName, HasNames};
ghost use Rattle.cache_check.specs.Checks as spec;
ghost use Rattle.cache_check.specs.Rows as rows;

use crate::FindingList;
use crate::entry::{add_compared, check_entry};
use crate::rows::{Row, first_row, without_first};
use cache_base::{Buffer, Name, Names, name_set};
use disk_theory::{Disk, DiskFault};
use index_record::{IndexRecord, Records};
use record_list::{by_name, rise};
use std::alloc::Global;
use std::collections::BTreeSet;

// Adds what is wrong under the name of a row.
fn check_row<D: Disk>(
    alloc: Global,
    disk: &mut D,
    row: &Row,
    buf: &mut Buffer,
    out: &mut FindingList,
) -> Result<(), DiskFault>
    ensures adds { OnOk result (IsTrue D.tells →
        spec.AddsFindings row.now.name
        (rows.row_findings (standing (D.state disk.old)) row.now) out.old out.new) }
    ensures calls { IsTrue D.tells →
        LooksAtMost (rows.row_looks (standing (D.state disk.old)) row.now)
        (D.counts disk.old) (D.counts disk.new) }
    ensures looks { Looks D.Disk (ending result) disk.old disk.new }
{
    if row.filed {
        check_entry(alloc, disk, &row.name, row.known, buf, out)
    } else {
        add_compared(&row.name, None, row.known, out)?;
        Ok(())
    }
}

// Adds what is wrong under the name of a row, unless its entry is being written.
fn check_turn<D: Disk>(
    alloc: Global,
    disk: &mut D,
    row: &Row,
    writing: &BTreeSet<Name>,
    buf: &mut Buffer,
    out: &mut FindingList,
) -> Result<(), DiskFault>
    ensures adds { OnOk result (IsTrue D.tells →
        let is_written = contains_of name_cmp writing.now row.now.name in
        out.new ≡ out.old ++ rows.turn_findings (standing (D.state disk.old)) is_written row.now) }
    ensures calls { IsTrue D.tells →
        let is_written = contains_of name_cmp writing.now row.now.name in
        LooksAtMost (rows.turn_looks (standing (D.state disk.old)) is_written row.now)
        (D.counts disk.old) (D.counts disk.new) }
    ensures looks { Looks D.Disk (ending result) disk.old disk.new }
{
    if writing.contains(&row.name) {
        return Ok(());
    }
    check_row(alloc, disk, row, buf, out)
}

// What is wrong under all names that have a file or a record, where these are the names of the files.
fn check_all<D: Disk>(
    alloc: Global,
    disk: &mut D,
    names: &[Name],
    records: &[IndexRecord],
    writing: &[Name],
) -> Result<FindingList, DiskFault>
    requires sorted { AreSorted names.now }
    requires by_name { AreByName records.now }
    requires told { IsTrue D.tells → spec.AllStand (D.state disk.old) names.now }
    ensures findings { IfOk result (λ list. IsTrue D.tells →
        let files = spec.files_of (D.state disk.old) names.now in
        list ≡ findings_in files records.now writing.now) }
    ensures calls { IsTrue D.tells → let files = spec.files_of (D.state disk.old) names.now in
        LooksAtMost (spec.looks_over files writing.now) (D.counts disk.old) (D.counts disk.new) }
    ensures looks { Looks D.Disk (ending result) disk.old disk.new }
{
    let set = name_set(alloc, writing)?;
    let mut buf = Buffer::new(alloc)?;
    let mut out = FindingList::new(alloc);
    let mut filed = names;
    let mut known = records;
    'rows: while let Some(row) = first_row(filed, known) {
        check_turn(alloc, disk, &row, &set, &mut buf, &mut out)?;
        filed = without_first(filed, row.filed);
        known = without_first(known, row.known.is_some());
    }
    Ok(out)
}

/// What is wrong under each name that has a file or a record and is not among `writing`, in name order: a file
/// that does not fit, each chunk of a file that fits and whose hash is not the stored one, a file without a record, a
/// record without a file that fits, and a record that is not that of the file. The records may stand in any order. The
/// disk is only looked at: once for the names of the files, and then for each file at most four times and once for each
/// chunk of its body; for a name that is among `writing` or has only a record, not at all.
pub fn findings<D: Disk>(
    alloc: Global,
    disk: &mut D,
    records: &Records,
    writing: &Names,
) -> Result<FindingList, DiskFault>
    requires { HasNames records.now }
    ensures findings { IfOk result (λ list. IsTrue D.tells →
        AreFindings (entries_on (D.state disk.old)) records.now writing.now list) }
    ensures once { IsTrue D.tells →
        spec.LooksOnce (entries_on (D.state disk.old)) writing.now
        (D.counts disk.old) (D.counts disk.new) }
    ensures looks { Looks D.Disk (ending result) disk.old disk.new }
{
    let mut names = Names::new(alloc);
    disk.entries(&mut names)?;
    let listed = names.as_slice();
    let skipped = writing.as_slice();
    if rise(records.as_slice()) {
        return check_all(alloc, disk, listed, records.as_slice(), skipped);
    }
    let sorted = by_name(Vec::from_slice(alloc, records.as_slice())?);
    check_all(alloc, disk, listed, sorted.as_slice(), skipped)
}
