//! One file, held against the record of its name.

ghost use Rattle.std.specs.Prelude.{◌≡◌, IfOk, OnOk, IsTrue, option_and_then};
ghost use Rattle.cache_check.specs.Findings.{file_findings, findings_of, record_findings};
ghost use Rattle.disk_theory.specs.Account.{Looks, ending};
ghost use Rattle.index_theory.specs.Scan.{record_of};
ghost use Rattle.entry_file.specs.Looks.{LooksAtMost};
ghost use Rattle.cache_check.specs.Checks as spec;

use crate::body::add_damages;
use crate::{Finding, FindingList, What};
use cache_base::{Buffer, Name, NoMemory};
use disk_theory::{Disk, DiskFault, Place};
use entry_file::{EntryRead, read_meta};
use index_record::{IndexRecord, of_meta};
use std::alloc::Global;

/// Adds how the record that is known of a name differs from that of its file, where there is one and it fits.
pub(crate) fn add_compared(
    name: &Name,
    filed: Option<IndexRecord>,
    known: Option<IndexRecord>,
    out: &mut FindingList,
) -> Result<(), NoMemory>
    ensures { OnOk result
        (spec.AddsFindings name.now (record_findings filed known) out.old out.new) }
{
    let what = match (filed, known) {
        (None, None) => return Ok(()),
        (Some(_), None) => What::Missing,
        (None, Some(_)) => What::Extra,
        (Some(filed), Some(known)) => {
            if filed == known {
                return Ok(());
            }
            What::Differs
        }
    };
    out.push(Finding { name: *name, what })
}

// Adds what is wrong with the file of a name, and gives the record that it should have: none where it does not fit.
fn check_file<D: Disk>(
    alloc: Global,
    disk: &mut D,
    name: &Name,
    buf: &mut Buffer,
    out: &mut FindingList,
) -> Result<Option<IndexRecord>, DiskFault>
    ensures adds { OnOk result (IsTrue D.tells →
        let file = spec.file_at (D.state disk.old) name.now in
        spec.AddsFindings name.now (file_findings name.now file) out.old out.new) }
    ensures filed { IfOk result (λ filed. IsTrue D.tells →
        let file = spec.file_at (D.state disk.old) name.now in
        filed ≡ option_and_then (record_of name.now) file) }
    ensures calls { IsTrue D.tells → let file = spec.file_at (D.state disk.old) name.now in
        LooksAtMost (spec.looks_at name.now file) (D.counts disk.old) (D.counts disk.new) }
    ensures looks { Looks D.Disk (ending result) disk.old disk.new }
{
    match read_meta(alloc, disk, &Place::Entry(*name), name)? {
        EntryRead::Absent => Ok(None),
        EntryRead::Unfit(check) => {
            out.push(Finding {
                name: *name,
                what: What::Unfit(check),
            })?;
            Ok(None)
        }
        EntryRead::Fits { meta, size } => {
            add_damages(disk, name, &meta, buf, out)?;
            Ok(Some(of_meta(name, &meta, size)))
        }
    }
}

/// Adds what is wrong under the name of a file, by the file and by the record that is known.
pub(crate) fn check_entry<D: Disk>(
    alloc: Global,
    disk: &mut D,
    name: &Name,
    known: Option<IndexRecord>,
    buf: &mut Buffer,
    out: &mut FindingList,
) -> Result<(), DiskFault>
    ensures adds { OnOk result (IsTrue D.tells →
        let file = spec.file_at (D.state disk.old) name.now in
        spec.AddsFindings name.now (findings_of name.now file known) out.old out.new) }
    ensures calls { IsTrue D.tells → let file = spec.file_at (D.state disk.old) name.now in
        LooksAtMost (spec.looks_at name.now file) (D.counts disk.old) (D.counts disk.new) }
    ensures looks { Looks D.Disk (ending result) disk.old disk.new }
{
    let filed = check_file(alloc, disk, name, buf, out)?;
    add_compared(name, filed, known, out)?;
    Ok(())
}
