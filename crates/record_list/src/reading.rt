//! Reading records from a file.

ghost use Rattle.std.specs.Prelude.{◌≡◌, ◌≤◌, IfErr, IfOk, None, OnOk, Some, if◌then◌else◌, length, map};
ghost use Rattle.index_record.specs.Record.{record_in};
ghost use Rattle.record_list.specs.Change.{HasNoRemoved};
ghost use Rattle.record_list.specs.Lists.{HasNames, names_of};
ghost use Rattle.record_list.specs.Stored.{AreClean, IsFirstFault, are_distinct, hash_size, present, read_as, records_fault, stored_in};

use crate::name_order::{rise, sort};
use crate::{HASH, RecordsFault};
use cache_base::{NoMemory, u32_at};
use index_record::{IndexRecord, RECORD, Records, is_removed};
use std::alloc::Global;

// Puts the records in these groups in the place of those of the list, whose memory is used again.
fn read_into(records: &mut Vec<IndexRecord>, groups: &[[u8; RECORD]]) -> Result<(), NoMemory>
    ensures { OnOk result (records.new.items ≡ read_as (map record_in groups.now)) }
{
    records.clear();
    for group in groups {
        records.push(index_record::read(group))?;
    }
    Ok(())
}

// The records in these groups.
fn records_of(alloc: Global, groups: &[[u8; RECORD]]) -> Result<Vec<IndexRecord>, NoMemory>
    ensures { IfOk result (λ records. records.items ≡ read_as (map record_in groups.now)) }
{
    let mut records = Vec::with_capacity(alloc, groups.len())?;
    read_into(&mut records, groups)?;
    Ok(records)
}

// Whether no name stands twice. The list is sorted for it.
fn all_distinct(list: &mut Vec<IndexRecord>) -> bool
    ensures { result ≡ are_distinct (names_of list.old.items) }
{
    sort(list);
    rise(list.as_slice())
}

// The bytes of each record of a part whose length and hash fit.
fn groups_of(part: &[u8]) -> Result<&[[u8; RECORD]], RecordsFault>
    requires { hash_size ≤ length part.now }
    ensures names { OnOk result (records_fault part.now
        ≡ (if are_distinct (names_of (stored_in part.now)) then None else Some RecordsFault.Repeated)) }
    ensures groups { IfOk result (λ groups. map record_in groups.now ≡ stored_in part.now) }
    ensures fault { IfErr result (IsFirstFault part.now) }
{
    let (body, hash) = part.split_at(part.len() - HASH);
    let (groups, rest) = body.as_chunks::<RECORD>();
    if !rest.is_empty() {
        return Err(RecordsFault::Length);
    }
    if u32_at(hash, 0) != jenkins_hash::hash(body) {
        return Err(RecordsFault::Hash);
    }
    Ok(groups)
}

/// The records in the part of a file after its beginning, in the order of the file. Their dirty and fresh bits are
/// cleared.
pub fn parse(alloc: Global, part: &[u8]) -> Result<Records, RecordsFault>
    requires { hash_size ≤ length part.now }
    ensures passes { OnOk result (records_fault part.now ≡ None) }
    ensures records { IfOk result (λ records. records ≡ read_as (stored_in part.now)) }
    ensures distinct { IfOk result HasNames }
    ensures clean { IfOk result AreClean }
    ensures fault { IfErr result (IsFirstFault part.now) }
{
    let groups = groups_of(part)?;
    let mut records = records_of(alloc, groups)?;
    // In a file that this crate printed they rise. Others are sorted in their memory, and read once more, so that no
    // second list stands beside the bytes.
    if !rise(records.as_slice()) {
        if !all_distinct(&mut records) {
            return Err(RecordsFault::Repeated);
        }
        read_into(&mut records, groups)?;
    }
    Ok(Records::from_vec(records))
}

/// As `parse`, but the removed records are left out. They are checked like all others.
pub fn parse_present(alloc: Global, part: &[u8]) -> Result<Records, RecordsFault>
    requires { hash_size ≤ length part.now }
    ensures passes { OnOk result (records_fault part.now ≡ None) }
    ensures records { IfOk result (λ records. records ≡ read_as (present (stored_in part.now))) }
    ensures distinct { IfOk result HasNames }
    ensures clean { IfOk result AreClean }
    ensures present { IfOk result HasNoRemoved }
    ensures fault { IfErr result (IsFirstFault part.now) }
{
    let mut records = parse(alloc, part)?.into_vec();
    records.retain(|record| !is_removed(record));
    Ok(Records::from_vec(records))
}
