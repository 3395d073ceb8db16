ghost use Rattle.record_list.specs.Change.{HasNoRemoved};
ghost use Rattle.record_list.specs.Lists.{HasNames};
ghost use Rattle.record_list.specs.Stored.{AreClean};

use crate::examples::CLEAN;
use cache_base::{Bytes, NoMemory};
use index_file::{IndexFault, IndexImage, index_fits_exactly, index_reads_back, parse, print};
use std::alloc::Global;
use std::test::Fail;

// One of the moment 1000 with a record, as 61 bytes.
const ONE: &[u8] = b"\0\0\0\x0a\0\0\x03\xe8\0\0\0\0\0\0\0\0\
\x11\x11\x11\x11\x11\x11\x11\x11\x11\x11\x11\x11\x11\x11\x11\x11\x11\x11\x11\x11\0\0\x03\xe8\
\xda\x39\xa3\xee\x5e\x6b\x4b\x0d\xff\xff\xff\xff\0\x80\0\0\x01\xfc\xcb\x86\x9b";

// A dirty one of the moment 0x12345678 with three records, as 143 bytes.
const THREE: &[u8] = b"\0\0\0\x0a\x12\x34\x56\x78\0\0\0\x01\0\0\0\0\
\x11\x11\x11\x11\x11\x11\x11\x11\x11\x11\x11\x11\x11\x11\x11\x11\x11\x11\x11\x11\0\0\x03\xe8\
\xda\x39\xa3\xee\x5e\x6b\x4b\x0d\xff\xff\xff\xff\0\x80\0\0\x01\
\x22\x22\x22\x22\x22\x22\x22\x22\x22\x22\x22\x22\x22\x22\x22\x22\x22\x22\x22\x22\0\0\x01\xf4\
\x01\x02\x03\x04\x05\x06\x07\x08\0\x0c\0\x0f\x05\x84\0\0\x02\
\x33\x33\x33\x33\x33\x33\x33\x33\x33\x33\x33\x33\x33\x33\x33\x33\x33\x33\x33\x33\0\0\0\x07\
\xda\x39\xa3\xee\x5e\x6b\x4b\x0d\0\x01\0\x02\x03\xc2\0\x01\x01\xaf\x0c\x25\x31";

// The one without records with a byte more, and with the hash 0.
const TOO_LONG: &[u8] = b"\0\0\0\x0a\0\0\x03\xe8\0\0\0\0\0\0\0\0\xbd\x49\xd1\x0d\0";

const NO_HASH: &[u8] = b"\0\0\0\x0a\0\0\x03\xe8\0\0\0\0\0\0\0\0\0\0\0\0";

// The record of `ONE` twice.
const TWICE: &[u8] = b"\0\0\0\x0a\0\0\x03\xe8\0\0\0\0\0\0\0\0\
\x11\x11\x11\x11\x11\x11\x11\x11\x11\x11\x11\x11\x11\x11\x11\x11\x11\x11\x11\x11\0\0\x03\xe8\
\xda\x39\xa3\xee\x5e\x6b\x4b\x0d\xff\xff\xff\xff\0\x80\0\0\x01\
\x11\x11\x11\x11\x11\x11\x11\x11\x11\x11\x11\x11\x11\x11\x11\x11\x11\x11\x11\x11\0\0\x03\xe8\
\xda\x39\xa3\xee\x5e\x6b\x4b\x0d\xff\xff\xff\xff\0\x80\0\0\x01\xc2\xbf\x23\x39";

// Two records of one name, of which the first is removed.
const REPEATED: &[u8] = b"\0\0\0\x0a\0\0\0\0\0\0\0\0\0\0\0\0\
\x11\x11\x11\x11\x11\x11\x11\x11\x11\x11\x11\x11\x11\x11\x11\x11\x11\x11\x11\x11\0\0\0\0\
\0\0\0\0\0\0\0\0\xff\xff\xff\xff\0\xa0\0\0\0\
\x11\x11\x11\x11\x11\x11\x11\x11\x11\x11\x11\x11\x11\x11\x11\x11\x11\x11\x11\x11\0\0\x03\xe8\
\xda\x39\xa3\xee\x5e\x6b\x4b\x0d\xff\xff\xff\xff\0\x80\0\0\x01\x77\xda\x88\x0a";

// A removed record, and one with the dirty and the fresh bit.
const REMOVED: &[u8] = b"\0\0\0\x0a\0\0\0\0\0\0\0\0\0\0\0\0\
\x11\x11\x11\x11\x11\x11\x11\x11\x11\x11\x11\x11\x11\x11\x11\x11\x11\x11\x11\x11\0\0\0\0\
\0\0\0\0\0\0\0\0\xff\xff\xff\xff\0\xa0\0\0\0\
\x33\x33\x33\x33\x33\x33\x33\x33\x33\x33\x33\x33\x33\x33\x33\x33\x33\x33\x33\x33\0\0\0\x07\
\xda\x39\xa3\xee\x5e\x6b\x4b\x0d\0\x01\0\x02\x03\xda\0\x01\x01\x2a\x17\xd3\xd7";

// The same moment, and the second record without its two bits.
const LEFT: &[u8] = b"\0\0\0\x0a\0\0\0\0\0\0\0\0\0\0\0\0\
\x33\x33\x33\x33\x33\x33\x33\x33\x33\x33\x33\x33\x33\x33\x33\x33\x33\x33\x33\x33\0\0\0\x07\
\xda\x39\xa3\xee\x5e\x6b\x4b\x0d\0\x01\0\x02\x03\xc2\0\x01\x01\x42\x75\x6b\x03";

// The bytes, with one of them changed and some of the last cut off.
fn changed(alloc: Global, bytes: &[u8], at: usize, to: u8, cut: usize) -> Result<Bytes, NoMemory> {
    let end = bytes.len().saturating_sub(cut);
    let mut out = Bytes::new(alloc);
    for (i, x) in bytes.iter().enumerate() {
        if i < end {
            out.push(if i == at { to } else { *x })?;
        }
    }
    Ok(out)
}

fn printed(alloc: Global, image: &IndexImage) -> Result<Bytes, NoMemory>
    requires distinct { HasNames image.now.records }
    requires present { HasNoRemoved image.now.records }
    requires clean { AreClean image.now.records }
{
    print(alloc, &image.records, image.timestamp, image.dirty)
}

// The bytes of an index, its moment, whether it is dirty, its records, and how it is printed.
type Image = (usize, u32, bool, usize, &'static [u8]);

fn reads_as(alloc: Global, bytes: &[u8], due: Image) -> Result<bool, Fail> {
    let image = parse(alloc, bytes)?;
    let printed = printed(alloc, &image)?;
    let records = image.records.as_slice().len();
    let (moment, dirty) = (image.timestamp, image.dirty);
    Ok((bytes.len(), moment, dirty, records, printed.as_slice()) == due)
}

#[test]
fn indexes_are_read_and_printed(rt: HostRuntime) -> Result<(), Fail> {
    for (bytes, image) in [
        (CLEAN, (20, 1000, false, 0, CLEAN)),
        (ONE, (61, 1000, false, 1, ONE)),
        (THREE, (143, 0x1234_5678, true, 3, THREE)),
        // removed records and two bits are left out
        (REMOVED, (102, 0, false, 1, LEFT)),
    ] {
        assert!(rt;
            reads_as(rt.alloc(), bytes, image)?,
            "of {} bytes",
            bytes.len()
        );
    }
    Ok(())
}

fn is_dirty_changed(alloc: Global, at: usize, to: u8) -> Result<bool, Fail> {
    let bytes = changed(alloc, ONE, at, to, 0)?;
    Ok(parse(alloc, bytes.as_slice())?.dirty)
}

fn reads_changed_as(alloc: Global, at: usize, to: u8, due: Image) -> Result<bool, Fail> {
    let bytes = changed(alloc, ONE, at, to, 0)?;
    reads_as(alloc, bytes.as_slice(), due)
}

#[test]
fn any_flag_but_0_is_dirty_and_kilobytes_are_not_read(rt: HostRuntime) -> Result<(), Fail> {
    assert!(rt; is_dirty_changed(rt.alloc(), 8, 0x80)?);
    assert!(rt; reads_changed_as(rt.alloc(), 15, 7, (61, 1000, false, 1, ONE))?);
    Ok(())
}

fn fault_of(
    alloc: Global,
    bytes: &[u8],
    at: usize,
    to: u8,
    cut: usize,
) -> Result<Option<IndexFault>, NoMemory> {
    let bytes = changed(alloc, bytes, at, to, cut)?;
    Ok(parse(alloc, bytes.as_slice()).err())
}

#[test]
fn each_check_fails_in_its_turn(rt: HostRuntime) {
    for (bytes, at, to, cut, fault) in [
        (CLEAN, 3, 9, 1, IndexFault::Short),
        (ONE, 3, 9, 1, IndexFault::Version),
        (ONE, 60, 0, 1, IndexFault::Length),
        (ONE, 60, 0, 0, IndexFault::Hash),
        (CLEAN, 3, 9, 0, IndexFault::Version),
        (TOO_LONG, 20, 0, 0, IndexFault::Length),
        (NO_HASH, 19, 0, 0, IndexFault::Hash),
        (TWICE, 97, 1, 0, IndexFault::Repeated),
        // a removed record takes its name
        (REPEATED, 0, 0, 0, IndexFault::Repeated),
    ] {
        let found = fault_of(rt.alloc(), bytes, at, to, cut);
        assert!(rt; found == Ok(Some(fault)), "{fault:?}");
    }
}

#[test]
fn laws_are_called() {
    index_reads_back();
    index_fits_exactly();
}
