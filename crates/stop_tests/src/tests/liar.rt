//! Every verb over disks that make their answers up.

use super::*;
use disk_model::LiarDisk;
use entry_file::{EntryRead, read_meta};
use entry_name::name_of;
use std::test::Fail;

const EVERY_COMMAND: &[u8] =
    b"at 5\ncreate 0 :x\nappend 0 3\nabc\nset 0 1 a\nb\nunset 0 b\nelement 0 a\nuse 0\nfinish 0\nread 0 0 3\nset 0 1 a\nc\n\
    use 0\nclose 0\nopen 1 :x\nread 1 0 3\nget :x\nhas :x\nlist\nevict 0\nstep 1\nstate\nverify\nrebuild\nflush\n\
    doom :x\ncreate 2 :y\nclose 1\n";

// Every verb, and what its source gives.
const VERBS: [(&str, &[u8]); 12] = [
    ("1000 run", EVERY_COMMAND),
    ("1000 put :x", b"hello"),
    ("1000 get :x", b""),
    ("1000 doom :x", b""),
    ("1000 evict 0", b""),
    ("1000 flush", b""),
    ("1000 list", b""),
    ("1000 verify", b""),
    ("1000 rebuild", b""),
    ("1000 fill 1 1", b""),
    ("1000 dump", b""),
    ("1000 load", DUMPED),
];

// At the limits of what is read: no tail, a tail, a block, and what a number holds.
const SIZES: [u64; 7] = [0, 3, 4, 40, 262_148, 4_294_967_295, u64::MAX];

// An index of whole records, of which no memory holds so many.
const NO_MEMORY: u64 = 18_446_744_073_709_551_579;

// How the verb ends over such a disk.
fn ending(alloc: Global, size: u64, byte: u8, verb: (&str, &[u8])) -> Result<Status, Fail> {
    let mut disk = LiarDisk::new(size, byte);
    Ok(ends(alloc, &mut disk, verb.0, verb.1)?.0)
}

fn is_answer(status: Status) -> bool {
    status == Status::Done || status == Status::No
}

// How many verbs are answered or want memory over such a disk, up to the first that is not, and how many want memory.
fn answered(alloc: Global, size: u64, byte: u8) -> Result<(usize, usize), Fail> {
    let mut without = 0usize;
    for verb in 0..VERBS.len() {
        let status = ending(alloc, size, byte, VERBS[verb])?;
        if status == Status::Memory {
            without = without.saturating_add(1);
        } else if !is_answer(status) {
            return Ok((verb, without));
        }
    }
    Ok((VERBS.len(), without))
}

// Whatever a disk makes up, no verb answers a fault of it, and none asks for memory that there is not.
#[test]
fn every_verb_is_answered(rt: HostRuntime) -> Result<(), Fail> {
    assert!(rt; answered(rt.alloc(), 4096, 0)? == (12, 0));
    for size in SIZES {
        for byte in [0, 1, 255] {
            let all = answered(rt.alloc(), size, byte)? == (12, 0);
            assert!(rt; all, "{size} bytes of {byte}");
        }
    }
    Ok(())
}

// It is seen to be no index and no journal, before memory is taken for it.
#[test]
fn a_size_that_no_memory_holds(rt: HostRuntime) -> Result<(), Fail> {
    for byte in [0, 1, 255] {
        assert!(rt; answered(rt.alloc(), NO_MEMORY, byte)? == (12, 0));
    }
    Ok(())
}

fn is_unfit(alloc: Global, size: u64, byte: u8) -> bool {
    let mut disk = LiarDisk::new(size, byte);
    let read = read_meta(alloc, &mut disk, &place_of(":x"), &name_of(b":x"));
    matches!(read, Ok(EntryRead::Unfit(_)))
}

// The file of an entry is no reason to ask for more memory than a block may have, whatever its size is said to be.
#[test]
fn entries_of_any_size_are_looked_at(rt: HostRuntime) {
    for size in SIZES {
        for byte in [0, 1, 255] {
            assert!(rt; is_unfit(rt.alloc(), size, byte), "{size} bytes of {byte}");
        }
    }
}
