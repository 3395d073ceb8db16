use super::*;
use std::test::Fail;

const ONE: &[u8] = b"made 1\nevicted 1\nfindings 0\nrecords 0\n";

const TWO: &[u8] = b"made 2\nevicted 1\nfindings 0\nrecords 1\n";

// By the sizes of the files, of which those of the lowest numbers go: a later one is used later. So it is in a real
// folder.
const MANY: &[u8] = b"made 200\nevicted 99\nfindings 0\nrecords 101\n";

const THOUSANDS: &[u8] = b"made 2000\nevicted 1011\nfindings 0\nrecords 989\n";

// Each on a disk on which nothing stands.
const FILLS: [Row<'static>; 13] = [
    ("1000 fill 1 1", b"", Status::Done, ONE),
    // The longer body goes: 17 KB and 6 KB stand, and half of them is 11.
    ("1000 fill 2 1", b"", Status::Done, TWO),
    // It comes out the same twice.
    ("1000 fill 200 7", b"", Status::Done, MANY),
    ("1000 fill 200 7", b"", Status::Done, MANY),
    ("1000 fill 2000 7", b"", Status::Done, THOUSANDS),
    // Other words are malformed.
    ("1000 fill", b"", Status::Words, b""),
    ("1000 fill 1", b"", Status::Words, b""),
    ("1000 fill 0 1", b"", Status::Words, b""),
    ("1000 fill 100001 1", b"", Status::Words, b""),
    ("1000 fill 1 1 1", b"", Status::Words, b""),
    ("1000 fill 01 1", b"", Status::Words, b""),
    ("1000 fill 1 4294967296", b"", Status::Words, b""),
    ("1000 fill -1 1", b"", Status::Words, b""),
];

fn fills_so(alloc: Global, row: &Row<'_>) -> Result<bool, Fail> {
    let mut disk = MemDisk::new(alloc);
    comes_so(alloc, &mut disk, row)
}

#[test]
fn half_is_evicted_and_other_words_are_malformed(rt: HostRuntime) -> Result<(), Fail> {
    for index in 0..FILLS.len() {
        assert!(rt; fills_so(rt.alloc(), &FILLS[index])?, "row {index}");
    }
    Ok(())
}
