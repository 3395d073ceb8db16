//! What is written around a body.

use crate::dumps::ONE;
use cache_base::{Bytes, NoMemory, Numbers};
use cache_export::{DumpReader, Item, item_back, item_front};
use cache_io::{MemSink, MemSource, Sink, write_whole};
use std::alloc::Global;

// Writes the item of the dump anew, with what its reader gives.
fn write_anew(alloc: Global, sink: &mut MemSink) -> Result<bool, NoMemory> {
    let mut bytes = Bytes::new(alloc);
    bytes.extend(&ONE)?;
    let mut source = MemSource::new(alloc, bytes);
    let mut reader = DumpReader::new(alloc);
    let mut written = true;
    for _ in 0..4 {
        let done = match reader.next(&mut source) {
            Ok(Item::Key(key)) => key.as_slice().len() <= 100
                && item_front(sink, &ONE[13..34], 5).is_ok(),
            Ok(Item::Piece(piece)) => write_whole(sink, piece.as_slice()).is_ok(),
            Ok(Item::Block(meta)) => item_back(alloc, sink, &meta).is_ok(),
            Ok(Item::End) => true,
            Err(_) => false,
        };
        written = written && done;
    }
    Ok(written)
}

#[test]
fn items_are_written(rt: HostRuntime) -> Result<(), NoMemory> {
    let alloc = rt.alloc();
    let mut sink = MemSink::new(alloc);
    assert!(rt; write_anew(alloc, &mut sink)?);
    assert!(rt; sink.bytes() == &ONE[8..107]);
    // the second write fails
    let mut fail = Numbers::new(alloc);
    fail.push(2)?;
    let mut bad = MemSink::with_plan(alloc, fail);
    assert!(rt; item_front(&mut bad, &ONE[13..34], 5).is_err());
    assert!(rt; bad.bytes() == &ONE[8..13]);
    Ok(())
}
