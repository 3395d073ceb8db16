use cache_base::{Bytes, NoMemory, Numbers};
use cache_io::{
    MemSink, MemSource, Sink, SinkFault, Source, SourceFault, StdSink, StdSource, write_whole,
};
use std::alloc::Global;
use std::io::{self, Write};
use std::test::Fail;

fn bytes(alloc: Global, of: &[u8]) -> Result<Bytes, NoMemory> {
    let mut list = Bytes::new(alloc);
    list.extend(of)?;
    Ok(list)
}

fn one_number(alloc: Global, number: u32) -> Result<Numbers, NoMemory> {
    let mut list = Numbers::new(alloc);
    list.push(number)?;
    Ok(list)
}

// Reads once, through the trait.
fn read_once<S: Source>(source: &mut S, buf: &mut [u8; 4]) -> Result<usize, SourceFault> {
    source.read(buf)
}

fn write_once<K: Sink>(sink: &mut K) -> Result<usize, SinkFault> {
    sink.write(b"hello")
}

// What three reads answer, and the buffer after the first.
fn three_reads<S: Source>(source: &mut S) -> ([Result<usize, SourceFault>; 3], [u8; 4]) {
    let mut buf = [0; 4];
    let first = read_once(source, &mut buf);
    let front = buf;
    let second = read_once(source, &mut buf);
    let third = read_once(source, &mut buf);
    ([first, second, third], front)
}

fn write_whole_and_once(sink: &mut MemSink) -> Result<usize, SinkFault> {
    write_whole(sink, b"ok\n")?;
    write_once(sink)
}

#[test]
fn a_source_gives_its_bytes_in_pieces(rt: HostRuntime) -> Result<(), Fail> {
    let mut source = MemSource::new(rt.alloc(), bytes(rt.alloc(), b"hello")?);
    let seen = three_reads(&mut source);
    assert!(rt; seen == ([Ok(4), Ok(1), Ok(0)], *b"hell"));
    Ok(())
}

#[test]
fn planned_reads_fail_and_take_nothing(rt: HostRuntime) -> Result<(), Fail> {
    let bytes = bytes(rt.alloc(), b"hello")?;
    let mut source = MemSource::with_plan(bytes, one_number(rt.alloc(), 2)?, 3);
    let seen = three_reads(&mut source);
    assert!(rt; seen == ([Ok(3), Err(SourceFault::Failed), Ok(2)], *b"hel\0"));
    Ok(())
}

#[test]
fn a_sink_keeps_what_it_takes(rt: HostRuntime) -> Result<(), Fail> {
    let mut sink = MemSink::new(rt.alloc());
    let written = write_whole_and_once(&mut sink);
    assert!(rt; written == Ok(5) && sink.bytes() == b"ok\nhello".as_slice());
    Ok(())
}

#[test]
fn planned_writes_fail_and_take_nothing(rt: HostRuntime) -> Result<(), Fail> {
    let mut sink = MemSink::with_plan(rt.alloc(), one_number(rt.alloc(), 1)?);
    let written = [write_once(&mut sink), write_once(&mut sink)];
    assert!(rt; written == [Err(SinkFault::Failed), Ok(5)]);
    Ok(())
}

#[test]
fn a_reader_is_a_source(rt: HostRuntime) {
    let mut source = StdSource::new(b"hello".as_slice());
    let seen = three_reads(&mut source);
    assert!(rt; seen == ([Ok(4), Ok(1), Ok(0)], *b"hell"));
}

// Takes no more than two bytes a call, and none at all once it is full.
#[derive(Drop)]
struct Narrow {
    room: usize,
}

impl Write for Narrow {
    fn write(&mut self, bytes: &[u8]) -> io::Result<usize> {
        let taken = bytes.len().min(self.room.min(2));
        self.room -= taken;
        Ok(taken)
    }

    fn flush(&mut self) -> io::Result<()> {
        Ok(())
    }
}

#[test]
fn a_writer_is_a_sink(rt: HostRuntime) {
    let mut sink = StdSink::new(Narrow { room: 7 });
    assert_eq!(rt; write_whole(&mut sink, b"hello"), Ok(()));
    assert_eq!(rt; write_once(&mut sink), Ok(2));
    assert_eq!(rt; write_once(&mut sink), Err(SinkFault::Failed));
}
