use cache_base::Bytes;
use cache_io::{MemSink, MemSource};
use cache_script::{Command, Reader};
use cache_store::{Outcome, Store, StoreFault};
use disk_theory::Disk;
use entry_name::{name_of, text_of};
use real_disk::RealDisk;
use std::alloc::Global;
use std::fs;
use std::test::Fail;

// Performs the commands of a script.
fn perform<D: Disk>(
    alloc: Global,
    disk: &mut D,
    script: &[u8],
    sink: &mut MemSink,
) -> Result<bool, StoreFault> {
    let mut bytes = Bytes::new(alloc);
    bytes.extend(script)?;
    let mut source = MemSource::new(alloc, bytes);
    let mut reader = Reader::new(alloc)?;
    let mut store = Store::open(alloc, disk, 1000)?;
    let mut last = Outcome::Ok;
    for _ in 0..100 {
        match reader.next_command(&mut source) {
            Ok(Some(command)) => last = store.command(alloc, disk, &command, sink)?,
            _ => break,
        }
    }
    store.close(disk)?;
    Ok(last == Outcome::Ok)
}

#[test]
fn a_session_is_answered(rt: HostRuntime) -> Result<(), Fail> {
    let _ = fs::remove_dir_all(&rt, "cache");
    let mut disk = RealDisk::new(&rt, String::from_str(rt.alloc(), "cache")?);
    let mut sink = MemSink::new(rt.alloc());
    let script =
        b"create 0 :https://x/\nappend 0 3\nold\nclose 0\nopen 1 :https://x/\ndoom :https://x/\ncreate 2 :https://x/\nappend 2 3\nnew\nget :https://x/\nread 1 0 10\nverify\nclose 2\nget :https://x/\nverify\n";
    assert_eq!(rt; perform(rt.alloc(), &mut disk, script, &mut sink), Ok(true));
    assert_eq!(rt;
        sink.bytes(),
        b"ok\nok\nok\nok\nok\nok\nok\nunfinished\ndata 3\nold\nfindings 0\nok\nfound 1 1000 1000 1000 4294967295 0 0 3\n\nnew\nfindings 0\n".as_slice()
    );
    Ok(())
}

fn get(
    store: &mut Store,
    alloc: Global,
    disk: &mut RealDisk<'_, HostRuntime>,
    key: &[u8],
    sink: &mut MemSink,
) -> Result<Outcome, StoreFault> {
    store.command(alloc, disk, &Command::Get { key }, sink)
}

// A folder stands in the place of an entry's file: it cannot be read, and the other entry can.
#[test]
fn a_file_that_cannot_be_read_ends_one_command(rt: HostRuntime) -> Result<(), Fail> {
    let alloc = rt.alloc();
    let _ = fs::remove_dir_all(&rt, "unreadable");
    let mut disk = RealDisk::new(&rt, String::from_str(alloc, "unreadable")?);
    let mut sink = MemSink::new(alloc);
    let script = b"create 0 :x\nclose 0\ncreate 0 :y\nclose 0\n";
    assert_eq!(rt; perform(alloc, &mut disk, script, &mut sink), Ok(true));
    let name = text_of(alloc, &name_of(b":x"))?;
    let place = format!(in alloc; "unreadable/entries/{name}")?;
    fs::remove_file(&rt, &place)?;
    fs::create_dir(&rt, &place)?;
    let mut store = Store::open(alloc, &mut disk, 2000)?;
    let mut answers = MemSink::new(alloc);
    assert_eq!(rt;
        get(&mut store, alloc, &mut disk, b":x", &mut answers),
        Ok(Outcome::Faulted)
    );
    assert_eq!(rt;
        get(&mut store, alloc, &mut disk, b":y", &mut answers),
        Ok(Outcome::Ok)
    );
    store.close(&mut disk)?;
    assert_eq!(rt;
        answers.bytes(),
        b"fault\nfound 1 1000 1000 1000 4294967295 0 0 0\n\n\n".as_slice()
    );
    Ok(())
}
