//! The program `cache2`: the words of the command line over a folder of the machine, standard input and standard
//! output.
#![tactic(auto)]

use cache_base::Status;
use cache_io::{StdSink, StdSource};
use cache_tool::run;
use command_line::{NOT_BEGUN, hold_streams, words_of};
use real_disk::RealDisk;
use std::io;
use std::process::ExitCode;

fn main(rt: HostRuntime) -> ExitCode {
    let Some(_streams) = hold_streams(&rt) else {
        return ExitCode::from(NOT_BEGUN);
    };
    let (dir, words) = match words_of(&rt) {
        Ok(line) => line,
        Err(status) => return ExitCode::from(status),
    };
    let mut disk = RealDisk::new(&rt, dir);
    let mut source = StdSource::new(rt.reader());
    let mut sink = StdSink::new(io::writer(&rt));
    let status = run(rt.alloc(), &words, &mut source, &mut sink, &mut disk);
    // After a change or a sync that failed no call of the disk follows.
    if status != Status::Disk {
        disk.leave();
    }
    ExitCode::from(status.code())
}
