//! What a program begins with: the numbers of its standard streams, and the words of its command line. No contract says
//! what a system gives.
#![tactic(auto)]

ghost use Rattle.std.specs.Prelude.{◌≡◌, ◌⊎◌, IfErr};
ghost use Rattle.command_line.specs.declared.TheConstants.{NOT_BEGUN};

use cache_base::Status;
use std::rt::{Env, Files};
use std::{env, fs};

/// The status where the system does not give what a program begins with. `run` never ends so.
pub const NOT_BEGUN: u8 = 8;

// A folder that is there everywhere. As a stream it gives no bytes and takes none: each read and write of it fails.
const ROOT: &str = "/";

/// Opens a folder three times. A file that is opened takes the lowest free number. So where a standard stream is
/// closed, its number is taken as long as these are held, and no file of the cache is read or written as that stream.
pub fn hold_streams<R: Files>(rt: &R) -> Option<(R::File, R::File, R::File)> {
    let first = fs::open(rt, ROOT).ok()?;
    let second = fs::open(rt, ROOT).ok()?;
    let third = fs::open(rt, ROOT).ok()?;
    Some((first, second, third))
}

/// The folder, which is the first word after the program's name or else the current one, and the words after it. Where
/// there is an error, the status with which the program ends.
pub fn words_of<R: Env + AllocGlobal>(rt: &R) -> Result<(String, Vec<String>), u8>
    ensures status { IfErr result (λ status. (status ≡ NOT_BEGUN) ⊎ (status ≡ 1)) }
{
    let mut args = env::args(rt).map_err(|_| NOT_BEGUN)?;
    let _program = args.next();
    let Some(dir) = args
        .next()
        .map_or_else(|| String::from_str(rt.alloc(), ".").ok(), Some)
    else {
        return Err(Status::Memory.code());
    };
    match args.collect::<Vec<String>>(rt.alloc()) {
        Ok(words) => Ok((dir, words)),
        Err(_) => Err(Status::Memory.code()),
    }
}
