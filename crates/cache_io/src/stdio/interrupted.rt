//! Calls that a signal interrupts are made again.

use super::{read_again, write_again};
use std::io::{self, ErrorKind, Read, Write};
use std::test::Fail;

// Its first calls are interrupted. Then it gives bytes without an end.
#[derive(Drop)]
struct Reader {
    interrupted: u32,
}

impl Read for Reader {
    fn read(&mut self, buf: &mut [u8]) -> io::Result<usize> {
        if self.interrupted > 0 {
            self.interrupted -= 1;
            return Err(ErrorKind::Interrupted.into());
        }
        Ok(buf.len())
    }
}

// So are the first ones of this one, which then takes all bytes.
#[derive(Drop)]
struct Writer {
    interrupted: u32,
}

impl Write for Writer {
    fn write(&mut self, bytes: &[u8]) -> io::Result<usize> {
        if self.interrupted > 0 {
            self.interrupted -= 1;
            return Err(ErrorKind::Interrupted.into());
        }
        Ok(bytes.len())
    }

    fn flush(&mut self) -> io::Result<()> {
        Ok(())
    }
}

#[test]
fn an_interrupted_read_is_made_again(rt: HostRuntime) -> Result<(), Fail> {
    let mut reader = Reader { interrupted: 3 };
    assert_eq!(rt; read_again(&mut reader, &mut [0; 4]).ok(), Some(4));
    Ok(())
}

#[test]
fn an_interrupted_write_is_made_again(rt: HostRuntime) -> Result<(), Fail> {
    let mut writer = Writer { interrupted: 3 };
    assert_eq!(rt; write_again(&mut writer, b"hello").ok(), Some(5));
    Ok(())
}
