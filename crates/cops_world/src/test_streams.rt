//! Readers and writers that cut what they are given, or fail.
use std::io;
use std::io::{ErrorKind, Read, Write};

/// Gives its bytes in pieces of some length, and fails at one of its reads.
#[derive(Drop)]
pub(crate) struct Pieces<'a> {
    pub bytes: &'a [u8],
    pub len: usize,
    pub reads_to_failure: u64,
}

impl Read for Pieces<'_> {
    fn read(&mut self, buf: &mut [u8]) -> io::Result<usize> {
        if self.reads_to_failure == 0 {
            return Err(io::Error::from(ErrorKind::Other));
        }
        self.reads_to_failure -= 1;
        let all = self.bytes;
        let mut piece = &all[..self.len.min(all.len())];
        let count = piece.read(buf)?;
        self.bytes = &all[count..];
        Ok(count)
    }
}

/// Takes a byte at a time, and fails at one of its writes.
#[derive(Drop)]
pub(crate) struct Trickle {
    pub taken: Vec<u8>,
    pub writes_to_failure: u64,
}

impl Write for Trickle {
    fn write(&mut self, buf: &[u8]) -> io::Result<usize> {
        if self.writes_to_failure == 0 {
            return Err(io::Error::from(ErrorKind::Other));
        }
        self.writes_to_failure -= 1;
        match buf {
            [] => Ok(0),
            [first, ..] => {
                self.taken.push(*first)?;
                Ok(1)
            }
        }
    }

    fn flush(&mut self) -> io::Result<()> {
        Ok(())
    }
}

/// Gives some bytes, and then the bytes of a line that never ends.
#[derive(Drop)]
pub(crate) struct Endless<'a> {
    pub bytes: &'a [u8],
}

impl Read for Endless<'_> {
    fn read(&mut self, buf: &mut [u8]) -> io::Result<usize> {
        let count = self.bytes.read(buf)?;
        if count > 0 || buf.is_empty() {
            return Ok(count);
        }
        buf[0] = b'x';
        Ok(1)
    }
}
