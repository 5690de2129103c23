//! A writer that fits on the stack.
ghost use Rattle.std.specs.Prelude.{◌≤◌};

use std::io::{self, Write};

/// Keeps what it takes, up to 128 bytes, and allocates nothing.
#[derive(Drop)]
pub(crate) struct Slate {
    pub(crate) bytes: [u8; 128],
    pub(crate) len: usize,
    ghost in_bounds: { len ≤ 128 },
}

impl Slate {
    pub(crate) fn new() -> Slate {
        Slate {
            bytes: [0; 128],
            len: 0,
        }
    }

    /// Returns the bytes written.
    pub(crate) fn written(&self) -> &[u8] {
        &self.bytes[..self.len]
    }
}

impl Write for Slate {
    fn write(&mut self, buf: &[u8]) -> io::Result<usize> {
        let len = self.len;
        let count = buf.len().min(128 - len);
        self.bytes[len..len + count].copy_from_slice(&buf[..count]);
        self.len = len + count;
        Ok(count)
    }

    fn flush(&mut self) -> io::Result<()> {
        Ok(())
    }
}
