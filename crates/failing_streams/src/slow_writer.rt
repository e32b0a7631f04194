//! A writer that takes a few bytes at a time, and fails.

use crate::calls::Calls;
use crate::manner::Manner;
use std::alloc::Global;
use std::io;
use std::io::Write;

/// A writer that accepts a few bytes at a time, and fails or stops after a number of writes. The
/// bytes that it accepted are `taken`.
#[derive(Drop)]
pub struct SlowWriter {
    taken: Vec<u8>,
    writes: Calls,
    manner: Manner,
}

impl SlowWriter {
    /// Creates a writer that accepts bytes in `writes` calls and behaves as `manner` says.
    pub fn new(alloc: Global, writes: usize, manner: Manner) -> SlowWriter {
        SlowWriter {
            taken: Vec::new(alloc),
            writes: Calls::new(writes, manner.interrupting),
            manner,
        }
    }

    /// Returns the bytes that were accepted.
    pub fn taken(&self) -> &[u8] {
        &self.taken
    }
}

impl Write for SlowWriter {
    // Accepts at most `manner.pace` bytes. After the last successful write, returns `Ok(0)` if the
    // writer is stopping, and otherwise the error `BrokenPipe`. Other errors are `Interrupted`, and
    // that of a failed allocation.
    fn write(&mut self, buf: &[u8]) -> io::Result<usize> {
        if let Err(error) = self.writes.count() {
            if self.manner.stopping && error.kind() != io::ErrorKind::Interrupted {
                return Ok(0);
            }
            return Err(error);
        }
        let n = self.manner.pace.min(buf.len());
        self.taken.extend_from_slice(&buf[..n])?;
        Ok(n)
    }

    fn flush(&mut self) -> io::Result<()> {
        Ok(())
    }
}
