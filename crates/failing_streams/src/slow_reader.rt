//! A reader that gives a few bytes at a time, and fails.

ghost use Rattle.std.specs.Prelude.{◌≤◌};

use crate::calls::Calls;
use crate::manner::Manner;
use std::io;
use std::io::Read;

/// A reader that gives its bytes a few at a time, and fails after a number of reads. The bytes that
/// are left are `bytes`.
#[derive(Drop)]
pub struct SlowReader<'a> {
    bytes: &'a [u8],
    reads: Calls,
    manner: Manner,
}

impl<'a> SlowReader<'a> {
    /// Creates a reader of `bytes` that succeeds in `reads` calls and behaves as `manner` says.
    pub fn new(bytes: &'a [u8], reads: usize, manner: Manner) -> SlowReader<'a> {
        SlowReader {
            bytes,
            reads: Calls::new(reads, manner.interrupting),
            manner,
        }
    }
}

// Returns the number of bytes that a read gives: the least of `pace`, `room`, the length of its
// buffer, and `left`, the number of bytes left.
fn given(pace: usize, room: usize, left: usize) -> usize
    ensures room { result ≤ room }
    ensures left { result ≤ left }
{
    pace.min(room).min(left)
}

impl Read for SlowReader<'_> {
    // Gives at most `manner.pace` bytes. If the reader is boasting, returns one more than the
    // number of bytes that it gave, unless it gave none or filled `buf`. The error is that of
    // `Calls::count`.
    fn read(&mut self, buf: &mut [u8]) -> io::Result<usize> {
        self.reads.count()?;
        let bytes = self.bytes;
        let n = given(self.manner.pace, buf.len(), bytes.len());
        let (first, rest) = bytes.split_at(n);
        buf[..n].copy_from_slice(first);
        self.bytes = rest;
        if self.manner.boasting && 0 < n && n < buf.len() {
            return Ok(n + 1);
        }
        Ok(n)
    }
}
