//! A reader that stores the bytes of its last read, to tell whether one of them is a line feed.

ghost use Rattle.std.specs.Prelude.{◌≡◌};
ghost use Rattle.diff_csv.specs.Reading.{ends_remaining};

use std::io;
use std::io::Read;

/// The most bytes that are stored of one read. The reader of the `csv` crate reads at most this
/// many bytes at a time, and reads again once it has used all of them.
const CHUNK: usize = 8192;

/// A reader that stores the bytes of its last read. A read that returns no bytes does not count.
#[derive(Drop)]
pub(crate) struct Ends<R> {
    pub(crate) inner: R,
    chunk: [u8; CHUNK],
    // The number of bytes that were returned before the stored ones.
    start: u64,
    // The number of bytes of the last read.
    count: usize,
}

impl<R> Ends<R> {
    /// Creates a reader that returns the bytes of `inner`. No bytes are stored yet.
    pub(crate) fn new(inner: R) -> Ends<R>
        ensures { result.inner ≡ inner }
    {
        Ends {
            inner,
            chunk: [0; CHUNK],
            start: 0,
            count: 0,
        }
    }

    /// Returns whether the byte at offset `end - 1`, counted from the first byte of the whole text,
    /// is a line feed. This byte must still be stored.
    pub(crate) fn is_feed_before(&self, end: u64) -> bool {
        let index = end.saturating_sub(self.start).saturating_sub(1);
        match usize::try_from(index) {
            Ok(index) => self.chunk.get(index) == Some(&b'\n'),
            Err(_) => false,
        }
    }

    /// Stores `bytes`, the bytes of a read, in place of the earlier ones, but at most `CHUNK` of
    /// them. Does nothing if `bytes` is empty.
    fn keep(&mut self, bytes: &[u8])
        ensures { self.new.inner ≡ self.old.inner }
    {
        if bytes.is_empty() {
            return;
        }
        self.start = self.start.saturating_add(self.count as u64);
        self.count = bytes.len();
        let kept = bytes.len().min(CHUNK);
        self.chunk[..kept].copy_from_slice(&bytes[..kept]);
    }
}

impl<R: Read> Read for Ends<R> {
    ghost remaining = { ends_remaining R.remaining };

    fn read(&mut self, buf: &mut [u8]) -> io::Result<usize> {
        let count = self.inner.read(buf)?;
        self.keep(&buf[..count]);
        Ok(count)
    }
}
