//! A progress line for long comparisons, on standard error.

ghost use Rattle.std.specs.Prelude.{ℕ, List, Option};

use dunkelva_messages::files::Source;
use std::cell::Cell;
use std::io;
use std::io::{IsTerminal, Read, Write};
use std::time::Instant;

/// The time before the line is first shown, in milliseconds.
const SILENCE: u128 = 1000;

/// The least time between two updates of the line, in milliseconds.
const PAUSE: u128 = 100;

/// The number of bytes read so far, and the state of the progress line.
#[derive(Clone, Copy)]
struct Reading {
    /// The number of bytes read so far.
    bytes: u64,
    /// The earliest time of the next update, in milliseconds since the start.
    next: u128,
    /// `true` if the line is visible on the terminal.
    is_shown: bool,
}

/// A progress line on standard error that says how many bytes of both inputs were read. It is shown
/// only if standard error is a terminal, and only if the run takes more than a second.
#[derive(Drop)]
pub(crate) struct Progress<'a> {
    rt: &'a HostRuntime,
    // The start of the run, or `None` if the line is never shown.
    start: Option<Instant>,
    // The number of bytes of both inputs, or `None` if it is unknown.
    total: Option<u64>,
    reading: Cell<Reading>,
}

impl<'a> Progress<'a> {
    /// Returns a progress line that is not shown yet, and starts to measure the time. `total` is
    /// the number of bytes of both inputs, or `None` if it is unknown.
    pub(crate) fn new(rt: &'a HostRuntime, total: Option<u64>) -> Progress<'a> {
        let start = if rt.stderr().is_terminal() {
            Instant::now(rt).ok()
        } else {
            None
        };
        let reading = Reading {
            bytes: 0,
            next: SILENCE,
            is_shown: false,
        };
        Progress {
            rt,
            start,
            total,
            reading: Cell::new(reading),
        }
    }

    /// Adds `bytes`, the number of bytes that were just read, to the number of all bytes read.
    /// Prints the line if the time of the next update has come. Does nothing if the line is never
    /// shown.
    fn add(&self, bytes: usize) {
        let Some(start) = self.start else {
            return;
        };
        let mut reading = self.reading.get();
        reading.bytes = reading.bytes.saturating_add(bytes as u64);
        let time = match start.elapsed(self.rt) {
            Ok(elapsed) => elapsed.as_millis(),
            // The clock can't be read: 0 is before `next`, so nothing is printed.
            Err(_) => 0,
        };
        if reading.next <= time {
            reading.next = time.saturating_add(PAUSE);
            reading.is_shown = true;
            self.say(reading.bytes);
        }
        self.reading.set(reading);
    }

    /// Prints the line, with `bytes` as the number of bytes read so far, over the previous line.
    fn say(&self, bytes: u64) {
        let _ = match self.total {
            Some(total) => eprint!(self.rt; "\r{bytes} of {total} bytes read"),
            None => eprint!(self.rt; "\r{bytes} bytes read"),
        };
    }

    /// Erases the line, if it is visible.
    pub(crate) fn erase(&self) {
        let mut reading = self.reading.get();
        if reading.is_shown {
            // The escape sequence `ESC [ K` erases from the cursor to the end of the line.
            let _ = eprint!(self.rt; "\r\x1b[K");
            reading.is_shown = false;
            self.reading.set(reading);
        }
    }
}

/// A source that reports the bytes read from it to a `Progress`.
#[derive(Drop)]
pub(crate) struct Counted<'a> {
    pub(crate) source: Source,
    pub(crate) progress: &'a Progress<'a>,
}

impl Read for Counted<'_> {
    fn read(&mut self, buf: &mut [u8]) -> io::Result<usize> {
        let bytes = self.source.read(buf)?;
        self.progress.add(bytes);
        Ok(bytes)
    }
}

/// A writer that erases the progress line before it writes.
#[derive(Drop)]
pub(crate) struct ErasingWriter<'a, W> {
    pub(crate) writer: W,
    pub(crate) progress: &'a Progress<'a>,
}

impl<W: Write> Write for ErasingWriter<'_, W> {
    ghost contents = { λ cleared. W.contents cleared.writer };

    fn write(&mut self, buf: &[u8]) -> io::Result<usize> {
        self.progress.erase();
        self.writer.write(buf)
    }

    fn flush(&mut self) -> io::Result<()> {
        self.writer.flush()
    }
}
