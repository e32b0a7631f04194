//! A limit on the number of reads or writes of a stream.

use std::io;
use std::io::ErrorKind;

/// The number of calls of a stream that may still succeed (`left`). If `interrupting` is true, each
/// call is interrupted once. `interrupted` says whether the last call was interrupted.
#[derive(Clone, Copy)]
pub struct Calls {
    left: usize,
    interrupting: bool,
    interrupted: bool,
}

impl Calls {
    /// Allows `left` calls. If `interrupting`, each call is interrupted once before it succeeds.
    pub fn new(left: usize, interrupting: bool) -> Calls {
        Calls {
            left,
            interrupting,
            interrupted: false,
        }
    }

    /// Counts a call that succeeds. Returns the error `Interrupted` if the call is to be
    /// interrupted, and otherwise the error `BrokenPipe` if no call is left. A call that fails is
    /// not counted.
    pub fn count(&mut self) -> io::Result<()> {
        if self.interrupting && !self.interrupted {
            self.interrupted = true;
            return Err(io::Error::from(ErrorKind::Interrupted));
        }
        self.interrupted = false;
        let Some(left) = self.left.checked_sub(1) else {
            return Err(io::Error::from(ErrorKind::BrokenPipe));
        };
        self.left = left;
        Ok(())
    }
}
