//! The commands of the program, and its exit statuses.

ghost use Rattle.std.specs.Prelude.{◌≡◌};
ghost use Rattle.polars_tables_lines.specs.Command.{exit_status_of, fault_text_of};

use crate::running::{Report, RunError};

/// The version of the program and of its libraries. `CHANGELOG.md` lists the changes of each
/// version.
pub const VERSION: &str = "0.1.0";

/// A command of the program, as the arguments ask for it.
#[derive(Clone, Copy, Debug, PartialEq, Eq)]
pub enum Command {
    /// Run the commands in the lines of standard input, and print their results.
    Lines,
    /// Print the demo: comparisons of small nested arrays.
    Demo,
    /// Print the help to standard output.
    Help,
    /// Print the version of the program.
    Version,
    /// Print the usage line to standard error, since the arguments are wrong.
    Usage,
}

/// Returns the exit status of a run: 0 if no line was refused, and 1 if a line was refused or the
/// run stopped before its end.
pub fn exit_status(outcome: &Result<Report, RunError>) -> u8
    ensures { result ≡ exit_status_of outcome.now }
{
    match outcome {
        Ok(report) if report.refused == 0 => 0,
        _ => 1,
    }
}

/// Returns the message about a run that stopped, for standard error.
pub fn fault_text(fault: &RunError) -> &'static str
    ensures { result.now ≡ fault_text_of fault.now }
{
    match fault {
        RunError::Read => "read failed",
        RunError::Write => "write failed",
        RunError::Memory => "out of memory",
    }
}
