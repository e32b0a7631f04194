//! Parses the command-line arguments.

ghost use Rattle.std.specs.Prelude.{◌≡◌, map, MatchResult, Ok};
ghost use Rattle.std.specs.IoError.{error_kind};
ghost use Rattle.std.specs.String.{string_bytes};
ghost use Rattle.polars_tables_lines.specs.Command.{command_of, unread_of};

use crate::program::Command;
use crate::running::RunError;
use std::io;
use std::io::ErrorKind;

/// Returns the command that the arguments after the program's name ask for. Without arguments, it
/// is `Lines`. A single argument `demo`, `--help` or `--version` asks for that command. Any other
/// arguments give `Usage`.
pub fn command(arguments: &[String]) -> Command
    ensures { result ≡ command_of (map string_bytes arguments.now) }
{
    match arguments {
        [] => Command::Lines,
        [word] if word.as_str() == "demo" => Command::Demo,
        [word] if word.as_str() == "--help" => Command::Help,
        [word] if word.as_str() == "--version" => Command::Version,
        _ => Command::Usage,
    }
}

/// Returns the command that the arguments after the program's name ask for. `arguments` is the
/// result of reading them. If an argument is not UTF-8, the command is `Usage`. The error is
/// `Memory` if an allocation failed while they were read.
pub fn asked(arguments: &io::Result<Vec<String>>) -> Result<Command, RunError>
    ensures { MatchResult arguments.now
        (λ words. result ≡ Ok (command_of (map string_bytes words.items)))
        (λ error. result ≡ unread_of (error_kind error)) }
{
    match arguments {
        Ok(words) => Ok(command(words)),
        Err(error) if error.kind() == ErrorKind::OutOfMemory => Err(RunError::Memory),
        Err(_) => Ok(Command::Usage),
    }
}
