//! Checks that a report does not overwrite an input.

use dunkelva_messages::error::Result;
use dunkelva_messages::trouble;
use dunkelva_settings::words::Target;
use std::fs;
use std::os::unix::fs::MetadataExt;

/// Returns the device number and the inode number of the regular file at `path`. Links are
/// followed. Returns `None` if there is nothing at `path`, or something else than a regular file,
/// such as a terminal or a pipe.
fn stored_at(rt: &HostRuntime, path: &str) -> Option<(u64, u64)> {
    let data = fs::metadata(rt, path).ok()?;
    data.is_file().then_some((data.dev(), data.ino()))
}

/// Returns the first of `inputs` that is the same regular file as the one at `path`, or `None` if
/// there is none. The input `-` is standard input.
fn input_at<'a>(rt: &HostRuntime, path: &str, inputs: &[&'a str]) -> Option<&'a str> {
    let (device, number) = stored_at(rt, path)?;
    for input in inputs {
        let place = if *input == "-" { "/dev/stdin" } else { *input };
        match stored_at(rt, place) {
            Some((on, at)) if on == device && at == number => return Some(*input),
            _ => {}
        }
    }
    None
}

/// Fails if standard output is a regular file that is also one of `inputs`.
pub(crate) fn refuse_own_output(rt: &HostRuntime, inputs: &[&str]) -> Result<()> {
    match input_at(rt, "/dev/stdout", inputs) {
        Some(input) => Err(trouble!("standard output is the input {input:?}")),
        None => Ok(()),
    }
}

/// Fails if the report for `target` would be written to a regular file that is also one of
/// `inputs`.
pub(crate) fn refuse_own_target(
    rt: &HostRuntime,
    inputs: &[&str],
    target: Target<'_>,
) -> Result<()> {
    let Target::Page(path) = target else {
        return refuse_own_output(rt, inputs);
    };
    match input_at(rt, path, inputs) {
        Some(input) => Err(trouble!("--html would write over the input {input:?}").context(path)),
        None => Ok(()),
    }
}
