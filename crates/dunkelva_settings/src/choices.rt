//! A check that the options `--only` and `--ignore` leave something to compare.

use clap::ArgMatches;
use dunkelva_messages::error::Result;
use dunkelva_messages::trouble;
use dunkelva_options::lists::split_lists;
use std::alloc::Global;

/// Fails if `--ignore` has each name or path of `--only`, in the same spelling. Nothing is then
/// left to compare.
pub fn refuse_nothing_left(alloc: Global, matches: &ArgMatches<'_>) -> Result<()> {
    let only = split_lists(alloc, matches.get_strs("only").unwrap_or(&[]))?;
    let ignored = split_lists(alloc, matches.get_strs("ignore").unwrap_or(&[]))?;
    if only.is_empty() || !only.iter().all(|name| ignored.contains(name)) {
        return Ok(());
    }
    Err(trouble!("nothing is left to compare: --ignore has all that --only has"))
}
