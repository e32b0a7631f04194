//! The tolerances for the columns of tables, as `--tolerance` and `--relative-tolerance` give them.

use crate::rules::{ABSOLUTE, RELATIVE, margin_of, without_bound};
use crate::words::unquoted;
use clap::ArgMatches;
use diff_tolerances::cells::Tolerance;
use dunkelva_messages::error::Result;
use dunkelva_messages::names::quoted;
use dunkelva_messages::trouble;
use dunkelva_options::lists::split_lists;
use std::alloc::Global;

/// Fails if `column` is one of the key columns `keys`, since rows are matched without tolerances.
/// The error names `option`, the option that gives a tolerance for the column.
fn refuse_key(option: &str, column: &str, keys: &[&[u8]]) -> Result<()> {
    if keys.contains(&column.as_bytes()) {
        return Err(trouble!(
            "--{option}: {} is a key, and keys match exactly, or as numbers with --numbers",
            quoted(column)
        ));
    }
    Ok(())
}

/// Parses `word`, a tolerance for a column such as `amount=0.01`. The column's name may be in
/// quotes. The bound begins after the last equals sign. It is relative if the option's name
/// `option` is `RELATIVE`, and else absolute. Fails if `word` has no equals sign, if the column is
/// one of `keys`, or if the bound is invalid.
fn tolerance_of<'a>(option: &str, word: &'a str, keys: &[&[u8]]) -> Result<Tolerance<'a>> {
    let Some((column, number)) = word.rsplit_once('=') else {
        let takes = "a column and a bound such as amount=0.01";
        return Err(without_bound(option, takes, word));
    };
    let column = unquoted(column);
    refuse_key(option, column, keys)?;
    let margin = margin_of(option, number)?;
    Ok(Tolerance {
        column: column.as_bytes(),
        margin,
    })
}

/// Parses the tolerances in the comma-separated lists of the option named `option`, and appends
/// them to `tolerances`. A comma within quotes is part of a name. Fails if a tolerance is invalid,
/// or is for one of the key columns `keys`.
fn push_tolerances<'a>(
    tolerances: &mut Vec<Tolerance<'a>>,
    alloc: Global,
    matches: &ArgMatches<'a>,
    option: &str,
    keys: &[&[u8]],
) -> Result<()> {
    let words = split_lists(alloc, matches.get_strs(option).unwrap_or(&[]))?;
    for word in &words {
        tolerances.push(tolerance_of(option, *word, keys)?)?;
    }
    Ok(())
}

/// Returns the tolerances that `--tolerance` and `--relative-tolerance` give. Fails if one is
/// invalid, or is for one of the key columns `keys`.
pub fn tolerances_of<'a>(
    alloc: Global,
    matches: &ArgMatches<'a>,
    keys: &[&[u8]],
) -> Result<Vec<Tolerance<'a>>> {
    let mut tolerances = Vec::new(alloc);
    push_tolerances(&mut tolerances, alloc, matches, ABSOLUTE, keys)?;
    push_tolerances(&mut tolerances, alloc, matches, RELATIVE, keys)?;
    Ok(tolerances)
}
