//! The settings for schemas, and checks that refuse options which can't be used for them.

use clap::ArgMatches;
use clap::parser::ValueSource;
use dunkelva_messages::error::Result;
use dunkelva_messages::trouble;
use dunkelva_options::options::{Takes, options, refused_by};

/// Returns the text that stands for null in CSV files, or `None` if `--null` is not given.
pub fn null_in<'m>(matches: &'m ArgMatches<'_>) -> Option<&'m [u8]> {
    matches.get_str("null").map(|word| word.as_bytes())
}

/// Fails if `--null`, `--delimiter` or `--no-header` is given. These options are only for CSV
/// files.
pub fn refuse_of_tables(matches: &ArgMatches<'_>) -> Result<()> {
    for option in ["null", "delimiter"] {
        if matches.contains_id(option) {
            return Err(trouble!("--{option} is for CSV files alone"));
        }
    }
    if matches.get_flag("no-header") {
        return Err(trouble!("--no-header is for CSV files alone"));
    }
    Ok(())
}

/// Fails if `--skip-bad` is given. This option is only for JSON documents.
pub fn refuse_of_documents(matches: &ArgMatches<'_>) -> Result<()> {
    if matches.get_flag("skip-bad") {
        return Err(trouble!("--skip-bad is for JSON documents alone"));
    }
    Ok(())
}

/// Returns whether the option named `option`, which takes a value, is given on the command line or
/// in the config file. A default value does not count.
fn has_value(matches: &ArgMatches<'_>, option: &str) -> bool {
    matches.value_source(option) == Some(ValueSource::CommandLine)
}

/// Fails if an option is given that can't be given with `--schema-only`.
pub fn refuse_others(matches: &ArgMatches<'_>) -> Result<()> {
    let refused = refused_by("schema-only");
    for option in options() {
        let is_given = match option.takes {
            Takes::Nothing => matches.get_flag(option.id),
            _ => has_value(matches, option.id),
        };
        if is_given && refused.contains(&option.id) {
            return Err(trouble!("--{} can't be used with --schema-only", option.id));
        }
    }
    Ok(())
}
