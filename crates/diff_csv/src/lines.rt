//! Computes the lines at which records begin.
//!
//! The reader of the `csv` crate skips empty lines before a record, and counts the line feeds that
//! it has read. A record ends with an LF, with a CR, or with the CR of a CR LF; in the last case
//! the reader reads the LF with the next record. So the line of a record is the reader's line
//! count, minus the line feeds in the record's fields, minus one if the record ended with an LF.

use crate::ends::Ends;
use csv::{ByteRecord, Reader};
use std::io::Read;

/// Returns the number of line feeds in the fields of a record.
fn feeds_in(record: &ByteRecord) -> u64 {
    record.as_slice().iter().filter(|b| **b == b'\n').count() as u64
}

/// Returns the line at which `record` begins. `record` must be the last one that `reader` has read.
pub(crate) fn line_of<R: Read>(reader: &Reader<Ends<R>>, record: &ByteRecord) -> u64 {
    let place = reader.position();
    let is_ended_by_feed = reader.get_ref().is_feed_before(place.byte());
    let last = place.line().saturating_sub(u64::from(is_ended_by_feed));
    // `first` is the reader's line count before it read the record. If the count has grown only by
    // the line feed that ended the record, or not at all, then no field has a line feed.
    let first = record.position().map_or(0, |at| at.line());
    if last <= first {
        return last;
    }
    last.saturating_sub(feeds_in(record))
}
