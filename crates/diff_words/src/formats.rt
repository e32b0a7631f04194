//! The forms of reports.

/// The form of a report.
#[derive(Clone, Copy)]
pub enum Format {
    /// Lines of plain text.
    Text,
    /// JSON lines: a JSON object on each line.
    Json,
}
