//! Sheet lines and reports as text: the line reader over borrowed fields, the line writer, the reports.
#![tactic(auto)]

mod digits;
pub mod line;
pub mod reader;
pub mod reports;
pub mod splitter;
pub mod text;
pub mod writer;
pub mod written;
