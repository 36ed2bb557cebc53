//! A whole sheet: its lines entered into a run as its bytes come in, and the lines that were refused.
#![tactic(auto)]

pub mod ending;
pub mod feeding;
pub mod in_memory;
pub mod sheet;
pub mod stream;
