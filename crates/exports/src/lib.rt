//! What C and Rust programs call, by way of the static library `exports_c`: the exact dot product of two slices, and the report of a sheet in memory. Nothing is kept between calls.
#![tactic(auto)]

pub mod answer;
pub mod dot;
mod forms;
pub mod sheet;
