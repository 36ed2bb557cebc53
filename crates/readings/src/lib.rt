//! Readings: the exact sum of what a condenser hands out, rounded once to a pattern.
#![tactic(auto)]

pub mod accumulate;
pub mod forms;
pub mod laws;
mod limbs;
pub mod names;
pub mod reading;
mod rounding;
pub mod sums;
