//! Condensers: they keep the exact sum of the pieces put into them, and hand it out as few summands.
#![tactic(auto)]

mod binary64;
pub mod column_table;
pub mod condenser;
mod finite;
pub mod pairing_table;
mod units;
