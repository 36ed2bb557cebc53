//! Runs on a condenser of capacity 2, where a call soon finds no room.
#![tactic(auto)]

#[cfg(test)]
mod copies;
pub mod duo;
#[cfg(test)]
mod full_runs;
