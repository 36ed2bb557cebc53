//! Runs: an open run takes products, a sealed one is read.
#![tactic(auto)]

pub mod agreement;
pub mod batch;
mod checks;
pub mod dispatch;
mod element;
mod entering;
pub mod line;
pub mod play;
pub mod queue;
pub mod run;
