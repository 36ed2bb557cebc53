//! Numbers as the library takes them in: refusals, kinds of number, factors, pieces.
#![tactic(auto)]

pub mod acceptance;
pub mod counts;
pub mod factor;
pub mod kind;
pub mod patterns;
pub mod piece;
pub mod product;
pub mod refusal;
pub mod summand;
#[cfg(test)]
mod tests;
