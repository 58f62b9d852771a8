//! Runs: the pairs of two sources, handed out one by one or passed up to a place, with the law
//! that every list of calls keeps.

#![tactic(auto)]

pub mod call;
pub mod laws;
pub mod replay;
pub mod run;
mod state;
#[cfg(test)]
mod tests;
