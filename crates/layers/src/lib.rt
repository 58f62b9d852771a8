//! Layers: sources that are made of any other sources.

#![tactic(auto)]

pub mod levels;
#[cfg(test)]
mod tests;
mod turn;
pub mod union;
