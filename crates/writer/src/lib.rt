//! Writing tapes into a caller's bytes, by a writer outside a document and a writer inside one.

#![tactic(auto)]

pub mod call;
pub mod fault;
pub mod history;
mod root;
pub mod state;
#[cfg(test)]
mod tests;
pub mod write;
