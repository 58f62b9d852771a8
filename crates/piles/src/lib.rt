//! Layers upon layers, and paths over tapes: the parts of the engine put together.

#![tactic(auto)]

#[cfg(test)]
mod tests;
