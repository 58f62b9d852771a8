//! Whether bytes are the tape of a forest.

ghost use Rattle.tapes.specs.Check.{Checks};

use crate::source::TapeSource;
use nodes::refusal::Fault;
use nodes::source::NodeSource;

/// Reads a whole tape: it is the tape of exactly one forest, or of none, and then the fault, under the name.
pub fn check_tape(bytes: &[u8], name: u16) -> Result<(), Fault>
    ensures { Checks bytes.now name result }
{
    let mut source = TapeSource::new(bytes, 0, name);
    while source.take()?.is_some() {}
    Ok(())
}

#[cfg(test)]
mod tests;
