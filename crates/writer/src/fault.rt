//! Why a write is refused.

ghost use Rattle.std.specs.Prelude.{Some};
ghost use Rattle.writer.specs.Texts.{write_fault_text};

use nodes::refusal::Refusal;
use std::error::Error;
use std::fmt;

/// Why a write was refused, and how many bytes are written.
#[derive(Clone, Copy, PartialEq, Eq, Debug)]
pub struct WriteFault {
    pub refusal: Refusal,
    pub place: u32,
}

impl fmt::Display for WriteFault {
    ghost output = { λ fault. Some (write_fault_text fault) };

    fn fmt<W: fmt::Write>(&self, f: &mut fmt::Formatter<W>) -> fmt::Result {
        write!(f, "{} at {}", self.refusal, self.place)
    }
}

impl Error for WriteFault {}
