//! What a call of a run or a writer answers: in the numbers of the rules, and how it prints.

ghost use Rattle.std.specs.Prelude.{◌≡◌, Some};
ghost use Rattle.hinge.specs.Said.{told_of, said_of, said_text, written_text};

use nodes::refusal::Fault;
use nodes::row::Row;
use runs::call::{Answer, Tally};
use std::fmt;
use writer::fault::WriteFault;

/// An answer: a pair by the starts of its two nodes, a refusal by its number and its turn.
#[derive(Clone, Copy, PartialEq, Eq)]
pub enum Said {
    Next(Result<Option<(u32, u32)>, (u8, u32)>),
    Skip(Result<u32, (u8, u32)>),
    Tell(Tally),
}

fn told(fault: Fault) -> (u8, u32)
    ensures { result ≡ told_of fault }
{
    (fault.refusal.number(), fault.place)
}

impl From<Answer> for Said {
    ghost from_gives = { λ answer said. said ≡ said_of answer };

    fn from(answer: Answer) -> Said {
        match answer {
            Answer::Next(Ok(Some(pair))) => {
                let container = Row::from(pair.container);
                Said::Next(Ok(Some((container.start, Row::from(pair.contained).start))))
            }
            Answer::Next(Ok(None)) => Said::Next(Ok(None)),
            Answer::Next(Err(fault)) => Said::Next(Err(told(fault))),
            Answer::Skip(Ok(pairs)) => Said::Skip(Ok(pairs)),
            Answer::Skip(Err(fault)) => Said::Skip(Err(told(fault))),
            Answer::Tell(tally) => Said::Tell(tally),
        }
    }
}

impl fmt::Display for Said {
    ghost output = { λ said. Some (said_text said) };

    fn fmt<W: fmt::Write>(&self, f: &mut fmt::Formatter<W>) -> fmt::Result {
        match self {
            Said::Next(Ok(Some((container, contained)))) => {
                write!(f, "pair {container}, {contained}")
            }
            Said::Next(Ok(None)) => f.write_str("the end"),
            Said::Next(Err((number, turn))) => write!(f, "refusal {number} at turn {turn}"),
            Said::Skip(Ok(pairs)) => write!(f, "{pairs} passed"),
            Said::Skip(Err((number, turn))) => write!(f, "refusal {number} at turn {turn}"),
            Said::Tell(tally) => write!(f, "{tally}"),
        }
    }
}

/// What a call of a writer is answered.
#[derive(Clone, Copy)]
pub struct Written {
    pub answer: Result<(), WriteFault>,
}

impl fmt::Display for Written {
    ghost output = { λ written. Some (written_text written) };

    fn fmt<W: fmt::Write>(&self, f: &mut fmt::Formatter<W>) -> fmt::Result {
        match self.answer {
            Ok(()) => f.write_str("accepted"),
            Err(fault) => write!(f, "{fault}"),
        }
    }
}
