//! Why a path is refused.

ghost use Rattle.std.specs.Prelude.{◌≡◌, Some};
ghost use Rattle.paths.specs.Faults.{as_path_fault};
ghost use Rattle.paths.specs.Texts.{path_fault_text};

use nodes::refusal::{Fault, Refusal};
use std::error::Error;
use std::fmt;

// A type of its own: a step cannot be refused as a query can.
/// Why a step gives no nodes: more fit than there is room for, or its run was stopped.
#[derive(Clone, Copy, PartialEq, Eq, Debug)]
pub enum StepFault {
    Full { step: u32 },
    Stopped { step: u32, fault: Fault },
}

/// Why a path is refused: by a refusal of its own and where, or by the fault of a step's run.
#[derive(Clone, Copy, PartialEq, Eq, Debug)]
pub enum PathFault {
    Own { refusal: Refusal, place: u32 },
    Step { step: u32, fault: Fault },
}

impl From<StepFault> for PathFault {
    ghost from_gives = { λ a r. r ≡ as_path_fault a };

    fn from(fault: StepFault) -> PathFault {
        match fault {
            StepFault::Full { step } => PathFault::Own {
                refusal: Refusal::ListFull,
                place: step,
            },
            StepFault::Stopped { step, fault } => PathFault::Step { step, fault },
        }
    }
}

impl fmt::Display for PathFault {
    ghost output = { λ fault. Some (path_fault_text fault) };

    fn fmt<W: fmt::Write>(&self, f: &mut fmt::Formatter<W>) -> fmt::Result {
        match self {
            PathFault::Own { refusal, place } => { write!(f, "{refusal} at step {place}") }
            PathFault::Step { step, fault } => write!(f, "step {step}: {fault}"),
        }
    }
}

impl Error for PathFault {}
