//! Why something is refused, and the fault that tells it.

ghost use Rattle.std.specs.Prelude.{◌≡◌, Some};
ghost use Rattle.nodes.specs.Refusals.{number, fault_by};
ghost use Rattle.nodes.specs.Texts.{refusal_text, fault_text};

use std::error::Error;
use std::fmt;

/// Every refusal of the engine, each with its number.
#[derive(Clone, Copy, PartialEq, Eq, Debug)]
pub enum Refusal {
    /// The tape or posting list is longer than a tape may be.
    TooLong = 1,
    /// The command byte is none of the five.
    UnknownCommand = 2,
    /// Fewer bytes remain than the command's operands need.
    ShortCommand = 3,
    /// The command cannot stand here, or the tape stops inside a document.
    Misplaced = 4,
    /// The document is above the greatest, or not greater than the one before.
    DocumentOrder = 5,
    /// The level would pass the deepest.
    TooDeep = 6,
    /// An OPEN or VALUE, or the CLOSE offset of an OPEN, lies outside the element around it.
    OutsideElement = 7,
    /// The CLOSE is not where its OPEN says.
    CloseElsewhere = 8,
    /// Fewer bytes remain than a record has.
    ShortRecord = 9,
    /// The document or the level of a row is out of its range.
    OutOfRange = 10,
    /// The start of a row passes its end.
    StartPassesEnd = 11,
    /// The turns are used up, and another node is in hand.
    TurnLimit = 12,
    /// Two different nodes stand at one place of a union.
    HandsDiffer = 13,
    /// The node's place is not after every earlier one of its side.
    NotRising = 14,
    /// An earlier container ends inside the node.
    Overlap = 15,
    /// An earlier container contains the node and has no smaller level.
    LevelNotDeeper = 16,
    /// The query is not 3 to 24 bytes in steps of 3.
    QueryLength = 17,
    /// The command of a step is none of the two.
    QueryCommand = 18,
    /// More nodes fit a step than the shorter list holds.
    ListFull = 19,
    /// Writing would pass the caller's bytes, or the length that a tape may have.
    NoRoom = 20,
    /// The innermost OPEN is not as the writer left it.
    BrokenOpen = 21,
}

impl Refusal {
    /// The refusal's number, 1 to 21.
    pub fn number(self) -> u8
        ensures { result ≡ number self }
    {
        self as u8
    }

    /// The fault of this refusal, told under a name.
    pub fn at(self, name: u16, place: u32) -> Fault
        ensures { result ≡ fault_by self name place }
    {
        Fault {
            refusal: self,
            name,
            place,
        }
    }
}

impl fmt::Display for Refusal {
    ghost output = { λ refusal. Some (refusal_text refusal) };

    fn fmt<W: fmt::Write>(&self, f: &mut fmt::Formatter<W>) -> fmt::Result {
        write!(f, "refusal {}", self.number())
    }
}

impl Error for Refusal {}

/// What stopped a source, a layer or a run: the refusal, the name of who found it, and where.
#[derive(Clone, Copy, PartialEq, Eq, Debug)]
pub struct Fault {
    pub refusal: Refusal,
    pub name: u16,
    pub place: u32,
}

impl fmt::Display for Fault {
    ghost output = { λ fault. Some (fault_text fault) };

    fn fmt<W: fmt::Write>(&self, f: &mut fmt::Formatter<W>) -> fmt::Result {
        write!(
            f,
            "{} at {}, found by {}",
            self.refusal, self.place, self.name
        )
    }
}

impl Error for Fault {}
