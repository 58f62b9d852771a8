//! The reader of a tape.

ghost use Rattle.std.specs.Prelude.{◌≤◌, length, ◌≡◌, ◌+◌, ◌<◌, if◌then◌else◌, Some, None, nat_lt};
ghost use Rattle.nodes.specs.Limits.{max_bytes, max_level};
ghost use Rattle.tapes.specs.Reading.{innermost, row_at, tape_reads};
ghost use Rattle.tapes.specs.declared.command.Command.TheVariants.{Begin, Open, Close, Value, End};

use crate::command::{Command, Cut, cut_command};
use crate::stage::Stage;
use nodes::limits::{MAX_BYTES, MAX_DOCUMENT, MAX_LEVEL};
use nodes::node::Node;
use nodes::refusal::Refusal;
use nodes::row::Row;
use nodes::tagged::Tagged;

/// A reader of the rows of a tape that is not too long, up to its first wrong command.
#[derive(Drop)]
pub struct Reader<'a> {
    bytes: &'a [u8],
    at: usize,
    // Flat, as the rules have a reading: in an enum of stages the numbers would be taken apart again.
    stage: Stage,
    document: u32,
    /// The least number that the next document may have.
    least: u32,
    depth: usize,
    /// The CLOSE offsets of the open elements, the outermost first.
    // An array with its count beside: the engine has fixed memory and no heap.
    path: [u32; MAX_LEVEL],
    ghost short: { length bytes.now ≤ max_bytes },
    ghost deep: { depth ≤ max_level },
    ghost within: { at ≤ length bytes.now },
}

impl<'a> Reader<'a> {
    ghost use Rattle.tapes.specs.Source.{reading, whole_left, Obeys, Steps, NextRow, NextNode};

    /// A reader at the start of the bytes, which must not be too many.
    #[tactic(auto, using(crate::proofs::Onward::short_reads, crate::proofs::Onward::long_reads))]
    pub fn new(bytes: &'a [u8]) -> Result<Reader<'a>, Refusal>
        ensures { whole_left result ≡ tape_reads bytes.now }
    {
        if bytes.len() > MAX_BYTES {
            return Err(Refusal::TooLong);
        }
        Ok(Reader {
            bytes,
            at: 0,
            stage: Stage::Outside,
            document: 0,
            least: 0,
            depth: 0,
            path: [0; MAX_LEVEL],
        })
    }

    /// The offset of the next command.
    pub fn place(&self) -> u32
        ensures { result ≡ self.now.at }
    {
        self.at as u32
    }

    fn begin(&mut self, document: u32) -> Result<Option<Tagged>, Refusal>
        ensures { Obeys (Begin document) self.old result self.new }
    {
        let Stage::Outside = self.stage else {
            return Err(Refusal::Misplaced);
        };
        if document > MAX_DOCUMENT || document < self.least {
            return Err(Refusal::DocumentOrder);
        }
        self.stage = Stage::Begun;
        self.document = document;
        self.least = document + 1;
        Ok(None)
    }

    fn open(&mut self, tag: u16, close: u32) -> Result<Option<Tagged>, Refusal>
        ensures { Obeys (Open tag close) self.old result self.new }
    {
        let inside = self.at + 7;
        match self.innermost() {
            None => {
                let Stage::Begun = self.stage else {
                    return Err(Refusal::Misplaced);
                };
                if (close as usize) < inside || close as usize >= self.bytes.len() {
                    return Err(Refusal::OutsideElement);
                }
            }
            Some(around) => {
                if self.depth >= MAX_LEVEL {
                    return Err(Refusal::TooDeep);
                }
                if self.at >= around as usize || (close as usize) < inside || close >= around {
                    return Err(Refusal::OutsideElement);
                }
            }
        }
        let row = self.row_to(close);
        self.path[self.depth] = close;
        self.depth += 1;
        self.stage = Stage::Rooted;
        Ok(Some(Tagged { tag, row }))
    }

    fn close(&mut self) -> Result<Option<Tagged>, Refusal>
        ensures { Obeys Close self.old result self.new }
    {
        let Some(around) = self.innermost() else {
            return Err(Refusal::Misplaced);
        };
        if self.at != around as usize {
            return Err(Refusal::CloseElsewhere);
        }
        self.depth -= 1;
        Ok(None)
    }

    fn value(&mut self, tag: u16, number: u32) -> Result<Option<Tagged>, Refusal>
        ensures { Obeys (Value tag number) self.old result self.new }
    {
        let Some(around) = self.innermost() else {
            return Err(Refusal::Misplaced);
        };
        if self.depth >= MAX_LEVEL {
            return Err(Refusal::TooDeep);
        }
        if self.at >= around as usize {
            return Err(Refusal::OutsideElement);
        }
        let row = self.row_to(self.place());
        Ok(Some(Tagged { tag, row }))
    }

    fn end(&mut self) -> Result<Option<Tagged>, Refusal>
        ensures { Obeys End self.old result self.new }
    {
        let Stage::Rooted = self.stage else {
            return Err(Refusal::Misplaced);
        };
        if self.depth > 0 {
            return Err(Refusal::Misplaced);
        }
        self.stage = Stage::Outside;
        Ok(None)
    }

    /// The CLOSE offset of the innermost open element.
    fn innermost(&self) -> Option<u32>
        ensures { result ≡ (if nat_lt 0 self.now.depth then Some (innermost (reading self.now)) else None) }
    {
        self.path[..self.depth].last().copied()
    }

    /// The row of what begins here and ends at an offset.
    fn row_to(&self, end: u32) -> Row
        requires { self.now.depth < max_level }
        ensures { result ≡ row_at self.now.document self.now.at end (self.now.depth + 1) }
    {
        Row {
            document: self.document,
            start: self.place(),
            end,
            level: self.depth as u8 + 1,
        }
    }

    /// Obeys a command at the place of the reading, which stays; a refused one leaves all as it was.
    fn obey(&mut self, command: Command) -> Result<Option<Tagged>, Refusal>
        ensures { Obeys command self.old result self.new }
    {
        match command {
            Command::Begin { document } => self.begin(document),
            Command::Open { tag, close } => self.open(tag, close),
            Command::Close => self.close(),
            Command::Value { tag, number } => self.value(tag, number),
            Command::End => self.end(),
        }
    }

    /// Obeys the command at the place of the reading, and goes behind it; a refused one leaves all as it was.
    fn step(&mut self) -> Result<Option<Tagged>, Refusal>
        ensures { Steps self.old result self.new }
    {
        let Cut { command, rest } = cut_command(&self.bytes[self.at..])?;
        let made = self.obey(command)?;
        self.at = self.bytes.len() - rest.len();
        Ok(made)
    }

    /// Reads on to the next row, or to the end.
    fn next_row(&mut self) -> Result<Option<Tagged>, Refusal>
        ensures { NextRow self.old result self.new }
    {
        // Not an iterator: each command moves the place on by a width of its own.
        while self.at < self.bytes.len() {
            if let Some(row) = self.step()? {
                return Ok(Some(row));
            }
        }
        match self.stage {
            Stage::Outside => Ok(None),
            _ => Err(Refusal::Misplaced),
        }
    }

    /// Reads on to the next node of the tag, or to the end.
    pub fn next_node(&mut self, tag: u16) -> Result<Option<Node>, Refusal>
        ensures { NextNode tag self.old result self.new }
    {
        while let Some(found) = self.next_row()? {
            if found.tag == tag {
                return Ok(Some(found.row.node_or_blank()));
            }
        }
        Ok(None)
    }
}
