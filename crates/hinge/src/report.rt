//! Printing what was done, and comparing it with what the rules give.

ghost use Rattle.std.specs.Prelude.{◌≡◌, ◌+◌, min, if◌then◌else◌};

use crate::block::{CALLS, DOCUMENT, ROOT_CLOSE, TAPE};
use crate::said::Written;
use nodes::node::Node;
use nodes::row::Row;
use nodes::source::NodeSource;
use std::io;
use tapes::check::check_tape;
use tapes::source::TapeSource;
use writer::fault::WriteFault;

// The runtime and the bytes are passed to each: a report holds what is counted, and no handle.
/// How many values were compared, and how many of them differ.
#[derive(Drop)]
pub struct Report {
    compared: u32,
    differ: u32,
}

impl Report {
    pub fn new() -> Report
        ensures { (result.compared ≡ 0) × (result.differ ≡ 0) }
    {
        Report {
            compared: 0,
            differ: 0,
        }
    }

    /// One value, compared.
    pub fn expect(&mut self, agrees: bool)
        ensures compared { self.new.compared ≡ min (self.old.compared + 1) 4294967295 }
        ensures differ { self.new.differ ≡ (if agrees then self.old.differ else min (self.old.differ + 1) 4294967295) }
    {
        self.compared = self.compared.saturating_add(1);
        if !agrees {
            self.differ = self.differ.saturating_add(1);
        }
    }

    /// The calls of the writer, and what each was answered.
    pub fn calls(
        &mut self,
        rt: &HostRuntime,
        answers: &[Result<(), WriteFault>; 11],
    ) -> io::Result<()> {
        for (call, answer) in CALLS.iter().zip(answers) {
            let written = Written { answer: *answer };
            println!(rt; "{call}: {written}")?;
            self.expect(answer.is_ok());
        }
        Ok(())
    }

    /// The finished length, and the bytes of the tape.
    pub fn tape(
        &mut self,
        rt: &HostRuntime,
        bytes: &[u8],
        finished: Option<usize>,
    ) -> io::Result<()> {
        match finished {
            None => {
                println!(rt; "not finished")?;
                self.expect(false);
            }
            Some(length) => {
                println!(rt; "{length} bytes finished")?;
                self.expect(length == TAPE.len());
            }
        }
        print!(rt; "tape:")?;
        for (byte, expected) in bytes.iter().zip(TAPE) {
            print!(rt; " {byte:02x}")?;
            self.expect(*byte == *expected);
        }
        println!(rt; "")
    }

    /// The nodes of a tag, and the end after them.
    pub fn nodes(
        &mut self,
        rt: &HostRuntime,
        bytes: &[u8],
        tag: u16,
        rows: &[(u32, u32, u8)],
    ) -> io::Result<()> {
        let mut source = TapeSource::new(bytes, tag, tag);
        for expected in rows {
            match source.take() {
                Ok(Some(node)) => self.node(rt, tag, node, *expected)?,
                _ => self.expect(false),
            }
        }
        self.expect(matches!(source.take(), Ok(None)));
        Ok(())
    }

    fn node(
        &mut self,
        rt: &HostRuntime,
        tag: u16,
        node: Node,
        expected: (u32, u32, u8),
    ) -> io::Result<()> {
        let Row {
            document,
            start,
            end,
            level,
        } = Row::from(node);
        self.expect(document == DOCUMENT);
        self.expect((start, end, level) == expected);
        println!(rt; "tag {tag}: document {document}, start {start}, end {end}, level {level}")
    }

    /// Whether the bytes are the tape of a forest.
    pub fn check(&mut self, rt: &HostRuntime, bytes: &[u8]) -> io::Result<()> {
        let sound = check_tape(bytes, 9).is_ok();
        self.expect(sound);
        if sound {
            println!(rt; "check: the tape of one forest")
        } else {
            println!(rt; "check: the tape of no forest")
        }
    }

    /// A copy whose root names another CLOSE offset, and how it is refused.
    pub fn damage(
        &mut self,
        rt: &HostRuntime,
        tape: &[u8; 51],
        damage: (u8, u8, u32),
    ) -> io::Result<()> {
        let (close, number, place) = damage;
        let mut bytes = *tape;
        bytes[ROOT_CLOSE] = close;
        match check_tape(&bytes, 9) {
            Ok(()) => {
                println!(rt; "root CLOSE {close}: not refused")?;
                self.expect(false);
            }
            Err(fault) => {
                println!(rt; "root CLOSE {close}: {fault}")?;
                self.expect(
                    (fault.refusal.number(), fault.place, fault.name) == (number, place, 9),
                );
            }
        }
        Ok(())
    }

    /// The sum of the comparisons.
    pub fn sum(&self, rt: &HostRuntime) -> io::Result<()> {
        let Report { compared, differ } = self;
        if *differ == 0 {
            println!(rt; "{compared} values compared with the rules: all agree")
        } else {
            println!(rt; "{compared} values compared with the rules: {differ} differ")
        }
    }
}
