//! Runs and paths over the hinge block.

use crate::block::{ALONE, FOUND, QUERY, RUN, TOO_MANY};
use crate::report::Report;
use crate::said::Said;
use merge::opening::Opening;
use merge::pair::Axis;
use nodes::list::ListSource;
use nodes::model::Model;
use nodes::row::Row;
use paths::fault::PathFault;
use paths::path::path;
use runs::call::Answer;
use runs::replay::replay;
use runs::run::Run;
use std::io;
use tapes::source::TapeSource;
use tapes::tape::Tape;

/// The bodies over the nodes of a tag.
fn bodies_over<'a>(
    bytes: &'a [u8],
    tag: u16,
    axis: Axis,
) -> Opening<TapeSource<'a>, TapeSource<'a>> {
    let tape = Tape::new(bytes);
    Opening {
        containers: tape.source(2, 1),
        contained: tape.source(tag, 2),
        axis,
        name: 9,
    }
}

impl Report {
    /// The pairs of the bodies over the nodes of a tag, one after another, and the end.
    pub fn pairs(
        &mut self,
        rt: &HostRuntime,
        bytes: &[u8],
        tag: u16,
        axis: Axis,
        expected: &[(u32, u32)],
    ) -> io::Result<()> {
        let mut run = Run::open(bodies_over(bytes, tag, axis));
        for pair in expected {
            let said = Said::from(Answer::Next(run.next()));
            self.expect(said == Said::Next(Ok(Some(*pair))));
            println!(rt; "tag 2 over tag {tag}, {axis}: {said}")?;
        }
        self.expect(Said::from(Answer::Next(run.next())) == Said::Next(Ok(None)));
        Ok(())
    }

    /// A list of calls on the run of the bodies over the faces.
    pub fn run(&mut self, rt: &HostRuntime, bytes: &[u8]) -> io::Result<()> {
        let calls = RUN.map(|(call, _)| call);
        let mut answers = [None; 6];
        replay(
            bodies_over(bytes, 3, Axis::Descendant),
            &calls,
            &mut answers,
        );
        for ((call, expected), answer) in RUN.iter().zip(&answers) {
            match answer {
                Some(answer) => {
                    let said = Said::from(*answer);
                    self.expect(said == *expected);
                    println!(rt; "{call}: {said}")?;
                }
                None => {
                    self.expect(false);
                    println!(rt; "{call}: not made")?;
                }
            }
        }
        Ok(())
    }

    /// One container over one node, at the bounds of containment.
    pub fn alone(&mut self, rt: &HostRuntime) -> io::Result<()> {
        let container = [Row {
            document: 7,
            start: 12,
            end: 41,
            level: 2,
        }];
        for (start, end, level, expected) in ALONE {
            let contained = [Row {
                document: 7,
                start,
                end,
                level,
            }];
            let mut run = Run::open(Opening {
                containers: ListSource::new(&container, 1),
                contained: ListSource::new(&contained, 2),
                axis: Axis::Descendant,
                name: 9,
            });
            let said = Said::from(Answer::Next(run.next()));
            self.expect(said == expected);
            println!(rt; "12 to 41 over {start} to {end}, level {level}: {said}")?;
        }
        Ok(())
    }

    /// The query part, body, face, with lists that are long enough and with lists that are not.
    pub fn path(&mut self, rt: &HostRuntime, bytes: &[u8]) -> io::Result<()> {
        let tape = Tape::new(bytes);
        let mut answer = [Row::BLANK; 2];
        let mut spare = [Row::BLANK; 2];
        let found = path(&tape, &QUERY, &mut answer, &mut spare);
        self.expect(matches!(found, Ok(2)));
        for (row, expected) in answer.iter().zip(&FOUND) {
            let start = row.start;
            self.expect(start == *expected);
            println!(rt; "path: start {start}")?;
        }
        match path(&tape, &QUERY, &mut answer[0..1], &mut spare) {
            Ok(_) => {
                self.expect(false);
                println!(rt; "path with lists of one row: not refused")
            }
            Err(fault) => {
                self.expect(matches!(
                    fault,
                    PathFault::Own { refusal, place } if (refusal.number(), place) == TOO_MANY
                ));
                println!(rt; "path with lists of one row: {fault}")
            }
        }
    }
}
