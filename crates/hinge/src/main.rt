//! The hinge block, from beginning to end: it is written to a tape, read back tag by tag, and damaged copies of it are
//! refused; its bodies and faces are joined, a list of calls is made, a path is asked. Every value is compared with what the rules give, and the last line says how that came out.

#![tactic(auto)]

mod block;
mod joins;
mod report;
mod said;
mod worked;

use block::{BODIES, CALLS, CHILDREN, DAMAGES, DESCENDANTS, FACES, NESTED, PART};
use merge::pair::Axis;
use report::Report;
use std::io;
use worked::worked_example;
use writer::write::write_all;

fn main(rt: HostRuntime) -> io::Result<()> {
    worked_example();
    let mut bytes = [0; 51];
    let mut answers = [Ok(()); 11];
    let finished = write_all(&CALLS, &mut bytes, &mut answers);
    let mut report = Report::new();
    report.calls(&rt, &answers)?;
    report.tape(&rt, &bytes, finished)?;
    report.check(&rt, &bytes)?;
    report.nodes(&rt, &bytes, 1, &PART)?;
    report.nodes(&rt, &bytes, 2, &BODIES)?;
    report.nodes(&rt, &bytes, 3, &FACES)?;
    for damage in DAMAGES {
        report.damage(&rt, &bytes, damage)?;
    }
    report.pairs(&rt, &bytes, 3, Axis::Descendant, &DESCENDANTS)?;
    report.pairs(&rt, &bytes, 3, Axis::Child, &CHILDREN)?;
    report.pairs(&rt, &bytes, 2, Axis::Descendant, &NESTED)?;
    report.run(&rt, &bytes)?;
    report.alone(&rt)?;
    report.path(&rt, &bytes)?;
    report.sum(&rt)
}
