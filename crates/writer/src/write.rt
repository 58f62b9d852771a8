//! Calls on a fresh writer, one after another.

ghost use Rattle.std.specs.Prelude.{◌≡◌};
ghost use Rattle.nodes.specs.declared.refusal.Refusal.TheVariants.{Misplaced};
ghost use Rattle.writer.specs.declared.call.WriterCall.TheVariants.{End};
ghost use Rattle.writer.specs.declared.write.Writer.TheVariants.{Inside};
ghost use Rattle.writer.specs.Views.{out, ins};
ghost use Rattle.writer.specs.Writer.{fault_at};
ghost use Rattle.writer.specs.Turns.{free, busy, state_of, Turns, length_of};
ghost use Rattle.writer.specs.Writes.{WritesAll};

use crate::call::WriterCall;
use crate::fault::WriteFault;
use crate::state::{GivenBack, WriterInside, WriterOutside, fault_at};
use nodes::refusal::Refusal;

/// A writer, outside or inside a document.
enum Writer {
    Outside(WriterOutside),
    Inside(WriterInside),
}

/// A writer after a call, and what the call is answered.
struct Turn {
    writer: Writer,
    answer: Result<(), WriteFault>,
}

impl Turn {
    /// A writer after a call that was accepted.
    fn accepted(writer: Writer) -> Turn
        ensures { result ≡ record { writer = writer; answer = Ok tt } }
    {
        let answer = Ok(());
        Turn { writer, answer }
    }

    /// A writer after a call that was refused.
    fn refused(writer: Writer, fault: WriteFault) -> Turn
        ensures { result ≡ record { writer = writer; answer = Err fault } }
    {
        let answer = Err(fault);
        Turn { writer, answer }
    }

    /// A writer that stays inside its document, after a call that it answered.
    fn answered(writer: WriterInside, answer: Result<(), WriteFault>) -> Turn
        ensures { result ≡ record { writer = Inside writer; answer = answer } }
    {
        let writer = Writer::Inside(writer);
        Turn { writer, answer }
    }
}

/// The fault of a call that the writer's state does not have.
fn misplaced(place: u32) -> WriteFault
    ensures { result ≡ fault_at place Misplaced }
{
    fault_at(place, Refusal::Misplaced)
}

fn outside(writer: WriterOutside, bytes: &mut [u8], call: WriterCall) -> Turn
    ensures { Turns bytes.old (free (out writer)) call bytes.new result }
{
    let WriterCall::Begin(document) = call else {
        let fault = misplaced(writer.finished_length() as u32);
        return Turn::refused(Writer::Outside(writer), fault);
    };
    match writer.begin(bytes, document) {
        Ok(begun) => Turn::accepted(Writer::Inside(begun)),
        Err(GivenBack { writer, fault }) => Turn::refused(Writer::Outside(writer), fault),
    }
}

fn end(writer: WriterInside, bytes: &mut [u8]) -> Turn
    ensures { Turns bytes.old (busy (ins writer)) End bytes.new result }
{
    match writer.end(bytes) {
        Ok(ended) => Turn::accepted(Writer::Outside(ended)),
        Err(GivenBack { writer, fault }) => Turn::refused(Writer::Inside(writer), fault),
    }
}

fn inside(mut writer: WriterInside, bytes: &mut [u8], call: WriterCall) -> Turn
    ensures { Turns bytes.old (busy (ins writer)) call bytes.new result }
{
    match call {
        WriterCall::Begin(_) => {
            let fault = misplaced(writer.written() as u32);
            Turn::refused(Writer::Inside(writer), fault)
        }
        WriterCall::Open(tag) => {
            let answer = writer.open(bytes, tag);
            Turn::answered(writer, answer)
        }
        WriterCall::Value(tag, number) => {
            let answer = writer.value(bytes, tag, number);
            Turn::answered(writer, answer)
        }
        WriterCall::Close => {
            let answer = writer.close(bytes);
            Turn::answered(writer, answer)
        }
        WriterCall::End => end(writer, bytes),
    }
}

fn make(writer: Writer, bytes: &mut [u8], call: WriterCall) -> Turn
    ensures { Turns bytes.old (state_of writer) call bytes.new result }
{
    match writer {
        Writer::Outside(writer) => outside(writer, bytes, call),
        Writer::Inside(writer) => inside(writer, bytes, call),
    }
}

/// Ends the writing; a document that is not ended is given up.
fn finish(writer: Writer) -> Option<usize>
    ensures { result ≡ length_of (state_of writer) }
{
    match writer {
        Writer::Outside(writer) => Some(writer.finish()),
        Writer::Inside(writer) => {
            let _ = writer.abandon();
            None
        }
    }
}

/// Makes the calls on a fresh writer, as many as there are answers for, and answers each; then the finished length, where
/// the writer is left outside a document.
pub fn write_all(
    calls: &[WriterCall],
    bytes: &mut [u8],
    answers: &mut [Result<(), WriteFault>],
) -> Option<usize>
    ensures { WritesAll calls.now bytes.old bytes.new answers.old answers.new result }
{
    let mut writer = Writer::Outside(WriterOutside::fresh());
    // Not a zip: over a zip with `answers.iter_mut()` no proof learns what was written.
    for (i, answer) in answers.iter_mut().enumerate() {
        let Some(call) = calls.get(i) else {
            break;
        };
        Turn {
            writer,
            answer: *answer,
        } = make(writer, bytes, *call);
    }
    finish(writer)
}

#[cfg(test)]
mod tests;
