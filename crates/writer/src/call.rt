//! A call on a writer, as a value.

ghost use Rattle.std.specs.Prelude.{Some};
ghost use Rattle.writer.specs.Texts.{call_text};

use std::fmt;

/// One of the five calls.
#[derive(Clone, Copy, PartialEq, Eq, Debug)]
pub enum WriterCall {
    Begin(u32),
    Open(u16),
    Value(u16, u32),
    Close,
    End,
}

impl fmt::Display for WriterCall {
    ghost output = { λ call. Some (call_text call) };

    fn fmt<W: fmt::Write>(&self, f: &mut fmt::Formatter<W>) -> fmt::Result {
        match self {
            WriterCall::Begin(document) => write!(f, "begin document {document}"),
            WriterCall::Open(tag) => write!(f, "open tag {tag}"),
            WriterCall::Value(tag, number) => write!(f, "value tag {tag}, number {number}"),
            WriterCall::Close => f.write_str("close"),
            WriterCall::End => f.write_str("end"),
        }
    }
}
