//! The commands of a tape, each one byte followed by operands of fixed width.

ghost use Rattle.std.specs.Prelude.{◌≡◌};
ghost use Rattle.tapes.specs.Command.{Cuts};

use nodes::refusal::Refusal;

/// One command of a tape.
#[derive(Clone, Copy)]
pub enum Command {
    Begin { document: u32 },
    Open { tag: u16, close: u32 },
    Close,
    Value { tag: u16, number: u32 },
    End,
}

/// The command bytes.
pub const BEGIN: u8 = 0x01;

pub const OPEN: u8 = 0x02;

pub const CLOSE: u8 = 0x03;

pub const VALUE: u8 = 0x04;

pub const END: u8 = 0x05;

/// A command, and the bytes after it.
#[derive(Clone, Copy)]
pub struct Cut<'a> {
    pub command: Command,
    pub rest: &'a [u8],
}

/// Cuts the first command off the bytes: the command byte is tested before the operands' length.
pub fn cut_command<'a>(bytes: &'a [u8]) -> Result<Cut<'a>, Refusal>
    ensures { Cuts bytes.now result }
{
    match bytes {
        [BEGIN, d3, d2, d1, d0, rest @ ..] => {
            let document = u32::from_be_bytes([*d3, *d2, *d1, *d0]);
            let command = Command::Begin { document };
            Ok(Cut { command, rest })
        }
        [OPEN, t1, t0, c3, c2, c1, c0, rest @ ..] => {
            let tag = u16::from_be_bytes([*t1, *t0]);
            let close = u32::from_be_bytes([*c3, *c2, *c1, *c0]);
            let command = Command::Open { tag, close };
            Ok(Cut { command, rest })
        }
        [CLOSE, rest @ ..] => Ok(Cut {
            command: Command::Close,
            rest,
        }),
        [VALUE, t1, t0, n3, n2, n1, n0, rest @ ..] => {
            let tag = u16::from_be_bytes([*t1, *t0]);
            let number = u32::from_be_bytes([*n3, *n2, *n1, *n0]);
            let command = Command::Value { tag, number };
            Ok(Cut { command, rest })
        }
        [END, rest @ ..] => Ok(Cut {
            command: Command::End,
            rest,
        }),
        [] | [BEGIN | OPEN | VALUE, ..] => Err(Refusal::ShortCommand),
        _ => Err(Refusal::UnknownCommand),
    }
}
