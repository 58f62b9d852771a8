//! What the rules give for the hinge block: a part (tag 1) with a body (tag 2) that has a face (tag 3) and a body with
//! a face, and then a face of the part's own.

use crate::said::Said;
use nodes::place::Place;
use runs::call::{Call, Tally};
use writer::call::WriterCall;

/// The number of the document.
pub const DOCUMENT: u32 = 7;

/// The calls that write the block, all of which are accepted.
pub const CALLS: [WriterCall; 11] = [
    WriterCall::Begin(DOCUMENT),
    WriterCall::Open(1),
    WriterCall::Open(2),
    WriterCall::Value(3, 0),
    WriterCall::Open(2),
    WriterCall::Value(3, 0),
    WriterCall::Close,
    WriterCall::Close,
    WriterCall::Value(3, 0),
    WriterCall::Close,
    WriterCall::End,
];

/// The finished tape.
pub const TAPE: &[u8; 51] =
    b"\x01\0\0\0\x07\x02\0\x01\0\0\0\x31\x02\0\x02\0\0\0\x29\x04\0\x03\0\0\0\0\x02\0\x02\0\0\0\x28\x04\0\x03\0\0\0\0\x03\x03\x04\0\x03\0\0\0\0\x03\x05";

/// The nodes of the part, of the bodies and of the faces: start, end and level.
pub const PART: [(u32, u32, u8); 1] = [(5, 49, 1)];

pub const BODIES: [(u32, u32, u8); 2] = [(12, 41, 2), (26, 40, 3)];

pub const FACES: [(u32, u32, u8); 3] = [(19, 19, 3), (33, 33, 4), (42, 42, 2)];

/// Where the root's CLOSE offset has its last byte, and what it is changed to, with the refusal's number and place.
pub const ROOT_CLOSE: usize = 11;

pub const DAMAGES: [(u8, u8, u32); 3] = [(50, 8, 49), (42, 7, 42), (51, 7, 5)];

/// The pairs of the bodies over the faces on the descendant axis and on the child axis, and of the bodies over
/// themselves: the starts of container and contained node.
pub const DESCENDANTS: [(u32, u32); 3] = [(12, 19), (12, 33), (26, 33)];

pub const CHILDREN: [(u32, u32); 2] = [(12, 19), (26, 33)];

pub const NESTED: [(u32, u32); 1] = [(12, 26)];

/// Calls on the run of the bodies over the faces, descendant axis, each with its answer.
pub const RUN: [(Call, Said); 6] = [
    (Call::Next, Said::Next(Ok(Some((12, 19))))),
    (
        Call::Skip(Place {
            document: DOCUMENT,
            start: 33,
        }),
        Said::Skip(Ok(0)),
    ),
    (Call::Next, Said::Next(Ok(Some((12, 33))))),
    (
        Call::Skip(Place {
            document: DOCUMENT,
            start: 34,
        }),
        Said::Skip(Ok(1)),
    ),
    (Call::Next, Said::Next(Ok(None))),
    (
        Call::Tell,
        Said::Tell(Tally {
            handed: 2,
            passed: 1,
            waiting: 0,
            turns: 5,
        }),
    ),
];

/// One container, (12, 41) at level 2, over one node: its start, end and level, and what next answers.
pub const ALONE: [(u32, u32, u8, Said); 5] = [
    (41, 41, 3, Said::Next(Err((15, 2)))),
    (40, 40, 3, Said::Next(Ok(Some((12, 40))))),
    (42, 42, 3, Said::Next(Ok(None))),
    (19, 19, 2, Said::Next(Err((16, 2)))),
    (19, 19, 3, Said::Next(Ok(Some((12, 19))))),
];

/// The query part, body anywhere below, face: CHILD 1, DESCENDANT 2, CHILD 3; the starts that it answers with lists of
/// two rows, and the refusal with lists of one: number and step.
pub const QUERY: [u8; 9] = [0x21, 0, 1, 0x22, 0, 2, 0x21, 0, 3];

pub const FOUND: [u32; 2] = [19, 33];

pub const TOO_MANY: (u8, u32) = (19, 2);
