//! A query and its steps.

ghost use Rattle.std.specs.Prelude.{◌≤◌, ◌≡◌, length};
ghost use Rattle.paths.specs.Limits.{max_steps};

use crate::fault::PathFault;
use merge::pair::Axis;
use nodes::refusal::Refusal;

/// The command bytes of a step.
pub const CHILD: u8 = 0x21;

pub const DESCENDANT: u8 = 0x22;

/// A step is a command and a tag of two bytes.
pub const STEP_BYTES: usize = 3;

/// The most steps that a query may have.
pub const MAX_STEPS: usize = 8;

/// One step: which nodes it asks for, from those that fitted before.
#[derive(Clone, Copy, PartialEq, Eq, Debug)]
pub struct Step {
    pub axis: Axis,
    pub tag: u16,
}

/// The steps of a query: the first `count` of the array.
// An array with its count beside: the engine has fixed memory and no heap.
#[derive(Drop)]
pub struct Query {
    pub steps: [Step; MAX_STEPS],
    pub count: usize,
    ghost few: { count ≤ max_steps },
}

impl Query {
    ghost use Rattle.paths.specs.Query.{axis_of, in_steps, query_of, read_as, steps_in};

    /// Whether so many bytes are whole steps, and no more than a query may have.
    fn are_steps(bytes: usize) -> bool
        ensures { result ≡ in_steps bytes }
    {
        bytes >= STEP_BYTES && bytes <= STEP_BYTES * MAX_STEPS && bytes % STEP_BYTES == 0
    }

    /// The axis of a command byte.
    // Not a `TryFrom<u8>`: the axis is another crate's type, and only a query has a byte for it.
    fn axis(command: u8) -> Option<Axis>
        ensures { result ≡ axis_of command }
    {
        match command {
            CHILD => Some(Axis::Child),
            DESCENDANT => Some(Axis::Descendant),
            _ => None,
        }
    }

    /// The steps of a query; the length is tested before the commands.
    pub fn read(query: &[u8]) -> Result<Query, PathFault>
        ensures { read_as result ≡ query_of query.now }
    {
        if !Query::are_steps(query.len()) {
            return Err(PathFault::Own {
                refusal: Refusal::QueryLength,
                place: 0,
            });
        }
        let mut steps = [Step {
            axis: Axis::Child,
            tag: 0,
        }; MAX_STEPS];
        // The count is that of the array, which has no length of its own; the bytes need no index.
        let mut count = 0;
        let mut rest = query;
        while let [command, high, low, tail @ ..] = rest {
            let Some(axis) = Query::axis(*command) else {
                return Err(PathFault::Own {
                    refusal: Refusal::QueryCommand,
                    place: count as u32 + 1,
                });
            };
            steps[count] = Step {
                axis,
                tag: u16::from_be_bytes([*high, *low]),
            };
            count += 1;
            rest = tail;
        }
        Ok(Query { steps, count })
    }

    /// The steps, 1 to 8 of a query that was read.
    pub fn steps(&self) -> &[Step]
        ensures those { result.now ≡ steps_in self.now }
        ensures few { length result.now ≤ max_steps }
    {
        &self.steps[..self.count]
    }
}
