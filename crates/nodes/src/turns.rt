//! Counting turns.

ghost use Rattle.std.specs.Prelude.{◌≡◌, ◌+◌, ◌≤◌, min, nat_le};
ghost use Rattle.nodes.specs.Limits.{max_turns};
ghost use Rattle.nodes.specs.Turns.{turn_fault};

use crate::limits::MAX_TURNS;
use crate::refusal::{Fault, Refusal};

/// How many turns were had, and the name under which one is refused.
#[derive(Drop)]
pub struct Turns {
    had: u32,
    name: u16,
    ghost counted: { had ≤ max_turns },
}

impl Turns {
    /// No turn was had.
    pub fn new(name: u16) -> Turns
        ensures had { result.had ≡ 0 }
        ensures name { result.name ≡ name }
    {
        Turns { had: 0, name }
    }

    /// How many were had.
    pub fn had(&self) -> u32
        ensures number { result ≡ self.now.had }
        ensures few { result ≤ max_turns }
    {
        let Turns { had, name: _ } = self;
        *had
    }

    /// Whether no more may be had.
    pub fn are_spent(&self) -> bool
        ensures { result ≡ nat_le max_turns self.now.had }
    {
        self.had >= MAX_TURNS
    }

    /// The fault of the next turn, where it is refused.
    pub fn fault(&self, refusal: Refusal) -> Fault
        ensures { result ≡ turn_fault self.now.name self.now.had refusal }
    {
        refusal.at(self.name, self.had + 1)
    }

    /// Counts one more, up to the most that may be had.
    pub fn count(&mut self)
        ensures had { self.new.had ≡ min (self.old.had + 1) max_turns }
        ensures name { self.new.name ≡ self.old.name }
    {
        self.had = (self.had + 1).min(MAX_TURNS);
    }
}
