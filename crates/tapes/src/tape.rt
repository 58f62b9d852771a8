//! A tape as a model.

ghost use Rattle.std.specs.Prelude.{◌≡◌};
ghost use Rattle.tapes.specs.Source.{tape_nodes, tape_end};

use crate::source::TapeSource;
use nodes::model::Model as NodeModel;

/// The bytes of a tape, each tag's nodes in it, and how they end.
#[derive(Clone, Copy)]
pub struct Tape<'a> {
    bytes: &'a [u8],
}

impl<'a> Tape<'a> {
    /// The tape of these bytes, however damaged they are.
    pub fn new(bytes: &'a [u8]) -> Tape<'a>
        ensures { result.bytes.now ≡ bytes.now }
    {
        Tape { bytes }
    }
}

impl<'a> NodeModel for Tape<'a> {
    type Source = TapeSource<'a>;

    ghost list_of = { λ t tag. tape_nodes t.bytes.now tag };

    ghost ending_of = { λ t tag name. tape_end t.bytes.now name };

    fn source(&self, tag: u16, name: u16) -> TapeSource<'a> {
        TapeSource::new(self.bytes, tag, name)
    }
}
