//! The source of one tag's nodes in a tape.

ghost use Rattle.std.specs.Prelude.{◌≡◌};
ghost use Rattle.tapes.specs.Source.{tape_coming, tape_ending, tape_nodes, tape_end};

use crate::reader::Reader;
use nodes::node::Node;
use nodes::refusal::{Fault, Refusal};
use nodes::source::NodeSource;

/// The nodes of one tag in a tape, up to the first wrong command of any tag.
#[derive(Drop)]
pub struct TapeSource<'a> {
    /// The reader, or why the tape is not read at all.
    reader: Result<Reader<'a>, Refusal>,
    tag: u16,
    name: u16,
}

impl<'a> TapeSource<'a> {
    /// A source of the tag's nodes, whose fault, if it ends by one, has the name.
    pub fn new(bytes: &'a [u8], tag: u16, name: u16) -> TapeSource<'a>
        ensures coming { tape_coming result ≡ tape_nodes bytes.now tag }
        ensures ending { tape_ending result ≡ tape_end bytes.now name }
    {
        let reader = Reader::new(bytes);
        TapeSource { reader, tag, name }
    }
}

impl<'a> NodeSource for TapeSource<'a> {
    ghost coming = { tape_coming };

    ghost ending = { tape_ending };

    fn take(&mut self) -> Result<Option<Node>, Fault> {
        // Not map_err: of the match the check finds every proof, of a closure's call it leaves one.
        match &mut self.reader {
            Ok(reader) => match reader.next_node(self.tag) {
                Ok(found) => Ok(found),
                Err(refusal) => Err(refusal.at(self.name, reader.place())),
            },
            Err(refusal) => Err(refusal.at(self.name, 0)),
        }
    }
}
