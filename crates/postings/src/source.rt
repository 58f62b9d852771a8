//! The source of one tag's nodes in a posting list.

ghost use Rattle.std.specs.Prelude.{◌≡◌, ◌+◌, length, nat_lt};
ghost use Rattle.nodes.specs.Limits.{max_bytes};
ghost use Rattle.postings.specs.Reading.{reading, nodes_of, ending_of};
ghost use Rattle.postings.specs.Source.{posting_nodes, posting_ending};

use crate::record::{RECORD_BYTES, first_record, node_of_tag};
use nodes::limits::MAX_BYTES;
use nodes::node::Node;
use nodes::refusal::{Fault, Refusal};
use nodes::source::NodeSource;

/// The nodes of one tag, up to the first wrong record of any tag. The bytes are those still to be
/// read, and the place is their offset in the list.
#[derive(Drop)]
pub struct PostingSource<'a> {
    bytes: &'a [u8],
    place: u32,
    tag: u16,
    name: u16,
}

impl<'a> PostingSource<'a> {
    /// A source of the tag's nodes in a posting list; a wrong record is its fault, under the name,
    /// at the record's offset.
    pub fn new(bytes: &'a [u8], tag: u16, name: u16) -> PostingSource<'a>
        ensures coming { posting_nodes result ≡ nodes_of tag (reading bytes.now) }
        ensures ending { posting_ending result ≡ ending_of name (reading bytes.now) }
    {
        PostingSource {
            bytes,
            place: 0,
            tag,
            name,
        }
    }

    /// Whether the whole list is longer than a posting list may be.
    // Each take asks again: to keep the answer would be one more field, and one more fact of it.
    fn is_too_long(&self) -> bool
        ensures { result ≡ nat_lt max_bytes (self.now.place + length self.now.bytes.now) }
    {
        self.place as usize + self.bytes.len() > MAX_BYTES
    }
}

impl<'a> NodeSource for PostingSource<'a> {
    ghost coming = { posting_nodes };

    ghost ending = { posting_ending };

    fn take(&mut self) -> Result<Option<Node>, Fault> {
        if self.is_too_long() {
            return Err(Refusal::TooLong.at(self.name, 0));
        }
        while let Some((item, rest)) = first_record(self.bytes) {
            // Not map_err: behind a closure's call the check leaves the loop's goals open.
            match node_of_tag(item, self.tag) {
                Ok(found) => {
                    self.bytes = rest;
                    self.place += RECORD_BYTES;
                    if found.is_some() {
                        return Ok(found);
                    }
                }
                Err(refusal) => return Err(refusal.at(self.name, self.place)),
            }
        }
        if self.bytes.is_empty() {
            Ok(None)
        } else {
            Err(Refusal::ShortRecord.at(self.name, self.place))
        }
    }
}
