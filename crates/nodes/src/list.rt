//! The source over a caller's list of rows.

ghost use Rattle.std.specs.Prelude.{◌≡◌};
ghost use Rattle.nodes.specs.Rows.{nodes_in, end_in, coming_from, ending_from, place_at};

use crate::limits::MAX_PLACE;
use crate::node::Node;
use crate::refusal::Fault;
use crate::row::Row;
use crate::source::NodeSource;

/// The nodes of a list of rows in its order, up to the first wrong row.
#[derive(Drop)]
pub struct ListSource<'a> {
    rows: &'a [Row],
    at: usize,
    name: u16,
}

impl<'a> ListSource<'a> {
    /// A source of the rows; a wrong row is its fault, under the name, at the row's number from 0.
    pub fn new(rows: &'a [Row], name: u16) -> ListSource<'a>
        ensures coming { coming_from result ≡ nodes_in rows.now }
        ensures ending { ending_from result ≡ end_in name 0 rows.now }
    {
        ListSource { rows, at: 0, name }
    }

    /// The place of the row in front: its number, or the greatest place that there is.
    fn place(&self) -> u32
        ensures { result ≡ place_at self.now.at }
    {
        u32::try_from(self.at).unwrap_or(MAX_PLACE)
    }
}

impl<'a> NodeSource for ListSource<'a> {
    ghost coming = { coming_from };

    ghost ending = { ending_from };

    fn take(&mut self) -> Result<Option<Node>, Fault> {
        let Some(row) = self.rows.get(self.at) else {
            return Ok(None);
        };
        // Not map_err: of the match the check finds every proof, of a closure's call it leaves one.
        match Node::try_from(*row) {
            Ok(node) => {
                self.at += 1;
                Ok(Some(node))
            }
            Err(refusal) => Err(refusal.at(self.name, self.place())),
        }
    }
}
