//! One record of a posting list.

ghost use Rattle.std.specs.Prelude.{◌≡◌};
ghost use Rattle.nodes.specs.Node.{node_of};
ghost use Rattle.postings.specs.Records.{Cut, of_tag};

use nodes::node::Node;
use nodes::refusal::Refusal;
use nodes::row::Row;
use nodes::tagged::Tagged;

/// How many bytes a record has.
pub const RECORD_BYTES: u32 = 15;

/// The record at the front, and the bytes behind it; none where fewer remain than a record has.
pub fn first_record<'a>(bytes: &'a [u8]) -> Option<(Tagged, &'a [u8])>
    ensures { Cut bytes.now result }
{
    match bytes {
        [
            t1,
            t0,
            d3,
            d2,
            d1,
            d0,
            s3,
            s2,
            s1,
            s0,
            x3,
            x2,
            x1,
            x0,
            level,
            rest @ ..,
        ] => {
            let row = Row {
                document: u32::from_be_bytes([*d3, *d2, *d1, *d0]),
                start: u32::from_be_bytes([*s3, *s2, *s1, *s0]),
                end: u32::from_be_bytes([*x3, *x2, *x1, *x0]),
                level: *level,
            };
            let tag = u16::from_be_bytes([*t1, *t0]);
            Some((Tagged { tag, row }, rest))
        }
        _ => None,
    }
}

/// The node of a record where it has the wanted tag; a wrong row is refused under any tag.
pub fn node_of_tag(item: Tagged, wanted: u16) -> Result<Option<Node>, Refusal>
    ensures { result ≡ of_tag wanted item.tag (node_of item.row) }
{
    let node = Node::try_from(item.row)?;
    Ok((item.tag == wanted).then_some(node))
}
