use crate::model::Postings;
use nodes::model::Model;
use nodes::row::Row;
use nodes::source::NodeSource;

/// Tag 2 at (7, 12, 41, 2), tag 3 at (7, 19, 19, 3), tag 2 at (7, 26, 40, 3).
const LIST: [u8; 45] = *b"\0\x02\0\0\0\x07\0\0\0\x0c\0\0\0\x29\x02\
    \0\x03\0\0\0\x07\0\0\0\x13\0\0\0\x13\x03\
    \0\x02\0\0\0\x07\0\0\0\x1a\0\0\0\x28\x03";

// How a tag's list ends after some nodes: 0 at the end, else the refusal's number and place; 99 if
// there are fewer or more nodes, or the fault has another name. By
// number, as the rules tell refusals.
fn ending(bytes: &[u8], tag: u16, nodes: u8) -> (u8, u32) {
    let mut source = Postings::new(bytes).source(tag, 9);
    for _ in 0..nodes {
        match source.take() {
            Ok(Some(_)) => {}
            Ok(None) => return (99, 0),
            Err(_) => return (99, 1),
        }
    }
    match source.take() {
        Ok(None) => (0, 0),
        Ok(Some(_)) => (99, 2),
        Err(fault) if fault.name == 9 => (fault.refusal.number(), fault.place),
        Err(_) => (99, 3),
    }
}

// How tag 2 ends in the front of the list, of which one byte is changed.
fn damaged(length: usize, at: usize, byte: u8, nodes: u8) -> (u8, u32) {
    let mut bytes = LIST;
    if length > 45 || at >= 45 {
        return (99, 4);
    }
    bytes[at] = byte;
    ending(&bytes[..length], 2, nodes)
}

#[test]
fn a_damaged_list_ends_at_its_first_wrong_record(rt: HostRuntime) {
    // How many bytes there are, which byte is changed to what, and how many nodes of tag 2 come
    // before which ending.
    let cases = [
        (45, 0, 0, 2, 0, 0),
        (44, 0, 0, 1, 9, 30),
        (31, 0, 0, 1, 9, 30),
        (30, 0, 0, 1, 0, 0),
        (29, 0, 0, 1, 9, 15),
        (14, 0, 0, 0, 9, 0),
        (1, 0, 0, 0, 9, 0),
        (0, 0, 0, 0, 0, 0),
        (45, 2, 128, 0, 10, 0),
        (45, 32, 128, 1, 10, 30),
        (45, 14, 0, 0, 10, 0),
        (45, 44, 65, 1, 10, 30),
        (45, 44, 64, 2, 0, 0),
        (45, 13, 11, 0, 11, 0),
        // Wrong records of the other tag.
        (45, 17, 128, 1, 10, 15),
        (45, 29, 0, 1, 10, 15),
        (45, 28, 18, 1, 11, 15),
        // The other tag's record becomes one of tag 2, and the first one of another tag.
        (45, 16, 2, 3, 0, 0),
        (45, 1, 3, 1, 0, 0),
    ];
    for (length, at, byte, nodes, number, place) in cases {
        assert_eq!(rt; damaged(length, at, byte, nodes), (number, place));
    }
}

#[test]
fn a_record_lies_most_significant_byte_first(rt: HostRuntime) {
    let bytes = [1, 2, 16, 32, 48, 64, 17, 33, 49, 65, 18, 34, 50, 66, 64];
    let mut source = Postings::new(&bytes).source(258, 9);
    let row = match source.take() {
        Ok(Some(node)) => Row::from(node),
        _ => Row::BLANK,
    };
    assert_eq!(rt;
        row,
        Row {
            document: 0x1020_3040,
            start: 0x1121_3141,
            end: 0x1222_3242,
            level: 64,
        }
    );
}
