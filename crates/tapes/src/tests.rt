use crate::source::TapeSource;
use crate::tape::Tape;
use nodes::model::Model;
use nodes::row::Row;
use nodes::source::NodeSource;
use std::test::Fail;

// A part (tag 1) with a body (tag 2) that has a face (tag 3) and a body with a face, and then a face of its own.
const HINGE: [u8; 51] = [
    1, 0, 0, 0, 7, 2, 0, 1, 0, 0, 0, 49, 2, 0, 2, 0, 0, 0, 41, 4, 0, 3, 0, 0, 0, 0, 2, 0, 2, 0, 0,
    0, 40, 4, 0, 3, 0, 0, 0, 0, 3, 3, 4, 0, 3, 0, 0, 0, 0, 3, 5,
];

// The number and place of the refusal that ends a tape, and 0 where it ends well. By number, as the rules
// tell refusals.
fn ending(bytes: &[u8]) -> (u8, u32) {
    let mut source = TapeSource::new(bytes, 3, 9);
    for _ in 0..100 {
        match source.take() {
            Ok(Some(_)) => {}
            Ok(None) => return (0, 0),
            Err(fault) => return (fault.refusal.number(), fault.place),
        }
    }
    (99, 0)
}

#[test]
fn each_damage_is_told_with_its_place(rt: HostRuntime) {
    assert_eq!(rt; ending(&HINGE), (0, 0));
    assert_eq!(rt; ending(&HINGE[0..0]), (0, 0));
    assert_eq!(rt; ending(&HINGE[0..50]), (4, 50));
    // a byte of the block, what it is changed to, and the refusal
    let cases = [
        (19, 9, (2, 19)),
        (50, 4, (3, 50)),
        (50, 3, (4, 50)),
        (0, 5, (4, 0)),
        (5, 4, (4, 5)),
        (1, 128, (5, 0)),
        (11, 51, (7, 5)),
        (11, 42, (7, 42)),
        (18, 18, (7, 12)),
        (32, 41, (7, 26)),
        (11, 50, (8, 49)),
    ];
    for (at, byte, refusal) in cases {
        let mut bytes = HINGE;
        assert!(rt; at < 51);
        bytes[at] = byte;
        assert_eq!(rt; ending(&bytes), refusal);
    }
}

// Two blocks, one behind the other, each with its document's number.
fn two_blocks(first: u8, second: u8) -> [u8; 102] {
    let mut bytes = [0; 102];
    bytes[..51].copy_from_slice(&HINGE);
    bytes[51..].copy_from_slice(&HINGE);
    bytes[4] = first;
    bytes[55] = second;
    bytes[62] = 100;
    bytes[69] = 92;
    bytes[83] = 91;
    bytes
}

// 64 elements, each inside the one before, and a command in the last.
fn nested(command: u8) -> [u8; 1024] {
    let mut bytes = [0; 1024];
    bytes[0] = 1;
    for (open, close) in bytes[5..453].chunks_exact_mut(7).zip((937..=1000).rev()) {
        let [_, _, high, low] = u32::to_be_bytes(close);
        open.copy_from_slice(&[2, 0, 0, 0, 0, high, low]);
    }
    bytes[453] = command;
    bytes
}

#[test]
fn documents_rise_and_levels_end_at_64(rt: HostRuntime) {
    assert_eq!(rt; ending(&two_blocks(0, 1)), (0, 0));
    assert_eq!(rt; ending(&two_blocks(1, 1)), (5, 51));
    assert_eq!(rt; ending(&nested(4)), (6, 453));
    assert_eq!(rt; ending(&nested(2)), (6, 453));
}

#[test]
fn a_tape_is_at_most_16_mebibytes_long(rt: HostRuntime) -> Result<(), Fail> {
    let bytes = vec![in rt.alloc(); 0u8; 16_777_217]?;
    assert_eq!(rt; ending(&bytes), (1, 0));
    assert!(rt; bytes.len() == 16_777_217);
    assert_eq!(rt; ending(&bytes[0..16_777_216]), (2, 0));
    Ok(())
}

#[test]
fn a_tag_has_its_nodes_in_tree_order(rt: HostRuntime) -> Result<(), Fail> {
    let tape = Tape::new(&HINGE);
    let mut bodies = tape.source(2, 9);
    for expected in [(12, 41, 2), (26, 40, 3)] {
        let row = match bodies.take() {
            Ok(Some(node)) => Row::from(node),
            _ => Row::BLANK,
        };
        assert_eq!(rt; row.document, 7);
        assert_eq!(rt; (row.start, row.end, row.level), expected);
    }
    match bodies.take() {
        Ok(None) => Ok(()),
        _ => Err(Fail::new("a sound tape ends")),
    }
}
