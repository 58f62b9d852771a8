use crate::merge::Merge;
use crate::pair::Axis;
use crate::turn::Turn;
use nodes::list::ListSource;
use nodes::row::Row;
use std::test::Fail;

// A row of document 7; each crate's tests have their own, since no crate lends its tests.
fn row(start: u32, end: u32, level: u8) -> Row {
    Row {
        document: 7,
        start,
        end,
        level,
    }
}

// How up to eight turns of two lists stop: the number of the refusal and its turn, or 0 and all turns. By number, as the rules
// tell refusals.
fn stop(above: &[Row], below: &[Row]) -> (u8, u32) {
    let mut merge = Merge::open(ListSource::new(above, 1), ListSource::new(below, 2), 3);
    for _ in 0..8 {
        match merge.turn() {
            Ok(Some(_)) => {}
            Ok(None) => return (0, merge.turns()),
            Err(fault) => return (fault.refusal.number(), fault.place),
        }
    }
    (99, 0)
}

#[test]
fn the_first_test_that_applies_refuses(rt: HostRuntime) {
    let body = row(12, 41, 2);
    let last = row(60, 60, 1);
    let cases = [
        (body, last, row(41, 41, 3), last, 15, 2),
        (body, last, row(40, 40, 3), last, 0, 4),
        (body, last, row(42, 42, 3), last, 0, 4),
        (body, last, row(19, 19, 2), last, 16, 2),
        (body, last, row(19, 19, 3), last, 0, 4),
        (body, body, last, row(61, 61, 1), 14, 2),
        (body, row(20, 41, 3), last, row(61, 61, 1), 15, 2),
        (body, row(20, 40, 2), last, row(61, 61, 1), 16, 2),
        (body, row(41, 50, 3), last, row(61, 61, 1), 15, 2),
        (body, row(42, 50, 1), last, row(61, 61, 1), 0, 4),
        (body, last, row(19, 19, 3), row(19, 19, 3), 14, 3),
        (body, last, row(12, 50, 1), row(13, 13, 1), 16, 3),
    ];
    for (first, second, third, fourth, number, turn) in cases {
        assert_eq!(rt; stop(&[first, second], &[third, fourth]), (number, turn));
    }
}

#[test]
fn turns_come_by_place_and_contained_nodes_first(rt: HostRuntime) -> Result<(), Fail> {
    let nodes = [row(12, 41, 2), row(26, 40, 3)];
    let mut merge = Merge::open(ListSource::new(&nodes, 1), ListSource::new(&nodes, 2), 3);
    for pairs in [0, 1] {
        match merge.turn() {
            Ok(Some(Turn::Contained(node))) => {
                assert!(rt; merge.is_paired(Axis::Child, node) == (pairs == 1));
                assert!(rt; merge.depth() - merge.first_paired(Axis::Descendant, node) == pairs);
            }
            _ => return Err(Fail::new("the contained node goes first")),
        }
        match merge.turn() {
            Ok(Some(Turn::Container(node))) => {
                assert!(rt; merge.container(pairs) == Some(node));
            }
            _ => return Err(Fail::new("then the container, which is open")),
        }
    }
    match merge.turn() {
        Ok(None) => Ok(()),
        _ => Err(Fail::new("and then the end")),
    }
}

#[test]
fn a_refusal_recurs_and_changes_nothing(rt: HostRuntime) -> Result<(), Fail> {
    let above = [row(12, 41, 2), row(14, 20, 3)];
    let below = [row(41, 41, 3)];
    let mut merge = Merge::open(ListSource::new(&above, 1), ListSource::new(&below, 2), 3);
    let _ = merge.turn();
    let _ = merge.turn();
    for _ in 0..2 {
        match merge.turn() {
            Err(fault) => assert!(rt;
                fault.refusal.number() == 15 && fault.name == 3 && fault.place == 3
            ),
            _ => return Err(Fail::new("the node touches the container's end")),
        }
        assert!(rt; merge.turns() == 2 && merge.depth() == 2);
        match merge.peek() {
            Ok(Some(Turn::Contained(node))) => assert!(rt; Row::from(node).start == 41),
            _ => return Err(Fail::new("the refused node stays in hand")),
        }
    }
    Ok(())
}
