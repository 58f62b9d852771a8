use crate::list::ListSource;
use crate::node::Node;
use crate::place::Place;
use crate::row::Row;
use crate::source::NodeSource;
use std::test::Fail;

// A row of any document; each crate's tests have their own, since no crate lends its tests.
fn row(document: u32, start: u32, end: u32, level: u8) -> Row {
    Row {
        document,
        start,
        end,
        level,
    }
}

// The number by which a row is refused, and 0 for a node's row: the rules tell refusals by number.
fn refused(row: Row) -> u8 {
    match Node::try_from(row) {
        Ok(_) => 0,
        Err(refusal) => refusal.number(),
    }
}

#[test]
fn ranges_are_tested_before_the_order(rt: HostRuntime) {
    let cases = [
        (Row::BLANK, 0),
        (row(2_147_483_647, 4_294_967_295, 4_294_967_295, 64), 0),
        (row(2_147_483_648, 1, 1, 1), 10),
        (row(7, 1, 1, 0), 10),
        (row(7, 1, 1, 65), 10),
        (row(7, 2, 1, 65), 10),
        (row(7, 2, 1, 64), 11),
    ];
    for (row, number) in cases {
        assert_eq!(rt; refused(row), number);
    }
    assert_eq!(rt; Row::from(row(7, 2, 1, 64).node_or_blank()), Row::BLANK);
    assert_eq!(rt;
        Row::from(row(7, 1, 2, 64).node_or_blank()),
        row(7, 1, 2, 64)
    );
}

#[test]
fn containment_is_strict(rt: HostRuntime) {
    let body = row(7, 12, 41, 2).node_or_blank();
    let cases = [
        (row(7, 40, 40, 3), true, true),
        (row(7, 41, 41, 3), false, false),
        (row(7, 12, 40, 3), false, false),
        (row(7, 13, 40, 4), true, false),
        (row(8, 13, 40, 3), false, false),
    ];
    for (other, is_inside, is_child) in cases {
        let other = other.node_or_blank();
        assert_eq!(rt; body.contains(other), is_inside);
        assert_eq!(rt; body.is_parent_of(other), is_child);
    }
    let place = body.place();
    assert_eq!(rt;
        place,
        Place {
            document: 7,
            start: 12,
        }
    );
    assert!(rt;
        place.is_before(Place {
            document: 8,
            start: 0,
        }) && !place.is_before(place)
    );
    assert!(rt;
        place.is_before(Place {
            document: 7,
            start: 13,
        }) && !place.is_before(Place {
            document: 6,
            start: 13,
        })
    );
}

#[test]
fn a_list_ends_at_its_first_wrong_row(rt: HostRuntime) -> Result<(), Fail> {
    let rows = [row(7, 12, 41, 2), row(7, 5, 4, 1), row(7, 26, 40, 3)];
    let mut source = ListSource::new(&rows, 9);
    match source.take() {
        Ok(Some(first)) => assert_eq!(rt; Row::from(first), row(7, 12, 41, 2)),
        _ => return Err(Fail::new("the first row is a node's")),
    }
    for _ in 0..2 {
        match source.take() {
            Ok(_) => return Err(Fail::new("the wrong row was passed over")),
            Err(fault) => assert!(rt;
                fault.refusal.number() == 11 && fault.name == 9 && fault.place == 1
            ),
        }
    }
    let mut sound = ListSource::new(&rows[0..1], 9);
    let _ = sound.take();
    match sound.take() {
        Ok(None) => Ok(()),
        _ => Err(Fail::new("a sound list ends")),
    }
}
