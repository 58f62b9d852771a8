use crate::levels::Levels;
use crate::union::Union;
use nodes::list::ListSource;
use nodes::row::Row;
use nodes::source::NodeSource;
use std::process::Abort;

// A row of document 7; each crate's tests have their own, since no crate lends its tests.
fn row(start: u32, end: u32, level: u8) -> Row {
    Row {
        document: 7,
        start,
        end,
        level,
    }
}

// What a source gives next: 0 and a node's start; 255 at its end; a fault's number, name and place.
// By number, as the rules tell refusals; and once more in each crate that needs it, since no crate
// lends its tests.
fn told<S: NodeSource>(source: &mut S) -> (u8, u16, u32) {
    match source.take() {
        Ok(Some(node)) => (0, 0, Row::from(node).start),
        Ok(None) => (255, 0, 0),
        Err(fault) => (fault.refusal.number(), fault.name, fault.place),
    }
}

fn tells<S: NodeSource>(rt: &impl Abort, source: &mut S, expected: &[(u8, u16, u32)]) {
    for next in expected {
        assert_eq!(rt; told(source), *next);
    }
}

#[test]
fn a_union_takes_hands_and_faults_in_order(rt: HostRuntime) {
    let wrong = row(9, 8, 1);
    let a = row(12, 41, 2);
    let b = row(26, 40, 3);
    let cases = [
        // Both hands are faulty: the first's fault.
        (
            [wrong, a],
            [wrong, b],
            [(11, 1, 0), (11, 1, 0), (11, 1, 0), (11, 1, 0)],
        ),
        // A fault in the second hand stops before the node in the first.
        (
            [a, b],
            [wrong, b],
            [(11, 2, 0), (11, 2, 0), (11, 2, 0), (11, 2, 0)],
        ),
        // Equal nodes come once; then a fault is in the second hand.
        (
            [a, b],
            [a, wrong],
            [(0, 0, 12), (11, 2, 1), (11, 2, 1), (11, 2, 1)],
        ),
        // The smaller place comes next, also where one side has ended, and then the end.
        (
            [a, b],
            [b, row(42, 42, 2)],
            [(0, 0, 12), (0, 0, 26), (0, 0, 42), (255, 0, 0)],
        ),
        // A repeat within one source comes again.
        (
            [a, a],
            [b, b],
            [(0, 0, 12), (0, 0, 12), (0, 0, 26), (0, 0, 26)],
        ),
        // The hands differ at one place: the second turn is refused.
        (
            [a, b],
            [row(26, 40, 4), b],
            [(0, 0, 12), (13, 9, 2), (13, 9, 2), (13, 9, 2)],
        ),
    ];
    for (first, second, expected) in cases {
        let mut union = Union::new(ListSource::new(&first, 1), ListSource::new(&second, 2), 9);
        tells(&rt, &mut union, &expected);
    }
}

#[test]
fn layers_pile_up(rt: HostRuntime) {
    let roots = [row(5, 49, 1), row(60, 90, 1)];
    let bodies = [row(12, 41, 2), row(61, 80, 2)];
    let faces = [row(26, 40, 3), row(62, 70, 3)];
    let edges = [row(26, 40, 3), row(27, 28, 4), row(9, 8, 5)];
    let top = Union::new(ListSource::new(&roots, 1), ListSource::new(&bodies, 2), 11);
    let middle = Union::new(Levels::new(top, 2, 64), ListSource::new(&faces, 3), 12);
    let both = Union::new(Levels::new(middle, 3, 3), ListSource::new(&edges, 4), 13);
    // Of the two lower unions only the faces are left; an edge's wrong row stops the last before (62, 70).
    let mut pile = Levels::new(both, 3, 4);
    tells(
        &rt,
        &mut pile,
        &[(0, 0, 26), (0, 0, 27), (11, 4, 2), (11, 4, 2)],
    );
    let mut none = Levels::new(ListSource::new(&roots, 1), 2, 1);
    tells(&rt, &mut none, &[(255, 0, 0)]);
}
