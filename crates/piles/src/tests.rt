use layers::levels::Levels;
use layers::union::Union;
use merge::opening::Opening;
use merge::pair::Axis;
use nodes::list::ListSource;
use nodes::row::Row;
use nodes::source::NodeSource;
use paths::fault::PathFault;
use paths::path::path;
use runs::run::Run;
use std::process::Abort;
use std::test::Fail;
use tapes::tape::Tape;
use under::under::Under;

// A row of document 7; each crate's tests have their own, since no crate lends its tests.
fn row(start: u32, end: u32, level: u8) -> Row {
    Row {
        document: 7,
        start,
        end,
        level,
    }
}

// What a source gives next: 0 and a node's start; 255 at its end; a fault's number and place.
// By number, as the rules tell refusals; and once more in each crate that needs it, since no crate
// lends its tests.
fn told<S: NodeSource>(source: &mut S) -> (u8, u32) {
    match source.take() {
        Ok(Some(node)) => (0, Row::from(node).start),
        Ok(None) => (255, 0),
        Err(fault) => (fault.refusal.number(), fault.place),
    }
}

fn tells<S: NodeSource>(rt: &impl Abort, source: &mut S, expected: &[(u8, u32)]) {
    for next in expected {
        assert_eq!(rt; told(source), *next);
    }
}

fn over<C, D>(containers: C, contained: D, axis: Axis, name: u16) -> Opening<C, D> {
    Opening {
        containers,
        contained,
        axis,
        name,
    }
}

#[test]
fn layers_pile_up(rt: HostRuntime) {
    let part = [row(5, 49, 1)];
    let bodies = [row(12, 41, 2), row(26, 40, 3)];
    let faces = [row(19, 19, 3), row(33, 33, 4), row(42, 42, 2)];
    let upper = Levels::new(ListSource::new(&bodies, 1), 2, 2);
    let lower = Levels::new(ListSource::new(&bodies, 2), 3, 64);
    let both = Union::new(upper, lower, 3);
    let inside = Under::new(over(ListSource::new(&part, 4), both, Axis::Descendant, 5));
    let faces = ListSource::new(&faces, 6);
    let mut deep = Under::new(over(inside, faces, Axis::Child, 7));
    tells(&rt, &mut deep, &[(0, 19), (0, 33), (255, 0), (255, 0)]);
}

#[test]
fn a_run_goes_over_a_pile(rt: HostRuntime) -> Result<(), Fail> {
    let part = [row(5, 49, 1)];
    let bodies = [row(12, 41, 2), row(26, 40, 3)];
    let faces = [row(19, 19, 3), row(33, 33, 4), row(42, 42, 2)];
    let upper = Levels::new(ListSource::new(&bodies, 1), 2, 2);
    let both = Union::new(upper, ListSource::new(&bodies, 2), 3);
    let inside = Under::new(over(ListSource::new(&part, 4), both, Axis::Descendant, 5));
    let mut run = Run::open(over(inside, ListSource::new(&faces, 6), Axis::Child, 7));
    for (container, contained) in [(12, 19), (26, 33)] {
        match run.next() {
            Ok(Some(pair)) => {
                assert_eq!(rt; Row::from(pair.container).start, container);
                assert_eq!(rt; Row::from(pair.contained).start, contained);
            }
            _ => return Err(Fail::new("a pair is left, and nothing is wrong in the pile")),
        }
    }
    match run.next() {
        Ok(None) => Ok(()),
        _ => Err(Fail::new("the run ends")),
    }
}

#[test]
fn the_run_ends_the_layer(rt: HostRuntime) {
    let bodies = [row(12, 41, 2), row(26, 40, 3)];
    let cases = [
        // The list of contained nodes ends by a fault.
        ([row(19, 19, 3), row(9, 8, 1)], [(0, 19), (11, 1), (11, 1)]),
        // A node touches the end of a container, and the run refuses it.
        (
            [row(33, 33, 4), row(41, 41, 3)],
            [(0, 33), (15, 4), (15, 4)],
        ),
        // A node behind all containers stands in no pair.
        (
            [row(33, 33, 5), row(42, 42, 3)],
            [(0, 33), (255, 0), (255, 0)],
        ),
    ];
    for (below, expected) in cases {
        let above = ListSource::new(&bodies, 1);
        let below = ListSource::new(&below, 2);
        let mut under = Under::new(over(above, below, Axis::Descendant, 3));
        tells(&rt, &mut under, &expected);
    }
    let above = ListSource::new(&bodies, 1);
    let below = ListSource::new(&bodies, 2);
    let mut first = Under::first_step(over(above, below, Axis::Child, 3));
    tells(&rt, &mut first, &[(255, 0)]);
}

const TAPE: [u8; 51] = [
    1, 0, 0, 0, 7, 2, 0, 1, 0, 0, 0, 49, 2, 0, 2, 0, 0, 0, 41, 4, 0, 3, 0, 0, 0, 0, 2, 0, 2, 0, 0,
    0, 40, 4, 0, 3, 0, 0, 0, 0, 3, 3, 4, 0, 3, 0, 0, 0, 0, 3, 5,
];

const QUERY: [u8; 9] = [0x21, 0, 1, 0x22, 0, 2, 0x21, 0, 3];

// How a path answers: 0, the step 0 and the number of nodes; or the refusal's number, the step
// that was stopped, and the place. By number, as the rules tell refusals.
fn asked(tape: &[u8], query: &[u8], answer: &mut [Row], spare: &mut [Row]) -> (u8, u32, usize) {
    match path(&Tape::new(tape), query, answer, spare) {
        Ok(count) => (0, 0, count),
        Err(PathFault::Own { refusal, place }) => (refusal.number(), 0, place as usize),
        Err(PathFault::Step { step, fault }) => (
            fault.refusal.number(),
            step,
            fault.place as usize,
        ),
    }
}

#[test]
fn a_path_over_a_tape(rt: HostRuntime) {
    let mut answer = [row(1, 1, 1); 3];
    let mut spare = [row(1, 1, 1); 2];
    assert_eq!(rt; asked(&TAPE, &QUERY, &mut answer, &mut spare), (0, 0, 2));
    assert_eq!(rt; answer[0], row(19, 19, 3));
    assert_eq!(rt; answer[1], row(33, 33, 4));
    assert_eq!(rt; answer[2], Row::BLANK);
    assert_eq!(rt; spare[1], Row::BLANK);
    let mut short = [row(1, 1, 1); 1];
    assert_eq!(rt; asked(&TAPE, &QUERY, &mut answer, &mut short), (19, 0, 2));
    assert_eq!(rt; answer[0], Row::BLANK);
    assert_eq!(rt; short[0], Row::BLANK);
}

#[test]
fn the_earlier_turn_decides(rt: HostRuntime) {
    // The root's CLOSE is elsewhere; the root comes before that, and is one too many for no rows.
    let mut damaged = TAPE;
    damaged[11] = 50;
    let mut answer = [row(1, 1, 1); 1];
    let mut spare = [row(1, 1, 1); 1];
    let mut none = [row(1, 1, 1); 0];
    assert_eq!(rt;
        asked(&damaged, &QUERY, &mut answer, &mut spare),
        (8, 1, 49)
    );
    assert_eq!(rt; asked(&damaged, &QUERY, &mut answer, &mut none), (19, 0, 1));
    assert_eq!(rt; answer[0], Row::BLANK);
}

fn refused(rt: &impl Abort, query: &[u8], expected: (u8, u32, usize)) {
    let mut answer = [row(1, 1, 1); 1];
    let mut spare = [row(1, 1, 1); 1];
    assert_eq!(rt; asked(&TAPE, query, &mut answer, &mut spare), expected);
    assert_eq!(rt; answer[0], Row::BLANK);
    assert_eq!(rt; spare[0], Row::BLANK);
}

#[test]
fn bytes_that_are_no_query(rt: HostRuntime) {
    refused(&rt, &[0x21, 0], (17, 0, 0));
    refused(&rt, &[0x20, 0, 1, 0x21], (17, 0, 0));
    refused(&rt, &[0x22; 27], (17, 0, 0));
    refused(&rt, &[0x20, 0, 1], (18, 0, 1));
    refused(&rt, &[0x21, 0, 1, 0x23, 0, 2, 0, 0, 0], (18, 0, 2));
}
