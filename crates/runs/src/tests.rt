use crate::call::{Answer, Call, Tally};
use crate::replay::replay;
use crate::run::Run;
use merge::opening::Opening;
use merge::pair::{Axis, Pair};
use nodes::list::ListSource;
use nodes::place::Place;
use nodes::refusal::{Fault, Refusal};
use nodes::row::Row;

// A row of document 7; each crate's tests have their own, since no crate lends its tests.
fn row(start: u32, end: u32, level: u8) -> Row {
    Row {
        document: 7,
        start,
        end,
        level,
    }
}

fn pair(container: Row, contained: Row) -> Pair {
    Pair {
        container: container.node_or_blank(),
        contained: contained.node_or_blank(),
    }
}

#[test]
fn the_worked_example_answers_its_calls(rt: HostRuntime) {
    let above = [row(12, 41, 2), row(26, 40, 3)];
    let below = [row(19, 19, 3), row(33, 33, 4), row(42, 42, 2)];
    let to33 = Place {
        document: 7,
        start: 33,
    };
    let to34 = Place {
        document: 7,
        start: 34,
    };
    let calls = [
        Call::Next,
        Call::Skip(to33),
        Call::Next,
        Call::Skip(to34),
        Call::Next,
        Call::Tell,
    ];
    let mut answers = [None; 7];
    let opening = Opening {
        containers: ListSource::new(&above, 1),
        contained: ListSource::new(&below, 2),
        axis: Axis::Descendant,
        name: 3,
    };
    replay(opening, &calls, &mut answers);
    let expected = [
        Answer::Next(Ok(Some(pair(row(12, 41, 2), row(19, 19, 3))))),
        Answer::Skip(Ok(0)),
        Answer::Next(Ok(Some(pair(row(12, 41, 2), row(33, 33, 4))))),
        Answer::Skip(Ok(1)),
        Answer::Next(Ok(None)),
        Answer::Tell(Tally {
            handed: 2,
            passed: 1,
            waiting: 0,
            turns: 5,
        }),
    ];
    for (answer, expected) in answers.iter().zip(&expected) {
        assert!(rt; *answer == Some(*expected));
    }
    assert!(rt; answers[6] == None);
}

#[test]
fn a_refused_turn_stops_a_skip_only_before_its_place(rt: HostRuntime) {
    let above = [row(12, 41, 2)];
    let below = [row(19, 19, 3), row(41, 41, 3)];
    let at = Place {
        document: 7,
        start: 41,
    };
    let start = Place {
        document: 0,
        start: 0,
    };
    let calls = [
        Call::Skip(at),
        Call::Skip(start),
        Call::Next,
        Call::Skip(start),
        Call::Next,
        Call::Tell,
    ];
    let mut answers = [None; 6];
    let opening = Opening {
        containers: ListSource::new(&above, 1),
        contained: ListSource::new(&below, 2),
        axis: Axis::Child,
        name: 3,
    };
    replay(opening, &calls, &mut answers);
    let fault = Fault {
        refusal: Refusal::Overlap,
        name: 3,
        place: 3,
    };
    let expected = [
        Answer::Skip(Ok(1)),
        Answer::Skip(Ok(0)),
        Answer::Next(Err(fault)),
        Answer::Skip(Err(fault)),
        Answer::Next(Err(fault)),
        Answer::Tell(Tally {
            handed: 0,
            passed: 1,
            waiting: 0,
            turns: 2,
        }),
    ];
    for (answer, expected) in answers.iter().zip(&expected) {
        assert!(rt; *answer == Some(*expected));
    }
}

#[test]
fn a_fault_in_hand_stops_at_once_but_after_what_waits(rt: HostRuntime) {
    let above = [row(12, 41, 2), row(26, 40, 3)];
    let below = [row(33, 33, 4), row(50, 40, 4)];
    let mut run = Run::open(Opening {
        containers: ListSource::new(&above, 1),
        contained: ListSource::new(&below, 2),
        axis: Axis::Descendant,
        name: 3,
    });
    assert!(rt; run.next().is_ok());
    assert!(rt;
        run.tell()
            == (Tally {
                handed: 1,
                passed: 0,
                waiting: 1,
                turns: 3,
            })
    );
    assert!(rt; run.skip(7, 33) == Ok(0));
    assert!(rt;
        run.skip(4294967295, 0)
            == Err(Fault {
                refusal: Refusal::StartPassesEnd,
                name: 2,
                place: 1,
            })
    );
    assert!(rt;
        run.tell()
            == (Tally {
                handed: 1,
                passed: 1,
                waiting: 0,
                turns: 3,
            })
    );
}
