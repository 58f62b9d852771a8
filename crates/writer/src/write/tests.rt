use super::write_all;
use crate::call::WriterCall;
use crate::tests::told;
use tapes::check::check_tape;

#[test]
fn calls_go_on_after_a_refusal(rt: HostRuntime) {
    let calls = [
        WriterCall::Open(1),
        WriterCall::Begin(7),
        WriterCall::End,
        WriterCall::Open(1),
        WriterCall::Value(2, 5),
        WriterCall::Begin(8),
        WriterCall::Close,
        WriterCall::End,
        WriterCall::Begin(7),
    ];
    let expected = [
        (4, 0),
        (0, 0),
        (4, 5),
        (0, 0),
        (0, 0),
        (4, 19),
        (0, 0),
        (0, 0),
        (5, 21),
    ];
    let mut bytes = [9; 24];
    let mut answers = [Ok(()); 9];
    let finished = write_all(&calls, &mut bytes, &mut answers);
    assert_eq!(rt; finished, Some(21));
    for (answer, fault) in answers.iter().zip(&expected) {
        assert_eq!(rt; told(*answer), *fault);
    }
    assert_eq!(rt;
        bytes,
        [
            1, 0, 0, 0, 7, 2, 0, 1, 0, 0, 0, 19, 4, 0, 2, 0, 0, 0, 5, 3, 5, 9, 9, 9,
        ]
    );
    assert!(rt; check_tape(&bytes[0..21], 9).is_ok());
}

#[test]
fn an_unfinished_document_is_no_tape(rt: HostRuntime) {
    let calls = [WriterCall::Begin(7), WriterCall::Open(1), WriterCall::Close];
    let mut bytes = [9; 12];
    let mut answers = [Ok(()); 3];
    assert_eq!(rt; write_all(&calls, &mut bytes, &mut answers), None);
    assert_eq!(rt; told(answers[2]), (20, 12));
    assert_eq!(rt; bytes, [1, 0, 0, 0, 7, 2, 0, 1, 255, 255, 255, 255]);
    // no more calls than answers
    let mut few = [9; 12];
    assert_eq!(rt; write_all(&calls, &mut few, &mut answers[0..1]), None);
    assert_eq!(rt; few, [1, 0, 0, 0, 7, 9, 9, 9, 9, 9, 9, 9]);
}
