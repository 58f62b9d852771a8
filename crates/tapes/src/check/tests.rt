use super::check_tape;

// Document 7 with an empty root of tag 1.
const ROOT: [u8; 14] = [1, 0, 0, 0, 7, 2, 0, 1, 0, 0, 0, 12, 3, 5];

// The number, the place and the name of a fault, and 0 where the bytes are a tape. By number, as the rules
// tell refusals.
fn told(bytes: &[u8]) -> (u8, u32, u16) {
    match check_tape(bytes, 9) {
        Ok(()) => (0, 0, 0),
        Err(fault) => (fault.refusal.number(), fault.place, fault.name),
    }
}

#[test]
fn a_tape_is_taken_whole_or_refused_with_its_fault(rt: HostRuntime) {
    assert_eq!(rt; told(&ROOT[0..0]), (0, 0, 0));
    assert_eq!(rt; told(&ROOT), (0, 0, 0));
    assert_eq!(rt; told(&ROOT[0..13]), (4, 13, 9));
    // a byte, what it is changed to, and the fault
    let cases = [
        (0, 6, (2, 0, 9)),
        (13, 1, (3, 13, 9)),
        (13, 3, (4, 13, 9)),
        (1, 128, (5, 0, 9)),
        (11, 14, (7, 5, 9)),
        (11, 13, (8, 12, 9)),
        (4, 8, (0, 0, 0)),
    ];
    for (at, byte, fault) in cases {
        let mut bytes = ROOT;
        assert!(rt; at < 14);
        bytes[at] = byte;
        assert_eq!(rt; told(&bytes), fault);
    }
}
