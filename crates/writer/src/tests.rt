use crate::fault::WriteFault;
use crate::state::{GivenBack, WriterInside, WriterOutside};
use std::test::Fail;

// A call that leaves a writer inside its document; `WriterCall` has two more.
#[derive(Clone, Copy)]
enum Call {
    Open(u16),
    Value(u16, u32),
    Close,
}

fn make(writer: &mut WriterInside, bytes: &mut [u8], call: Call) -> Result<(), WriteFault> {
    match call {
        Call::Open(tag) => writer.open(bytes, tag),
        Call::Value(tag, number) => writer.value(bytes, tag, number),
        Call::Close => writer.close(bytes),
    }
}

// The number and place of a refusal, and 0 where there is none. By number, as the rules
// tell refusals.
pub fn told(res: Result<(), WriteFault>) -> (u8, u32) {
    match res {
        Ok(()) => (0, 0),
        Err(fault) => (fault.refusal.number(), fault.place),
    }
}

// A document with elements open, as many as asked for, one in the other.
fn nested(bytes: &mut [u8], elements: u8) -> Result<WriterInside, Fail> {
    match WriterOutside::fresh().begin(bytes, 7) {
        Ok(mut writer) => {
            for _ in 0..elements {
                let _ = writer.open(bytes, 2);
            }
            Ok(writer)
        }
        Err(GivenBack { writer, fault: _ }) => {
            let _ = writer.finish();
            Err(Fail::new("begin was refused"))
        }
    }
}

// What a call is answered with some elements open, one byte changed by another hand, and so many bytes at hand.
fn answer(elements: u8, call: Call, spoiled: usize, room: usize) -> Result<(u8, u32), Fail> {
    let mut bytes = [0; 512];
    let mut writer = nested(&mut bytes, elements)?;
    let result = if spoiled < 512 && room <= 512 {
        bytes[spoiled] ^= 0x80;
        make(&mut writer, &mut bytes[0..room], call)
    } else {
        Ok(())
    };
    let _ = writer.abandon();
    Ok(told(result))
}

#[test]
fn each_refusal_is_told_with_the_bytes_written(rt: HostRuntime) -> Result<(), Fail> {
    // the elements open, the call, the byte that is changed, the bytes at hand, and the refusal
    let cases = [
        (0, Call::Value(3, 0), 511, 512, (4, 5)),
        (0, Call::Close, 511, 512, (4, 5)),
        (64, Call::Value(3, 0), 511, 512, (6, 453)),
        (64, Call::Open(3), 511, 512, (6, 453)),
        (64, Call::Open(3), 511, 453, (6, 453)),
        (1, Call::Open(3), 511, 18, (20, 12)),
        (1, Call::Open(3), 511, 19, (0, 0)),
        (1, Call::Value(3, 0), 511, 18, (20, 12)),
        (1, Call::Close, 511, 12, (20, 12)),
        (1, Call::Close, 511, 13, (0, 0)),
        (1, Call::Close, 5, 13, (21, 12)),
        (1, Call::Close, 11, 13, (21, 12)),
        (1, Call::Close, 5, 4, (20, 12)),
        (2, Call::Close, 12, 20, (21, 19)),
        (2, Call::Close, 15, 20, (21, 19)),
        (2, Call::Close, 511, 20, (0, 0)),
    ];
    for (elements, call, spoiled, room, refusal) in cases {
        assert_eq!(rt; answer(elements, call, spoiled, room)?, refusal);
    }
    Ok(())
}

// Begins a document, and gives it up; the refusal's number and place, and 0 where there is none.
fn begun(writer: WriterOutside, bytes: &mut [u8], document: u32) -> (u8, u32) {
    match writer.begin(bytes, document) {
        Ok(inside) => {
            let _ = inside.abandon();
            (0, 0)
        }
        Err(GivenBack { writer, fault }) => {
            let _ = writer.finish();
            (fault.refusal.number(), fault.place)
        }
    }
}

// Ends a document, and begins another of the same bytes; 99 where the end is refused, with its number.
fn ended(writer: WriterInside, bytes: &mut [u8], document: u32) -> (u8, u32) {
    match writer.end(bytes) {
        Ok(outside) => begun(outside, bytes, document),
        Err(GivenBack { writer, fault }) => {
            let _ = writer.abandon();
            (99, fault.refusal.number() as u32)
        }
    }
}

// What is answered where a document follows document 7.
fn second(document: u32) -> Result<(u8, u32), Fail> {
    let mut bytes = [9; 24];
    let mut writer = nested(&mut bytes, 1)?;
    let _ = writer.close(&mut bytes);
    Ok(ended(writer, &mut bytes, document))
}

#[test]
fn documents_rise_and_end_at_their_root(rt: HostRuntime) -> Result<(), Fail> {
    let mut bytes = [9; 24];
    assert_eq!(rt;
        begun(WriterOutside::fresh(), &mut bytes, 2_147_483_648),
        (5, 0)
    );
    assert_eq!(rt; begun(WriterOutside::fresh(), &mut bytes[0..4], 0), (20, 0));
    assert_eq!(rt; bytes, [9; 24]);
    let rootless = nested(&mut bytes, 0)?;
    assert_eq!(rt; ended(rootless, &mut bytes, 8), (99, 4));
    let open = nested(&mut bytes, 1)?;
    assert_eq!(rt; ended(open, &mut bytes, 8), (99, 4));
    assert_eq!(rt; second(7)?, (5, 14));
    assert_eq!(rt; second(8)?, (0, 0));
    Ok(())
}

#[test]
fn every_byte_is_as_the_format_says(rt: HostRuntime) -> Result<(), Fail> {
    let mut bytes = [9; 24];
    let mut writer = nested(&mut bytes, 1)?;
    let _ = writer.value(&mut bytes, 0x0103, 0x0A0B_0C0D);
    let unclosed = bytes;
    let _ = writer.close(&mut bytes);
    match writer.end(&mut bytes) {
        Ok(outside) => assert_eq!(rt; outside.finish(), 21),
        Err(GivenBack { writer, fault: _ }) => {
            let _ = writer.abandon();
            return Err(Fail::new("end was refused"));
        }
    }
    assert_eq!(rt;
        unclosed,
        [
            1, 0, 0, 0, 7, 2, 0, 2, 255, 255, 255, 255, 4, 1, 3, 10, 11, 12, 13, 9, 9, 9, 9, 9,
        ]
    );
    assert_eq!(rt;
        bytes,
        [
            1, 0, 0, 0, 7, 2, 0, 2, 0, 0, 0, 19, 4, 1, 3, 10, 11, 12, 13, 3, 5, 9, 9, 9,
        ]
    );
    Ok(())
}
