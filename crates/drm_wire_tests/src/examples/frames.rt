//! The examples of `drm_frames`, made by `tools/doc_examples` of its doc comments.

use drm_frames::{
    AnswerText, Decoded, Frame, FromRead, Hello, Put, Refill, Sink, Source, Taken, ToWrite,
    Written, answer_of, call_of, decode, encode_answer, encode_call, encode_hello, hello_of,
    put_all, put_each, read_call, take_some,
};
use drm_table::{Answer, Call};

#[test]
fn part_1(rt: HostRuntime) {
    let frame = encode_answer(&Ok(Answer::Done));
    assert!(rt; frame.as_slice() == [2, 0, 0, 0, 0x00, 0x10].as_slice());
    let mut text = AnswerText::new();
    text.write(&Ok(Answer::Done));
    assert!(rt; text.as_slice().len() == 6);
    let Decoded::Whole(frame, used) = decode(&[2, 0, 0, 0, 0x02, 0x00]) else {
        panic!(rt; "refused")
    };
    assert!(rt; used == 6 && frame.number() == 0x02 && frame.fields().is_empty());
    assert!(rt; matches!(decode(&[1, 0, 0, 0]), Decoded::TooLong));
    let hello = Hello {
        version: 2,
        lease: Some(1),
    };
    let bytes = encode_hello(hello);
    let Decoded::Whole(frame, _) = decode(bytes.as_slice()) else {
        panic!(rt; "refused")
    };
    assert!(rt; hello_of(&frame) == Some(hello));
    assert!(rt; call_of(&Frame::new(0x09, &[1, 0, 0, 0])) == Call::GemClose { handle: 1 });
    assert!(rt; call_of(&Frame::new(0x09, &[])) == Call::BadLayout(0x09));
    assert!(rt; call_of(&Frame::new(0x7F, &[])) == Call::Unknown(0x7F));
    let mut call = Call::Version;
    read_call(&Frame::new(0x09, &[1, 0, 0, 0]), &mut call);
    assert!(rt; call == Call::GemClose { handle: 1 });
    read_call(&Frame::new(0x7F, &[]), &mut call);
    assert!(rt; call == Call::Unknown(0x7F));
    let frame = encode_call(&Call::GemClose { handle: 1 });
    assert!(rt; frame.as_slice() == [6, 0, 0, 0, 0x09, 0x00, 1, 0, 0, 0].as_slice());
    assert!(rt; answer_of(&Frame::new(0x1000, &[])) == Some(Ok(Answer::Done)));
    assert!(rt; answer_of(&Frame::new(0x02, &[])).is_none());
    let mut sink = ToWrite::new(Vec::new(rt.alloc()));
    assert!(rt; sink.put(b"frame") == Put::Took(5));
    let mut sink = ToWrite::new(Vec::new(rt.alloc()));
    sink.put(b"fra");
    sink.put(b"me");
    assert!(rt; sink.calls() == 2);
    let mut source = FromRead::new(b"frame".as_slice());
    let mut buffer = [0; 8];
    assert!(rt; source.take(&mut buffer) == Taken::Got(5));
}

#[test]
fn part_2(rt: HostRuntime) {
    let mut source = FromRead::new(b"frame".as_slice());
    let mut buffer = [0; 8];
    source.take(&mut buffer);
    assert!(rt; source.calls() == 1);
    let frame = encode_call(&Call::GetMagic);
    assert!(rt; frame.as_slice().len() == 6);
    let mut sink = ToWrite::new(Vec::new(rt.alloc()));
    let mut turns = 10;
    let texts = [b"fra".as_slice(), b"me".as_slice()];
    assert!(rt; put_each(&mut sink, texts.as_slice(), &mut turns) == Written::Whole);
    assert!(rt; turns == 8);
    let mut source = FromRead::new(b"".as_slice());
    let mut buffer = [0; 8];
    let mut turns = 0;
    assert!(rt; take_some(&mut source, &mut buffer, &mut turns) == Refill::TurnsUsed);
    let mut source = FromRead::new(b"frame".as_slice());
    let mut buffer = [0; 8];
    let mut turns = 10;
    assert!(rt; take_some(&mut source, &mut buffer, &mut turns) == Refill::Got(5));
    assert!(rt; turns == 9);
    let mut sink = ToWrite::new(Vec::new(rt.alloc()));
    let mut turns = 10;
    assert!(rt; put_all(&mut sink, b"frame", &mut turns) == Written::Whole);
    assert!(rt; sink.into_inner().as_slice() == b"frame".as_slice());
}
