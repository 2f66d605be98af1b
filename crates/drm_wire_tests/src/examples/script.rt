//! The examples of `drm_script`, made by `tools/doc_examples` of its doc comments.

use drm_script::{
    Command, Label, Malformation, Malformed, Reading, Wanted, audit_line, first_line, line_of,
    next_word, read_line, u32_of,
};
use drm_table::{Answer, AuditKind, AuditRow, Call};

#[test]
fn part_1(rt: HostRuntime) {
    let row = AuditRow {
        a: 2,
        b: 4096,
        c: 1,
        d: 0,
    };
    let line = audit_line(AuditKind::Object, &row);
    assert!(rt; line.as_bytes() == b"object 2 4096 1 0\n".as_slice());
    let Ok(Reading::Says(command)) = read_line(b"a get_magic") else {
        panic!(rt; "refused")
    };
    let Some(label) = Label::from_letter(b'a') else {
        panic!(rt; "refused")
    };
    assert!(rt;
        command
            == Command::Ask {
                label,
                call: Call::GetMagic
            }
    );
    let Err(malformed) = read_line(b"a") else {
        panic!(rt; "refused")
    };
    assert!(rt; malformed.cause == Malformation::Lacks(Wanted::Call));
    let Err(malformed) = read_line(b"a get_majic") else {
        panic!(rt; "refused")
    };
    assert!(rt; malformed.column == 3 && malformed.word.as_str() == "get_majic");
    let malformed = Malformed::too_long();
    assert!(rt; malformed.column == 256 && malformed.cause == Malformation::TooLong);
    assert!(rt; u32_of(b"4294967295") == Some(4_294_967_295));
    assert!(rt; u32_of(b"+1").is_none() && u32_of(b"4294967296").is_none());
    let Ok(Reading::Limits(limits)) = read_line(b"limits 4 8 8 8 8 4 4 50") else {
        panic!(rt; "refused")
    };
    assert!(rt; limits.clients == 4 && limits.journal == 50);
    assert!(rt; read_line(b"a get_majic").is_err());
    let (line, rest) = first_line(b"open a root\na get_magic");
    assert!(rt; line == b"open a root".as_slice() && rest == b"a get_magic".as_slice());
}

#[test]
fn part_2(rt: HostRuntime) {
    let line = line_of(&Ok(Answer::Done));
    assert!(rt; line.as_bytes() == b"done\n".as_slice());
    let Some((word, rest)) = next_word(b"  open a root") else {
        panic!(rt; "refused")
    };
    assert!(rt; word == b"open".as_slice() && rest == b" a root".as_slice());
}
