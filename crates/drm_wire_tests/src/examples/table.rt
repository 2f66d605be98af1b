//! The examples of `drm_table`, made by `tools/doc_examples` of its doc comments.

use drm_table::{
    Answer, AnswerKind, Apart, AuditKind, AuditPage, AuditRow, Call, CallKind, Event, Family,
    Field, Fields, IdList, Layout, Limits, Opening, RowFlags, Rule, ShownList, Standing, Told,
    Width, are_in_range, permit, row,
};

#[test]
fn part_1(rt: HostRuntime) {
    let answer = Answer::Number { value: 7 };
    assert!(rt; matches!(answer.told(), Told::Fields(AnswerKind::Number, _)));
    assert!(rt; answer != Answer::Done);
    let fault = Apart::NoMemory;
    assert!(rt; fault.errno() == 12);
    let kind = AuditKind::Object;
    assert!(rt; kind.number() == 3);
    let mut page = AuditPage::new();
    page.push(AuditRow {
        a: 1,
        b: 2,
        c: 0,
        d: 0,
    });
    assert!(rt; page.rows().len() == 1);
    let call = Call::BufCreate { size: 4096 };
    assert!(rt; call.number() == 0x40);
    let call = CallKind::GemClose.call(&[Field::U32(1)]);
    assert!(rt; call == Some(Call::GemClose { handle: 1 }));
    assert!(rt; CallKind::GemClose.call(&[]).is_none());
    let opening = Opening::Primary {
        root: true,
        universal: true,
    };
    assert!(rt; opening != Opening::Render);
    let event = Event::Ask(1, Call::GetMagic);
    assert!(rt; event != Event::Close(1));
    assert!(rt; Width::of_ids(2) == [Width::U32, Width::U32].as_slice());
    assert!(rt; matches!(CallKind::CreateLease.layout(), Layout::Ids));
    let fields: Fields<5> = Fields::of(&[Field::U32(1), Field::U64(2)]);
    assert!(rt; fields.as_slice().len() == 2);
}

#[test]
fn part_2(rt: HostRuntime) {
    let limits = Limits {
        clients: 8,
        ..Limits::PROGRAM
    };
    assert!(rt; are_in_range(limits));
    assert!(rt;
        !are_in_range(Limits {
            journal: 1,
            ..Limits::PROGRAM
        })
    );
    let list = ShownList::new();
    assert!(rt; list.ids().is_empty());
    let mut ids = IdList::new();
    ids.push(2);
    let call = Call::CreateLease { ids };
    assert!(rt; call.number() == 0xC6);
    let Some(found) = row(0x02) else {
        panic!(rt; "refused")
    };
    assert!(rt; found.name == "GET_MAGIC");
    let caller = Standing {
        root: false,
        render: false,
        authenticated: true,
        current: false,
    };
    assert!(rt; permit(RowFlags::MASTER, caller) == Some(Rule::Master));
    assert!(rt; CallKind::Audit.family() == Family::Device);
    let found = CallKind::GemClose.row();
    assert!(rt; found.number == 0x09 && found.word == b"gem_close".as_slice());
    assert!(rt; Rule::of_number(43) == Some(Rule::Full));
    assert!(rt; Rule::of_number(4).is_none());
}
