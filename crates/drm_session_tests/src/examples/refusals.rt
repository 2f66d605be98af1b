//! The examples of `drm_refusals`, made by `tools/doc_examples` of its doc comments.

use drm_refusals::{
    AnswerRow, ClientFact, Fact, HandleFact, LeaseFact, LimitFact, MagicFact, ModeObjectFact,
    PublishedFact, Quantity, RequestFact, SizeFact,
};
use drm_rights::Key;

#[test]
fn part_1(rt: HostRuntime) {
    let alloc = rt.alloc();
    let fact = Fact::Client(ClientFact::NeverOpened { client: 1 });
    assert!(rt; matches!(fact, Fact::Client(ClientFact::NeverOpened { client: 1 })));
    let fact = HandleFact::NeverGiven {
        client: 1,
        handle: 5,
    };
    assert!(rt; matches!(fact, HandleFact::NeverGiven { handle: 5, .. }));
    let fact = PublishedFact::Never { key: Key::Name(1) };
    assert!(rt; matches!(fact, PublishedFact::Never { key: Key::Name(1) }));
    let fact = MagicFact::Unknown {
        master: 1,
        magic: 7,
    };
    assert!(rt; matches!(fact, MagicFact::Unknown { magic: 7, .. }));
    let fact = LeaseFact::TokenUnknown { token: 3 };
    assert!(rt; matches!(fact, LeaseFact::TokenUnknown { token: 3 }));
    let fact = ModeObjectFact::Nothing { id: 9, count: 8 };
    assert!(rt; matches!(fact, ModeObjectFact::Nothing { id: 9, .. }));
    let quantity = Quantity::Width;
    assert!(rt; matches!(quantity, Quantity::Width));
    let fact = SizeFact::ShortPitch { pitch: 4, least: 8 };
    assert!(rt; matches!(fact, SizeFact::ShortPitch { least: 8, .. }));
    let fact = LimitFact::Names { most: 65_535 };
    assert!(rt; matches!(fact, LimitFact::Names { most: 65_535 }));
    let fact = RequestFact::Repeated { id: 7 };
    assert!(rt; matches!(fact, RequestFact::Repeated { id: 7 }));
    let row = AnswerRow {
        line: 1,
        asked: None,
        label: Some('a'),
        answer: String::new(alloc),
        is_carried_out: true,
        rule: None,
        facts: Vec::new(alloc),
        passes_if: None,
    };
    assert!(rt; row.label == Some('a'));
}
