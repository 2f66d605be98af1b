//! The examples of `drm_share`, made by `tools/doc_examples` of its doc comments.

use drm_gem::ObjectKey;
use drm_share::{Names, ShareFault, SharedName, SharedToken, Tokens};

#[test]
fn part_1(rt: HostRuntime) {
    let alloc = rt.alloc();
    let mut names = Names::new(alloc, 1);
    let Ok(_name) = names.give(ObjectKey::from_number(4)) else {
        panic!(rt; "refused")
    };
    if names.name_of(ObjectKey::from_number(5)).is_none() {
        assert!(rt; names.give(ObjectKey::from_number(5)) == Err(ShareFault::Full));
    }
    let mut names = Names::new(alloc, 100);
    let object = ObjectKey::from_number(4);
    let Ok(name) = names.give(object) else {
        panic!(rt; "refused")
    };
    assert!(rt; name == 1 && names.lookup(name) == Some(object));
    let mut names = Names::new(alloc, 100);
    let object = ObjectKey::from_number(4);
    let Ok(name) = names.give(object) else {
        panic!(rt; "refused")
    };
    assert!(rt; names.nth_name(0) == Some(SharedName { name, object }));
    let mut tokens = Tokens::new(alloc, 100);
    let object = ObjectKey::from_number(4);
    let Ok(token) = tokens.export(9, object) else {
        panic!(rt; "refused")
    };
    assert!(rt;
        tokens.nth_token(0)
            == Some(SharedToken {
                token,
                client: 9,
                object
            })
    );
}

#[test]
fn part_2(rt: HostRuntime) {
    let alloc = rt.alloc();
    let mut tokens = Tokens::new(alloc, 100);
    let object = ObjectKey::from_number(4);
    let Ok(token) = tokens.export(9, object) else {
        panic!(rt; "refused")
    };
    assert!(rt; tokens.close(8, token).is_none());
    assert!(rt; tokens.close(9, token) == Some(object));
}
