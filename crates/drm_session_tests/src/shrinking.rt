//! A search for a shorter script that ends early. `tests/test_shrinking.py` has what is left of scripts.

use crate::comparing::same;
use drm_checks::shrink_script;
use drm_runs::Setup;
use std::process::Abort;

#[test]
fn searches_that_end_early_keep_what_they_have(rt: HostRuntime) {
    let text = b"open a card\na version\nb version\n";
    let Ok(shrunk) = shrink_script(rt.alloc(), &Setup::usual(), text, 3, 0) else {
        rt.abort();
    };
    let all =
        b"open a card -> client 1\na version -> version 1 0 0\nb version -> denied 3 NoClient 22\n";
    same(&rt, &shrunk.text.as_slice(), &all.as_slice(), "text");
    same(
        &rt,
        &(shrunk.lines, shrunk.replayed, shrunk.is_minimal),
        &(3, 0, false),
        "search",
    );
}
