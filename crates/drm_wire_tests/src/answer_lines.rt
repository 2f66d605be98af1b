//! The longest lines of answers, which no script gets.

use crate::comparing::same;
use drm_script::line_of;
use drm_table::{Answer, Apart};
use drm_test_support::{list_of, page_of, resources_of, row};

fn length_of(outcome: &Result<Answer, Apart>) -> usize {
    line_of(outcome).as_bytes().len()
}

#[test]
fn longest_answers_have_lines_of_their_lengths(rt: HostRuntime) {
    let ids = [u32::MAX; 64];
    let rows = [row(u64::MAX, u64::MAX, u64::MAX, u64::MAX); 16];
    let lengths = [
        length_of(&list_of(&ids)),
        length_of(&resources_of([&ids, &ids, &ids, &ids])),
        length_of(&page_of(&rows)),
    ];
    same(&rt, &lengths, &[709, 2_855, 1_384], 0);
}
