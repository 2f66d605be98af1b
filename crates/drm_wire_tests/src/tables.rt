//! Which rule denies a call to which client, for all sets of flags. Calls have five of them.

use crate::comparing::same;
use bitflags::Flags;
use drm_table::{RowFlags, Standing, permit};

/// For each set of flags (1 ROOT_ONLY, 2 AUTH, 4 MASTER, 8 RENDER_ALLOW) and all credentials (1 root, 2 render, 4
/// authenticated, 8 current): the rule that denies, or 0.
const REFUSALS: [[u32; 16]; 16] = [
    [0, 0, 14, 14, 0, 0, 14, 14, 0, 0, 14, 14, 0, 0, 14, 14],
    [11, 0, 11, 14, 11, 0, 11, 14, 11, 0, 11, 14, 11, 0, 11, 14],
    [12, 12, 14, 14, 0, 0, 14, 14, 12, 12, 14, 14, 0, 0, 14, 14],
    [11, 12, 11, 14, 11, 0, 11, 14, 11, 12, 11, 14, 11, 0, 11, 14],
    [13, 13, 13, 13, 13, 13, 13, 13, 0, 0, 14, 14, 0, 0, 14, 14],
    [11, 13, 11, 13, 11, 13, 11, 13, 11, 0, 11, 14, 11, 0, 11, 14],
    [12, 12, 13, 13, 13, 13, 13, 13, 12, 12, 14, 14, 0, 0, 14, 14],
    [
        11, 12, 11, 13, 11, 13, 11, 13, 11, 12, 11, 14, 11, 0, 11, 14,
    ],
    [0, 0, 0, 0, 0, 0, 0, 0, 0, 0, 0, 0, 0, 0, 0, 0],
    [11, 0, 11, 0, 11, 0, 11, 0, 11, 0, 11, 0, 11, 0, 11, 0],
    [12, 12, 0, 0, 0, 0, 0, 0, 12, 12, 0, 0, 0, 0, 0, 0],
    [11, 12, 11, 0, 11, 0, 11, 0, 11, 12, 11, 0, 11, 0, 11, 0],
    [13, 13, 13, 13, 13, 13, 13, 13, 0, 0, 0, 0, 0, 0, 0, 0],
    [11, 13, 11, 13, 11, 13, 11, 13, 11, 0, 11, 0, 11, 0, 11, 0],
    [12, 12, 13, 13, 13, 13, 13, 13, 12, 12, 0, 0, 0, 0, 0, 0],
    [11, 12, 11, 13, 11, 13, 11, 13, 11, 12, 11, 0, 11, 0, 11, 0],
];

fn credentials(bits: u8) -> Standing {
    Standing {
        root: bits & 1 != 0,
        render: bits & 2 != 0,
        authenticated: bits & 4 != 0,
        current: bits & 8 != 0,
    }
}

fn refusal(flags: u8, bits: u8) -> u32 {
    match permit(RowFlags::from_bits_retain(flags), credentials(bits)) {
        Some(rule) => rule.number(),
        None => 0,
    }
}

/// What is refused by a set of flags to all credentials.
fn refusals(flags: u8) -> [u32; 16] {
    let mut numbers = [0; 16];
    for bits in 0..16u8 {
        numbers[usize::from(bits)] = refusal(flags, bits);
    }
    numbers
}

#[test]
fn permit_of_all_flags_and_standings(rt: HostRuntime) {
    for (flags, expected) in REFUSALS.iter().enumerate() {
        same(&rt, &refusals(flags as u8), expected, flags);
    }
}
