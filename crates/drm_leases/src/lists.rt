//! Lists of the numbers that pass a test.

ghost use Rattle.std.specs.Prelude.{◌≡◌, ◌≤◌, ℕ, Bool, filter};
ghost use Rattle.drm_modes.specs.Numbers.{numbers_from};

use drm_table::ShownList;

/// Returns the numbers from 1 to the last that pass.
pub fn passing<F: Fn(u32) -> bool>(last: u32, test: F) -> ShownList
    requires few { last ≤ 64 }
    requires callable { F.IsAlwaysCallable test }
    ensures { (p : ℕ → Bool) → ((n : ℕ) (b : Bool) → 1 ≤ n → n ≤ 64 → F.post test n b → b ≡ p n) → result ≡ filter p (numbers_from 1 last) }
{
    let mut list = ShownList::new();
    for id in 1..last + 1 {
        if test(id) {
            list.push(id);
        }
    }
    list
}
