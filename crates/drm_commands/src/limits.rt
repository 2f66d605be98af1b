//! Limits of the command line.

ghost use Rattle.std.specs.Prelude.{◌≡◌, true, IfSome};
ghost use Rattle.drm_table.specs.Limits.{are_in_range};

use arrayvec::ArrayString;
use drm_device::Limits;
use drm_script::{Reading, read_line};

/// The longest line of a script.
const LINE: usize = 255;

/// Returns the limits that eight numbers set, as after the word `limits` of a script.
pub(crate) fn limits_of(numbers: &str) -> Option<Limits>
    ensures { IfSome result (λ limits. are_in_range limits ≡ true) }
{
    let mut line: ArrayString<LINE> = ArrayString::new();
    line.push_str("limits ");
    line.try_push_str(numbers).ok()?;
    let Ok(reading) = read_line(line.as_str().as_bytes()) else {
        return None;
    };
    match reading {
        Reading::Limits(limits) => Some(limits),
        _ => None,
    }
}
