//! Texts that differ.

ghost use Rattle.std.specs.Prelude.{◌≡◌, IfNone, IfSome};
ghost use Rattle.drm_checks.specs.FirstDifference.{DiffersIn};

/// Returns the number of the first line, from 1, in which two texts differ (own). Returns `None` if they are the same.
/// Does not allocate.
///
/// # Examples
///
/// ```rust
/// use drm_checks::first_difference;
///
/// assert!(rt; first_difference(b"open a card\n", b"open a card\n").is_none());
/// assert!(rt; first_difference(b"open a card\nclose a", b"open a card\na version") == Some(2));
/// ```
pub fn first_difference(text: &[u8], other: &[u8]) -> Option<u64>
    ensures same { IfNone result (text.now ≡ other.now) }
    ensures line { IfSome result (λ line. DiffersIn text.now other.now line) }
{
    let mut line: u64 = 1;
    for at in 0..text.len() {
        let byte = text[at];
        if at >= other.len() || other[at] != byte {
            return Some(line);
        }
        if byte == b'\n' {
            line += 1;
        }
    }
    if text.len() < other.len() {
        return Some(line);
    }
    None
}
