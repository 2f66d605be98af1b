//! Texts of several lines.

ghost use Rattle.std.specs.Prelude.{◌≡◌, ◌≢◌, ◌<◌, [], ◌∷◌, length, position, IfSome};
ghost use Rattle.drm_script.specs.Lines.{is_line_end, line_before, text_behind, lines_of};

/// Returns the place where the first line ends.
fn line_end(text: &[u8]) -> Option<usize>
    ensures place { result ≡ position is_line_end text.now }
    ensures within { IfSome result (λ at. at < length text.now) }
{
    text.iter().position(|byte| *byte == b'\n')
}

/// Returns the first line of a text without its end, and the rest of the text (own). Does not allocate.
///
/// If no line ends, the line is the whole text, and the rest is empty.
///
/// # Examples
///
/// ```rust
/// use drm_script::first_line;
///
/// let (line, rest) = first_line(b"open a root\na get_magic");
/// assert!(rt; line == b"open a root".as_slice() && rest == b"a get_magic".as_slice());
/// ```
pub fn first_line(text: &[u8]) -> (&[u8], &[u8])
    ensures line { result.0.now ≡ line_before (position is_line_end text.now) text.now }
    ensures behind { result.1.now ≡ text_behind (position is_line_end text.now) text.now }
    ensures lines { text.now ≢ [] → lines_of text.now ≡ result.0.now ∷ lines_of result.1.now }
{
    match line_end(text) {
        Some(at) => {
            let (line, _) = text.split_at(at);
            let (_, behind) = text.split_at(at + 1);
            (line, behind)
        }
        None => (text, &[]),
    }
}
