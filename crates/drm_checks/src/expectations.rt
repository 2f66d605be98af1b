//! The answer that a line expects, and the answers that meet it.

ghost use Rattle.std.specs.Prelude.{◌≡◌, ◌+◌, ◌≤◌, true, length, IfSome};
ghost use Rattle.std.specs.Option.{option_map};
ghost use Rattle.drm_checks.specs.Expectations.{arrow_from, arrow_place, begins_with_arrow, expected_part, is_met, is_short, is_whole, meets, script_part, numbered};

use arrayvec::ArrayString;
use drm_script::{line_of, push_number};
use drm_table::{Answer, Apart};

/// The text between a line of the script and the answer that it expects.
pub(crate) const ARROW: &[u8] = b" -> ";

fn begins_with_arrow(text: &[u8]) -> bool
    ensures value { result ≡ begins_with_arrow text.now }
    ensures within { result ≡ true → 4 ≤ length text.now }
{
    text.starts_with(ARROW)
}

/// Returns the place of the first ` -> `.
fn first_arrow(line: &[u8]) -> Option<usize>
    ensures place { result ≡ arrow_from 0 line.now }
    ensures within { IfSome result (λ at. at + 4 ≤ length line.now) }
{
    for at in 0..line.len() {
        let (_, rest) = line.split_at(at);
        if begins_with_arrow(rest) {
            return Some(at);
        }
    }
    None
}

/// Returns the end of the script part, if an answer is expected. A comment expects none.
fn arrow_place(line: &[u8]) -> Option<usize>
    ensures place { result ≡ arrow_place line.now }
    ensures within { IfSome result (λ at. at + 4 ≤ length line.now) }
{
    match line {
        [b'#', ..] => None,
        _ => first_arrow(line),
    }
}

/// Returns the script part of a line, and the answer that it expects after ` -> ` (own). Does not allocate.
///
/// # Examples
///
/// ```rust
/// use drm_checks::parts_of;
///
/// let (script, expected) = parts_of(b"open a card -> client 1");
/// assert!(rt; script == b"open a card".as_slice());
/// let Some(expected) = expected else { return };
/// assert!(rt; expected == b"client 1".as_slice());
/// ```
pub fn parts_of(line: &[u8]) -> (&[u8], Option<&[u8]>)
    ensures script { result.0.now ≡ script_part line.now }
    ensures expected { option_map (λ e. e.now) result.1 ≡ expected_part line.now }
{
    match arrow_place(line) {
        Some(at) => {
            let (script, rest) = line.split_at(at);
            let (_, expected) = rest.split_at(ARROW.len());
            (script, Some(expected))
        }
        None => (line, None),
    }
}

/// Returns the script part of a line: the text before its first ` -> `, or the whole of a comment (own). Does not
/// allocate.
pub fn script_of(line: &[u8]) -> &[u8]
    ensures { result.now ≡ script_part line.now }
{
    parts_of(line).0
}

/// Returns a word and a number.
fn numbered(word: &str, number: u64) -> ArrayString<32>
    requires { length word.now ≤ 8 }
    ensures { result.bytes ≡ numbered word.now number }
{
    let mut text = ArrayString::new();
    text.push_str(word);
    push_number(&mut text, number);
    text
}

/// Returns whether these are the words of the answer's line.
fn is_whole(expected: &[u8], answer: &Result<Answer, Apart>) -> bool
    ensures { result ≡ is_whole expected.now answer.now }
{
    let line = line_of(answer);
    let bytes = line.as_bytes();
    let (words, _) = bytes.split_at(bytes.len() - 1);
    words == expected
}

/// Returns whether these are the first two words of a denial or a fault.
fn is_short(expected: &[u8], answer: &Result<Answer, Apart>) -> bool
    ensures { result ≡ is_short expected.now answer.now }
{
    match answer {
        Ok(Answer::Denied(rule)) => {
            numbered("denied ", u64::from(rule.number()))
                .as_str()
                .as_bytes()
                == expected
        }
        Ok(_) => false,
        Err(apart) => numbered("apart ", u64::from(apart.number()))
            .as_str()
            .as_bytes()
            == expected,
    }
}

/// Returns whether the answer is the expected one (own). Without an answer it is not. Does not allocate.
///
/// # Examples
///
/// ```rust
/// use drm_checks::is_met;
/// use drm_table::Answer;
///
/// assert!(rt; is_met(b"done", &Some(Ok(Answer::Done))));
/// assert!(rt; !is_met(b"done", &None));
/// ```
pub fn is_met(expected: &[u8], came: &Option<Result<Answer, Apart>>) -> bool
    ensures { result ≡ is_met expected.now came.now }
{
    match came {
        Some(answer) => is_whole(expected, answer) || is_short(expected, answer),
        None => false,
    }
}
