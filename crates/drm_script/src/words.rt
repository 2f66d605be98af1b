//! The words of a line, which only spaces separate.

ghost use Rattle.std.specs.Prelude.{◌≡◌, ◌-◌, ◌≤◌, [], ◌∷◌, MatchOption, IfErr, IfSome, drop, length, position};
ghost use Rattle.std.specs.Option.{option_map};
ghost use Rattle.std.specs.Result.{result_ok};
ghost use Rattle.drm_script.specs.Faults.{IsFirstMisfit, LacksWord};
ghost use Rattle.drm_script.specs.Words.{words_of, is_space, trimmed, IsEndOf};
ghost use Rattle.drm_script.specs.Fields.{end_at, word_at};

use crate::malformations::{Fault, Malformation, Wanted};

/// Returns the text from its first byte on that is no space.
pub(crate) fn trim_spaces(mut text: &[u8]) -> &[u8]
    ensures { result.now ≡ trimmed text.entry.now }
{
    while let [b' ', rest @ ..] = text {
        text = rest;
    }
    text
}

/// Returns the place of the first space.
fn first_space(text: &[u8]) -> Option<usize>
    ensures { result ≡ position is_space text.now }
{
    text.iter().position(|byte| *byte == b' ')
}

/// Returns the first word of a text and the rest, or `None` if the text has no word (own). Only spaces separate words.
/// Does not allocate.
///
/// # Examples
///
/// ```rust
/// use drm_script::next_word;
///
/// let Some((word, rest)) = next_word(b"  open a root") else { return };
/// assert!(rt; word == b"open".as_slice() && rest == b" a root".as_slice());
/// ```
pub fn next_word(text: &[u8]) -> Option<(&[u8], &[u8])>
    ensures words { MatchOption result (words_of text.now ≡ []) (λ found. words_of text.now ≡ found.0.now ∷ words_of found.1.now) }
    ensures behind { IfSome result (λ found. IsEndOf text.now found.1.now) }
{
    let word = trim_spaces(text);
    if word.is_empty() {
        return None;
    }
    match first_space(word) {
        Some(end) => Some(word.split_at(end)),
        None => Some((word, &[])),
    }
}

/// Returns the number of words of a text.
pub(crate) fn word_count(text: &[u8]) -> usize
    ensures count { result ≡ length (words_of text.now) }
{
    let mut rest = text;
    for count in 0..text.len() {
        let Some((_, behind)) = next_word(rest) else {
            return count;
        };
        rest = behind;
    }
    text.len()
}

/// Returns the rest of a text after its first `skipped` words.
pub(crate) fn skip_words(text: &[u8], skipped: usize) -> &[u8]
    ensures words { words_of result.now ≡ drop skipped (words_of text.now) }
    ensures behind { IsEndOf text.now result.now }
{
    let mut rest = text;
    for _ in 0..skipped {
        let Some((_, behind)) = next_word(rest) else {
            return rest;
        };
        rest = behind;
    }
    rest
}

/// Returns the first word of a text and the rest, or a fault if the text has no word.
pub(crate) fn word_of(wanted: Wanted, text: &[u8]) -> Result<(&[u8], &[u8]), Fault<'_>>
    ensures reading { option_map (λ found. (found.0.now, words_of found.1.now)) (result_ok result) ≡ word_at (words_of text.now) }
    ensures fault { IfErr result (λ fault. LacksWord wanted (words_of text.now) fault.cause (words_of fault.at.now)) }
{
    match next_word(text) {
        Some(found) => Ok(found),
        None => Err(Fault {
            at: text,
            cause: Malformation::Lacks(wanted),
        }),
    }
}

/// Returns a fault if a word is left.
pub(crate) fn end_of(text: &[u8]) -> Result<(), Fault<'_>>
    ensures reading { result_ok result ≡ end_at (words_of text.now) }
    ensures fault { IfErr result (λ fault. IsFirstMisfit [] (words_of text.now) fault.cause (words_of fault.at.now)) }
{
    match next_word(text) {
        None => Ok(()),
        Some(_) => Err(Fault {
            at: text,
            cause: Malformation::TooManyWords,
        }),
    }
}
