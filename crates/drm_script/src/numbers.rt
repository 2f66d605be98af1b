//! The numbers of a line, in decimal digits, each within the type of its field.

ghost use Rattle.std.specs.Prelude.{◌≡◌, option_and_then, IfErr, IfOk};
ghost use Rattle.std.specs.Option.{option_map};
ghost use Rattle.std.specs.Result.{result_ok};
ghost use Rattle.drm_script.specs.Faults as faults;
ghost use Rattle.drm_script.specs.Faults.{IsFault, IsPassed};
ghost use Rattle.drm_script.specs.Fields.{number_of, number_at, of_bits};
ghost use Rattle.drm_script.specs.Words.{words_of};

use crate::malformations::{Fault, Wanted};
use crate::words::word_of;

/// The sign that `parse` accepts before a number. A script does not.
const PLUS: u8 = b'+';

/// Returns the number that a word spells, or `None` if it has a sign or another letter, or does not fit.
pub(crate) fn number(word: &[u8]) -> Option<u64>
    ensures { result ≡ number_of word.now }
{
    if word.is_empty() {
        return None;
    }
    if word[0] == PLUS {
        return None;
    }
    let Ok(text) = str::from_utf8(word) else {
        return None;
    };
    text.parse().ok()
}

/// Returns the number of 64 bits that the first word spells, and the rest of the text.
#[tactic(auto, unfolding(crate::specs::Fields::number_at))]
pub(crate) fn u64_word(text: &[u8]) -> Result<(u64, &[u8]), Fault<'_>>
    ensures reading { option_map (λ found. (found.0, words_of found.1.now)) (result_ok result) ≡ number_at 64 (words_of text.now) }
    ensures passed { IfOk result (λ found. IsPassed (faults.Place.number 64) (words_of text.now) (words_of found.1.now)) }
    ensures fault { IfErr result (λ fault. IsFault (faults.Place.number 64) (words_of text.now) fault.cause (words_of fault.at.now)) }
{
    let wanted = Wanted::Number(u64::MAX);
    let (word, rest) = word_of(wanted, text)?;
    let Some(value) = number(word) else {
        return Err(Fault::unfit(text, wanted));
    };
    Ok((value, rest))
}

/// Returns the number that a word spells in decimal digits (own).
///
/// Returns `None` if the word has a sign or another letter, or the number does not fit in 32 bits. Leading zeros are
/// allowed.
///
/// # Examples
///
/// ```rust
/// use drm_script::u32_of;
///
/// assert!(rt; u32_of(b"4294967295") == Some(4_294_967_295));
/// assert!(rt; u32_of(b"+1").is_none() && u32_of(b"4294967296").is_none());
/// ```
pub fn u32_of(word: &[u8]) -> Option<u32>
    ensures { result ≡ option_and_then (of_bits 32) (number_of word.now) }
{
    u32::try_from(number(word)?).ok()
}

/// Returns the number of 32 bits that the first word spells, and the rest of the text.
#[tactic(auto, unfolding(crate::specs::Fields::number_at))]
pub(crate) fn u32_word(text: &[u8]) -> Result<(u32, &[u8]), Fault<'_>>
    ensures reading { option_map (λ found. (found.0, words_of found.1.now)) (result_ok result) ≡ number_at 32 (words_of text.now) }
    ensures passed { IfOk result (λ found. IsPassed (faults.Place.number 32) (words_of text.now) (words_of found.1.now)) }
    ensures fault { IfErr result (λ fault. IsFault (faults.Place.number 32) (words_of text.now) fault.cause (words_of fault.at.now)) }
{
    let wanted = Wanted::Number(u64::from(u32::MAX));
    let (word, rest) = word_of(wanted, text)?;
    let Some(value) = u32_of(word) else {
        return Err(Fault::unfit(text, wanted));
    };
    Ok((value, rest))
}

/// Returns the number that a word spells, or `None` if it does not fit in 16 bits.
fn u16_of(word: &[u8]) -> Option<u16>
    ensures { result ≡ option_and_then (of_bits 16) (number_of word.now) }
{
    u16::try_from(number(word)?).ok()
}

/// Returns the number of 16 bits that the first word spells, and the rest of the text.
#[tactic(auto, unfolding(crate::specs::Fields::number_at))]
pub(crate) fn u16_word(text: &[u8]) -> Result<(u16, &[u8]), Fault<'_>>
    ensures reading { option_map (λ found. (found.0, words_of found.1.now)) (result_ok result) ≡ number_at 16 (words_of text.now) }
    ensures passed { IfOk result (λ found. IsPassed (faults.Place.number 16) (words_of text.now) (words_of found.1.now)) }
    ensures fault { IfErr result (λ fault. IsFault (faults.Place.number 16) (words_of text.now) fault.cause (words_of fault.at.now)) }
{
    let wanted = Wanted::Number(u64::from(u16::MAX));
    let (word, rest) = word_of(wanted, text)?;
    let Some(value) = u16_of(word) else {
        return Err(Fault::unfit(text, wanted));
    };
    Ok((value, rest))
}
