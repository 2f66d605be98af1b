//! The words of an opening.

ghost use Rattle.std.specs.Prelude.{◌≡◌, [], ◌∷◌, IfErr, Some};
ghost use Rattle.std.specs.Result.{result_ok};
ghost use Rattle.drm_script.specs.Faults as faults;
ghost use Rattle.drm_script.specs.Faults.{IsFirstMisfit, opening_fields, opening_places};
ghost use Rattle.drm_script.specs.Openings.{opening_text, opening_word_of, lease_at, primary_at, render_at, opening_fields_at, opening_at};
ghost use Rattle.drm_script.specs.Words.{words_of};

use crate::malformations::{Fault, Wanted};
use crate::numbers::u32_word;
use crate::words::{end_of, word_of};
use drm_table::Opening;

/// The words that name an opening.
#[derive(Clone, Copy)]
pub(crate) enum OpeningWord {
    Card,
    Root,
    Render,
    Lease,
    RootLease,
}

pub(crate) const OPENING_WORDS: [OpeningWord; 5] = [
    OpeningWord::Card,
    OpeningWord::Root,
    OpeningWord::Render,
    OpeningWord::Lease,
    OpeningWord::RootLease,
];

impl OpeningWord {
    fn text(self) -> &'static [u8]
        ensures { result.now ≡ opening_text self }
    {
        match self {
            OpeningWord::Card => b"card",
            OpeningWord::Root => b"root",
            OpeningWord::Render => b"render",
            OpeningWord::Lease => b"lease",
            OpeningWord::RootLease => b"rootlease",
        }
    }
}

/// Returns the opening that a word names.
#[tactic(auto, unfolding(crate::specs::Openings::opening_word_of))]
pub(crate) fn opening_word(word: &[u8]) -> Option<OpeningWord>
    ensures { result ≡ opening_word_of word.now }
{
    OPENING_WORDS
        .iter()
        .copied()
        .find(|name| name.text() == word)
}

/// Returns a lease, by its token.
#[tactic(auto, unfolding(crate::specs::Openings::lease_at))]
fn lease(universal: bool, root: bool, text: &[u8]) -> Result<Opening, Fault<'_>>
    ensures reading { result_ok result ≡ lease_at universal root (words_of text.now) }
    ensures fault { IfErr result (λ fault. IsFirstMisfit (faults.Place.number 32 ∷ []) (words_of text.now) fault.cause (words_of fault.at.now)) }
{
    let (token, rest) = u32_word(text)?;
    end_of(rest)?;
    Ok(Opening::Lease {
        token,
        root,
        universal,
    })
}

/// Returns a primary node.
#[tactic(auto, unfolding(crate::specs::Openings::primary_at))]
fn primary(universal: bool, root: bool, text: &[u8]) -> Result<Opening, Fault<'_>>
    ensures reading { result_ok result ≡ primary_at universal root (words_of text.now) }
    ensures fault { IfErr result (λ fault. IsFirstMisfit [] (words_of text.now) fault.cause (words_of fault.at.now)) }
{
    end_of(text)?;
    Ok(Opening::Primary { root, universal })
}

/// Returns a render node.
#[tactic(auto, unfolding(crate::specs::Openings::render_at))]
fn render(text: &[u8]) -> Result<Opening, Fault<'_>>
    ensures reading { result_ok result ≡ render_at (words_of text.now) }
    ensures fault { IfErr result (λ fault. IsFirstMisfit [] (words_of text.now) fault.cause (words_of fault.at.now)) }
{
    end_of(text)?;
    Ok(Opening::Render)
}

/// Returns the opening of a word and its fields.
fn opening_fields(universal: bool, word: OpeningWord, text: &[u8]) -> Result<Opening, Fault<'_>>
    ensures reading { result_ok result ≡ opening_fields_at universal word (words_of text.now) }
    ensures fault { IfErr result (λ fault. IsFirstMisfit (opening_fields (Some word)) (words_of text.now) fault.cause (words_of fault.at.now)) }
{
    match word {
        OpeningWord::Card => primary(universal, false, text),
        OpeningWord::Root => primary(universal, true, text),
        OpeningWord::Render => render(text),
        OpeningWord::Lease => lease(universal, false, text),
        OpeningWord::RootLease => lease(universal, true, text),
    }
}

/// Returns the opening that the words of a text spell, with universal planes on or off.
#[tactic(auto, unfolding(crate::specs::Openings::opening_at))]
pub(crate) fn opening_of(universal: bool, text: &[u8]) -> Result<Opening, Fault<'_>>
    ensures reading { result_ok result ≡ opening_at universal (words_of text.now) }
    ensures fault { IfErr result (λ fault. IsFirstMisfit (opening_places (words_of text.now)) (words_of text.now) fault.cause (words_of fault.at.now)) }
{
    let (first, fields) = word_of(Wanted::Opening, text)?;
    let Some(word) = opening_word(first) else {
        return Err(Fault::unfit(text, Wanted::Opening));
    };
    opening_fields(universal, word, fields)
}
