//! The words of a line.

ghost use Rattle.std.specs.Prelude.{◌≡◌, ◌≤◌, ◌-◌, ◌^◌, is_some, IfOk, IfSome};
ghost use Rattle.std.specs.List.{list_all};
ghost use Rattle.std.specs.Result.{result_err};
ghost use Rattle.drm_script.specs.Reading.{is_comment};
ghost use Rattle.drm_script.specs.Words.{words_of};
ghost use Rattle.drm_runs.specs.Causes.{unless};
ghost use Rattle.drm_runs.specs.TopologyLines.{line_text, line_word_of, only_number, first_number, crtc_in, mask_of};

use crate::causes::Unfit;
use drm_script::{next_word, u32_of};

/// The first words of lines.
#[derive(Clone, Copy)]
pub(crate) enum LineWord {
    Crtcs,
    Plane,
    Primary,
    Cursor,
    Encoder,
    Connector,
}

const LINE_WORDS: [LineWord; 6] = [
    LineWord::Crtcs,
    LineWord::Plane,
    LineWord::Primary,
    LineWord::Cursor,
    LineWord::Encoder,
    LineWord::Connector,
];

impl LineWord {
    fn text(self) -> &'static [u8]
        ensures { result.now ≡ line_text self }
    {
        match self {
            LineWord::Crtcs => b"crtcs",
            LineWord::Plane => b"plane",
            LineWord::Primary => b"primary",
            LineWord::Cursor => b"cursor",
            LineWord::Encoder => b"encoder",
            LineWord::Connector => b"connector",
        }
    }
}

/// Returns the kind of line that a first word begins.
#[tactic(auto, unfolding(crate::specs::TopologyLines::line_word_of))]
pub(crate) fn line_word(word: &[u8]) -> Option<LineWord>
    ensures { result ≡ line_word_of word.now }
{
    LINE_WORDS.iter().copied().find(|name| name.text() == word)
}

/// Returns whether a first word begins a comment.
pub(crate) fn is_comment(word: &[u8]) -> bool
    ensures { result ≡ is_comment word.now }
{
    match word {
        [first, ..] => *first == b'#',
        [] => false,
    }
}

/// Returns the number in a text of one word.
pub(crate) fn only_number(text: &[u8]) -> Option<u32>
    ensures { result ≡ only_number (words_of text.now) }
{
    let (word, rest) = next_word(text)?;
    match next_word(rest) {
        Some(_) => None,
        None => u32_of(word),
    }
}

/// Returns the number in the first word of a text.
pub(crate) fn first_number(text: &[u8]) -> Option<u32>
    ensures { result ≡ first_number (words_of text.now) }
{
    let (word, _) = next_word(text)?;
    u32_of(word)
}

/// Returns the number of the CRTC that a word names, out of `count`.
fn crtc_of(word: &[u8], count: u32) -> Option<u32>
    ensures crtc { result ≡ crtc_in count word.now }
    ensures within { IfSome result (λ crtc. (1 ≤ crtc) × (crtc ≤ count)) }
{
    let crtc = u32_of(word)?;
    if crtc < 1 || crtc > count {
        return None;
    }
    Some(crtc)
}

/// Returns the bit of a CRTC in a mask.
#[tactic(auto, using(std::proofs::lemmas::Nat::one_shl))]
fn bit_of(crtc: u32) -> u32
    requires low { 1 ≤ crtc }
    requires high { crtc ≤ 8 }
    ensures { result ≡ 2 ^ (crtc - 1) }
{
    1 << (crtc - 1)
}

/// Returns the mask of the CRTCs that a text names, out of `count`.
pub(crate) fn mask_of(text: &[u8], count: u32) -> Result<u32, Unfit>
    requires { count ≤ 8 }
    ensures cause { result_err result ≡ unless (Unfit.Crtc count) (list_all (λ w. is_some (crtc_in count w)) (words_of text.now)) }
    ensures mask { IfOk result (λ mask. mask ≡ mask_of (words_of text.now)) }
{
    let mut mask = 0;
    let mut rest = text;
    'names: while let Some((word, behind)) = next_word(rest) {
        let Some(crtc) = crtc_of(word, count) else {
            return Err(Unfit::Crtc(count));
        };
        mask |= bit_of(crtc);
        rest = behind;
    }
    Ok(mask)
}
