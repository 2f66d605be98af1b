//! The commands of a script's lines.

ghost use Rattle.std.specs.Prelude.{◌≡◌, [], ◌∷◌, IfErr, None, drop};
ghost use Rattle.std.specs.Result.{result_ok};
ghost use Rattle.drm_script.specs.Commands.{open_at, close_at, ask_at};
ghost use Rattle.drm_script.specs.Faults as faults;
ghost use Rattle.drm_script.specs.Faults.{IsFirstMisfit, call_places, opening_places};
ghost use Rattle.drm_script.specs.Reading.{line_word_of};
ghost use Rattle.drm_script.specs.Words.{words_of};

use crate::calls::call_of;
use crate::labels::{Label, label_of_word};
use crate::malformations::{Fault, Wanted};
use crate::openings::opening_of;
use crate::words::{end_of, word_of};
use drm_table::{Call, Opening};

/// A command to the device (own).
///
/// # Examples
///
/// ```rust
/// use drm_script::{Command, Label, Reading, read_line};
/// use drm_table::Call;
///
/// let Ok(Reading::Says(command)) = read_line(b"a get_magic") else { return };
/// let Some(label) = Label::from_letter(b'a') else { return };
/// assert!(rt; command == Command::Ask { label, call: Call::GetMagic });
/// ```
#[derive(PartialEq, Debug, Drop)]
pub enum Command {
    /// Opens a client. If the device accepts it, the label names the client.
    Open { label: Label, opening: Opening },
    /// Closes the label's client.
    Close { label: Label },
    /// The label's client sends a call.
    Ask { label: Label, call: Call },
}

/// `open L OPENING` or `open2 L OPENING`, after its first word: with universal planes on or off.
#[tactic(auto, unfolding(crate::specs::Commands::open_at))]
pub(crate) fn open(universal: bool, text: &[u8]) -> Result<Command, Fault<'_>>
    ensures reading { result_ok result ≡ open_at universal (words_of text.now) }
    ensures fault { IfErr result (λ fault. IsFirstMisfit (faults.Place.label ∷ opening_places (drop 1 (words_of text.now))) (words_of text.now) fault.cause (words_of fault.at.now)) }
{
    let (first, rest) = word_of(Wanted::Label, text)?;
    let Some(label) = label_of_word(first) else {
        return Err(Fault::unfit(text, Wanted::Label));
    };
    let opening = opening_of(universal, rest)?;
    Ok(Command::Open { label, opening })
}

/// `close L`, after its first word.
#[tactic(auto, unfolding(crate::specs::Commands::close_at))]
pub(crate) fn close(text: &[u8]) -> Result<Command, Fault<'_>>
    ensures reading { result_ok result ≡ close_at (words_of text.now) }
    ensures fault { IfErr result (λ fault. IsFirstMisfit (faults.Place.label ∷ []) (words_of text.now) fault.cause (words_of fault.at.now)) }
{
    let (first, rest) = word_of(Wanted::Label, text)?;
    let Some(label) = label_of_word(first) else {
        return Err(Fault::unfit(text, Wanted::Label));
    };
    end_of(rest)?;
    Ok(Command::Close { label })
}

/// `L CALL FIELDS` from its first word on, and the first word and the others separately.
#[tactic(auto, unfolding(crate::specs::Commands::ask_at))]
pub(crate) fn ask<'a>(whole: &'a [u8], first: &[u8], text: &'a [u8]) -> Result<Command, Fault<'a>>
    requires whole { words_of whole.now ≡ first.now ∷ words_of text.now }
    requires other { line_word_of first.now ≡ None }
    ensures reading { result_ok result ≡ ask_at first.now (words_of text.now) }
    ensures fault { IfErr result (λ fault. IsFirstMisfit (faults.Place.first_word ∷ call_places (words_of text.now)) (words_of whole.now) fault.cause (words_of fault.at.now)) }
{
    let Some(label) = label_of_word(first) else {
        return Err(Fault::unfit(whole, Wanted::FirstWord));
    };
    let call = call_of(text)?;
    Ok(Command::Ask { label, call })
}
