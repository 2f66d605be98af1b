//! The reading of a line.

ghost use Rattle.std.specs.Prelude.{◌≡◌, ◌<◌, ◌≤◌, ◌+◌, ◌==◌, nat_lt, length, position, true, false, None, IfOk, IfErr, IfSome};
ghost use Rattle.std.specs.Result.{result_ok};
ghost use Rattle.drm_table.specs.Limits as ranges;
ghost use Rattle.drm_script.specs.Faults.{IsFaultOf, IsFirstMisfit, line_places};
ghost use Rattle.drm_script.specs.Malformations.{TellsTheWordThere};
ghost use Rattle.drm_script.specs.Reading.{line_text, line_word_of, words_said, is_comment, reading_of, command_label, IfSays, IfLimits};
ghost use Rattle.drm_script.specs.Words.{words_of};

use crate::commands::{Command, ask, close, open};
use crate::labels::Label;
use crate::limits_line::limits_of;
use crate::malformations::{Fault, Malformation, Malformed};
use crate::words::next_word;
use drm_table::Limits;

/// The most bytes of a line, without its end (own).
const LONGEST: usize = 255;

/// The content of a line (own).
#[derive(PartialEq, Debug, Drop)]
pub enum Reading {
    /// Nothing: a comment, or no word.
    Skipped,
    /// The limits of the device, each in its range.
    Limits(Limits),
    /// A command.
    Says(Command),
}

/// The first words of lines that do not begin with a label.
#[derive(Clone, Copy)]
enum LineWord {
    Limits,
    Open,
    Open2,
    Close,
}

const LINE_WORDS: [LineWord; 4] = [
    LineWord::Limits,
    LineWord::Open,
    LineWord::Open2,
    LineWord::Close,
];

impl LineWord {
    fn text(self) -> &'static [u8]
        ensures { result.now ≡ line_text self }
    {
        match self {
            LineWord::Limits => b"limits",
            LineWord::Open => b"open",
            LineWord::Open2 => b"open2",
            LineWord::Close => b"close",
        }
    }
}

/// Returns the kind of line that a first word begins, if it is no label.
#[tactic(auto, unfolding(crate::specs::Reading::line_word_of))]
fn line_word(word: &[u8]) -> Option<LineWord>
    ensures { result ≡ line_word_of word.now }
{
    LINE_WORDS.iter().copied().find(|name| name.text() == word)
}

/// Returns the content of the words of a text.
fn words_reading(text: &[u8]) -> Result<Reading, Fault<'_>>
    ensures reading { result_ok result ≡ words_said (words_of text.now) }
    ensures in_range { IfOk result (λ reading. IfLimits reading (λ limits. ranges.are_in_range limits ≡ true)) }
    ensures fault { IfErr result (λ fault.
        IsFirstMisfit (line_places (words_of text.now)) (words_of text.now) fault.cause (words_of fault.at.now)) }
{
    let Some((first, rest)) = next_word(text) else {
        return Ok(Reading::Skipped);
    };
    match line_word(first) {
        Some(LineWord::Limits) => Ok(Reading::Limits(limits_of(rest)?)),
        Some(LineWord::Open) => Ok(Reading::Says(open(true, rest)?)),
        Some(LineWord::Open2) => Ok(Reading::Says(open(false, rest)?)),
        Some(LineWord::Close) => Ok(Reading::Says(close(rest)?)),
        None => Ok(Reading::Says(ask(text, first, rest)?)),
    }
}

/// Returns the place of the first byte above 127.
fn first_foreign(line: &[u8]) -> Option<usize>
    ensures place { result ≡ position (nat_lt 127) line.now }
    ensures within { IfSome result (λ at. at < length line.now) }
{
    line.iter().position(|byte| *byte > 127)
}

/// Returns the first place of a byte.
fn place_of(line: &[u8], letter: u8) -> Option<usize>
    ensures place { result ≡ position (λ byte. byte == letter) line.now }
    ensures within { IfSome result (λ at. at < length line.now) }
{
    line.iter().position(|byte| *byte == letter)
}

/// Returns whether the first byte is `#`.
fn is_comment(line: &[u8]) -> bool
    ensures { result ≡ is_comment line.now }
{
    match line {
        [first, ..] => *first == b'#',
        [] => false,
    }
}

/// Returns the reason a line with unreadable words is malformed. A carriage return and a tab are letters that no
/// fitting word has. If the line has one, that is reported.
fn malformed(line: &[u8], fault: Fault<'_>) -> Malformed
    requires short { nat_lt 255 (length line.now) ≡ false }
    requires ascii { position (nat_lt 127) line.now ≡ None }
    requires misfit { IsFirstMisfit (line_places (words_of line.now)) (words_of line.now) fault.cause (words_of fault.at.now) }
    ensures first { 1 ≤ result.column }
    ensures last { result.column ≤ length line.now + 1 }
    ensures word { TellsTheWordThere line.now result }
    ensures fault { IsFaultOf line.now result }
{
    if let Some(at) = place_of(line, b'\r') {
        return Malformed::at_byte(at, Malformation::CarriageReturn);
    }
    if let Some(at) = place_of(line, b'\t') {
        return Malformed::at_byte(at, Malformation::Tab);
    }
    Malformed::at_fault(line, fault)
}

/// Returns the content of a line, whose bytes come without the line end (own). Does not allocate.
///
/// # Errors
///
/// A [`Malformed`](crate::Malformed) line with its column and one of these causes:
///
/// - more than 255 bytes, or a byte above 127, also in a comment
/// - a carriage return or a tab
/// - the first word that does not fit, or that is missing
///
/// # Examples
///
/// ```rust
/// use drm_script::{Reading, read_line};
///
/// let Ok(Reading::Limits(limits)) = read_line(b"limits 4 8 8 8 8 4 4 50") else { return };
/// assert!(rt; limits.clients == 4 && limits.journal == 50);
/// assert!(rt; read_line(b"a get_majic").is_err());
/// ```
#[tactic(auto, unfolding(crate::specs::Reading::reading_of), using(crate::proofs::ForeignLemmas::all_ascii))]
pub fn read_line(line: &[u8]) -> Result<Reading, Malformed>
    ensures reading { result_ok result ≡ reading_of line.now }
    ensures label { IfOk result (λ reading. IfSays reading (λ command. command_label command < Label.COUNT)) }
    ensures in_range { IfOk result (λ reading. IfLimits reading (λ limits. ranges.are_in_range limits ≡ true)) }
    ensures first_column { IfErr result (λ malformed. 1 ≤ malformed.column) }
    ensures last_column { IfErr result (λ malformed. malformed.column ≤ length line.now + 1) }
    ensures word { IfErr result (λ malformed. TellsTheWordThere line.now malformed) }
    ensures fault { IfErr result (λ malformed. IsFaultOf line.now malformed) }
{
    if line.len() > LONGEST {
        return Err(Malformed::too_long());
    }
    if let Some(at) = first_foreign(line) {
        return Err(Malformed::at_byte(at, Malformation::NotAscii));
    }
    if is_comment(line) {
        return Ok(Reading::Skipped);
    }
    match words_reading(line) {
        Ok(reading) => Ok(reading),
        Err(fault) => Err(malformed(line, fault)),
    }
}
