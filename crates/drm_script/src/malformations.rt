//! The reason a line cannot be used, and its place in the line.

ghost use Rattle.std.specs.Prelude.{◌≡◌, ◌<◌, ◌≤◌, ◌++◌, [], ◌∷◌, length, map};
ghost use Rattle.arrayvec.specs.ArrayString.{array_string_len};
ghost use Rattle.drm_script.specs.Malformations.{first_told, shown, told};
ghost use Rattle.drm_script.specs.Words.{words_of};

use crate::words::{next_word, skip_words, trim_spaces, word_count};
use arrayvec::ArrayString;
use std::error::Error;
use std::fmt;
use thiserror::Error;

/// What would fit in the place of a word (own).
///
/// # Examples
///
/// ```rust
/// use drm_script::{Malformation, Wanted, read_line};
///
/// let Err(malformed) = read_line(b"a") else { return };
/// assert!(rt; malformed.cause == Malformation::Lacks(Wanted::Call));
/// ```
#[derive(Clone, Copy, Debug, PartialEq)]
pub enum Wanted {
    /// A label, or a word that begins a line.
    FirstWord,
    /// A label, after `open`, `open2` or `close`.
    Label,
    /// A way to open a client.
    Opening,
    /// The word of a call, after a label.
    Call,
    /// A number from 0 to this one.
    Number(u64),
    /// The number of a kind of an audit.
    AuditKind,
}

impl fmt::Display for Wanted {
    fn fmt<W: fmt::Write>(&self, f: &mut fmt::Formatter<W>) -> fmt::Result {
        match self {
            Wanted::FirstWord => write!(f, "label from a to z, limits, open, open2 or close"),
            Wanted::Label => write!(f, "label from a to z"),
            Wanted::Opening => write!(f, "kind of opening: card, render, root, lease or rootlease"),
            Wanted::Call => write!(f, "call"),
            Wanted::Number(greatest) => write!(f, "number from 0 to {greatest}"),
            Wanted::AuditKind => write!(f, "kind of an audit, from 1 to 10"),
        }
    }
}

/// The reason a line of a script cannot be used (own).
#[derive(Clone, Copy, Debug, PartialEq, Error)]
pub enum Malformation {
    /// More than 255 bytes, without the line end.
    #[error("the line has more than 255 bytes")]
    TooLong,
    /// A byte above 127, also in a comment.
    #[error("the byte is above 127; a script is ASCII")]
    NotAscii,
    /// A carriage return, as in a file with line ends of two bytes.
    #[error("the byte is a carriage return; a line feed alone ends a line")]
    CarriageReturn,
    /// A tab, which does not separate words.
    #[error("the byte is a tab; only spaces separate words")]
    Tab,
    /// The word does not fit here.
    #[error("is not a {0}")]
    Unfit(Wanted),
    /// The line ends, and this is missing.
    #[error("missing {0}")]
    Lacks(Wanted),
    /// A word after all that the line takes.
    #[error("is an extra word")]
    TooManyWords,
    /// A limit is a number, but not in its range.
    #[error("is out of range: clients 1 to 1024; handles, names, tokens and objects 1 to 65535 each; framebuffers and lessees 1 to 64 each; journal 2 to 100000")]
    LimitRange,
    /// The line is well formed, but sets limits when the device already exists.
    #[error("sets limits after the first line that is neither empty nor a comment")]
    LateLimits,
}

/// The most bytes of a word that are reported (own).
pub const WORD: usize = 32;

/// A line that cannot be used: the place, the word there, and the reason (own).
///
/// # Examples
///
/// ```rust
/// use drm_script::read_line;
///
/// let Err(malformed) = read_line(b"a get_majic") else { return };
/// assert!(rt; malformed.column == 3 && malformed.word.as_str() == "get_majic");
/// ```
#[derive(Clone, Copy, Debug, PartialEq)]
pub struct Malformed {
    /// The column, in bytes from 1, where the word at fault begins or is missing, or the column of the byte at fault.
    pub column: usize,
    /// The word at fault: its first 32 bytes, with `?` for a byte that is not printable. Empty if a word is missing or
    /// a byte is at fault.
    pub word: ArrayString<WORD>,
    /// The reason the line cannot be used.
    pub cause: Malformation,
}

impl fmt::Display for Malformed {
    fn fmt<W: fmt::Write>(&self, f: &mut fmt::Formatter<W>) -> fmt::Result {
        if self.word.is_empty() {
            write!(f, "column {}: {}", self.column, self.cause)
        } else {
            write!(f, "column {}: `{}` {}", self.column, self.word, self.cause)
        }
    }
}

impl Error for Malformed {}

/// The place where a reader stops: the text from the word at fault on, and the reason.
#[derive(Clone, Copy)]
pub(crate) struct Fault<'a> {
    pub(crate) at: &'a [u8],
    pub(crate) cause: Malformation,
}

impl<'a> Fault<'a> {
    ghost use Rattle.std.specs.Prelude.{◌≡◌};
    ghost use Rattle.drm_script.specs.declared.malformations.Malformation.TheVariants as causes;

    /// Returns the fault that the first word of this text does not fit.
    pub(crate) fn unfit(at: &'a [u8], wanted: Wanted) -> Fault<'a>
        ensures cause { result.cause ≡ causes.Unfit wanted }
        ensures at { result.at.now ≡ at.now }
    {
        Fault {
            at,
            cause: Malformation::Unfit(wanted),
        }
    }
}

/// Appends a byte of a word, or `?` if it is not printable.
fn push_shown(text: &mut ArrayString<WORD>, byte: u8)
    requires { array_string_len text.old < WORD }
    ensures { text.new.bytes ≡ text.old.bytes ++ shown byte ∷ [] }
{
    if byte.is_ascii_graphic() {
        text.push(char::from(byte));
    } else {
        text.push('?');
    }
}

/// Returns a word of at most 32 bytes as it is reported.
fn all_shown(word: &[u8]) -> ArrayString<WORD>
    requires { length word.now ≤ WORD }
    ensures { result.bytes ≡ map shown word.now }
{
    let mut text = ArrayString::new();
    for byte in word {
        push_shown(&mut text, *byte);
    }
    text
}

/// Returns a word as it is reported: its first 32 bytes.
fn told(word: &[u8]) -> ArrayString<WORD>
    ensures { result.bytes ≡ told word.now }
{
    if word.len() <= WORD {
        return all_shown(word);
    }
    all_shown(word.split_at(WORD).0)
}

/// Returns the first word of a text as it is reported, or nothing if there is none.
fn first_told(text: &[u8]) -> ArrayString<WORD>
    ensures { result.bytes ≡ first_told (words_of text.now) }
{
    match next_word(text) {
        Some((word, _)) => told(word),
        None => ArrayString::new(),
    }
}

impl Malformed {
    ghost use Rattle.std.specs.Prelude.{◌≡◌, ◌≤◌, ◌<◌, ◌+◌, ◌^◌, [], length};
    ghost use Rattle.std.specs.Prelude.{drop, ◌-◌};
    ghost use Rattle.drm_script.specs.declared.malformations.Malformation.TheVariants as causes;
    ghost use Rattle.drm_script.specs.Malformations.{TellsTheWordThere, first_told};
    ghost use Rattle.drm_script.specs.Words.{words_of};

    /// Returns the report for a line that is too long. Its column is that of the first byte too many.
    ///
    /// # Examples
    ///
    /// ```rust
    /// use drm_script::{Malformation, Malformed};
    ///
    /// let malformed = Malformed::too_long();
    /// assert!(rt; malformed.column == 256 && malformed.cause == Malformation::TooLong);
    /// ```
    pub fn too_long() -> Malformed
        ensures column { result.column ≡ 256 }
        ensures word { result.word.bytes ≡ [] }
        ensures cause { result.cause ≡ causes.TooLong }
    {
        Malformed {
            column: 256,
            word: ArrayString::new(),
            cause: Malformation::TooLong,
        }
    }

    /// Returns the report for a byte with this place in the line, from 0.
    pub(crate) fn at_byte(place: usize, cause: Malformation) -> Malformed
        requires { place + 1 < 2 ^ 64 }
        ensures column { result.column ≡ place + 1 }
        ensures word { result.word.bytes ≡ [] }
        ensures cause { result.cause ≡ cause }
    {
        Malformed {
            column: place + 1,
            word: ArrayString::new(),
            cause,
        }
    }

    /// Returns the report for a fault in a line. As many of its words are before the fault as the fault's text does not
    /// have.
    pub(crate) fn at_fault(line: &[u8], fault: Fault<'_>) -> Malformed
        ensures first { 1 ≤ result.column }
        ensures last { result.column ≤ length line.now + 1 }
        ensures word { TellsTheWordThere line.now result }
        ensures told { result.word.bytes ≡ first_told (words_of (drop (result.column - 1) line.now)) }
        ensures cause { result.cause ≡ fault.entry.cause }
        ensures place { words_of (drop (result.column - 1) line.now)
            ≡ drop (length (words_of line.now) - length (words_of fault.entry.at.now)) (words_of line.now) }
    {
        let fitting = word_count(line).saturating_sub(word_count(fault.at));
        let at = trim_spaces(skip_words(line, fitting));
        let place = line.len() - at.len();
        Malformed {
            column: place + 1,
            word: first_told(at),
            cause: fault.cause,
        }
    }

    /// Returns the report for a line that sets limits when the device already exists. Its column is that of the first
    /// word.
    pub fn late_limits(line: &[u8]) -> Malformed
        ensures first { 1 ≤ result.column }
        ensures last { result.column ≤ length line.now + 1 }
        ensures word { TellsTheWordThere line.now result }
        ensures cause { result.cause ≡ causes.LateLimits }
        ensures place { words_of (drop (result.column - 1) line.now) ≡ words_of line.now }
    {
        let cause = Malformation::LateLimits;
        Malformed::at_fault(line, Fault { at: line, cause })
    }
}
