//! The rules of a plan, and their texts.

ghost use Rattle.std.specs.Prelude.{◌≡◌, ◌≢◌, ◌≤◌, true, false, IfOk};
ghost use Rattle.drm_traffic.specs.Rules.{IsInRange, calls_of_event, calls_of_word, kind_of, word_of};

use crate::faults::{RuleCause, RuleFault, Wanted};
use drm_script::u32_of;
use drm_table::{CallKind, Event};
use std::fmt;

/// The longest delay of an answer, in milliseconds (own).
pub const MOST_MILLIS: u16 = 60_000;

/// The word for openings.
const OPEN: &[u8] = b"open";

/// What a rule refuses, as its text has it.
const MEMORY: &[u8] = b"memory";

/// The calls that a rule counts (own).
#[derive(Clone, Copy, Debug, PartialEq)]
pub enum Calls {
    /// The openings of clients, in any way.
    Openings,
    /// The requests of this kind.
    OfKind(CallKind),
}

/// What can add a row, and needs memory for it.
pub(crate) const ADDING: [Calls; 11] = [
    Calls::Openings,
    Calls::OfKind(CallKind::SetMaster),
    Calls::OfKind(CallKind::BufCreate),
    Calls::OfKind(CallKind::CreateDumb),
    Calls::OfKind(CallKind::GemFlink),
    Calls::OfKind(CallKind::GemOpen),
    Calls::OfKind(CallKind::PrimeHandleToFd),
    Calls::OfKind(CallKind::PrimeFdToHandle),
    Calls::OfKind(CallKind::AddFb),
    Calls::OfKind(CallKind::GetFb),
    Calls::OfKind(CallKind::CreateLease),
];

impl Calls {
    /// Returns the calls of a word: a call's word in a script, or `open`. Returns `None` for another word.
    /// Does not allocate.
    ///
    /// # Examples
    ///
    /// ```rust
    /// use drm_traffic::Calls;
    ///
    /// assert!(rt; Calls::of_word(b"open") == Some(Calls::Openings));
    /// assert!(rt; Calls::of_word(b"close").is_none());
    /// ```
    pub fn of_word(word: &[u8]) -> Option<Calls>
        ensures { result ≡ calls_of_word word.now }
    {
        if word == OPEN {
            return Some(Calls::Openings);
        }
        match CallKind::of_word(word) {
            Some(kind) => Some(Calls::OfKind(kind)),
            None => None,
        }
    }

    /// Returns the calls to which an event belongs. Returns `None` for a closing, and for a request without a row or
    /// with other fields than its row has. Does not allocate.
    pub fn of_event(event: &Event) -> Option<Calls>
        ensures { result ≡ calls_of_event event.now }
    {
        match event {
            Event::Open(_) => Some(Calls::Openings),
            Event::Ask(_, call) => match call.row() {
                Some((kind, _)) => Some(Calls::OfKind(kind)),
                None => None,
            },
            Event::Close(_) => None,
        }
    }

    /// Returns the word for the calls. Does not allocate.
    pub fn word(self) -> &'static [u8]
        ensures { result.now ≡ word_of self }
    {
        match self {
            Calls::Openings => OPEN,
            Calls::OfKind(kind) => kind.word(),
        }
    }

    /// Returns whether these are the same calls.
    pub(crate) fn are(self, other: Calls) -> bool
        ensures same { result ≡ true → self ≡ other }
        ensures other { result ≡ false → self ≢ other }
    {
        match (self, other) {
            (Calls::Openings, Calls::Openings) => true,
            (Calls::OfKind(kind), Calls::OfKind(other)) => kind == other,
            _ => false,
        }
    }

    /// Returns the place among the calls that can add a row.
    pub(crate) fn place(self) -> Option<usize> {
        ADDING.iter().position(|calls| calls.are(self))
    }
}

impl fmt::Display for Calls {
    fn fmt<W: fmt::Write>(&self, f: &mut fmt::Formatter<W>) -> fmt::Result {
        match str::from_utf8(self.word()) {
            Ok(word) => write!(f, "{word}"),
            Err(_) => Ok(()),
        }
    }
}

/// A rule that refuses memory (own).
///
/// # Examples
///
/// ```rust
/// use drm_traffic::{Calls, Fail};
///
/// let refusal = Fail { calls: Calls::Openings, nth: 2 };
/// assert!(rt; refusal.nth == 2);
/// ```
#[derive(Clone, Copy, Debug, PartialEq)]
pub struct Fail {
    /// Calls that can add a row.
    pub calls: Calls,
    /// The number of calls that would add a row, up to the one that is refused: 1 or more.
    pub nth: u16,
}

/// A rule that delays an answer (own).
#[derive(Clone, Copy, Debug, PartialEq)]
pub struct Stall {
    /// The calls that are counted.
    pub calls: Calls,
    /// The number of calls up to the one whose answer is delayed: 1 or more.
    pub nth: u16,
    /// The delay in milliseconds, from 1 to [`MOST_MILLIS`].
    pub millis: u16,
}

/// A rule that closes a connection (own).
#[derive(Clone, Copy, Debug, PartialEq)]
pub struct Break {
    /// The number of the client, from 1.
    pub client: u32,
    /// The number of its requests up to the one that is not answered: 1 or more.
    pub nth: u16,
}

/// A rule of a plan (own). Its text is the control line that makes it.
///
/// # Examples
///
/// ```rust
/// use drm_traffic::{Break, Rule};
///
/// let rule = Rule::Break(Break { client: 3, nth: 9 });
/// let Ok(text) = format!(in rt.alloc(); "{rule}") else { return };
/// assert!(rt; text.as_str() == "break 3:9");
/// ```
#[derive(Clone, Copy, Debug, PartialEq)]
pub enum Rule {
    /// Refuses memory to a call.
    Fail(Fail),
    /// Delays the answer to a call.
    Stall(Stall),
    /// Closes a client's connection.
    Break(Break),
}

impl fmt::Display for Rule {
    fn fmt<W: fmt::Write>(&self, f: &mut fmt::Formatter<W>) -> fmt::Result {
        match self {
            Rule::Fail(fail) => write!(f, "fail {}:{}=memory", fail.calls, fail.nth),
            Rule::Stall(stall) => write!(f, "stall {}:{}={}", stall.calls, stall.nth, stall.millis),
            Rule::Break(end) => write!(f, "break {}:{}", end.client, end.nth),
        }
    }
}

/// The kind of a rule (own).
#[derive(Clone, Copy, Debug, PartialEq)]
pub enum RuleKind {
    /// Of `fail`.
    Fail,
    /// Of `stall`.
    Stall,
    /// Of `break`.
    Break,
}

/// Returns the text before the first of these bytes, and the text after it, if there is one.
fn parted(text: &[u8], byte: u8) -> (&[u8], Option<&[u8]>) {
    let Some(place) = text.iter().position(|found| *found == byte) else {
        return (text, None);
    };
    match text.get(..place) {
        Some(front) => (front, text.get(place.saturating_add(1)..)),
        None => (text, None),
    }
}

/// Returns the number from 1 to the greatest that a word spells in decimal digits.
fn number_of(word: &[u8], greatest: u32) -> Result<u32, RuleFault>
    ensures { IfOk result (λ number. (1 ≤ number) × (number ≤ greatest)) }
{
    if word.is_empty() {
        return Err(RuleFault::lacks(Wanted::Number));
    }
    let has_digits_only = word.iter().all(|byte| byte.is_ascii_digit());
    if !has_digits_only {
        return Err(RuleFault::of_word(word, RuleCause::NoNumber));
    }
    match u32_of(word) {
        Some(number) if number >= 1 && number <= greatest => Ok(number),
        _ => Err(RuleFault::of_word(word, RuleCause::OutOfRange { least: 1, greatest })),
    }
}

/// Returns the number of 16 bits from 1 to the greatest that a word spells.
fn short_of(word: &[u8], greatest: u16) -> Result<u16, RuleFault>
    ensures { IfOk result (λ number. (1 ≤ number) × (number ≤ greatest)) }
{
    let number = number_of(word, u32::from(greatest))?;
    match u16::try_from(number) {
        Ok(short) => Ok(short),
        Err(_) => Err(RuleFault::of_word(word, RuleCause::NoNumber)),
    }
}

/// Returns the count of a rule: 1 where it is left out.
fn nth_of(word: Option<&[u8]>) -> Result<u16, RuleFault>
    ensures { IfOk result (λ count. 1 ≤ count) }
{
    match word {
        Some(word) => short_of(word, u16::MAX),
        None => Ok(1),
    }
}

/// Returns the calls of a word.
fn calls_of(word: &[u8]) -> Result<Calls, RuleFault> {
    if word.is_empty() {
        return Err(RuleFault::lacks(Wanted::Call));
    }
    match Calls::of_word(word) {
        Some(calls) => Ok(calls),
        None => Err(RuleFault::of_word(word, RuleCause::NoCall)),
    }
}

/// Returns the rule of `fail`.
fn read_fail(text: &[u8]) -> Result<Fail, RuleFault>
    ensures { IfOk result (λ fail. 1 ≤ fail.nth) }
{
    let (front, what) = parted(text, b'=');
    let (word, count) = parted(front, b':');
    let calls = calls_of(word)?;
    if calls.place().is_none() {
        return Err(RuleFault::of_word(word, RuleCause::AddsNoRow));
    }
    let nth = nth_of(count)?;
    match what {
        Some(what) if what == MEMORY => Ok(Fail { calls, nth }),
        Some(what) if !what.is_empty() => Err(RuleFault::of_word(what, RuleCause::NotMemory)),
        _ => Err(RuleFault::lacks(Wanted::Memory)),
    }
}

/// Returns the rule of `stall`.
fn read_stall(text: &[u8]) -> Result<Stall, RuleFault>
    ensures { IfOk result (λ stall. (1 ≤ stall.nth) × (1 ≤ stall.millis) × (stall.millis ≤ 60000)) }
{
    let (front, what) = parted(text, b'=');
    let (word, count) = parted(front, b':');
    let calls = calls_of(word)?;
    let nth = nth_of(count)?;
    let Some(what) = what else {
        return Err(RuleFault::lacks(Wanted::Millis));
    };
    if what.is_empty() {
        return Err(RuleFault::lacks(Wanted::Millis));
    }
    let millis = short_of(what, MOST_MILLIS)?;
    Ok(Stall { calls, nth, millis })
}

/// Returns the rule of `break`.
fn read_break(text: &[u8]) -> Result<Break, RuleFault>
    ensures { IfOk result (λ end. (1 ≤ end.client) × (1 ≤ end.nth)) }
{
    let (word, count) = parted(text, b':');
    if word.is_empty() {
        return Err(RuleFault::lacks(Wanted::Client));
    }
    let client = number_of(word, u32::MAX)?;
    let nth = nth_of(count)?;
    Ok(Break { client, nth })
}

/// Returns the rule of this kind that a text spells: `CALL[:N]=memory`, `CALL[:N]=MS` or `CLIENT[:N]`. Where N is left
/// out, it is 1. N is from 1 to 65,535, MS from 1 to [`MOST_MILLIS`], and CLIENT from 1. Does not allocate.
///
/// # Errors
///
/// A `RuleFault` with the word at fault.
///
/// # Examples
///
/// ```rust
/// use drm_traffic::{Calls, Rule, RuleKind, Stall, read_rule};
/// use drm_table::CallKind;
///
/// let Ok(slow) = read_rule(RuleKind::Stall, b"setcrtc:2=500") else { return };
/// let calls = Calls::OfKind(CallKind::SetCrtc);
/// assert!(rt; slow == Rule::Stall(Stall { calls, nth: 2, millis: 500 }));
/// ```
pub fn read_rule(kind: RuleKind, text: &[u8]) -> Result<Rule, RuleFault>
    ensures kind { IfOk result (λ rule. kind_of rule ≡ kind) }
    ensures in_range { IfOk result (λ rule. IsInRange rule) }
{
    match kind {
        RuleKind::Fail => Ok(Rule::Fail(read_fail(text)?)),
        RuleKind::Stall => Ok(Rule::Stall(read_stall(text)?)),
        RuleKind::Break => Ok(Rule::Break(read_break(text)?)),
    }
}
