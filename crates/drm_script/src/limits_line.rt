//! The line that sets the limits of the device.

ghost use Rattle.std.specs.Prelude.{◌≡◌, ◌∷◌, true, IfOk, IfErr};
ghost use Rattle.std.specs.Option.{option_map};
ghost use Rattle.std.specs.Result.{result_ok};
ghost use Rattle.drm_table.specs.Limits as ranges;
ghost use Rattle.drm_script.specs.Faults as faults;
ghost use Rattle.drm_script.specs.Faults.{IsFault, IsPassed, limit_places};
ghost use Rattle.drm_script.specs.LimitsLine.{limit_at, limits_at, with_limit};
ghost use Rattle.drm_script.specs.Words.{words_of};

use crate::malformations::{Fault, Malformation};
use crate::numbers::u32_word;
use crate::words::end_of;
use drm_table::{Limits, are_in_range};

/// The other limits while one limit is tried: each is in its range.
const OTHERS: Limits = Limits::PROGRAM;

/// The limits, in the order of a line.
#[derive(Clone, Copy)]
enum Limit {
    Clients,
    Handles,
    Names,
    Tokens,
    Objects,
    Framebuffers,
    Lessees,
    Journal,
}

impl Limit {
    /// Returns the program's limits with a number in place of this one.
    fn with_limit(self, number: u32) -> Limits
        ensures { result ≡ with_limit self number }
    {
        match self {
            Limit::Clients => Limits {
                clients: number,
                ..OTHERS
            },
            Limit::Handles => Limits {
                handles: number,
                ..OTHERS
            },
            Limit::Names => Limits {
                names: number,
                ..OTHERS
            },
            Limit::Tokens => Limits {
                tokens: number,
                ..OTHERS
            },
            Limit::Objects => Limits {
                objects: number,
                ..OTHERS
            },
            Limit::Framebuffers => Limits {
                framebuffers: number,
                ..OTHERS
            },
            Limit::Lessees => Limits {
                lessees: number,
                ..OTHERS
            },
            Limit::Journal => Limits {
                journal: number,
                ..OTHERS
            },
        }
    }
}

/// Returns the number of a limit, in its range, and the rest of the text.
#[tactic(auto, unfolding(crate::specs::LimitsLine::limit_at))]
fn limit_of(limit: Limit, text: &[u8]) -> Result<(u32, &[u8]), Fault<'_>>
    ensures reading { option_map (λ found. (found.0, words_of found.1.now)) (result_ok result) ≡ limit_at limit (words_of text.now) }
    ensures in_range { IfOk result (λ found. ranges.are_in_range (with_limit limit found.0) ≡ true) }
    ensures passed { IfOk result (λ found. IsPassed (faults.Place.limit limit) (words_of text.now) (words_of found.1.now)) }
    ensures fault { IfErr result (λ fault. IsFault (faults.Place.limit limit) (words_of text.now) fault.cause (words_of fault.at.now)) }
{
    let (number, rest) = u32_word(text)?;
    if !are_in_range(limit.with_limit(number)) {
        return Err(Fault {
            at: text,
            cause: Malformation::LimitRange,
        });
    }
    Ok((number, rest))
}

/// Returns the limits that the words of a text spell, each in its range. A number is tried against its range before the
/// next word is read.
#[tactic(auto, unfolding(crate::specs::LimitsLine::limits_at))]
pub(crate) fn limits_of(text: &[u8]) -> Result<Limits, Fault<'_>>
    ensures reading { result_ok result ≡ limits_at (words_of text.now) }
    ensures in_range { IfOk result (λ limits. ranges.are_in_range limits ≡ true) }
    ensures fault { IfErr result (λ fault. faults.IsFirstMisfit limit_places (words_of text.now) fault.cause (words_of fault.at.now)) }
{
    let (clients, rest) = limit_of(Limit::Clients, text)?;
    let (handles, rest) = limit_of(Limit::Handles, rest)?;
    let (names, rest) = limit_of(Limit::Names, rest)?;
    let (tokens, rest) = limit_of(Limit::Tokens, rest)?;
    let (objects, rest) = limit_of(Limit::Objects, rest)?;
    let (framebuffers, rest) = limit_of(Limit::Framebuffers, rest)?;
    let (lessees, rest) = limit_of(Limit::Lessees, rest)?;
    let (journal, rest) = limit_of(Limit::Journal, rest)?;
    end_of(rest)?;
    Ok(Limits {
        clients,
        handles,
        names,
        tokens,
        objects,
        framebuffers,
        lessees,
        journal,
    })
}
