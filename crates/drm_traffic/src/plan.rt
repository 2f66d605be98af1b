//! The rules that are in force, and the calls that they count.

use crate::commands::{Control, put_fault, put_rule, read_control};
use crate::counted::Counted;
use crate::faults::{RuleCause, RuleFault};
use crate::rules::{ADDING, Calls, Fail, Rule};
use drm_device::Shortage;
use drm_table::Event;
use std::alloc::{AllocError, Global};
use std::sync::{Mutex, Wait};

/// The most rules of a kind that are in force at once (own).
pub const MOST_RULES: usize = 64;

/// What is done to the answer of a call (own).
#[derive(Clone, Copy, Debug, PartialEq)]
pub struct Due {
    /// The delay in milliseconds, if there is one.
    pub millis: Option<u16>,
    /// Whether the connection is closed without an answer.
    pub breaks: bool,
}

impl Due {
    /// Nothing is done.
    pub const NOTHING: Due = Due {
        millis: None,
        breaks: false,
    };
}

/// The rules that are in force (own). Threads share it: each method locks it for as long as it takes, and never waits
/// for a client.
///
/// # Examples
///
/// ```rust
/// use drm_traffic::{Due, Plan};
/// use drm_table::{Event, Opening};
///
/// let alloc = rt.alloc();
/// let Ok(plan) = Plan::new(alloc) else { return };
/// assert!(rt; plan.due(&rt, &Event::Open(Opening::Render)) == Due::NOTHING);
/// ```
#[derive(Drop)]
pub struct Plan {
    /// The shortages of the calls that can add a row, in the order of `ADDING`.
    shortages: Vec<Shortage>,
    counted: Mutex<Counted>,
}

impl Plan {
    /// Creates a plan without rules. Allocates room for all of them.
    ///
    /// # Errors
    ///
    /// `AllocError` if memory is refused.
    pub fn new(alloc: Global) -> Result<Plan, AllocError> {
        let mut shortages = Vec::with_capacity(alloc, ADDING.len())?;
        for _ in 0..ADDING.len() {
            shortages.push(Shortage::new(0))?;
        }
        let stalls = Vec::with_capacity(alloc, MOST_RULES)?;
        let breaks = Vec::with_capacity(alloc, MOST_RULES)?;
        Ok(Plan {
            shortages,
            counted: Mutex::new(Counted { stalls, breaks }),
        })
    }

    /// Makes a rule, which takes the place of one of the same kind for the same calls or client. Does not allocate.
    ///
    /// # Errors
    ///
    /// A `RuleFault` if there is no room, or for a rule of `fail` whose calls add no row. Nothing changes then.
    pub fn add<R: Wait>(&self, rt: &R, rule: Rule) -> Result<(), RuleFault> {
        let has_room = match rule {
            Rule::Fail(fail) => return self.add_fail(fail),
            Rule::Stall(stall) => self.counted.lock(rt).add_stall(stall),
            Rule::Break(end) => self.counted.lock(rt).add_break(end),
        };
        if has_room {
            Ok(())
        } else {
            Err(RuleFault::plain(RuleCause::Full))
        }
    }

    /// Makes a rule of `fail`.
    fn add_fail(&self, fail: Fail) -> Result<(), RuleFault> {
        match self.shortage_of(fail.calls) {
            Some(shortage) => {
                shortage.set(u64::from(fail.nth));
                Ok(())
            }
            None => Err(RuleFault::of_word(fail.calls.word(), RuleCause::AddsNoRow)),
        }
    }

    /// Returns the shortage of calls that can add a row.
    fn shortage_of(&self, calls: Calls) -> Option<&Shortage> {
        self.shortages.get(calls.place()?)
    }

    /// Forgets all rules. Does not allocate.
    pub fn clear<R: Wait>(&self, rt: &R) {
        let mut counted = self.counted.lock(rt);
        counted.stalls.clear();
        counted.breaks.clear();
        for shortage in self.shortages.iter() {
            shortage.set(0);
        }
    }

    /// Returns the shortage of the calls to which the event belongs. It is over where there is no rule. Returns `None` for
    /// calls that add no row. Does not allocate.
    pub fn shortage(&self, event: &Event) -> Option<&Shortage> {
        self.shortage_of(Calls::of_event(event)?)
    }

    /// Counts a call that is answered, and returns what is done to its answer. Rules of `stall` count openings and
    /// requests, and those of `break` count requests. Does not allocate.
    ///
    /// # Examples
    ///
    /// ```rust
    /// use drm_traffic::{Calls, Plan, Rule, Stall};
    /// use drm_table::{Event, Opening};
    ///
    /// let alloc = rt.alloc();
    /// let Ok(slow) = Plan::new(alloc) else { return };
    /// let stall = Rule::Stall(Stall { calls: Calls::Openings, nth: 1, millis: 20 });
    /// assert!(rt; slow.add(&rt, stall).is_ok());
    /// assert!(rt; slow.due(&rt, &Event::Open(Opening::Render)).millis == Some(20));
    /// ```
    pub fn due<R: Wait>(&self, rt: &R, event: &Event) -> Due {
        self.counted.lock(rt).due(event)
    }

    /// Appends the lines of the rules that refuse memory.
    fn list_fails(&self, text: &mut Vec<u8>) -> Result<(), AllocError> {
        for calls in ADDING {
            let nth = match self.shortage_of(calls) {
                Some(shortage) => shortage.left(),
                None => 0,
            };
            if nth > 0 {
                let nth = u16::try_from(nth).unwrap_or(u16::MAX);
                put_rule(text, &Rule::Fail(Fail { calls, nth }))?;
            }
        }
        Ok(())
    }

    /// Appends a line for each rule, as it could be sent again: those of `fail`, of `stall` and of `break`. Allocates
    /// what it appends.
    ///
    /// # Errors
    ///
    /// `AllocError` if memory is refused. The text may then end with a part of a line.
    pub fn list<R: Wait>(&self, rt: &R, text: &mut Vec<u8>) -> Result<(), AllocError> {
        self.list_fails(text)?;
        let counted = self.counted.lock(rt);
        for stall in counted.stalls.iter() {
            put_rule(text, &Rule::Stall(*stall))?;
        }
        for end in counted.breaks.iter() {
            put_rule(text, &Rule::Break(*end))?;
        }
        Ok(())
    }

    /// Does what a control line asks for, and appends its answer: `ok`, after the rules where these are listed, or
    /// `error: ` and the reason. The line is without its end. Allocates what it appends.
    ///
    /// # Errors
    ///
    /// `AllocError` if memory is refused. The text may then end with a part of the answer.
    ///
    /// # Examples
    ///
    /// ```rust
    /// use drm_traffic::Plan;
    ///
    /// let alloc = rt.alloc();
    /// let Ok(asked) = Plan::new(alloc) else { return };
    /// let mut text = Vec::new(alloc);
    /// let Ok(()) = asked.answer(&rt, b"break 3:2", &mut text) else { return };
    /// let Ok(()) = asked.answer(&rt, b"list", &mut text) else { return };
    /// assert!(rt; text.as_slice() == b"ok\nbreak 3:2\nok\n".as_slice());
    /// ```
    pub fn answer<R: Wait>(
        &self,
        rt: &R,
        line: &[u8],
        text: &mut Vec<u8>,
    ) -> Result<(), AllocError> {
        let done = match read_control(line) {
            Ok(Control::Add(rule)) => self.add(rt, rule),
            Ok(Control::Clear) => {
                self.clear(rt);
                Ok(())
            }
            Ok(Control::List) => {
                self.list(rt, text)?;
                Ok(())
            }
            Err(fault) => Err(fault),
        };
        match done {
            Ok(()) => text.extend_from_slice(b"ok\n"),
            Err(fault) => put_fault(text, &fault),
        }
    }
}
