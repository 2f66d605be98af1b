//! The device of a script, the clients that its labels name, and the use of a line.

use crate::devices::Setup;
use drm_device::{Device, Limits};
use drm_script::{Command, Label, Malformed, Reading, read_line};
use drm_table::{Answer, Apart, Event};
use std::alloc::Global;
use std::marker::Model;

/// The result of a line (own).
#[derive(Clone, Copy, Debug, PartialEq)]
pub enum LineResult {
    /// There is no answer. The line is empty or a comment, or it created the device with its limits.
    Unanswered,
    /// The device answered. The answer is in the place that the caller lent.
    Answered,
    /// The line can't be used here. It is malformed, or it sets limits after the device exists. The state is unchanged.
    Malformed(Malformed),
    /// The line needs a device, and memory for it was refused. No later line creates one.
    NoMemory,
}

/// The device of a script, once it exists, and the clients that the labels name (own).
///
/// # Examples
///
/// ```rust
/// use drm_runs::{Interpreter, LineResult, Setup};
/// use drm_table::Answer;
///
/// let alloc = rt.alloc();
/// let mut interpreter = Interpreter::new(Setup::usual());
/// let mut outcome = Ok(Answer::Done);
/// let result = interpreter.interpret(alloc, b"open a card", &mut outcome);
/// assert!(rt; result == LineResult::Answered && outcome == Ok(Answer::Opened { client: 1 }));
/// ```
pub struct Interpreter {
    device: Option<Device>,
    /// The setup of the device, until it is created or memory for it is refused.
    planned: Option<Setup>,
    /// The limits of the device, or those of its setup.
    limits: Limits,
    labels: [u32; 26],
}

// Not derived, so that it is proved once. A derived one is proved again in each crate that drops such a value.
impl Drop for Interpreter {
    fn drop(self) {
        let Interpreter {
            device,
            planned,
            limits: _,
            labels: _,
        } = self;
        drop(device);
        drop(planned);
    }
}

impl Model for Interpreter {
    ghost use Rattle.std.specs.Prelude.{◌≡◌, true};
    ghost use Rattle.drm_table.specs.Limits.{are_in_range};
    ghost use Rattle.drm_runs.specs.Interpreter.{HasLimits, InterpreterState, place_of};

    ghost Value = { InterpreterState };

    ghost view = { λ s. record { device = place_of s.device s.planned; labels = s.labels } };

    ghost invariant = { λ s. (are_in_range s.limits ≡ true) × HasLimits (place_of s.device s.planned) s.limits };
}

impl Interpreter {
    ghost use Rattle.std.specs.Prelude.{◌≡◌, slice_index, IfSome, IfNone, None, Some, true};
    ghost use Rattle.std.specs.Option.{option_map};
    ghost use Rattle.drm_table.specs.Limits as ranges;
    ghost use Rattle.drm_model.specs.Run.{DeviceValue};
    ghost use Rattle.drm_runs.specs.Script.{IsAt, IsNowhere, StepsOn, bound, event_of, label_bound};
    ghost use Rattle.drm_runs.specs.Script.Place.{Made};
    ghost use Rattle.drm_runs.specs.Interpreter.{Asks, HasLimits, Interprets, SetsLimits, at_start, device_made};

    /// Returns an interpreter without a device, and with no label bound. Does not allocate.
    pub fn new(setup: Setup) -> Interpreter
        ensures { result ≡ at_start setup }
    {
        Interpreter {
            device: None,
            limits: setup.limits(),
            planned: Some(setup),
            labels: [0; 26],
        }
    }

    /// Returns the device, or `None` if no line has created it. Does not allocate.
    pub fn device(&self) -> Option<&Device>
        ensures { option_map (λ device. device.now) result ≡ device_made self.now.device }
    {
        self.device.as_ref()
    }

    /// Returns the limits of the device, or those of its setup if it does not exist yet. Does not allocate.
    pub fn limits(&self) -> Limits
        ensures limits { HasLimits self.now.device result }
        ensures in_range { ranges.are_in_range result ≡ true }
    {
        self.limits
    }

    /// Returns the clients that the labels name, the first for `a`. A label that was never bound names client 0. Does
    /// not allocate.
    pub fn labels(&self) -> &[u32; Label::COUNT]
        ensures { result.now ≡ self.now.labels }
    {
        &self.labels
    }

    /// Returns the client that a label names, or 0 if it was never bound.
    fn client(&self, label: Label) -> u32
        ensures { result ≡ slice_index self.now.labels label }
    {
        self.labels[label.place()]
    }

    /// Binds the label to the client of an accepted opening.
    fn bind(&mut self, label: Option<Label>, outcome: &Result<Answer, Apart>)
        ensures { self.new ≡ record { device = self.old.device; labels = bound self.old.labels label outcome.now } }
    {
        if let Some(label) = label {
            if let Ok(Answer::Opened { client }) = outcome {
                self.labels[label.place()] = *client;
            }
        }
    }

    /// Creates the device and makes its first step. It returns `None` if memory is refused. Since it is an own
    /// function, later steps need not clear its places.
    fn first_step(
        &mut self,
        alloc: Global,
        event: &Event,
        outcome: &mut Result<Answer, Apart>,
    ) -> Option<()>
        requires unmade { device_made self.old.device ≡ None }
        ensures some { IfSome result (λ _. (before : DeviceValue) × (after : DeviceValue) × IsAt self.old.device before × StepsOn before event.now outcome.new after × (self.new.device ≡ Made after)) }
        ensures labels { self.new.labels ≡ self.old.labels }
        ensures none { IfNone result (IsNowhere self.old.device × IsNowhere self.new.device) }
    {
        let setup = self.planned.take()?;
        let mut device = setup.make(alloc)?;
        device.step_at(event, outcome);
        self.device = Some(device);
        Some(())
    }

    /// Makes one step, and creates the device first if there is none. It returns `None` if memory for it is refused.
    fn step(
        &mut self,
        alloc: Global,
        event: &Event,
        outcome: &mut Result<Answer, Apart>,
    ) -> Option<()>
        ensures some { IfSome result (λ _. (before : DeviceValue) × (after : DeviceValue) × IsAt self.old.device before × StepsOn before event.now outcome.new after × (self.new.device ≡ Made after)) }
        ensures labels { self.new.labels ≡ self.old.labels }
        ensures none { IfNone result (IsNowhere self.old.device × IsNowhere self.new.device) }
    {
        match &mut self.device {
            Some(device) => {
                device.step_at(event, outcome);
                Some(())
            }
            None => self.first_step(alloc, event, outcome),
        }
    }

    /// Makes a step, and binds the label of an opening. It returns `None` if memory for the device is refused.
    fn ask(
        &mut self,
        alloc: Global,
        binds: Option<Label>,
        event: &Event,
        outcome: &mut Result<Answer, Apart>,
    ) -> Option<()>
        ensures { Asks self.old self.new binds event.now result outcome.new }
    {
        self.step(alloc, event, outcome)?;
        self.bind(binds, outcome);
        Some(())
    }

    /// Executes a command. It returns `None` if memory for the device is refused.
    fn perform(
        &mut self,
        alloc: Global,
        command: Command,
        outcome: &mut Result<Answer, Apart>,
    ) -> Option<()>
        ensures { Asks self.old self.new (label_bound command) (event_of self.old.labels command) result outcome.new }
    {
        match command {
            Command::Open { label, opening } => {
                self.ask(alloc, Some(label), &Event::Open(opening), outcome)
            }
            Command::Close { label } => {
                let client = self.client(label);
                self.ask(alloc, None, &Event::Close(client), outcome)
            }
            Command::Ask { label, call } => {
                let client = self.client(label);
                self.ask(alloc, None, &Event::Ask(client, call), outcome)
            }
        }
    }

    /// Creates a device with these limits, if there is none. `line` is the line that sets them.
    fn limit(&mut self, alloc: Global, limits: Limits, line: &[u8]) -> LineResult
        requires { ranges.are_in_range limits ≡ true }
        ensures { SetsLimits self.old self.new limits result }
    {
        if self.device.is_some() {
            return LineResult::Malformed(Malformed::late_limits(line));
        }
        let Some(setup) = self.planned.take() else {
            return LineResult::NoMemory;
        };
        let Some(device) = setup.limited_to(limits).make(alloc) else {
            return LineResult::NoMemory;
        };
        self.limits = limits;
        self.device = Some(device);
        LineResult::Unanswered
    }

    /// Uses a line without its end, and writes its answer to `outcome` (own).
    ///
    /// The caller lends the place of the answer, so that it is moved less. Allocates the device, and the rows of a
    /// step.
    pub fn interpret(
        &mut self,
        alloc: Global,
        line: &[u8],
        outcome: &mut Result<Answer, Apart>,
    ) -> LineResult
        ensures { Interprets self.old self.new line.now result outcome.new }
    {
        let reading = match read_line(line) {
            Ok(reading) => reading,
            Err(malformed) => return LineResult::Malformed(malformed),
        };
        match reading {
            Reading::Skipped => LineResult::Unanswered,
            Reading::Limits(limits) => self.limit(alloc, limits, line),
            Reading::Says(command) => match self.perform(alloc, command, outcome) {
                Some(()) => LineResult::Answered,
                None => LineResult::NoMemory,
            },
        }
    }
}
