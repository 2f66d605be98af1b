//! The steps of a history, and the effect of one on handles.

ghost use Rattle.std.specs.Prelude.{◌≡◌, ℕ, ◌-◌, ◌&&◌, nat_le, length, slice_get, IfSome, Some};
ghost use Rattle.std.specs.Option.{is_some, option_map};
ghost use Rattle.drm_table.specs.declared.events.Event.TheVariants.{Ask};
ghost use Rattle.drm_history.specs.Steps as told;
ghost use Rattle.drm_model.specs.Rows.{is_option};
ghost use Rattle.drm_trails.specs.Answers as answers;
ghost use Rattle.drm_trails.specs.Handles.{is_taken};
ghost use Rattle.drm_trails.specs.Steps.{givings_of, key_of, publishings_of, source_of};

use drm_table::{Answer, Call, Event};

/// A step: an event and its answer (own).
#[derive(PartialEq, Debug, Drop)]
pub struct Step {
    /// The event.
    pub event: Event,
    /// The answer.
    pub answer: Answer,
}

/// Returns the step with this number, from 1, or `None`. Does not allocate.
///
/// # Examples
///
/// ```rust
/// use drm_table::{Answer, Event};
/// use drm_trails::{Step, Trail, step_at};
///
/// let alloc = rt.alloc();
/// let step = Step { event: Event::Close(1), answer: Answer::Closed };
/// let Ok(trail) = Trail::new(alloc).push(step) else { return };
/// assert!(rt; step_at(trail.steps(), 1).is_some());
/// assert!(rt; step_at(trail.steps(), 2).is_none());
/// ```
pub fn step_at(steps: &[Step], number: u64) -> Option<&Step>
    ensures step { IfSome result (λ step. slice_get steps.now (number - 1) ≡ Some step.now) }
    ensures numbers { is_some result ≡ (nat_le 1 number && nat_le number (length steps.now)) }
{
    let place = usize::try_from(number.checked_sub(1)?).ok()?;
    steps.get(place)
}

/// A key under which an object is published: a global name (drm-gem(7)), a PRIME token (drm-mm; tokens are own), or a
/// framebuffer (drm-uapi).
#[derive(Clone, Copy, PartialEq, Debug)]
pub enum Key {
    Name(u64),
    Token(u64),
    Framebuffer(u64),
}

/// The source of a handle's object: the step creates it, or it was published under a key (own).
#[derive(Clone, Copy, PartialEq, Debug)]
pub enum Source {
    Creation,
    Transfer(Key),
}

/// A handle that a step assigns to a client (own).
#[derive(Clone, Copy, PartialEq, Debug)]
pub struct Giving {
    /// The client.
    pub client: u64,
    /// The handle.
    pub handle: u64,
    /// The source of the handle's object.
    pub source: Source,
}

/// An object that a client publishes by its handle (own).
///
/// # Examples
///
/// ```rust
/// use drm_trails::{Key, Publishing};
///
/// let publishing = Publishing { key: Key::Name(5), client: 1, handle: 1 };
/// assert!(rt; publishing.handle == 1);
/// ```
#[derive(Clone, Copy, PartialEq, Debug)]
pub struct Publishing {
    /// The key under which it is published.
    pub key: Key,
    /// The client.
    pub client: u64,
    /// The client's handle of the object.
    pub handle: u64,
}

/// The handles that a step takes from a client.
#[derive(Clone, Copy)]
pub(crate) enum Taken {
    Nothing,
    One(u64),
    All,
}

/// Returns the handle in the answer for a buffer.
fn buffer_in(answer: &Answer) -> Option<u64>
    ensures { result ≡ answers.buffer_in answer.now }
{
    match answer {
        Answer::Buffer { handle, .. } => Some(u64::from(*handle)),
        _ => None,
    }
}

/// Returns the handle in the answer for a dumb buffer.
fn dumb_in(answer: &Answer) -> Option<u64>
    ensures { result ≡ answers.dumb_in answer.now }
{
    match answer {
        Answer::Dumb { handle, .. } => Some(u64::from(*handle)),
        _ => None,
    }
}

/// Returns the handle in the answer for a framebuffer, or `None` if MODE_GETFB answers 0.
fn framebuffer_in(answer: &Answer) -> Option<u64>
    ensures { result ≡ answers.framebuffer_in answer.now }
{
    match answer {
        Answer::Framebuffer { handle, .. } => {
            if *handle == 0 {
                None
            } else {
                Some(u64::from(*handle))
            }
        }
        _ => None,
    }
}

/// Returns the number in an answer.
fn number_in(answer: &Answer) -> Option<u64>
    ensures { result ≡ answers.number_in answer.now }
{
    match answer {
        Answer::Number { value } => Some(*value),
        _ => None,
    }
}

fn is_done(answer: &Answer) -> bool
    ensures { result ≡ answers.is_done answer.now }
{
    matches!(answer, Answer::Done)
}

pub(crate) fn is_closed(answer: &Answer) -> bool
    ensures { result ≡ answers.is_closed answer.now }
{
    matches!(answer, Answer::Closed)
}

/// Returns the assignment of the handle to a client, if there is a handle.
fn given_from(client: u64, handle: Option<u64>, source: Source) -> Option<Giving>
    ensures { givings_of result ≡ answers.given_from client handle (source_of source) }
{
    match handle {
        Some(handle) => Some(Giving {
            client,
            handle,
            source,
        }),
        None => None,
    }
}

/// Returns the publication of a client's handle under a key, if there is a key.
fn published_under(key: Option<Key>, client: u64, handle: u64) -> Option<Publishing>
    ensures { publishings_of result ≡ answers.published_under (option_map key_of key) client handle }
{
    match key {
        Some(key) => Some(Publishing {
            key,
            client,
            handle,
        }),
        None => None,
    }
}

/// Returns the handle that a call assigns, by its answer.
#[tactic(auto, using(crate::proofs::StepLemmas::buffer_given, crate::proofs::StepLemmas::dumb_given, crate::proofs::StepLemmas::name_given, crate::proofs::StepLemmas::token_given, crate::proofs::StepLemmas::framebuffer_given))]
fn given_by(client: u64, call: &Call, answer: &Answer) -> Option<Giving>
    ensures { givings_of result ≡ told.given_by (Ask client call.now) answer.now }
{
    match call {
        Call::BufCreate { .. } => given_from(client, buffer_in(answer), Source::Creation),
        Call::CreateDumb { .. } => given_from(client, dumb_in(answer), Source::Creation),
        Call::GemOpen { name } => {
            let key = Key::Name(u64::from(*name));
            given_from(client, buffer_in(answer), Source::Transfer(key))
        }
        Call::PrimeFdToHandle { token } => {
            let key = Key::Token(u64::from(*token));
            given_from(client, buffer_in(answer), Source::Transfer(key))
        }
        Call::GetFb { framebuffer } => {
            let key = Key::Framebuffer(u64::from(*framebuffer));
            given_from(client, framebuffer_in(answer), Source::Transfer(key))
        }
        _ => None,
    }
}

/// Returns what a call publishes, by its answer.
fn published_by(client: u64, call: &Call, answer: &Answer) -> Option<Publishing>
    ensures { publishings_of result ≡ told.published_by (Ask client call.now) answer.now }
{
    match call {
        Call::GemFlink { handle } => {
            let key = number_in(answer).map(Key::Name);
            published_under(key, client, u64::from(*handle))
        }
        Call::PrimeHandleToFd { handle } => {
            let key = number_in(answer).map(Key::Token);
            published_under(key, client, u64::from(*handle))
        }
        Call::AddFb { handle, .. } => {
            let key = number_in(answer).map(Key::Framebuffer);
            published_under(key, client, u64::from(*handle))
        }
        _ => None,
    }
}

/// Returns the handle that a call closes if it is done.
pub(crate) fn closed_by(call: &Call) -> Option<u64>
    ensures { result ≡ answers.closed_by call.now }
{
    match call {
        Call::GemClose { handle } => Some(u64::from(*handle)),
        Call::DestroyDumb { handle } => Some(u64::from(*handle)),
        _ => None,
    }
}

/// Returns the handles that a call takes if it is done.
fn taken_by(call: &Call) -> Taken
    ensures { (h : ℕ) → is_taken h result ≡ is_option h (answers.closed_by call.now) }
{
    match closed_by(call) {
        Some(handle) => Taken::One(handle),
        None => Taken::Nothing,
    }
}

impl Step {
    ghost use Rattle.std.specs.Prelude.{◌≡◌, ℕ};
    ghost use Rattle.drm_history.specs.Steps.{given, published, takes};
    ghost use Rattle.drm_trails.specs.Handles.{is_taken};
    ghost use Rattle.drm_trails.specs.Steps.{entry_of, givings_of, publishings_of};

    /// Returns the handle that the step assigns, or `None`. Does not allocate.
    ///
    /// # Examples
    ///
    /// ```rust
    /// use drm_table::{Answer, Call, Event};
    /// use drm_trails::{Giving, Source, Step};
    ///
    /// let call = Call::BufCreate { size: 4096 };
    /// let answer = Answer::Buffer { handle: 1, size: 4096 };
    /// let step = Step { event: Event::Ask(1, call), answer };
    /// assert!(rt; step.given() == Some(Giving { client: 1, handle: 1, source: Source::Creation }));
    /// ```
    #[tactic(auto, unfolding(drm_history::specs::Steps::given))]
    pub fn given(&self) -> Option<Giving>
        ensures { givings_of result ≡ given (entry_of self.now) }
    {
        match &self.event {
            Event::Open(_) => None,
            Event::Ask(client, call) => given_by(u64::from(*client), call, &self.answer),
            Event::Close(_) => None,
        }
    }

    /// Returns what the step publishes, or `None`. Does not allocate.
    #[tactic(auto, unfolding(drm_history::specs::Steps::published))]
    pub fn published(&self) -> Option<Publishing>
        ensures { publishings_of result ≡ published (entry_of self.now) }
    {
        match &self.event {
            Event::Open(_) => None,
            Event::Ask(client, call) => published_by(u64::from(*client), call, &self.answer),
            Event::Close(_) => None,
        }
    }

    /// Returns the handles that the step takes from the client.
    #[tactic(auto, unfolding(drm_history::specs::Steps::takes))]
    pub(crate) fn taken_from(&self, client: u64) -> Taken
        ensures { (h : ℕ) → is_taken h result ≡ takes (entry_of self.now) client h }
    {
        match &self.event {
            Event::Open(_) => Taken::Nothing,
            Event::Ask(caller, call) => {
                if is_done(&self.answer) && u64::from(*caller) == client {
                    taken_by(call)
                } else {
                    Taken::Nothing
                }
            }
            Event::Close(closed) => {
                if is_closed(&self.answer) && u64::from(*closed) == client {
                    Taken::All
                } else {
                    Taken::Nothing
                }
            }
        }
    }

    /// Returns whether the step takes the handle from the client. Does not allocate.
    ///
    /// # Examples
    ///
    /// ```rust
    /// use drm_table::{Answer, Event};
    /// use drm_trails::Step;
    ///
    /// let step = Step { event: Event::Close(1), answer: Answer::Closed };
    /// assert!(rt; step.takes(1, 1) && !step.takes(2, 1));
    /// ```
    pub fn takes(&self, client: u64, handle: u64) -> bool
        ensures { result ≡ takes (entry_of self.now) client handle }
    {
        match self.taken_from(client) {
            Taken::Nothing => false,
            Taken::One(taken) => taken == handle,
            Taken::All => true,
        }
    }
}
