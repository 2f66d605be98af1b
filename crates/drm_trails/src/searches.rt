//! The last step of a history that assigned a handle, or that published under a key.

ghost use Rattle.std.specs.Prelude.{◌≡◌, ◌<◌, ◌≤◌, length, take, IfSome};
ghost use Rattle.std.specs.List.{AllWithin};
ghost use Rattle.std.specs.Option.{option_map};
ghost use Rattle.drm_history.specs.Steps.{is_key};
ghost use Rattle.drm_trails.specs.Steps.{entry_of, givings_of, history_of, key_of, source_of};
ghost use Rattle.drm_trails.specs.Answers.{closed_by};
ghost use Rattle.drm_trails.specs.Searches as searches;
ghost use Rattle.drm_trails.specs.Searches.{AreTouched, PublicationsRise, TouchesRise, gifts_at, last_gift, last_sharing, publication_in, publications_of, sharings_at, touch_in, touch_in_step, touched_by};

use crate::steps::{self, Giving, Key, Publishing, Source, Step};
use drm_table::{Call, Event};

/// The last step that assigned a handle: the number of steps before it, and the source of the object.
#[derive(Clone, Copy)]
pub(crate) struct LastGiving {
    pub(crate) past: usize,
    pub(crate) source: Source,
}

/// The last step that published under a key (own).
#[derive(Clone, Copy, PartialEq, Debug)]
pub struct LastPublishing {
    /// The number of steps before it.
    pub past: usize,
    /// The client that published.
    pub client: u64,
    /// The client's handle of the object.
    pub handle: u64,
}

/// A step that published: the number of steps before it, the key, the client and its handle.
#[derive(Clone, Copy)]
pub(crate) struct Publication {
    pub(crate) past: usize,
    pub(crate) key: Key,
    pub(crate) client: u64,
    pub(crate) handle: u64,
}

/// Returns the entry of what a step publishes, if it publishes, after `past` steps.
pub(crate) fn publication_of(published: Option<Publishing>, past: usize) -> Option<Publication>
    ensures { result ≡ publications_of published past }
{
    match published {
        Some(publishing) => Some(Publication {
            past,
            key: publishing.key,
            client: publishing.client,
            handle: publishing.handle,
        }),
        None => None,
    }
}

/// Returns the number of these with fewer than `moment` steps before them.
fn older_publications(publications: &[Publication], moment: usize) -> usize
    requires { PublicationsRise publications.now }
    ensures bound { result ≤ length publications.now }
    ensures others { AllWithin (λ publication. moment ≤ publication.past) publications.now result (length publications.now) }
{
    publications.partition_point(|publication| publication.past < moment)
}

/// Returns the last of these that published under the key before a moment.
fn newest_publication(publications: &[Publication], moment: usize, key: Key) -> Option<Publication>
    ensures last { result ≡ publication_in publications.now moment (key_of key) }
    ensures before { IfSome result (λ publication. publication.past < moment) }
{
    publications.iter().rev().copied().find(|publication| publication.past < moment
        && is_key(publication.key, key))
}

/// Returns the last of these that published under the key, with fewer than `moment` steps before it. It does not look
/// at later steps.
pub(crate) fn publication_before(
    publications: &[Publication],
    moment: usize,
    key: Key,
) -> Option<Publication>
    requires { PublicationsRise publications.now }
    ensures last { result ≡ publication_in publications.now moment (key_of key) }
    ensures before { IfSome result (λ publication. publication.past < moment) }
{
    let place = older_publications(publications, moment);
    let (older, _later) = publications.split_at(place);
    newest_publication(older, moment, key)
}

/// A step that assigns or takes handles of a client: the number of steps before it, and the handle, or `None` for all
/// handles.
#[derive(Clone, Copy)]
pub(crate) struct Touch {
    pub(crate) past: usize,
    pub(crate) client: u64,
    pub(crate) handle: Option<u64>,
}

/// Returns the handle that a call assigns or takes.
fn handle_touched(given: Option<Giving>, client: u64, call: &Call, past: usize) -> Option<Touch>
    ensures { result ≡ touched_by past (givings_of given) client (closed_by call.now) }
{
    if let Some(giving) = given {
        return Some(Touch {
            past,
            client: giving.client,
            handle: Some(giving.handle),
        });
    }
    match steps::closed_by(call) {
        Some(handle) => Some(Touch {
            past,
            client,
            handle: Some(handle),
        }),
        None => None,
    }
}

/// Returns the handles that a step assigns or takes, after `past` steps.
pub(crate) fn touch_of(step: &Step, past: usize) -> Option<Touch>
    ensures { result ≡ touch_in_step past (entry_of step.now) }
{
    match &step.event {
        Event::Open(_) => None,
        Event::Ask(client, call) => { handle_touched(step.given(), u64::from(*client), call, past) }
        Event::Close(client) => Some(Touch {
            past,
            client: u64::from(*client),
            handle: None,
        }),
    }
}

/// Returns whether a step touched the client's handle.
fn concerns(touch: Touch, client: u64, handle: u64) -> bool
    ensures { result ≡ searches.concerns client handle touch }
{
    let is_handle = match touch.handle {
        Some(own) => own == handle,
        None => true,
    };
    touch.client == client && is_handle
}

/// Returns the number of these with fewer than `moment` steps before them.
fn older_touches(touches: &[Touch], moment: usize) -> usize
    requires { TouchesRise touches.now }
    ensures bound { result ≤ length touches.now }
    ensures others { AllWithin (λ touch. moment ≤ touch.past) touches.now result (length touches.now) }
{
    touches.partition_point(|touch| touch.past < moment)
}

/// Returns the last of these that touched the client's handle before a moment.
fn newest_touch(touches: &[Touch], moment: usize, client: u64, handle: u64) -> Option<Touch>
    ensures last { result ≡ touch_in touches.now moment client handle }
    ensures before { IfSome result (λ touch. touch.past < moment) }
{
    touches.iter().rev().copied().find(|touch| touch.past < moment
        && concerns(*touch, client, handle))
}

/// Returns the last of these that touched the client's handle, with fewer than `moment` steps before it. It does not
/// look at later steps.
fn touch_before(touches: &[Touch], moment: usize, client: u64, handle: u64) -> Option<Touch>
    requires { TouchesRise touches.now }
    ensures last { result ≡ touch_in touches.now moment client handle }
    ensures before { IfSome result (λ touch. touch.past < moment) }
{
    let place = older_touches(touches, moment);
    let (older, _later) = touches.split_at(place);
    newest_touch(older, moment, client, handle)
}

/// Returns the source of the object if the assigned handle is this one, or `None`.
fn source_for(given: Option<Giving>, client: u64, handle: u64) -> Option<Source>
    ensures { option_map source_of result ≡ searches.source_for client handle (givings_of given) }
{
    let giving = given?;
    if giving.client == client && giving.handle == handle {
        return Some(giving.source);
    }
    None
}

/// Returns whether two keys are the same.
fn is_key(one: Key, other: Key) -> bool
    ensures { result ≡ is_key (key_of one) (key_of other) }
{
    match (one, other) {
        (Key::Name(one), Key::Name(other)) => one == other,
        (Key::Token(one), Key::Token(other)) => one == other,
        (Key::Framebuffer(one), Key::Framebuffer(other)) => one == other,
        _ => false,
    }
}

/// Returns the last of the first `count` steps that assigned the handle to the client, if no later one of them took it.
pub(crate) fn last_giving(
    steps: &[Step],
    touches: &[Touch],
    count: usize,
    client: u64,
    handle: u64,
) -> Option<LastGiving>
    requires noted { AreTouched steps.now touches.now }
    ensures last { gifts_at steps.now result ≡ last_gift (history_of (take count steps.now)) client handle }
    ensures within { IfSome result (λ giving. giving.past < count) }
    ensures among { IfSome result (λ giving. giving.past < length steps.now) }
{
    let mut moment = count;
    'touches: while let Some(touch) = touch_before(touches, moment, client, handle) {
        let past = touch.past;
        let step = &steps[past];
        if let Some(source) = source_for(step.given(), client, handle) {
            return Some(LastGiving { past, source });
        }
        if step.takes(client, handle) {
            return None;
        }
        moment = past;
    }
    None
}

/// Returns the last step that published under the key, or `None`. Does not allocate.
///
/// # Examples
///
/// ```rust
/// use drm_table::{Answer, Call, Event};
/// use drm_trails::{Key, LastPublishing, Step, Trail, last_publishing};
///
/// let alloc = rt.alloc();
/// let call = Call::GemFlink { handle: 1 };
/// let answer = Answer::Number { value: 5 };
/// let step = Step { event: Event::Ask(1, call), answer };
/// let Ok(trail) = Trail::new(alloc).push(step) else { return };
/// let found = last_publishing(trail.steps(), Key::Name(5));
/// assert!(rt; found == Some(LastPublishing { past: 0, client: 1, handle: 1 }));
/// ```
pub fn last_publishing(steps: &[Step], key: Key) -> Option<LastPublishing>
    ensures last { sharings_at steps.now result ≡ last_sharing (history_of steps.now) (key_of key) }
    ensures within { IfSome result (λ publishing. publishing.past < length steps.now) }
{
    let mut past = steps.len();
    'steps: while past > 0 {
        past -= 1;
        if let Some(publishing) = steps[past].published() {
            if is_key(publishing.key, key) {
                return Some(LastPublishing {
                    past,
                    client: publishing.client,
                    handle: publishing.handle,
                });
            }
        }
    }
    None
}
