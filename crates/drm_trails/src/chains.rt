//! How a client obtained the handle of an object.

ghost use Rattle.std.specs.Prelude.{◌≡◌, ℕ, [], true, is_none, take, IfOk, IfSome, IfNone};
ghost use Rattle.drm_trails.specs.Steps.{history_of};
ghost use Rattle.drm_trails.specs.Chains.{EndsChain, Explains, HasNone, IsOfDevice};
ghost use Rattle.drm_trails.specs.Searches.{AreNoted, AreTouched};

use crate::searches::{Publication, Touch, last_giving, publication_before};
use crate::steps::{Key, Source, Step};
use std::alloc::{AllocError, Global};

/// The source of a link's object (own).
#[derive(Clone, Copy, PartialEq, Debug)]
pub enum Origin {
    /// The link's step created the object.
    Made,
    /// Step `step` published the object under `key`. The client and the handle of the next link published it.
    Published { key: Key, step: u64 },
}

/// A step that assigned a handle to a client (own).
#[derive(Clone, Copy, PartialEq, Debug)]
pub struct Link {
    /// The number of the step, from 1.
    pub step: u64,
    /// The client that received the handle.
    pub client: u64,
    /// The handle.
    pub handle: u64,
    /// The source of the handle's object.
    pub origin: Origin,
}

/// A client's handle after the first `count` steps (own).
///
/// # Examples
///
/// ```rust
/// use drm_trails::HandleThen;
///
/// let then = HandleThen { count: 4, client: 1, handle: 1, step: 2 };
/// assert!(rt; then.step == 2);
/// ```
#[derive(Clone, Copy, PartialEq, Debug)]
pub struct HandleThen {
    /// The number of steps.
    pub count: usize,
    /// The client.
    pub client: u64,
    /// The handle.
    pub handle: u64,
    /// The number of the step that assigned the handle.
    pub step: u64,
}

/// The last links of a chain (own).
///
/// # Examples
///
/// ```rust
/// use drm_table::{Answer, Call, Event};
/// use drm_trails::{Marks, Step, Trail};
///
/// let alloc = rt.alloc();
/// let call = Call::BufCreate { size: 4096 };
/// let answer = Answer::Buffer { handle: 1, size: 4096 };
/// let step = Step { event: Event::Ask(1, call), answer };
/// let Ok(trail) = Trail::new(alloc).push(step) else { return };
/// let marks = Marks { steps: &[], kept: 4 };
/// let Ok(found) = trail.chain_end_of(alloc, 1, 1, 1, marks) else { return };
/// let Some(end) = found else { return };
/// assert!(rt; end.left.is_none());
/// ```
#[derive(PartialEq, Debug, Drop)]
pub struct ChainEnd {
    /// The links. The one that leads to the handle is first.
    pub links: Vec<Link>,
    /// The handle that the links before these lead to, or `None` if these links are the whole chain.
    pub left: Option<HandleThen>,
}

/// The links to leave out of a chain: those of marked steps, and all links before them (own).
#[derive(Clone, Copy, Debug)]
pub struct Marks<'a> {
    /// Whether each step is marked, the oldest first. A step past the end is not marked.
    pub steps: &'a [bool],
    /// The number of last links that are never left out.
    pub kept: usize,
}

impl Marks<'_> {
    ghost use Rattle.std.specs.Prelude.{◌≡◌, [], false};

    fn leaves_out(&self, past: usize, found: usize) -> bool
        ensures { self.now.steps.now ≡ [] → result ≡ false }
    {
        match self.steps.get(past) {
            Some(is_marked) => found >= self.kept && *is_marked,
            None => false,
        }
    }
}

/// Returns the steps by which a client obtained a handle, as of the first `count` steps, without the links that the marks
/// leave out. It returns `None` if the client has no such handle.
pub(crate) fn chain_end_in(
    alloc: Global,
    steps: &[Step],
    publications: &[Publication],
    touches: &[Touch],
    count: usize,
    client: u64,
    handle: u64,
    marks: Marks<'_>,
) -> Result<Option<ChainEnd>, AllocError>
    requires noted { AreNoted steps.now publications.now }
    requires touched { AreTouched steps.now touches.now }
    ensures whole { IfOk result (λ found. IfSome found (λ end. IfNone end.left ((o : ℕ) × Explains (history_of (take count steps.now)) client handle o end.links.items))) }
    ensures front { IfOk result (λ found. IfSome found (λ end. IfSome end.left (λ left. EndsChain (history_of (take count steps.now)) (history_of (take left.count steps.now)) client handle left.client left.handle end.links.items))) }
    ensures all { marks.entry.steps.now ≡ [] → IfOk result (λ found. IfSome found (λ end. is_none end.left ≡ true)) }
    ensures none { IfOk result (λ found. IfNone found (IsOfDevice (history_of (take count steps.now)) → HasNone (history_of (take count steps.now)) client handle)) }
{
    let mut links = Vec::new(alloc);
    let mut moment = count;
    let mut holder = client;
    let mut held = handle;
    'links: loop {
        let Some(giving) = last_giving(steps, touches, moment, holder, held) else {
            return Ok(None);
        };
        let step = giving.past as u64 + 1;
        if marks.leaves_out(giving.past, links.len()) {
            let left = HandleThen {
                count: moment,
                client: holder,
                handle: held,
                step,
            };
            return Ok(Some(ChainEnd {
                links,
                left: Some(left),
            }));
        }
        match giving.source {
            Source::Creation => {
                links.push(Link {
                    step,
                    client: holder,
                    handle: held,
                    origin: Origin::Made,
                })?;
                return Ok(Some(ChainEnd { links, left: None }));
            }
            Source::Transfer(key) => {
                let Some(publishing) = publication_before(publications, giving.past, key) else {
                    return Ok(None);
                };
                links.push(Link {
                    step,
                    client: holder,
                    handle: held,
                    origin: Origin::Published {
                        key,
                        step: publishing.past as u64 + 1,
                    },
                })?;
                moment = publishing.past;
                holder = publishing.client;
                held = publishing.handle;
            }
        }
    }
}
