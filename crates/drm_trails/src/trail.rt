//! The steps of a history, with an index of what they published.

ghost use Rattle.std.specs.Prelude.{◌≡◌, ◌++◌, ◌∷◌, ℕ, [], true, is_none, take, IfOk, IfSome, IfNone};
ghost use Rattle.drm_history.specs.Holds.{Has};
ghost use Rattle.drm_trails.specs.Chains.{EndsChain, Explains, HasNone, IsOfDevice, LeadsTo, links_of};
ghost use Rattle.drm_trails.specs.Handles.{is_given_at};
ghost use Rattle.drm_trails.specs.Objects as objects;
ghost use Rattle.drm_trails.specs.Searches.{last_gift};
ghost use Rattle.drm_trails.specs.Steps.{givings_of, history_of};

use crate::chains::{ChainEnd, Marks, chain_end_in};
use crate::items::with_item;
use crate::objects::{object_assigned_in, object_given, object_held};
use crate::searches::{Publication, Touch, publication_of, touch_of};
use crate::steps::{Giving, Step};
use std::alloc::{AllocError, Global};
use std::marker::Model;

/// The steps of a history, the oldest first, with an index (own).
///
/// The index lists the steps that published, assigned or took a handle, and the object of each assigned handle. A chain
/// is found without a look at the steps between. Contracts see only the steps.
///
/// # Examples
///
/// ```rust
/// use drm_table::{Answer, Call, Event};
/// use drm_trails::{Link, Marks, Origin, Step, Trail};
///
/// let alloc = rt.alloc();
/// let call = Call::BufCreate { size: 4096 };
/// let answer = Answer::Buffer { handle: 1, size: 4096 };
/// let step = Step { event: Event::Ask(1, call), answer };
/// let Ok(trail) = Trail::new(alloc).push(step) else { return };
/// let marks = Marks { steps: &[], kept: 0 };
/// let Ok(found) = trail.chain_end_of(alloc, 1, 1, 1, marks) else { return };
/// let Some(end) = found else { return };
/// let link = Link { step: 1, client: 1, handle: 1, origin: Origin::Made };
/// assert!(rt; end.links.as_slice() == [link].as_slice());
/// ```
#[derive(Drop)]
pub struct Trail {
    steps: Vec<Step>,
    publications: Vec<Publication>,
    touches: Vec<Touch>,
    /// For each step, the object of the handle that it assigned.
    objects: Vec<Option<u64>>,
}

impl Model for Trail {
    ghost use Rattle.std.specs.Prelude.{List};
    ghost use Rattle.drm_trails.specs.declared.steps.Step.{Step};
    ghost use Rattle.drm_trails.specs.Objects.{AreObjects};
    ghost use Rattle.drm_trails.specs.Searches.{AreNoted, AreTouched};

    ghost Value = { List Step };

    ghost view = { λ t. t.steps.items };

    ghost invariant = { λ t. AreNoted t.steps.items t.publications.items × AreTouched t.steps.items t.touches.items × AreObjects t.steps.items t.objects.items };
}

impl Trail {
    /// Returns a trail without steps. Does not allocate.
    pub fn new(alloc: Global) -> Trail
        ensures { result ≡ [] }
    {
        Trail {
            steps: Vec::new(alloc),
            publications: Vec::new(alloc),
            touches: Vec::new(alloc),
            objects: Vec::new(alloc),
        }
    }

    /// Returns the trail with one more step at the end. Allocates entries of the index.
    ///
    /// # Errors
    ///
    /// `AllocError` if memory is refused. The trail is then dropped.
    pub fn push(self, step: Step) -> Result<Trail, AllocError>
        ensures { IfOk result (λ trail. trail ≡ self ++ step ∷ []) }
    {
        let past = self.steps.len();
        let publication = publication_of(step.published(), past);
        let touch = touch_of(&step, past);
        let object = self.object_by(step.given());
        Ok(Trail {
            steps: with_item(self.steps, Some(step))?,
            publications: with_item(self.publications, publication)?,
            touches: with_item(self.touches, touch)?,
            objects: with_item(self.objects, Some(object))?,
        })
    }

    /// Returns the object of the handle that the next step assigns, or `None`.
    fn object_by(&self, given: Option<Giving>) -> Option<u64>
        ensures { result ≡ objects.object_by (history_of self.now) (givings_of given) }
    {
        object_given(
            &self.steps,
            &self.publications,
            &self.touches,
            &self.objects,
            given?.source,
        )
    }

    /// Returns the object of a client's handle after the first `count` steps, or `None` if the client has no such
    /// handle.
    ///
    /// An object is the number of the step that created it. Does not allocate.
    pub fn object_of(&self, count: usize, client: u64, handle: u64) -> Option<u64>
        ensures object { IfSome result (Has (history_of (take count self.now)) client handle) }
        ensures none { IfNone result (IsOfDevice (history_of (take count self.now)) → HasNone (history_of (take count self.now)) client handle) }
    {
        object_held(
            &self.steps,
            &self.touches,
            &self.objects,
            count,
            client,
            handle,
        )
    }

    /// Returns the object of the handle that a step assigned, by the number of the step, from 1. It returns `None` if the
    /// step assigned none, or if there is no such step.
    ///
    /// For a handle of `handles_of`, it is the object of `object_of` after all steps. It takes the same time for each step.
    /// Does not allocate.
    pub fn object_assigned(&self, step: u64) -> Option<u64>
        ensures assigned { result ≡ objects.object_assigned self.now step }
        ensures object { (c h : ℕ) → is_given_at (last_gift (history_of self.now) c h) step ≡ true → IfSome result (Has (history_of self.now) c h) }
        ensures none { (c h : ℕ) → is_given_at (last_gift (history_of self.now) c h) step ≡ true → IfNone result (IsOfDevice (history_of self.now) → HasNone (history_of self.now) c h) }
    {
        object_assigned_in(&self.objects, step)
    }

    /// Returns the steps, the oldest first. Does not allocate.
    pub fn steps(&self) -> &[Step]
        ensures { result.now ≡ self.now }
    {
        &self.steps
    }

    /// Returns the chain of steps by which a client obtained a handle, without the links that the marks leave out, or
    /// `None` if the client has no such handle.
    ///
    /// The chain is as of the first `count` steps, or of all if there are fewer. The first link is the step that
    /// assigned the handle. Each further link is the step that assigned the object's handle to the client that
    /// published it. The last link is the step that created the object.
    ///
    /// The search for a link starts from the link that it leads to, or for the first from `count`. On the way it looks
    /// only at steps that published, or that assigned or took a handle. Allocates the links.
    ///
    /// # Errors
    ///
    /// `AllocError` if memory is refused.
    pub fn chain_end_of(
        &self,
        alloc: Global,
        count: usize,
        client: u64,
        handle: u64,
        marks: Marks<'_>,
    ) -> Result<Option<ChainEnd>, AllocError>
        ensures whole { IfOk result (λ found. IfSome found (λ end. IfNone end.left ((o : ℕ) × Explains (history_of (take count self.now)) client handle o end.links.items))) }
        ensures chain { IfOk result (λ found. IfSome found (λ end. IfNone end.left ((o : ℕ) × LeadsTo (history_of (take count self.now)) client handle o (links_of end.links.items)))) }
        ensures front { IfOk result (λ found. IfSome found (λ end. IfSome end.left (λ left. EndsChain (history_of (take count self.now)) (history_of (take left.count self.now)) client handle left.client left.handle end.links.items))) }
        ensures all { marks.entry.steps.now ≡ [] → IfOk result (λ found. IfSome found (λ end. is_none end.left ≡ true)) }
        ensures none { IfOk result (λ found. IfNone found (IsOfDevice (history_of (take count self.now)) → HasNone (history_of (take count self.now)) client handle)) }
    {
        chain_end_in(
            alloc,
            &self.steps,
            &self.publications,
            &self.touches,
            count,
            client,
            handle,
            marks,
        )
    }
}
