//! The object of a handle.

ghost use Rattle.std.specs.Prelude.{◌≡◌, take};
ghost use Rattle.drm_trails.specs.Objects.{AreObjects};
ghost use Rattle.drm_trails.specs.Objects as specs;
ghost use Rattle.drm_trails.specs.Searches.{AreNoted, AreTouched};
ghost use Rattle.drm_trails.specs.Steps.{history_of, source_of};

use crate::searches::{Publication, Touch, last_giving, publication_before};
use crate::steps::{Source, Step};

/// Returns the object of a client's handle after the first `count` steps, by the number of the step that created it. It
/// returns `None` if the client has no such handle.
pub(crate) fn object_held(
    steps: &[Step],
    touches: &[Touch],
    objects: &[Option<u64>],
    count: usize,
    client: u64,
    handle: u64,
) -> Option<u64>
    requires touched { AreTouched steps.now touches.now }
    requires known { AreObjects steps.now objects.now }
    ensures { result ≡ specs.object_held (history_of (take count steps.now)) client handle }
{
    let giving = last_giving(steps, touches, count, client, handle)?;
    let object = objects.get(giving.past)?;
    *object
}

/// Returns the object of the handle that the step with this number assigned. It returns `None` if the step assigned none.
pub(crate) fn object_assigned_in(objects: &[Option<u64>], step: u64) -> Option<u64>
    ensures { result ≡ specs.object_in objects.now step }
{
    let past = step.checked_sub(1)?;
    let object = objects.get(usize::try_from(past).ok()?)?;
    *object
}

/// Returns the object of the handle that the step after these assigns, by its source.
pub(crate) fn object_given(
    steps: &[Step],
    publications: &[Publication],
    touches: &[Touch],
    objects: &[Option<u64>],
    source: Source,
) -> Option<u64>
    requires noted { AreNoted steps.now publications.now }
    requires touched { AreTouched steps.now touches.now }
    requires known { AreObjects steps.now objects.now }
    ensures { result ≡ specs.object_given (history_of steps.now) (source_of source) }
{
    match source {
        Source::Creation => Some(steps.len() as u64 + 1),
        Source::Transfer(key) => {
            let publishing = publication_before(publications, steps.len(), key)?;
            object_held(
                steps,
                touches,
                objects,
                publishing.past,
                publishing.client,
                publishing.handle,
            )
        }
    }
}
