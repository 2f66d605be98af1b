//! The mode objects of a lease.

ghost use Rattle.std.specs.Prelude.{◌≡◌, ◌++◌};
ghost use Rattle.drm_index_array.specs.Numbers.{is_among};
ghost use Rattle.drm_leases.specs.Calls as calls;
ghost use Rattle.drm_leases.specs.Masks.{objects_in};

use crate::lists::passing;
use crate::masks::mask_of;
use drm_modes::Modes;
use drm_table::ShownList;

/// Returns the fixed mode objects that are listed or added, as a mask.
pub fn listed_mask(modes: &Modes, ids: &[u32], along: &[u32]) -> u64
    ensures { objects_in result ≡ calls.listed_objects modes.now.topology (ids.now ++ along.now) }
{
    let _few = modes.object_count();
    let objects = listed_objects(modes, ids, along);
    mask_of(objects.ids())
}

/// Returns the fixed mode objects that are listed or added, in rising order.
fn listed_objects(modes: &Modes, ids: &[u32], along: &[u32]) -> ShownList
    ensures { result ≡ calls.listed_objects modes.now.topology (ids.now ++ along.now) }
{
    passing(modes.object_count(), |id| is_listed(ids, along, id))
}

fn is_listed(ids: &[u32], along: &[u32], id: u32) -> bool
    ensures { result ≡ is_among (ids.now ++ along.now) id }
{
    ids.contains(&id) || along.contains(&id)
}
