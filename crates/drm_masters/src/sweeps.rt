//! The removal of masters that nothing holds.

ghost use Rattle.std.specs.Prelude.{◌≡◌, ◌<◌, ◌==◌, true, false, filter};
ghost use Rattle.std.specs.List.{AllByRecursion};
ghost use Rattle.drm_index_array.specs.Orders.{InOrder};
ghost use Rattle.drm_masters.specs.Masters as sets;
ghost use Rattle.drm_masters.specs.Tables.{members_in};

use crate::members::Members;
use crate::rows::Master;
use crate::table::MasterTable;

/// Frees a master if neither it nor one below it is held, and then those above it, as far as nothing else holds them.
/// All masters but this one must be used. Looks at no other.
pub fn sweep_up(members: &Members, masters: &mut MasterTable, step_number: u32)
    requires rise { InOrder (λ x y. x.step_number < y.step_number) masters.old.items }
    requires older { AllByRecursion (sets.HasOlderLessor masters.old.items) masters.old.items }
    requires others { AllByRecursion (λ x. (x.step_number == step_number) ≡ false → sets.is_used members.now.items masters.old.items x ≡ true) masters.old.items }
    ensures { masters.new.items ≡ filter (λ x. sets.is_living members.now.items masters.old.items x.step_number) masters.old.items }
{
    let Some(master) = masters.at(step_number) else {
        return;
    };
    let above = master.lessor;
    if is_used(members, masters, master) {
        return;
    }
    masters.remove(step_number);
    if let Some(lessor) = above {
        sweep_up(members, masters, lessor);
    }
}

/// Returns whether the master is held, or is some master's lessor.
fn is_used(members: &Members, masters: &MasterTable, master: Master) -> bool
    ensures { result ≡ sets.is_used members.now.items masters.now.items master }
{
    master.kept || members.is_named(master.step_number) || masters.has_lessee(master.step_number)
}
