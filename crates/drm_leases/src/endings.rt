//! The end of leases together with what is above them.

ghost use Rattle.std.specs.Prelude.{◌≡◌, ℕ, true, false, not, filter, IfSome, IfNone};
ghost use Rattle.std.specs.Option.{is_some};
ghost use Rattle.drm_index_array.specs.Chains.{is_under};
ghost use Rattle.drm_masters.specs.Masters as masters_sets;
ghost use Rattle.drm_masters.specs.Calls.{released, with_kept};
ghost use Rattle.drm_leases.specs.Leases as sets;
ghost use Rattle.drm_leases.specs.Agreed.{AreHeld};
ghost use Rattle.drm_leases.specs.Calls.{is_opened_under, is_opened_below};

use crate::granted::Granted;
use crate::tokens::LeaseTokens;
use drm_masters::Masters;

/// Removes the leases of a master and of all below it. Looks at no other.
pub fn end_leases(granted: &mut Granted, masters: &Masters, top: u32)
    ensures { granted.new.rows ≡ filter (λ x. not (is_under (masters_sets.lessor_of masters.now.masters) top x.lessee)) granted.old.rows }
{
    granted.remove(top);
    end_leases_below(granted, masters, top);
}

/// Removes the leases of all below a master: those of each direct lessee with all below it. Looks at no other.
pub fn end_leases_below(granted: &mut Granted, masters: &Masters, top: u32)
    ensures { granted.new.rows ≡ filter (λ x. not (masters_sets.is_below masters.now.masters top x.lessee)) granted.old.rows }
{
    masters.laws();
    let mut position = 0;
    while let Some(lessee) = masters.nth_lessee(top, position) {
        granted.remove(lessee);
        end_leases_below(granted, masters, lessee);
        position += 1;
    }
}

/// Removes the open tokens of a master and of all below it, and releases each lessee that had one. Looks at no other.
pub fn release_open(tokens: &mut LeaseTokens, masters: &mut Masters, top: u32)
    requires held { AreHeld masters.old tokens.old.rows }
    ensures tokens { tokens.new ≡ record tokens.old { rows = filter (λ x. not (is_under (masters_sets.lessor_of masters.old.masters) top x.master)) tokens.old.rows } }
    ensures masters { masters.new ≡ masters_sets.swept (released (is_opened_under tokens.old.rows masters.old.masters top) masters.old) }
{
    masters.laws();
    release_open_below(tokens, masters, top);
    if tokens.is_open(top) {
        release_one(tokens, masters, top);
    }
}

/// Removes the open tokens of all below a master, and releases each lessee that had one. Looks at no other.
pub fn release_open_below(tokens: &mut LeaseTokens, masters: &mut Masters, top: u32)
    requires held { AreHeld masters.old tokens.old.rows }
    ensures tokens { tokens.new ≡ record tokens.old { rows = filter (λ x. not (masters_sets.is_below masters.old.masters top x.master)) tokens.old.rows } }
    ensures masters { masters.new ≡ masters_sets.swept (released (is_opened_below tokens.old.rows masters.old.masters top) masters.old) }
{
    masters.laws();
    while let Some(lessee) = open_below(tokens, masters, top) {
        release_one(tokens, masters, lessee);
    }
}

/// Removes the open token of a lessee, and releases the lessee.
fn release_one(tokens: &mut LeaseTokens, masters: &mut Masters, lessee: u32)
    requires there { is_some (masters_sets.master_at masters.old.masters lessee) ≡ true }
    ensures tokens { tokens.new ≡ record tokens.old { rows = filter (λ row. not (sets.is_token_of lessee row)) tokens.old.rows } }
    ensures masters { masters.new ≡ masters_sets.swept (with_kept lessee false masters.old) }
{
    tokens.forget(lessee);
    let Some(master) = masters.master(lessee) else {
        unreachable!()
    };
    masters.release(master.key);
}

/// Returns a master below this one that has an open token, if there is one. Looks at no other.
fn open_below(tokens: &LeaseTokens, masters: &Masters, top: u32) -> Option<u32>
    ensures some { IfSome result (λ n. is_opened_below tokens.now.rows masters.now.masters top n ≡ true) }
    ensures none { IfNone result ((n : ℕ) → masters_sets.is_below masters.now.masters top n ≡ true → sets.has_token tokens.now.rows n ≡ false) }
{
    masters.laws();
    let mut position = 0;
    while let Some(lessee) = masters.nth_lessee(top, position) {
        if tokens.is_open(lessee) {
            return Some(lessee);
        }
        if let Some(open) = open_below(tokens, masters, lessee) {
            return Some(open);
        }
        position += 1;
    }
    None
}
