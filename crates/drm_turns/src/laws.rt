//! The laws of the rule of the turn. Nothing calls these functions: the contract of each is a law.

ghost use Rattle.std.specs.Prelude.{◌≡◌, ◌≢◌, ◌⊎◌, ℕ, true, Some, List, slice_index};
ghost use mathlib.Core.Option.{some};
ghost use lib.ListN.{get_elem?};
ghost use Rattle.drm_model.specs.Run.{DeviceValue};
ghost use Rattle.drm_turns.specs.declared.history.Entry.{Entry};
ghost use Rattle.drm_turns.specs.declared.history.View.{View};
ghost use Rattle.drm_turns.specs.declared.history.Stage.TheVariants.{Serving, Spent};
ghost use Rattle.drm_turns.specs.History.{IsLegal, device_at};
ghost use Rattle.drm_turns.specs.Rule.{Table, Orderly, has_ticket, serving_word, ticket_word, total};

/// No two participants have one ticket.
pub fn tickets_differ()
    ensures { (s : Table) (i j : ℕ) (v w : View) → Orderly s
        → get_elem? s.views i ≡ some v → get_elem? s.views j ≡ some w
        → has_ticket v.stage ≡ true → has_ticket w.stage ≡ true → v.ticket ≡ w.ticket → i ≡ j }
{}

/// No two participants have one number. A participant has number 0 until it is known, and one that was taken in has none.
pub fn numbers_differ()
    ensures { (s : Table) (i j : ℕ) (v w : View) → Orderly s
        → get_elem? s.views i ≡ some v → get_elem? s.views j ≡ some w
        → v.stage ≢ Spent → w.stage ≢ Spent → v.number ≢ 0 → v.number ≡ w.number → i ≡ j }
{}

/// The device is at home, as one legal history leaves it, or it is with a participant whose ticket is served.
pub fn device_is_placed()
    ensures { (s : Table) → Orderly s
        → ((origin : DeviceValue) × (log : List Entry) × (get_elem? s.homes 0 ≡ some (some (Some (device_at origin log)))) × IsLegal origin log)
        ⊎ ((id : ℕ) × (v : View) × (get_elem? s.views id ≡ some v) × (v.stage ≡ Serving) × (v.ticket ≡ slice_index s.words serving_word)) }
{}

/// The word of the next ticket is how many tickets all participants drew.
pub fn tickets_are_counted()
    ensures { (s : Table) → Orderly s → slice_index s.words ticket_word ≡ total (λ v. v.drawn) s.views }
{}
