//! Laws of histories, each on a function that does nothing.

ghost use Rattle.std.specs.Prelude.{◌≡◌, ◌∷◌, ◌↔◌, [], List, Result, ℕ};
ghost use Rattle.drm_table.specs.declared.answers.Answer.{Answer};
ghost use Rattle.drm_table.specs.declared.apart.Apart.{Apart};
ghost use Rattle.drm_table.specs.declared.events.Event.{Event};
ghost use Rattle.drm_table.specs.declared.limits.Limits.{Limits};
ghost use Rattle.drm_modes.specs.Topology.{Topology};
ghost use Rattle.drm_model.specs.Rows.{Rows, empty_rows};
ghost use Rattle.drm_model.specs.Reply.{reply};
ghost use Rattle.drm_model.specs.Run.{Answers, DeviceValue, journaled_events, journaled_in, rows_of, start_of};
ghost use Rattle.drm_history.specs.History.{AnsweredEvent, events_in, history_of, with_journaled};
ghost use Rattle.drm_history.specs.Holds.{Has};
ghost use Rattle.drm_history.specs.Chains.{Chain};
ghost use Rattle.drm_history.specs.Laws.{HoldsFollow, HoldsHaveChains, NumbersDiffer, NumbersFollow};

/// The history of a device has the events of its journal, in order, and continues by the reply to each further one.
/// Whatever a list of events was answered, the history of the device whose journal they make has those answers.
pub fn history_is_of_the_journal()
    ensures events { (h : DeviceValue) → events_in (history_of h) ≡ h.journal }
    ensures grows { (h : DeviceValue) (event : Event) → history_of (journaled_in h event) ≡ record { event = event; answer = reply (rows_of h) event } ∷ history_of h }
    ensures answers { (h : DeviceValue) (events : List Event) (results : List (Result Answer Apart)) (v : Rows)
        → Answers (start_of h) events results v → h.journal ≡ journaled_events events results → history_of h ≡ with_journaled [] events results }
{}

/// Numbers differ: after any events no two handles of a client have the same number, nor have two names, two PRIME tokens or two
/// framebuffers.
pub fn numbers_differ()
    ensures { (h : DeviceValue) → NumbersDiffer (rows_of h) }
{}

/// Names, PRIME tokens and framebuffers follow from the history. Each is that of the last GEM_FLINK, export or
/// MODE_ADDFB that answered its number. It is of the object that its caller's handle was of at that step, however often
/// a number was reused.
pub fn numbers_follow_from_history()
    ensures { (h : DeviceValue) → NumbersFollow h }
{}

/// Handles follow from the history: a client has a handle of an object exactly if some step granted it and no later one
/// took it. So they follow from whatever a device answered to events, from the first on.
pub fn holds_follow_from_history()
    ensures rows { (h : DeviceValue) → HoldsFollow (rows_of h) (history_of h) }
    ensures answers { (topology : Topology) (limits : Limits) (events : List Event) (results : List (Result Answer Apart)) (v : Rows)
        → Answers (empty_rows topology limits) events results v → HoldsFollow v (with_journaled [] events results) }
{}

/// Every handle has a chain of accepted transfers, from the step that made its object.
pub fn each_hold_has_a_chain()
    ensures { (h : DeviceValue) → HoldsHaveChains h }
{}

/// A chain leads to the handles that a history grants, and to no other.
pub fn chains_are_holds()
    ensures { (history : List AnsweredEvent) (c handle o : ℕ) → Chain history c handle o ↔ Has history c handle o }
{}
