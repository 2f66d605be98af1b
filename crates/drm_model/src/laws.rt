//! Laws of the definitions, each on a function that does nothing.

ghost use Rattle.std.specs.Prelude.{◌≡◌, ◌<◌, ◌≤◌, true, ◌++◌, ◌∷◌, [], List, ℕ, Option, None, Some, Ok, Result};
ghost use Rattle.drm_table.specs.declared.answers.Answer.{Answer};
ghost use Rattle.drm_table.specs.declared.answers.Answer.TheVariants.{Closed};
ghost use Rattle.drm_table.specs.declared.apart.Apart.{Apart};
ghost use Rattle.drm_table.specs.declared.events.Event.{Event};
ghost use Rattle.drm_table.specs.declared.events.Event.TheVariants.{Ask, Close};
ghost use Rattle.drm_table.specs.declared.calls.Call.TheVariants.{RevokeLease};
ghost use Rattle.drm_table.specs.declared.rules.Rule.{Rule};
ghost use Rattle.drm_model.specs.Rows.{Rows, is_open};
ghost use Rattle.drm_model.specs.Verdict.{verdict};
ghost use Rattle.drm_model.specs.Change.{after, journaled};
ghost use Rattle.drm_model.specs.StepNumbers.{StepNumbersRise, WereMade};
ghost use Rattle.drm_model.specs.Shown.{EachShowsOne};
ghost use Rattle.drm_model.specs.Masters.{lessor_of, master_of, is_under};
ghost use Rattle.drm_model.specs.Magics.{caller_master, is_master};
ghost use Rattle.drm_model.specs.Leases.{lessee_master};
ghost use Rattle.drm_model.specs.Endings.{IsForgotten, HasEnded};
ghost use Rattle.drm_model.specs.Nesting.{LeasesNest};
ghost use Rattle.drm_model.specs.Run.{Step, Answers, DeviceValue, run, journaled_events, journaled_in, rows_of};

/// A denial changes no row: it is recorded, and that is all.
pub fn denials_change_no_row()
    ensures { (w : Rows) (event : Event) (rule : Rule) → verdict w event ≡ Some rule → after w event ≡ journaled w }
{}

/// A step answers one more event of a list, so that steps one after another answer any list of events.
pub fn answers_go_on()
    ensures none { (w : Rows) → Answers w [] [] w }
    ensures one_more { (w : Rows) (events : List Event) (results : List (Result Answer Apart)) (v : Rows) (event : Event) (result : Result Answer Apart) (u : Rows)
        → Answers w events results v → Step v event result u → Answers w (events ++ event ∷ []) (results ++ result ∷ []) u }
{}

/// A fault leaves no trace: the rows are those of the recorded events alone.
pub fn rows_are_those_of_journaled_events()
    ensures { (w : Rows) (events : List Event) (results : List (Result Answer Apart)) (v : Rows)
        → Answers w events results v → v ≡ run w (journaled_events events results) }
{}

/// The closing of an open client is always carried out: the journal has its place, and it takes no memory.
pub fn closings_are_carried_out()
    ensures { (w : Rows) (c : ℕ) (result : Result Answer Apart) (v : Rows) → is_open w c ≡ true → Step w (Close c) result v → result ≡ Ok Closed }
{}

/// Step numbers rise: after any events clients, masters and objects are in the order of the steps that made them, and
/// no two of a kind have the same number.
pub fn step_numbers_rise()
    ensures { (h : DeviceValue) → StepNumbersRise (rows_of h).steps (rows_of h) }
{}

/// The rows of a longer journal are those after one more step.
pub fn rows_follow_the_journal()
    ensures { (h : DeviceValue) (event : Event) → rows_of (journaled_in h event) ≡ after (rows_of h) event }
{}

/// Lessors are older. After any events clients, masters and objects are those of steps that were made. What is above a
/// master was created before it, so its chain of lessors ends.
pub fn lessors_are_older()
    ensures made { (h : DeviceValue) → WereMade (rows_of h).steps (rows_of h) }
    ensures older { (h : DeviceValue) (n m : ℕ) → lessor_of (rows_of h).masters n ≡ Some m → m < n }
{}

/// A closing leaves no right. No row names its client. If the client was a master, neither its own master nor any below
/// has a grant or an open lease token.
pub fn closings_leave_no_right()
    ensures forgotten { (w : Rows) (c : ℕ) → is_open w c ≡ true → IsForgotten (after w (Close c)) c }
    ensures ended { (w : Rows) (c own m : ℕ) → is_open w c ≡ true → is_master w c ≡ true → master_of w c ≡ Some own → is_under w.masters own m ≡ true → HasEnded (after w (Close c)) m }
{}

/// A lease ends for good. After its revocation neither the lessee nor any below has a grant or an open lease token, and
/// none of them gets one by any later event. The same holds for a master whose client's closing ended what it lent.
pub fn leases_end_for_good()
    ensures revoked { (w : Rows) (c lessee m : ℕ) → verdict w (Ask c (RevokeLease lessee)) ≡ None → is_under w.masters (lessee_master w (caller_master w c) lessee) m ≡ true → HasEnded (after w (Ask c (RevokeLease lessee))) m }
    ensures stays { (w : Rows) (events : List Event) (m : ℕ) → m ≤ w.steps → HasEnded w m → HasEnded (run w events) m }
{}

/// Leases nest. After any events no master is deeper than the last depth. What the lease of a lessee has, that of its
/// lessor has too, if that is a lessee.
pub fn leases_nest()
    ensures { (h : DeviceValue) → LeasesNest (rows_of h) }
{}

/// Each shows one framebuffer: after any events no CRTC and no plane has two rows of what it shows, and each row shows
/// a framebuffer that exists.
pub fn each_shows_one_framebuffer()
    ensures { (h : DeviceValue) → EachShowsOne (rows_of h) }
{}
