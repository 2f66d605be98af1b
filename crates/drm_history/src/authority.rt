//! Laws of histories, each on a function that does nothing.

ghost use Rattle.std.specs.Prelude.{◌≡◌, ◌∷◌, [], List, Result, ℕ};
ghost use Rattle.drm_table.specs.declared.answers.Answer.{Answer};
ghost use Rattle.drm_table.specs.declared.apart.Apart.{Apart};
ghost use Rattle.drm_table.specs.declared.events.Event.{Event};
ghost use Rattle.drm_table.specs.declared.limits.Limits.{Limits};
ghost use Rattle.drm_modes.specs.Topology.{Topology};
ghost use Rattle.drm_model.specs.Rows.{Rows, empty_rows};
ghost use Rattle.drm_model.specs.Run.{Answers, DeviceValue, rows_of};
ghost use Rattle.drm_history.specs.History.{AnsweredEvent, history_of, with_journaled};
ghost use Rattle.drm_history.specs.Effects.{effect};
ghost use Rattle.drm_history.specs.MasterState.{owner_in};
ghost use Rattle.drm_history.specs.Mastership.{owner_after};
ghost use Rattle.drm_history.specs.Authority.{AuthenticationFollows, AuthorityFollows, CapabilitiesFollow, ClientsFollow, ClosingsAreForGood, EndedLesseesSeeNothing, GrantsFollow, LeaseTokensFollow, LesseesFollow, LessorsFollow, MagicsFollow, MastersBecome, MastersDiffer, OverlaysAlone, OwnerFollows, OwnersFollow};

/// A closing is for good: after it was carried out no event of its client is.
pub fn closings_are_for_good()
    ensures { (h : DeviceValue) → ClosingsAreForGood (history_of h) }
{}

/// Masters follow from the history. The device's master is the owner that it describes. An open client is a master
/// exactly if it says so, and has the master that it says.
pub fn masters_follow_from_history()
    ensures owner { (h : DeviceValue) → OwnerFollows (rows_of h) (history_of h) }
    ensures clients { (h : DeviceValue) → ClientsFollow (rows_of h) (history_of h) }
{}

/// What the history says of masters, step by step. A client is a master where it redeemed a lease token, was opened on
/// a primary node while the device had no master, or set master. Its master is the lessee of its token or its own from
/// its opening on, else that of its first SET_MASTER, or else the device's at its opening. The device's master is what
/// the last step left.
pub fn masters_become_so_by_their_steps()
    ensures clients { (h : DeviceValue) (c : ℕ) → MastersBecome (history_of h) c }
    ensures owner { (step : AnsweredEvent) (past : List AnsweredEvent) → owner_in (step ∷ past) ≡ owner_after (effect step) step past }
{}

/// Lessees follow from the history. An open lease token, and a lessee's id under its owner, are those of the last
/// MODE_CREATE_LEASE that answered them, however often the number was reused. A lessor is the caller's master at that
/// step, and an owner the top of the lessors.
pub fn lessees_follow_from_history()
    ensures tokens { (h : DeviceValue) → LeaseTokensFollow (rows_of h) (history_of h) }
    ensures lessors { (h : DeviceValue) → LessorsFollow (rows_of h) (history_of h) }
    ensures owners { (h : DeviceValue) → OwnersFollow (rows_of h) (history_of h) }
    ensures ids { (h : DeviceValue) → LesseesFollow (rows_of h) (history_of h) }
{}

/// Grants follow from the history: a lease has a mode object exactly if its MODE_CREATE_LEASE lent it and no step since
/// ended the lease. It lends what it names and, where its client had universal planes off, of each CRTC that it names
/// the primary and the cursor plane that the client's master controlled.
pub fn grants_follow_from_history()
    ensures { (h : DeviceValue) → GrantsFollow h.topology (rows_of h) (history_of h) }
{}

/// A lessee that was ended sees nothing. No later call of a client of it that is carried out names a CRTC, a connector
/// or a plane, its lists have none, and its masks are 0.
pub fn ended_lessees_see_nothing()
    ensures { (h : DeviceValue) → EndedLesseesSeeNothing (history_of h) }
{}

/// Capabilities follow from the history: an open client has each capability on as its last SET_CLIENT_CAP of it that was
/// carried out says, else as its opening does. With universal planes off, no GETPLANE and SETPLANE of it that is carried
/// out names a plane that is not an overlay plane, and its lists of planes have none.
pub fn capabilities_follow_from_history()
    ensures clients { (h : DeviceValue) → CapabilitiesFollow (rows_of h) (history_of h) }
    ensures overlays { (h : DeviceValue) → OverlaysAlone h.topology (history_of h) }
{}

/// Authentication follows from the history. Each magic is that of the last GET_MAGIC that answered its number under its
/// master. An open client is authenticated exactly if it opened as root, is a master, or AUTH_MAGIC named its magic.
pub fn authentication_follows_from_history()
    ensures magics { (h : DeviceValue) → MagicsFollow (rows_of h) (history_of h) }
    ensures clients { (h : DeviceValue) → AuthenticationFollows (rows_of h) (history_of h) }
{}

/// All this follows from whatever a device answered to events, from the first on: from these events and answers alone.
pub fn authority_follows_from_answers()
    ensures { (topology : Topology) (limits : Limits) (events : List Event) (results : List (Result Answer Apart)) (v : Rows)
        → Answers (empty_rows topology limits) events results v → AuthorityFollows topology v (with_journaled [] events results) }
{}

/// Masters differ. After any events no two of them have the same open lease token. No two lessees below one owner have
/// the same id, and no two magics of a master the same number.
pub fn masters_differ()
    ensures { (h : DeviceValue) → MastersDiffer (rows_of h) }
{}
