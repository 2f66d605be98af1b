//! What a step means for masters, leases, authentication and capabilities, by its event and its answer alone (drm(7), masters and
//! magics; drm-uapi, leases, render nodes and client capabilities).

ghost use Rattle.std.specs.Prelude.{◌≡◌, ℕ, List};
ghost use Rattle.drm_history.specs.Effects as told;
ghost use Rattle.drm_table.specs.declared.calls.Call.TheVariants.{CreateLease, GetMagic};
ghost use Rattle.drm_table.specs.declared.events.Event.TheVariants.{Ask};
ghost use Rattle.drm_trails.specs.Effects as effects;
ghost use Rattle.drm_trails.specs.Effects.{effect_of, leased_by};

use crate::steps::{Step, is_closed};
use drm_table::{Answer, Call, Event, Opening};

/// The effect of a step on masters, leases, authentication and capabilities (drm(7), masters and magics; drm-uapi,
/// leases). A denied event, and each call without a variant here, has the effect `Nothing`.
///
/// # Examples
///
/// ```rust
/// use drm_trails::Effect;
///
/// let effect = Effect::Closes { client: 1 };
/// assert!(rt; effect != Effect::Nothing);
/// ```
#[derive(Clone, Copy, PartialEq, Debug)]
pub enum Effect {
    Nothing,
    OpensPrimary {
        root: bool,
        universal: bool,
    },
    OpensRender,
    Redeems {
        token: u64,
        root: bool,
        universal: bool,
    },
    Closes {
        client: u64,
    },
    GetsMagic {
        client: u64,
        magic: u64,
    },
    Authenticates {
        client: u64,
        magic: u64,
    },
    SetsMaster {
        client: u64,
    },
    SetsCapability {
        client: u64,
        capability: u64,
        on: bool,
    },
    DropsMaster,
    Leases {
        client: u64,
        lessee: u64,
        token: u64,
    },
    Revokes {
        client: u64,
        lessee: u64,
    },
}

fn opening_effect(opening: Opening) -> Effect
    ensures { (ids : List ℕ) → effect_of ids result ≡ told.opening_effect opening }
{
    match opening {
        Opening::Primary { root, universal } => Effect::OpensPrimary { root, universal },
        Opening::Render => Effect::OpensRender,
        Opening::Lease {
            token,
            root,
            universal,
        } => Effect::Redeems {
            token: u64::from(token),
            root,
            universal,
        },
    }
}

/// Returns the effect of a GET_MAGIC.
fn magic_effect(client: u64, answer: &Answer) -> Effect
    ensures { (ids : List ℕ) → effect_of ids result ≡ told.call_effect client GetMagic answer.now }
{
    match answer {
        Answer::Number { value } => Effect::GetsMagic {
            client,
            magic: *value,
        },
        _ => Effect::Nothing,
    }
}

/// Returns the effect of a CREATE_LEASE.
fn lease_effect(client: u64, answer: &Answer) -> Effect
    ensures { (ids : List ℕ) → effect_of ids result ≡ told.call_effect client (CreateLease ids) answer.now }
{
    match answer {
        Answer::Lease { id, token } => Effect::Leases {
            client,
            lessee: u64::from(*id),
            token: u64::from(*token),
        },
        _ => Effect::Nothing,
    }
}

/// Returns the effect if the call is done, else `Nothing`.
fn if_done(answer: &Answer, effect: Effect) -> Effect
    ensures { (ids : List ℕ) → effect_of ids result ≡ effects.if_done answer.now (effect_of ids effect) }
{
    match answer {
        Answer::Done => effect,
        _ => Effect::Nothing,
    }
}

/// Returns the effect of a call, by its answer.
fn call_effect(client: u64, call: &Call, answer: &Answer) -> Effect
    ensures { effect_of (leased_by (Ask client call.now) answer.now) result ≡ told.call_effect client call.now answer.now }
{
    match call {
        Call::GetMagic => magic_effect(client, answer),
        Call::AuthMagic { magic } => {
            let magic = u64::from(*magic);
            if_done(answer, Effect::Authenticates { client, magic })
        }
        Call::SetMaster => if_done(answer, Effect::SetsMaster { client }),
        Call::SetClientCap { cap, value } => {
            let capability = *cap;
            let on = *value == 1;
            if_done(
                answer,
                Effect::SetsCapability {
                    client,
                    capability,
                    on,
                },
            )
        }
        Call::DropMaster => if_done(answer, Effect::DropsMaster),
        Call::CreateLease { .. } => lease_effect(client, answer),
        Call::RevokeLease { lessee } => {
            let lessee = u64::from(*lessee);
            if_done(answer, Effect::Revokes { client, lessee })
        }
        _ => Effect::Nothing,
    }
}

fn is_opened(answer: &Answer) -> bool
    ensures { result ≡ effects.is_opened answer.now }
{
    matches!(answer, Answer::Opened { .. })
}

impl Step {
    ghost use Rattle.std.specs.Prelude.{◌≡◌};
    ghost use Rattle.drm_history.specs.Effects.{effect};
    ghost use Rattle.drm_trails.specs.Effects.{effect_of, leased_by};
    ghost use Rattle.drm_trails.specs.Steps.{entry_of};

    /// Returns the effect of the step. Does not allocate.
    #[tactic(auto, unfolding(drm_history::specs::Effects::effect))]
    pub fn effect(&self) -> Effect
        ensures { effect_of (leased_by self.now.event self.now.answer) result ≡ effect (entry_of self.now) }
    {
        match &self.event {
            Event::Open(opening) => {
                if !is_opened(&self.answer) {
                    return Effect::Nothing;
                }
                opening_effect(*opening)
            }
            Event::Ask(client, call) => call_effect(u64::from(*client), call, &self.answer),
            Event::Close(client) => {
                if !is_closed(&self.answer) {
                    return Effect::Nothing;
                }
                Effect::Closes {
                    client: u64::from(*client),
                }
            }
        }
    }

    /// Returns the ids of the mode objects that the step leases by name. Empty if it creates no lease. Does not
    /// allocate.
    pub fn listed(&self) -> &[u32]
        ensures { result.now ≡ leased_by self.now.event self.now.answer }
    {
        match &self.event {
            Event::Ask(_, Call::CreateLease { ids }) => match &self.answer {
                Answer::Lease { .. } => ids.ids(),
                _ => &[],
            },
            _ => &[],
        }
    }
}
