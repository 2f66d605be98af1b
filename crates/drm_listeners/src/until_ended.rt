//! Serving any number of connections, until asked to end.

ghost use Rattle.std.specs.Prelude.{◌≡◌, ◌≢◌, [], IfOk, IfErr};
ghost use Rattle.drm_connections.specs.declared.counts.Counts.{Counts};
ghost use Rattle.drm_turns.specs.History.{StartsWith};
ghost use Rattle.drm_turns.specs.Participants.{ParticipantView, Same};
ghost use Rattle.drm_listeners.specs.declared.listener.Until.TheVariants as until_is;
ghost use Rattle.drm_listeners.specs.declared.serve_faults.ServeFault.TheVariants.{NoMemory, TurnOut};
ghost use Rattle.drm_listeners.specs.Accepting.{ClosesAs, IsAccount, IsAsked};
ghost use Rattle.drm_listeners.specs.UntilEnded.{AreAllCounted, HasServedAll, HaveAllSat, counts_of};

use crate::accepting::{Account, Closing};
use crate::class_listeners::Listeners;
use crate::listener::{Until, Visitors};
use crate::listeners::ByClass;
use crate::serve_faults::ServeFault;
use crate::serving::{Unserved, serve_shared};
use drm_connections::OpenConnections;
use drm_device::Device;
use drm_turns::{Seat, SharedDevice};
use log::Log;
use std::alloc::Global;
use std::sync::Wait;
use std::thread::Threads;

// Returns the connections that a listener accepted before it was asked to end.
fn visitors_of(account: Account) -> Visitors
    requires { IsAsked account.closing }
    ensures { (own : ParticipantView) → ClosesAs until_is.Asked 0 own account.closing → IsAccount own result }
{
    match account.closing {
        Closing::Asked(visitors) => visitors,
        Closing::Last => unreachable!(),
    }
}

// Serves the listeners until they are asked to end.
fn serve_asked<R: Wait + Threads + Log + Sync>(
    rt: &R,
    alloc: Global,
    shared: &SharedDevice,
    open: &OpenConnections,
    participant: &mut Seat,
    listeners: Listeners,
) -> Result<ByClass<Visitors>, ServeFault>
    requires own { participant.old.table ≡ shared.now }
    requires merged { participant.old.merged ≡ [] }
    ensures counted { IfOk result AreAllCounted }
    ensures served { IfOk result (λ visitors. HaveAllSat (counts_of visitors) participant.old participant.new) }
    ensures kept { IfErr result (λ fault. (counts : Counts) × HaveAllSat counts participant.old participant.new) }
    ensures same { Same participant.old participant.new × StartsWith participant.new.seen participant.old.seen }
    ensures outstanding { participant.new.outstanding ≡ participant.old.outstanding }
    ensures turn { IfErr result (λ fault. fault ≢ TurnOut) }
    ensures memory { IfErr result (λ fault. fault ≢ NoMemory) }
{
    let untils = ByClass {
        card: Until::Asked,
        render: Until::Asked,
        root: Until::Asked,
    };
    let rooms = ByClass {
        card: Vec::new(alloc),
        render: Vec::new(alloc),
        root: Vec::new(alloc),
    };
    match serve_shared(rt, shared, open, participant, listeners, untils, rooms) {
        Ok(accounts) => Ok(ByClass {
            card: visitors_of(accounts.card),
            render: visitors_of(accounts.render),
            root: visitors_of(accounts.root),
        }),
        Err(fault) => Err(fault),
    }
}

/// A device whose server was asked to end, and the account of each listener (own).
#[derive(Drop)]
pub struct Attended {
    /// The device.
    pub device: Device,
    /// The connections of each listener.
    pub visitors: ByClass<Visitors>,
}

/// Accepts connections on the three listeners and serves each in its own thread, on one device that they share (own).
/// Returns when `open` is asked to end and all sessions have ended, for which it may wait.
///
/// At most 64 connections of each listener are served at once. A connection beyond them is closed, and so is one for
/// which no thread can be started; each is logged once. Each session is one as [`serve_all`](crate::serve_all)
/// describes it, of the class of its listener. The device has the events of one legal history, which begins with what
/// it had recorded before and has the steps of each session.
///
/// The account of a listener has each connection that it accepted: it was served in a thread, was closed because 64 were
/// open, or got no thread. There is a session for each of the first and of the last. A session without a thread has what
/// the client sent before its connection was closed.
///
/// If the system is out of descriptors or memory for a connection, the listener waits. `open` has room for the
/// connections if it was created by [`OpenConnections::until_ended`]. Does not allocate for a connection.
///
/// # Errors
///
/// [`Unserved`] has the fault and the device.
///
/// - `NoMemory`: there was no memory for the shared device. It is unchanged, and no connection was accepted.
/// - `NoThread`: no thread could be started for a listener or for the log. All were asked to end.
/// - `Accept`: a listener failed and was closed. The others were served until they were asked to end.
///
/// With the last two the device has one legal history of all sessions, as without a fault.
pub fn serve_until_ended<R: Wait + Threads + Log + Sync>(
    rt: &R,
    alloc: Global,
    device: Device,
    listeners: Listeners,
    open: &OpenConnections,
) -> Result<Attended, Unserved>
    ensures counted { IfOk result (λ attended. AreAllCounted attended.visitors) }
    ensures served { IfOk result (λ attended. HasServedAll (counts_of attended.visitors) device attended.device) }
    ensures kept { IfErr result (λ unserved. unserved.fault ≢ NoMemory → (counts : Counts) × HasServedAll counts device unserved.device) }
    ensures memory { IfErr result (λ unserved. unserved.fault ≡ NoMemory → unserved.device ≡ device) }
    ensures turn { IfErr result (λ unserved. unserved.fault ≢ TurnOut) }
{
    let (shared, mut participant) = match SharedDevice::new(alloc, device) {
        Ok(made) => made,
        Err((device, _)) => {
            return Err(Unserved {
                fault: ServeFault::NoMemory,
                device,
            });
        }
    };
    let kept = serve_asked(rt, alloc, &shared, open, &mut participant, listeners);
    let Ok(device) = shared.close(participant) else {
        unreachable!()
    };
    match kept {
        Ok(visitors) => Ok(Attended { device, visitors }),
        Err(fault) => Err(Unserved { fault, device }),
    }
}
