//! Calls of masters as data, each made if it may be.

ghost use Rattle.std.specs.Prelude.{◌≡◌, ◌<◌, true, false, length, IfSome};
ghost use Rattle.std.specs.Option.{is_some};
ghost use Rattle.drm_masters.specs.Masters.{is_there, member_of};

use drm_masters::{LesseeFault, Master, MasterKey, Masters, Member};
use drm_table::Rule;

/// A call. A client and a master are named by the steps that made them.
#[derive(Clone, Copy)]
pub(crate) enum Ask {
    /// A client opens, by the step of a number.
    OpenBy(u32, u32),
    Drop(u32),
    /// A master gets a lessee.
    Lend(u32, u32),
    DeviceMaster,
    NthMember(usize),
    NthMaster(usize),
    Lessor(u32),
    /// A master's lessee of an id.
    Lessee(u32, u32),
    FreeLessee(u32),
    Depth(u32),
}

/// The answer of a call. `Unasked` is for a call that may not be made.
#[derive(Clone, Copy, PartialEq, Debug)]
pub(crate) enum Told {
    Unasked,
    Nothing,
    Done,
    Number(u32),
    Whether(bool),
    /// A lessee and its id.
    Lent(u32, u32),
    Denied(Rule),
    Full,
    NoMemory,
    Client(Member),
    Master {
        step_number: u32,
        lessor: Option<u32>,
        lessee_id: u32,
        kept: bool,
    },
}

/// Returns whether a client may open: no client has its number, and there are three at most.
fn is_new_client(masters: &Masters, client: u32) -> bool
    ensures new { result ≡ true → is_some (member_of masters.now.members client) ≡ false }
    ensures few { result ≡ true → length masters.now.members < 4 }
{
    let is_new = masters.member(client).is_none();
    let is_last = masters.nth_member(3).is_none();
    is_last && is_new
}

/// Returns the key of an existing master.
#[tactic(auto, using(crate::proofs::KeysOfMasters::there_keyed))]
fn key_of(masters: &Masters, step_number: u32) -> Option<MasterKey>
    ensures { IfSome result (λ key. is_there masters.now.masters key ≡ true) }
{
    match masters.master(step_number) {
        Some(row) => Some(row.key),
        None => None,
    }
}

/// The master that has a key.
fn step_number_of(masters: &Masters, key: MasterKey) -> Option<u32> {
    for place in 0..8usize {
        let row = masters.nth_master(place)?;
        if row.key == key {
            return Some(row.step_number);
        }
    }
    None
}

fn told_number(number: Option<u32>) -> Told {
    match number {
        Some(number) => Told::Number(number),
        None => Told::Nothing,
    }
}

fn told_key(masters: &Masters, key: Option<MasterKey>) -> Told {
    match key {
        Some(key) => told_number(step_number_of(masters, key)),
        None => Told::Nothing,
    }
}

fn told_client(row: Option<Member>) -> Told {
    match row {
        Some(row) => Told::Client(row),
        None => Told::Nothing,
    }
}

/// A master, if its key is its own.
fn told_master(masters: &Masters, row: Option<Master>) -> Told {
    let Some(row) = row else {
        return Told::Nothing;
    };
    if step_number_of(masters, row.key) != Some(row.step_number) {
        return Told::Unasked;
    }
    Told::Master {
        step_number: row.step_number,
        lessor: row.lessor,
        lessee_id: row.lessee_id,
        kept: row.kept,
    }
}

fn opened(masters: &mut Masters, client: u32, birth: u32) -> Told
    requires { masters.old.last_magic ≡ 4 }
    ensures { masters.new.last_magic ≡ 4 }
{
    if !is_new_client(masters, client) || masters.master(birth).is_some() {
        return Told::Unasked;
    }
    match masters.on_open(client, birth) {
        Ok(made) => Told::Whether(made),
        Err(_fault) => Told::NoMemory,
    }
}

fn dropped(masters: &mut Masters, client: u32) -> Told
    requires { masters.old.last_magic ≡ 4 }
    ensures { masters.new.last_magic ≡ 4 }
{
    if masters.member(client).is_none() {
        return Told::Unasked;
    }
    match masters.drop_master(client, false) {
        Ok(()) => Told::Done,
        Err(rule) => Told::Denied(rule),
    }
}

fn lent(masters: &mut Masters, lessor: u32, step_number: u32) -> Told
    requires { masters.old.last_magic ≡ 4 }
    ensures { masters.new.last_magic ≡ 4 }
{
    let Some(row) = masters.master(lessor) else {
        return Told::Unasked;
    };
    if masters.master(step_number).is_some() || lessor >= step_number {
        return Told::Unasked;
    }
    match masters.make_lessee(row.key, step_number) {
        Ok((key, id)) => match step_number_of(masters, key) {
            Some(step_number) => Told::Lent(step_number, id),
            None => Told::Nothing,
        },
        Err(LesseeFault::Full) => Told::Full,
        Err(LesseeFault::NoMemory) => Told::NoMemory,
    }
}

fn lessor_of(masters: &Masters, master: u32) -> Told {
    let Some(key) = key_of(masters, master) else {
        return Told::Unasked;
    };
    told_key(masters, masters.lessor_of(key))
}

fn lessee_of(masters: &Masters, owner: u32, id: u32) -> Told {
    let Some(key) = key_of(masters, owner) else {
        return Told::Unasked;
    };
    let Some(lessee) = masters.lessee(key, id) else {
        return Told::Nothing;
    };
    told_master(masters, masters.of_key(lessee))
}

/// Asks what changes nothing.
fn told_of(masters: &Masters, ask: Ask) -> Told {
    match ask {
        Ask::DeviceMaster => told_number(masters.device_master()),
        Ask::NthMember(place) => told_client(masters.nth_member(place)),
        Ask::NthMaster(place) => told_master(masters, masters.nth_master(place)),
        Ask::Lessor(master) => lessor_of(masters, master),
        Ask::Lessee(owner, id) => lessee_of(masters, owner, id),
        Ask::FreeLessee(master) => told_number(masters.free_lessee(master)),
        Ask::Depth(master) => Told::Number(masters.depth(master)),
        _ => Told::Unasked,
    }
}

pub(crate) fn asked(masters: &mut Masters, ask: Ask) -> Told
    requires { masters.old.last_magic ≡ 4 }
    ensures { masters.new.last_magic ≡ 4 }
{
    match ask {
        Ask::OpenBy(client, birth) => opened(masters, client, birth),
        Ask::Drop(client) => dropped(masters, client),
        Ask::Lend(lessor, step_number) => lent(masters, lessor, step_number),
        _ => told_of(masters, ask),
    }
}
