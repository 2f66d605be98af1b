//! AUDIT: the rows of a kind, in pages.

ghost use Rattle.std.specs.Prelude.{◌≡◌, ◌≤◌, ℕ, List, false, true, Ok, [], map, take, drop, slice_get, if◌then◌else◌};
ghost use Rattle.drm_table.specs.declared.calls.Call.TheVariants.{Audit};
ghost use Rattle.drm_model.specs.Rows.{Rows};
ghost use Rattle.drm_model.specs.Audit as model;
ghost use Rattle.std.specs.Option.{option_map, option_map_or, option_and_then};
ghost use Rattle.drm_model.specs.Rows.{magic_row};
ghost use Rattle.drm_model.specs.Audit.{audit_row, client_audit, framebuffer_audit, grant_audit, handle_audit, master_audit, name_audit, shown_audit, token_audit};
ghost use Rattle.drm_index_array.specs.Numbers.{is_among};
ghost use Rattle.drm_share.specs.Names.{AreNames};
ghost use Rattle.drm_share.specs.Tokens.{AreTokens};
ghost use Rattle.drm_modes.specs.Modes.{shown_rows};
ghost use Rattle.drm_leases.specs.Tokens.{LeaseToken};
ghost use Rattle.drm_leases.specs.Leases.{token_of};
ghost use Rattle.drm_state.specs.Parts.{client_row_by, grant_row_of, magic_row_of, master_row_of, framebuffers_of, handle_row_of, holds_of, keys_of, names_of, shown_row_of, tokens_of};
ghost use Rattle.drm_state.specs.Invariants.{MeetsInvariants};
ghost use Rattle.drm_state.specs.Refinement.{RefinesCall};
ghost use Rattle.drm_device.specs.Audits.{IsPage, IsRowAt};

use drm_files::{FileClient, FileHandle};
use drm_gem::Object;
use drm_leases::Leases;
use drm_masters::{Magic, Master, Member};
use drm_modes::Modes;
use drm_state::State;
use drm_table::{Answer, AuditKind, AuditPage, AuditRow};

/// The most rows of a page.
const PAGE: usize = 16;

/// Returns a page of rows, with the values before the step of this number (AUDIT, own). Does not allocate and needs no
/// limit.
pub fn audit(state: &State, step_number: u32, kind: AuditKind, from: u32, answer: &mut Answer)
    requires step_number { 1 ≤ step_number }
    requires invariants { MeetsInvariants state.now }
    ensures { (client : ℕ) → RefinesCall state.now step_number client (Audit kind from) (Ok answer.new) state.now }
{
    answer.set_audit(page_of(state, step_number - 1, kind, from));
}

/// Returns the page of a kind after the first rows, where this many steps were recorded.
pub fn page_of(state: &State, steps: u32, kind: AuditKind, from: u32) -> AuditPage
    requires { MeetsInvariants state.now }
    ensures { IsPage state.now steps kind from result }
{
    match kind {
        AuditKind::Hold => handles_page(state, from),
        _ => rows_page(state, steps, kind, from),
    }
}

/// Returns the page of handles after the first ones. It finds each handle after the first one from the handle before.
fn handles_page(state: &State, from: u32) -> AuditPage
    requires { MeetsInvariants state.now }
    ensures { result ≡ take 16 (drop from (map handle_audit (holds_of state.now))) }
{
    let mut page = AuditPage::new();
    let mut next = state.files.nth_handle(from as usize);
    for _turn in 0..PAGE {
        let Some(hold) = next else {
            return page;
        };
        next = state.files.handle_after(hold.client, hold.handle);
        page.push(handle_row(state, hold));
    }
    page
}

/// Returns the page of a kind after the first rows. It finds each row by its place.
fn rows_page(state: &State, steps: u32, kind: AuditKind, from: u32) -> AuditPage
    requires { MeetsInvariants state.now }
    ensures { IsPage state.now steps kind from result }
{
    let mut page = AuditPage::new();
    for position in 0..PAGE {
        match row_at(state, steps, kind, from as usize + position) {
            Some(row) => page.push(row),
            None => return page,
        }
    }
    page
}

/// Returns the row of a kind at a place, from 0, in the order of the rows' numbers, or none past the last.
fn row_at(state: &State, steps: u32, kind: AuditKind, position: usize) -> Option<AuditRow>
    requires { MeetsInvariants state.now }
    ensures { IsRowAt state.now steps kind position result }
{
    match kind {
        AuditKind::Client => {
            let file = state.files.nth_client(position)?;
            Some(client_row(file, state.masters.member(file.client)))
        }
        AuditKind::Master => {
            let master = state.masters.nth_master(position)?;
            Some(master_row(master, state.leases.token_of(master.step_number)))
        }
        AuditKind::Object => Some(object_row(state.objects.nth_object(position)?)),
        AuditKind::Name => name_at(state, position),
        AuditKind::Token => token_at(state, position),
        AuditKind::Hold => handle_at(state, position),
        AuditKind::Framebuffer => framebuffer_at(state, position),
        AuditKind::Shown => shown_at(&state.modes, position),
        AuditKind::Device => {
            let tokens = LastTokens {
                token: state.tokens.last_given(),
                lease_token: state.leases.last_given(),
            };
            item_at(
                &[device_row(state.masters.device_master(), tokens, steps)],
                position,
            )
        }
        AuditKind::Grant => grant_at(&state.leases, position),
    }
}

/// Returns the item at a place, from 0.
pub fn item_at<T: Copy>(items: &[T], position: usize) -> Option<T>
    ensures { result ≡ slice_get items.now position }
{
    items.get(position).copied()
}

/// Returns the row of a client, by its file and by how it belongs to masters; its magic is reported with it.
fn client_row(file: FileClient, member: Option<Member>) -> AuditRow
    ensures { (w : Rows) → magic_row w file.client ≡ option_and_then magic_row_of member → result ≡ client_audit w (client_row_by file member) }
{
    let magic = magic_of(member);
    AuditRow {
        a: file.client as u64,
        b: flag(file.flags.render, 1)
            + flag(file.flags.root, 2)
            + flag(file.flags.authenticated, 4)
            + flag(was_master(member), 8)
            + flag(is_master(member), 16)
            + flag(is_spent(magic), 32)
            + flag(!file.flags.universal, 64),
        c: or_zero(master_of(member)),
        d: number_of(magic),
    }
}

fn was_master(member: Option<Member>) -> bool
    ensures { result ≡ option_map_or (λ x. x.once_master) member false }
{
    match member {
        Some(member) => member.once_master,
        None => false,
    }
}

fn is_master(member: Option<Member>) -> bool
    ensures { result ≡ option_map_or (λ x. x.is_master) member false }
{
    match member {
        Some(member) => member.is_master,
        None => false,
    }
}

fn master_of(member: Option<Member>) -> Option<u32>
    ensures { result ≡ option_map (λ x. x.master) member }
{
    match member {
        Some(member) => Some(member.master),
        None => None,
    }
}

fn magic_of(member: Option<Member>) -> Option<Magic>
    ensures { result ≡ option_and_then (λ x. x.magic) member }
{
    match member {
        Some(member) => member.magic,
        None => None,
    }
}

fn is_spent(magic: Option<Magic>) -> bool
    ensures { result ≡ option_map_or (λ x. x.spent) magic false }
{
    match magic {
        Some(magic) => magic.spent,
        None => false,
    }
}

fn number_of(magic: Option<Magic>) -> u64
    ensures { result ≡ option_map_or (λ x. x.number) magic 0 }
{
    match magic {
        Some(magic) => magic.number as u64,
        None => 0,
    }
}

/// Returns the row of a master, and of the lease token that opens a client of it.
fn master_row(master: Master, token: Option<u32>) -> AuditRow
    ensures { (tokens : List LeaseToken) → token ≡ token_of tokens master.step_number → result ≡ master_audit (master_row_of tokens master) }
{
    AuditRow {
        a: master.step_number as u64,
        b: or_zero(master.lessor),
        c: master.lessee_id as u64,
        d: or_zero(token),
    }
}

/// Returns the row of an object.
fn object_row(object: Object) -> AuditRow
    ensures { result ≡ audit_row object.step_number object.size object.holds object.refs }
{
    AuditRow {
        a: object.step_number as u64,
        b: object.size,
        c: object.holds as u64,
        d: object.refs as u64,
    }
}

/// Returns the row of the handle at a place, from 0, in the order of clients and handles, or none past the last.
fn handle_at(state: &State, position: usize) -> Option<AuditRow>
    requires { MeetsInvariants state.now }
    ensures { result ≡ slice_get (map handle_audit (holds_of state.now)) position }
{
    let hold = state.files.nth_handle(position)?;
    Some(handle_row(state, hold))
}

/// Returns the row of a handle that a client holds.
fn handle_row(state: &State, hold: FileHandle) -> AuditRow
    requires invariants { MeetsInvariants state.now }
    requires held { is_among (keys_of state.now.files.holds) hold.object ≡ true }
    ensures { result ≡ handle_audit (handle_row_of state.now.objects.objects hold) }
{
    AuditRow {
        a: hold.client as u64,
        b: hold.handle as u64,
        c: state.objects.birth(hold.object) as u64,
        d: or_zero(hold.export_order),
    }
}

/// Returns the row of the name at a place, from 0, in the order of names, or none past the last.
fn name_at(state: &State, position: usize) -> Option<AuditRow>
    requires { MeetsInvariants state.now }
    ensures row { result ≡ slice_get (map name_audit (names_of state.now)) position }
    ensures names { AreNames state.now.names }
{
    let shared = state.names.nth_name(position)?;
    Some(AuditRow {
        a: shared.name as u64,
        b: state.objects.birth(shared.object) as u64,
        c: 0,
        d: 0,
    })
}

/// Returns the row of the token at a place, from 0, in the order of tokens, or none past the last.
fn token_at(state: &State, position: usize) -> Option<AuditRow>
    requires { MeetsInvariants state.now }
    ensures row { result ≡ slice_get (map token_audit (tokens_of state.now)) position }
    ensures tokens { AreTokens state.now.tokens }
{
    let shared = state.tokens.nth_token(position)?;
    Some(AuditRow {
        a: shared.token as u64,
        b: shared.client as u64,
        c: state.objects.birth(shared.object) as u64,
        d: 0,
    })
}

/// Returns the row of the framebuffer at a place, from 0, in the order of ids, or none past the last.
fn framebuffer_at(state: &State, position: usize) -> Option<AuditRow>
    requires { MeetsInvariants state.now }
    ensures { result ≡ slice_get (map framebuffer_audit (framebuffers_of state.now)) position }
{
    let made = state.modes.nth_framebuffer(position)?;
    Some(AuditRow {
        a: made.framebuffer as u64,
        b: made.client as u64,
        c: state.objects.birth(made.object) as u64,
        d: 0,
    })
}

/// Returns the row of the CRTC or plane at a place, from 0, of those that show something, in the order of ids, or none
/// past the last.
fn shown_at(modes: &Modes, position: usize) -> Option<AuditRow>
    ensures { result ≡ slice_get (map shown_audit (map shown_row_of (shown_rows modes.now))) position }
{
    let shown = modes.nth_shown(position)?;
    Some(AuditRow {
        a: shown.engine as u64,
        b: shown.framebuffer as u64,
        c: 0,
        d: 0,
    })
}

/// Returns the row of the grant at a place, from 0, in the order of masters and mode objects, or none past the last.
fn grant_at(leases: &Leases, position: usize) -> Option<AuditRow>
    ensures { result ≡ slice_get (map grant_audit (map grant_row_of leases.now.grants)) position }
{
    let grant = leases.nth_grant(position)?;
    Some(AuditRow {
        a: grant.master as u64,
        b: grant.mode_object as u64,
        c: 0,
        d: 0,
    })
}

/// The last PRIME token and the last lease token given, if any was.
#[derive(Clone, Copy)]
struct LastTokens {
    token: Option<u32>,
    lease_token: Option<u32>,
}

/// Returns the row of the device.
fn device_row(device_master: Option<u32>, last: LastTokens, steps: u32) -> AuditRow
    ensures { result ≡ audit_row (model.or_zero device_master) (model.or_zero last.token) (model.or_zero last.lease_token) steps }
{
    AuditRow {
        a: or_zero(device_master),
        b: or_zero(last.token),
        c: or_zero(last.lease_token),
        d: steps as u64,
    }
}

/// Returns the number of a flag that is set.
fn flag(is_set: bool, number: u64) -> u64
    ensures value { result ≡ (if is_set then number else 0) }
    ensures small { result ≤ number }
{
    if is_set { number } else { 0 }
}

/// Returns a number, or 0 for none.
fn or_zero(number: Option<u32>) -> u64
    ensures { result ≡ model.or_zero number }
{
    match number {
        Some(number) => number as u64,
        None => 0,
    }
}
