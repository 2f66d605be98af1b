//! The closing of a client.

ghost use Rattle.std.specs.Prelude.{◌≡◌, ℕ, List, true, false, ◌++◌};
ghost use Rattle.drm_masters.specs.Masters.{AreMasters};
ghost use Rattle.drm_leases.specs.Agreed.{AreAgreed};
ghost use Rattle.drm_table.specs.declared.events.Event.TheVariants.{Close};
ghost use Rattle.drm_files.specs.Files.{is_open_client, without_client};
ghost use Rattle.drm_state.specs.Parts.{keys_of, token_keys, framebuffer_keys, without_tokens_of, LosesFramebuffersOf, without_its_master, without_its_leases};
ghost use Rattle.drm_state.specs.Invariants.{MeetsInvariants, AreKeptBy, AreCounted, AreNamed, AreThoseNamed, Leaves};
ghost use Rattle.drm_state.specs.Refinement.{RefinesAnswer};

use drm_files::Files;
use drm_gem::Objects;
use drm_leases::Leases;
use drm_masters::Masters;
use drm_modes::Modes;
use drm_share::{Names, Tokens};
use drm_state::{State, release};
use drm_table::{Answer, Rule};

/// Closes a client. A client that is not open is denied, and nothing changes. Does not allocate and needs no limit.
///
/// - Its framebuffers are removed, and the CRTCs and planes that show them are dark.
/// - Its tokens, its magic and its handles are removed, the names of objects without a handle, and the objects without
///   a reference.
/// - Its master is freed if no other client names it. If the client's own master was the device's, the device has none.
/// - If it has its own master, the leases of that and of all masters below it end, and their open tokens are removed.
pub fn close(state: &mut State, client: u32, answer: &mut Answer)
    requires { MeetsInvariants state.old }
    ensures invariants { MeetsInvariants state.new }
    ensures refines { RefinesAnswer state.old (Close client) answer.new state.new }
{
    let Some(_flags) = state.files.flags_of(client) else {
        answer.set_denied(Rule::NoClient);
        return;
    };
    close_master(&mut state.masters, &mut state.leases, client);
    state.masters.laws();
    state.leases.laws();
    close_tokens(&mut state.tokens, &mut state.objects, client);
    close_framebuffers(&mut state.modes, &mut state.objects, client);
    state.modes.laws();
    release_all(
        &mut state.files,
        &mut state.names,
        &mut state.objects,
        client,
    );
    *answer = Answer::Closed;
}

/// Removes a client from its master. The leases of the client's own master end, and those of all masters below it.
fn close_master(masters: &mut Masters, leases: &mut Leases, client: u32)
    requires are { AreMasters masters.old }
    requires agreed { AreAgreed leases.old masters.old }
    requires kept { AreKeptBy leases.old.tokens masters.old.masters }
    ensures masters { masters.new ≡ without_its_master client masters.old }
    ensures leases { leases.new ≡ without_its_leases client masters.old leases.old }
{
    let Some(member) = masters.member(client) else {
        return;
    };
    let Some(own) = masters.on_close(client) else {
        return;
    };
    masters.laws();
    leases.revoke(masters, own);
    // if its own lease token was open, the revocation released it
    if let Some(master) = masters.master(member.master) {
        masters.release(master.key);
    }
}

/// A client's tokens go, and the objects that they alone referred to, whatever handles name.
fn close_tokens(tokens: &mut Tokens, objects: &mut Objects, client: u32)
    requires { (keys others : List ℕ) × AreCounted keys (token_keys tokens.old.tokens ++ others) objects.old.objects }
    ensures tokens { tokens.new ≡ without_tokens_of client tokens.old }
    ensures invariants { (keys others : List ℕ) → AreCounted keys (token_keys tokens.old.tokens ++ others) objects.old.objects → AreCounted keys (token_keys tokens.new.tokens ++ others) objects.new.objects }
    ensures those { (keys others : List ℕ) → AreCounted keys (token_keys tokens.old.tokens ++ others) objects.old.objects → AreThoseNamed objects.old.objects (keys ++ (token_keys tokens.new.tokens ++ others)) objects.new.objects }
    ensures limit { objects.new.limit ≡ objects.old.limit }
{
    while let Some(taken) = tokens.take_first_of(client) {
        let _dead = objects.unrefer(taken.1);
    }
}

/// A client's framebuffers go, what shows them becomes dark, and the objects go that they alone referred to.
fn close_framebuffers(modes: &mut Modes, objects: &mut Objects, client: u32)
    requires { (keys others : List ℕ) × AreCounted keys (others ++ framebuffer_keys modes.old.framebuffers) objects.old.objects }
    ensures loses { LosesFramebuffersOf client modes.old modes.new }
    ensures invariants { (keys others : List ℕ) → AreCounted keys (others ++ framebuffer_keys modes.old.framebuffers) objects.old.objects → AreCounted keys (others ++ framebuffer_keys modes.new.framebuffers) objects.new.objects }
    ensures those { (keys others : List ℕ) → AreCounted keys (others ++ framebuffer_keys modes.old.framebuffers) objects.old.objects → AreThoseNamed objects.old.objects (keys ++ (others ++ framebuffer_keys modes.new.framebuffers)) objects.new.objects }
    ensures limit { objects.new.limit ≡ objects.old.limit }
{
    modes.laws();
    while let Some(taken) = modes.take_first_fb_of(client) {
        modes.laws();
        let _dead = objects.unrefer(taken.1);
    }
}

/// A client's file is freed with its handles, the names of objects that no other handle names, and the objects that
/// nothing else refers to.
fn release_all(files: &mut Files, names: &mut Names, objects: &mut Objects, client: u32)
    requires open_client { is_open_client files.old client ≡ true }
    requires invariants { (refs : List ℕ) × AreCounted (keys_of files.old.holds) refs objects.old.objects }
    requires named { AreNamed (keys_of files.old.holds) names.old.names }
    ensures files { files.new ≡ without_client files.old client }
    ensures leaves { (refs : List ℕ) → AreCounted (keys_of files.old.holds) refs objects.old.objects → Leaves names.old objects.old (keys_of files.new.holds) refs names.new objects.new }
{
    let mut rest = files.close(client);
    while let Some(hold) = rest.take_next() {
        release(names, objects, hold.1);
    }
}
