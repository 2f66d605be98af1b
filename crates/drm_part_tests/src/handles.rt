//! Flags and export orders of handles that no script leads to: on a device each export order is a later step.

ghost use Rattle.std.specs.Prelude.{◌≡◌, false, true};
ghost use Rattle.drm_files.specs.Files.{is_open_client};

use drm_files::{FileFault, FileFlags, Files};
use drm_gem::ObjectKey;
use drm_test_support::{Call, Told, check};
use std::alloc::Global;
use std::process::Abort;

/// A call of a client, with a handle or an object and an export order. An object is named by the number of its key.
#[derive(Clone, Copy)]
enum Ask {
    /// Opens a render client.
    Open,
    Authenticate,
    Universal(bool),
    HasFlags(FileFlags),
    Add(u32, Option<u32>),
    Drop(u32),
    Prime(u32),
    ExportOrder(u32, u32),
}

fn told_object(object: Option<ObjectKey>) -> Told {
    match object {
        Some(object) => Told::Number(object.number()),
        None => Told::Nothing,
    }
}

fn told_fault(fault: FileFault) -> Told {
    match fault {
        FileFault::Full => Told::Full,
        FileFault::NoMemory => Told::NoMemory,
    }
}

/// Opens a client that isn't open.
fn open(files: &mut Files, client: u32) -> Told
    requires { is_open_client files.old client ≡ false }
{
    match files.open(client, true, false, true) {
        Ok(()) => Told::Done,
        Err(fault) => told_fault(fault),
    }
}

fn add(files: &mut Files, client: u32, object: u32, export_order: Option<u32>) -> Told
    requires { is_open_client files.old client ≡ true }
{
    match files.add_handle(client, ObjectKey::from_number(object), export_order) {
        Ok(handle) => Told::Number(handle),
        Err(fault) => told_fault(fault),
    }
}

/// Moves a handle to its place, if the client has it.
fn placed(files: &mut Files, client: u32, handle: u32, export_order: u32) -> Told
    requires { is_open_client files.old client ≡ true }
{
    let Some(_object) = files.object_of(client, handle) else {
        return Told::Nothing;
    };
    files.set_prime(client, handle, export_order);
    Told::Done
}

/// The calls for an open client.
fn asked(files: &mut Files, client: u32, flags: FileFlags, ask: Ask) -> Told
    requires { is_open_client files.old client ≡ true }
{
    match ask {
        Ask::Open => Told::Unasked,
        Ask::Authenticate => {
            files.set_authenticated(client);
            Told::Done
        }
        Ask::Universal(on) => {
            files.set_universal(client, on);
            Told::Done
        }
        Ask::HasFlags(these) => Told::Whether(flags == these),
        Ask::Add(object, export_order) => add(files, client, object, export_order),
        Ask::Drop(handle) => told_object(files.drop_handle(client, handle)),
        Ask::Prime(object) => {
            Told::of(files.prime_handle(client, ObjectKey::from_number(object)))
        }
        Ask::ExportOrder(handle, export_order) => placed(files, client, handle, export_order),
    }
}

/// A client, and what it asks.
#[derive(Clone, Copy)]
struct By(u32, Ask);

impl Call<Files> for By {
    fn ask(self, files: &mut Files) -> Told {
        let By(client, ask) = self;
        match (files.flags_of(client), ask) {
            (Some(flags), _) => asked(files, client, flags, ask),
            (None, Ask::Open) => open(files, client),
            (None, _) => Told::Unasked,
        }
    }
}

/// A client, what it asks, and the answer.
type Case = (By, Told);

const OF_RENDER: FileFlags = FileFlags {
    render: true,
    root: false,
    authenticated: true,
    universal: false,
};

/// A render client that is authenticated and turns universal planes off.
const FLAGS: [Case; 6] = [
    (By(3, Ask::Authenticate), Told::Unasked),
    (By(4, Ask::Open), Told::Done),
    (By(4, Ask::Open), Told::Unasked),
    (By(4, Ask::Universal(false)), Told::Done),
    (By(4, Ask::Authenticate), Told::Done),
    (By(4, Ask::HasFlags(OF_RENDER)), Told::Whether(true)),
];

/// The handle of an object with the least export order, and at a tie the least handle. Handles of other objects and of other clients
/// count for those alone.
const PRIME_HANDLES: [Case; 18] = [
    (By(1, Ask::Open), Told::Done),
    (By(2, Ask::Open), Told::Done),
    (By(1, Ask::Add(5, None)), Told::Number(1)),
    (By(1, Ask::Prime(5)), Told::Nothing),
    (By(1, Ask::Add(5, Some(7))), Told::Number(2)),
    (By(1, Ask::Prime(5)), Told::Number(2)),
    (By(1, Ask::Add(5, Some(4))), Told::Number(3)),
    (By(1, Ask::Add(5, Some(4))), Told::Number(4)),
    (By(1, Ask::Add(5, Some(5))), Told::Number(5)),
    (By(1, Ask::Prime(5)), Told::Number(3)),
    (By(1, Ask::Add(6, Some(1))), Told::Number(6)),
    (By(2, Ask::Add(5, Some(2))), Told::Number(1)),
    (By(1, Ask::Prime(6)), Told::Number(6)),
    (By(2, Ask::Prime(5)), Told::Number(1)),
    (By(2, Ask::Prime(6)), Told::Nothing),
    (By(1, Ask::Drop(3)), Told::Number(5)),
    (By(1, Ask::Drop(4)), Told::Number(5)),
    (By(1, Ask::Prime(5)), Told::Number(5)),
];

/// Export orders that come in no order, a tie among them, and handles that leave at the front, in the middle and at the end.
const PLACES_IN_ANY_ORDER: [Case; 26] = [
    (By(1, Ask::Open), Told::Done),
    (By(1, Ask::Add(5, None)), Told::Number(1)),
    (By(1, Ask::Add(5, None)), Told::Number(2)),
    (By(1, Ask::Add(5, None)), Told::Number(3)),
    (By(1, Ask::Add(5, None)), Told::Number(4)),
    (By(1, Ask::Add(5, None)), Told::Number(5)),
    (By(1, Ask::Add(6, Some(1))), Told::Number(6)),
    (By(1, Ask::ExportOrder(3, 6)), Told::Done),
    (By(1, Ask::Prime(5)), Told::Number(3)),
    (By(1, Ask::ExportOrder(1, 8)), Told::Done),
    (By(1, Ask::ExportOrder(4, 2)), Told::Done),
    (By(1, Ask::ExportOrder(2, 6)), Told::Done),
    (By(1, Ask::ExportOrder(5, 7)), Told::Done),
    (By(1, Ask::Prime(5)), Told::Number(4)),
    (By(1, Ask::Drop(4)), Told::Number(5)),
    (By(1, Ask::Prime(5)), Told::Number(2)),
    (By(1, Ask::Drop(5)), Told::Number(5)),
    (By(1, Ask::Drop(2)), Told::Number(5)),
    (By(1, Ask::Prime(5)), Told::Number(3)),
    (By(1, Ask::Add(5, None)), Told::Number(2)),
    (By(1, Ask::Drop(3)), Told::Number(5)),
    (By(1, Ask::Prime(5)), Told::Number(1)),
    (By(1, Ask::Drop(1)), Told::Number(5)),
    (By(1, Ask::Prime(5)), Told::Nothing),
    (By(1, Ask::ExportOrder(2, 9)), Told::Done),
    (By(1, Ask::Prime(5)), Told::Number(2)),
];

/// Checks files with room for two clients, with nine handles each.
fn check_files(rt: &impl Abort, alloc: Global, cases: &[Case]) {
    assert_eq!(rt; check(&mut Files::new(alloc, 2, 9), cases), None);
}

#[test]
fn flags_and_export_orders(rt: HostRuntime) {
    check_files(&rt, rt.alloc(), &FLAGS);
    check_files(&rt, rt.alloc(), &PRIME_HANDLES);
    check_files(&rt, rt.alloc(), &PLACES_IN_ANY_ORDER);
}
