//! Numbers that are out of their ranges.

ghost use Rattle.std.specs.Prelude.{◌≡◌, ℕ, ◌*◌, nat_le, true, false, ◌&&◌, Some, All, IfNone, IfOk, IfSome};
ghost use Rattle.drm_model.specs.Buffers.{bytes_per_pixel, is_dumb_shape};
ghost use Rattle.drm_history.specs.Holds.{Has};
ghost use Rattle.drm_trails.specs.Chains.{IsOfDevice};
ghost use Rattle.drm_refusals.specs.Facts as facts;
ghost use Rattle.drm_refusals.specs.Kinds as kinds;
ghost use Rattle.std.specs.List.{AllByRecursion};
ghost use Rattle.drm_table.specs.declared.rules.Rule.TheVariants as rules;

use crate::collecting::{only, with};
use crate::context::Context;
use crate::facts::{Fact, Quantity, RequestFact, SizeFact};
use drm_rights::step_at;
use drm_table::{Answer, Call};
use std::alloc::{AllocError, Global};

/// Returns the greatest value of a number.
fn most_of(what: Quantity) -> u64
    ensures { result ≡ facts.most_of what }
{
    match what {
        Quantity::Size => 68_719_476_736,
        Quantity::Width => 65_535,
        Quantity::Height => 65_535,
        Quantity::Bits => 64,
    }
}

/// Returns that a number is out of its range, if it is.
fn out_of_range(what: Quantity, number: u64) -> Option<SizeFact>
    ensures none { IfNone result ((nat_le 1 number && nat_le number (facts.most_of what)) ≡ true) }
    ensures holds { IfSome result facts.SizeHolds }
{
    let most = most_of(what);
    if 1 <= number && number <= most {
        return None;
    }
    Some(SizeFact::OutOfRange { what, number, most })
}

fn range_fact(context: Context<'_>, what: Quantity, number: u64) -> Option<Fact>
    ensures is { IfSome result (λ fact. kinds.is_size fact ≡ true) }
    ensures none { IfNone result ((nat_le 1 number && nat_le number (facts.most_of what)) ≡ true) }
    ensures holds { IfSome result (facts.Holds context.entry.topology.now context.entry.limits context.entry.ledger.now) }
{
    match out_of_range(what, number) {
        Some(fact) => Some(Fact::Size(fact)),
        None => None,
    }
}

/// Returns the numbers of a picture that are out of their ranges.
fn shape(
    alloc: Global,
    context: Context<'_>,
    width: u32,
    height: u32,
    bpp: u32,
) -> Result<Vec<Fact>, AllocError>
    ensures has { IfOk result (λ found. is_dumb_shape width height bpp ≡ false → kinds.Shows found.items kinds.is_size) }
    ensures holds { IfOk result (λ found. All (facts.Holds context.entry.topology.now context.entry.limits context.entry.ledger.now) found.items) }
{
    let width = range_fact(context, Quantity::Width, u64::from(width));
    let height = range_fact(context, Quantity::Height, u64::from(height));
    let bits = range_fact(context, Quantity::Bits, u64::from(bpp));
    let found = only(alloc, context, width)?;
    let found = with(context, found, height)?;
    with(context, found, bits)
}

/// Returns the bytes of the buffer that is created with this answer.
fn bytes_created(answer: &Answer) -> Option<u64>
    ensures { result ≡ kinds.bytes_created answer.now }
{
    match answer {
        Answer::Buffer { size, .. } => Some(*size),
        Answer::Dumb { size, .. } => Some(*size),
        _ => None,
    }
}

/// Returns the bytes of the buffer of a client's handle.
fn size_of(context: Context<'_>, client: u64, handle: u32) -> Option<u64>
    ensures { IsOfDevice context.entry.ledger.now → (object bytes : ℕ) → Has context.entry.ledger.now client handle object → kinds.bytes_of context.entry.ledger.now object ≡ Some bytes → result ≡ Some bytes }
{
    let trail = context.ledger.trail();
    let steps = trail.steps();
    let object = trail.object_of(steps.len(), client, u64::from(handle))?;
    let step = step_at(steps, object)?;
    bytes_created(&step.answer)
}

/// Returns that the pitch is less than the bytes of a row of pixels, if it is.
fn short_pitch(context: Context<'_>, width: u32, bpp: u32, pitch: u32) -> Option<Fact>
    ensures is { IfSome result (λ fact. kinds.is_size fact ≡ true) }
    ensures none { IfNone result (nat_le (width * bytes_per_pixel bpp) pitch ≡ true) }
    ensures holds { IfSome result (facts.Holds context.entry.topology.now context.entry.limits context.entry.ledger.now) }
{
    let least = u64::from(width).saturating_mul((u64::from(bpp).saturating_add(7)) / 8);
    if u64::from(pitch) < least {
        Some(Fact::Size(SizeFact::ShortPitch { pitch, least }))
    } else {
        None
    }
}

/// Returns that the buffer of a handle is smaller than the rows of a framebuffer, if it is.
fn short_buffer(
    context: Context<'_>,
    client: u64,
    handle: u32,
    height: u32,
    pitch: u32,
) -> Option<Fact>
    ensures is { IfSome result (λ fact. kinds.is_size fact ≡ true) }
    ensures none { IfNone result (IsOfDevice context.entry.ledger.now → (object bytes : ℕ) → Has context.entry.ledger.now client handle object → kinds.bytes_of context.entry.ledger.now object ≡ Some bytes → nat_le (pitch * height) bytes ≡ true) }
    ensures holds { IfSome result (facts.Holds context.entry.topology.now context.entry.limits context.entry.ledger.now) }
{
    let needed = u64::from(pitch).saturating_mul(u64::from(height));
    let size = size_of(context, client, handle)?;
    if size < needed {
        Some(Fact::Size(SizeFact::ShortBuffer {
            height,
            pitch,
            needed,
            handle,
            size,
        }))
    } else {
        None
    }
}

/// Returns the numbers of a call that are out of their ranges.
pub(crate) fn bad_size(
    alloc: Global,
    context: Context<'_>,
    client: u64,
    call: &Call,
) -> Result<Vec<Fact>, AllocError>
    ensures has { IfOk result (λ found. kinds.Reasons context.entry.topology.now context.entry.ledger.now client rules.BadSize call.now found.items) }
    ensures holds { IfOk result (λ found. All (facts.Holds context.entry.topology.now context.entry.limits context.entry.ledger.now) found.items) }
{
    match *call {
        Call::BufCreate { size } => only(alloc, context, range_fact(context, Quantity::Size, size)),
        Call::CreateDumb { width, height, bpp } => shape(alloc, context, width, height, bpp),
        Call::AddFb {
            width,
            height,
            pitch,
            bpp,
            handle,
        } => {
            let found = shape(alloc, context, width, height, bpp)?;
            let found = with(context, found, short_pitch(context, width, bpp, pitch))?;
            let buffer = short_buffer(context, client, handle, height, pitch);
            with(context, found, buffer)
        }
        _ => Ok(Vec::new(alloc)),
    }
}

/// Returns the capability that does not exist, or the value of one that does not.
pub(crate) fn bad_cap(
    alloc: Global,
    context: Context<'_>,
    call: &Call,
) -> Result<Vec<Fact>, AllocError>
    ensures has { IfOk result (λ found. AllByRecursion (kinds.Shows found.items) (kinds.kinds rules.BadCap call.now)) }
    ensures holds { IfOk result (λ found. All (facts.Holds context.entry.topology.now context.entry.limits context.entry.ledger.now) found.items) }
{
    match *call {
        Call::GetCap { cap } => only(
            alloc,
            context,
            Some(Fact::Request(RequestFact::NoCapability { capability: cap })),
        ),
        Call::SetClientCap { cap, value } => only(
            alloc,
            context,
            Some(Fact::Request(RequestFact::NoValue {
                capability: cap,
                value,
            })),
        ),
        _ => Ok(Vec::new(alloc)),
    }
}
