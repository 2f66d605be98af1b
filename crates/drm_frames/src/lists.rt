//! Ids and handles as bytes, and bytes as ids.
ghost use Rattle.std.specs.Prelude.{◌≡◌, ◌+◌, ◌*◌, ◌≤◌, ◌++◌, All, is_some, length, true};
ghost use Rattle.std.specs.List.{flat_map};
ghost use Rattle.std.specs.Option.{option_map};
ghost use Rattle.drm_frames.specs.Lists.{FitsId, FitsList, FitsResources, behind_list, front_list, ids_in, list_text};
ghost use Rattle.drm_frames.specs.Number.{u32};

use crate::number::u32_in;
use crate::text::FrameBytes;
use drm_table::ShownList;

/// The most ids of a list (own).
const MOST_IDS: usize = 64;

fn push_ids(fields: &mut FrameBytes, ids: &[u32])
    requires { length fields.old + 4 * length ids.now ≤ 1028 }
    ensures text { fields.new ≡ fields.old ++ flat_map u32 ids.now }
    ensures fits { All FitsId ids.now }
    ensures length { length fields.new ≡ length fields.old + 4 * length ids.now }
{
    for id in ids {
        fields.push_u32(*id);
    }
}

/// Writes the number of ids, and each of them.
#[tactic(auto, using(std::proofs::lemmas::List::append_assoc))]
fn push_counted(fields: &mut FrameBytes, ids: &[u32])
    requires few { length ids.now ≤ 64 }
    requires room { length fields.old + 4 + 4 * length ids.now ≤ 1028 }
    ensures text { fields.new ≡ fields.old ++ list_text ids.now }
    ensures fits { FitsList ids.now }
    ensures length { length fields.new ≡ length fields.old + 4 + 4 * length ids.now }
{
    fields.push_u32(ids.len() as u32);
    push_ids(fields, ids);
}

/// Writes a list.
pub(crate) fn push_list(fields: &mut FrameBytes, list: &ShownList)
    requires { length fields.old + 260 ≤ 1028 }
    ensures text { fields.new ≡ fields.old ++ list_text list.now }
    ensures fits { FitsList list.now }
    ensures length { length fields.old ≤ length fields.new }
{
    push_counted(fields, list.ids());
}

/// Writes the four lists of resources.
#[tactic(auto, using(std::proofs::lemmas::List::append_assoc))]
pub(crate) fn push_resources(
    fields: &mut FrameBytes,
    crtcs: &ShownList,
    connectors: &ShownList,
    encoders: &ShownList,
    framebuffers: &ShownList,
)
    requires empty { length fields.old ≡ 6 }
    requires few { length crtcs.now + length connectors.now + length encoders.now + length framebuffers.now ≤ 251 }
    ensures text { fields.new ≡ fields.old ++ (list_text crtcs.now ++ list_text connectors.now
        ++ list_text encoders.now ++ list_text framebuffers.now) }
    ensures fits { FitsResources crtcs.now connectors.now encoders.now framebuffers.now }
    ensures length { length fields.old ≤ length fields.new }
{
    push_counted(fields, crtcs.ids());
    push_counted(fields, connectors.ids());
    push_counted(fields, encoders.ids());
    push_counted(fields, framebuffers.ids());
}

/// Returns the list of `count` ids at the front of the bytes.
fn list_of(count: usize, bytes: &[u8]) -> ShownList
    requires few { count ≤ 64 }
    requires length { 4 * count ≤ length bytes.now }
    ensures { result ≡ ids_in count bytes.now }
{
    let mut list = ShownList::new();
    let mut rest = bytes;
    for _ in 0..count {
        list.push(u32_in(rest));
        rest = rest.split_at(4).1;
    }
    list
}

/// Returns the bytes after the list at the front, if there is one.
#[tactic(auto, unfolding(crate::specs::Lists::behind_list))]
pub(crate) fn behind_list(bytes: &[u8]) -> Option<&[u8]>
    ensures { option_map (λ rest. rest.now) result ≡ behind_list bytes.now }
{
    if bytes.len() < 4 {
        return None;
    }
    let count = u32_in(bytes) as usize;
    if count > MOST_IDS || bytes.len() < 4 + 4 * count {
        return None;
    }
    Some(bytes.split_at(4 + 4 * count).1)
}

/// Returns the list at the front.
#[tactic(auto, unfolding(crate::specs::Lists::behind_list))]
pub(crate) fn front_list(bytes: &[u8]) -> ShownList
    requires { is_some (behind_list bytes.now) ≡ true }
    ensures { result ≡ front_list bytes.now }
{
    list_of(u32_in(bytes) as usize, bytes.split_at(4).1)
}
