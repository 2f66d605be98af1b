//! Ids and handles as text, in an answer.

ghost use Rattle.std.specs.Prelude.{◌≡◌, ◌≤◌, ◌+◌, ◌*◌, ◌<◌, ◌++◌, decimal, length};
ghost use Rattle.std.specs.List.{flat_map};
ghost use Rattle.arrayvec.specs.ArrayString.{array_string_len};
ghost use Rattle.drm_script.specs.Lines.{id_behind, joined_ids, list_words, resources_words};

use crate::texts::LINE;
use arrayvec::ArrayString;
use drm_table::ShownList;

/// An id in decimal digits.
fn push_digits(text: &mut ArrayString<LINE>, id: u32)
    requires { array_string_len text.old + 10 ≤ LINE }
    ensures bytes { text.new.bytes ≡ text.old.bytes ++ decimal id }
    ensures len { array_string_len text.new ≤ array_string_len text.old + 10 }
{
    let mut buffer = itoa::Buffer::new();
    text.push_str(buffer.format(id));
}

/// An id after another, separated from it by a comma.
fn push_id(text: &mut ArrayString<LINE>, id: u32)
    requires { array_string_len text.old + 11 ≤ LINE }
    ensures bytes { text.new.bytes ≡ text.old.bytes ++ id_behind id }
    ensures len { array_string_len text.new ≤ array_string_len text.old + 11 }
{
    text.push_str(",");
    push_digits(text, id);
}

/// Each id after the one before.
fn push_ids(text: &mut ArrayString<LINE>, ids: &[u32])
    requires { array_string_len text.old + 11 * length ids.now ≤ LINE }
    ensures bytes { text.new.bytes ≡ text.old.bytes ++ flat_map id_behind ids.now }
    ensures len { array_string_len text.new ≤ array_string_len text.old + 11 * length ids.now }
{
    for id in ids {
        push_id(text, *id);
    }
}

/// The ids joined by commas, or a dash if there are none.
fn push_joined(text: &mut ArrayString<LINE>, list: &ShownList)
    requires { array_string_len text.old + 704 ≤ LINE }
    ensures bytes { text.new.bytes ≡ text.old.bytes ++ joined_ids list.now }
    ensures len { array_string_len text.new ≤ array_string_len text.old + 704 }
{
    match list.ids() {
        [] => text.push_str("-"),
        [first, others @ ..] => {
            push_digits(text, *first);
            push_ids(text, others);
        }
    }
}

/// The ids or handles after their word.
pub(crate) fn push_list(text: &mut ArrayString<LINE>, list: &ShownList)
    requires { array_string_len text.old ≡ 0 }
    ensures bytes { text.new.bytes ≡ text.old.bytes ++ list_words list.now }
    ensures len { array_string_len text.new < LINE }
{
    text.push_str("list ");
    push_joined(text, list);
}

/// The ids of CRTCs, connectors, encoders and framebuffers, each list after its word.
pub(crate) fn push_resources(
    text: &mut ArrayString<LINE>,
    crtcs: &ShownList,
    connectors: &ShownList,
    encoders: &ShownList,
    framebuffers: &ShownList,
)
    requires { array_string_len text.old ≡ 0 }
    ensures bytes { text.new.bytes ≡ text.old.bytes
        ++ resources_words crtcs.now connectors.now encoders.now framebuffers.now }
    ensures len { array_string_len text.new < LINE }
{
    text.push_str("crtcs ");
    push_joined(text, crtcs);
    text.push_str(" connectors ");
    push_joined(text, connectors);
    text.push_str(" encoders ");
    push_joined(text, encoders);
    text.push_str(" framebuffers ");
    push_joined(text, framebuffers);
}
