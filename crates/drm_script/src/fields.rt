//! The fields of a call, as words of a line.

ghost use Rattle.std.specs.Prelude.{◌≡◌, ◌≤◌, IfErr, IfOk, length, map};
ghost use Rattle.std.specs.Option.{option_map};
ghost use Rattle.std.specs.Result.{result_ok};
ghost use Rattle.drm_table.specs.Fields.{layout_of};
ghost use Rattle.drm_script.specs.Faults.{IsFault, IsFirstMisfit, IsPassed, layout_places, width_place};
ghost use Rattle.drm_script.specs.Fields.{IsRoomFor, field_at, fields_at, id_count, numbers_at};
ghost use Rattle.drm_script.specs.Words.{words_of};

use crate::malformations::Fault;
use crate::numbers::{u32_word, u64_word};
use crate::words::{end_of, word_count};
use drm_table::{Field, Fields, Layout, Width};

/// Returns the field that the first word spells, and the rest of the text.
#[tactic(auto, unfolding(crate::specs::Fields::field_at))]
fn field_of(width: Width, text: &[u8]) -> Result<(Field, &[u8]), Fault<'_>>
    ensures reading { option_map (λ read. (read.0, words_of read.1.now)) (result_ok result) ≡ field_at width (words_of text.now) }
    ensures passed { IfOk result (λ read. IsPassed (width_place width) (words_of text.now) (words_of read.1.now)) }
    ensures fault { IfErr result (λ fault. IsFault (width_place width) (words_of text.now) fault.cause (words_of fault.at.now)) }
{
    match width {
        Width::U32 => {
            let (number, rest) = u32_word(text)?;
            Ok((Field::U32(number), rest))
        }
        Width::U64 => {
            let (number, rest) = u64_word(text)?;
            Ok((Field::U64(number), rest))
        }
    }
}

/// Returns the fields of these widths that the words spell, if no word follows.
#[tactic(auto, unfolding(crate::specs::Fields::numbers_at))]
fn numbers_of<'a, const N: usize>(widths: &[Width], text: &'a [u8]) -> Result<Fields<N>, Fault<'a>>
    requires { length widths.now ≤ N }
    ensures reading { result_ok result ≡ numbers_at widths.now (words_of text.now) }
    ensures fault { IfErr result (λ fault.
        IsFirstMisfit (map width_place widths.now) (words_of text.now) fault.cause (words_of fault.at.now)) }
{
    let mut fields = Fields::new();
    let mut rest = text;
    for width in widths {
        let (field, behind) = field_of(*width, rest)?;
        fields.push(field);
        rest = behind;
    }
    end_of(rest)?;
    Ok(fields)
}

/// Returns the number of ids that the words of a text can be: the number of words, and at most that of a call's ids.
fn id_count(text: &[u8]) -> usize
    ensures { result ≡ id_count (words_of text.now) }
{
    word_count(text).min(Layout::MOST_IDS)
}

/// Returns the fields of a layout that the words spell, if no word follows. `N` must be room for the fields of the layout.
#[tactic(auto, unfolding(crate::specs::Fields::fields_at))]
pub(crate) fn fields_of<const N: usize>(layout: Layout, text: &[u8]) -> Result<Fields<N>, Fault<'_>>
    requires { IsRoomFor (layout_of layout) N }
    ensures reading { result_ok result ≡ fields_at (layout_of layout) (words_of text.now) }
    ensures fault { IfErr result (λ fault.
        IsFirstMisfit (layout_places (layout_of layout) (words_of text.now)) (words_of text.now) fault.cause (words_of fault.at.now)) }
{
    match layout {
        Layout::Numbers(widths) => numbers_of(widths, text),
        Layout::Ids => {
            let count = id_count(text);
            numbers_of(Width::of_ids(count), text)
        }
    }
}
