//! The words and fields of a call.

ghost use Rattle.std.specs.Prelude.{◌≡◌, ◌≤◌, [], ◌∷◌, IfErr, IfOk, None, Some, codes, false, option_and_then};
ghost use Rattle.std.specs.Str.{bytes_eq};
ghost use Rattle.std.specs.Result.{result_ok};
ghost use Rattle.drm_script.specs.Calls.{call_at, raw_at, raw_call, row_call_at};
ghost use Rattle.drm_script.specs.Faults as faults;
ghost use Rattle.drm_script.specs.Faults.{IsFirstMisfit, KindFits, call_fields, call_places};
ghost use Rattle.drm_script.specs.Fields.{IsRoomFor, fields_at};
ghost use Rattle.drm_table.specs.Table.{call_with, kind_layout};
ghost use Rattle.drm_script.specs.Words.{words_of};

use crate::fields::fields_of;
use crate::malformations::{Fault, Wanted};
use crate::numbers::{u16_word, u32_word};
use crate::words::{end_of, word_of};
use drm_table::{AuditKind, Call, CallKind, Fields, Layout, row};

/// The word of a call by its bare number.
const RAW: &[u8] = b"raw";

/// Returns the call with a bare number: with the wrong fields if the number has a row, else unknown.
fn raw_of(number: u16) -> Call
    ensures { result ≡ raw_call number }
{
    match row(number) {
        Some(_) => Call::BadLayout(number),
        None => Call::Unknown(number),
    }
}

/// `raw N`, after its word.
#[tactic(auto, unfolding(crate::specs::Calls::raw_at))]
fn raw(text: &[u8]) -> Result<Call, Fault<'_>>
    ensures reading { result_ok result ≡ raw_at (words_of text.now) }
    ensures fault { IfErr result (λ fault. IsFirstMisfit (faults.Place.number 16 ∷ []) (words_of text.now) fault.cause (words_of fault.at.now)) }
{
    let (number, rest) = u16_word(text)?;
    end_of(rest)?;
    Ok(raw_of(number))
}

/// Returns a fault if the first field of an audit is a number, but not that of a kind.
fn known_kind(kind: CallKind, text: &[u8]) -> Result<(), Fault<'_>>
    ensures passed { IfOk result (λ _. KindFits kind (words_of text.now)) }
    ensures reading { IfErr result (λ _. option_and_then (call_with kind) (fields_at (kind_layout kind) (words_of text.now)) ≡ None) }
    ensures fault { IfErr result (λ fault.
        IsFirstMisfit (call_fields (Some kind) (words_of text.now)) (words_of text.now) fault.cause (words_of fault.at.now)) }
{
    let CallKind::Audit = kind else {
        return Ok(());
    };
    let Ok((number, _)) = u32_word(text) else {
        return Ok(());
    };
    if AuditKind::of_number(number).is_some() {
        return Ok(());
    }
    Err(Fault::unfit(text, Wanted::AuditKind))
}

/// Returns the call of a kind by its fields. `N` must be room for them.
fn call_in<const N: usize>(kind: CallKind, text: &[u8]) -> Result<Call, Fault<'_>>
    requires room { IsRoomFor (kind_layout kind) N }
    requires few { N ≤ 32 }
    ensures reading { result_ok result ≡ option_and_then (call_with kind) (fields_at (kind_layout kind) (words_of text.now)) }
    ensures fault { IfErr result (λ fault.
        IsFirstMisfit (call_fields (Some kind) (words_of text.now)) (words_of text.now) fault.cause (words_of fault.at.now)) }
{
    known_kind(kind, text)?;
    let fields: Fields<N> = fields_of(kind.layout(), text)?;
    let Some(call) = kind.call(fields.as_slice()) else {
        unreachable!()
    };
    Ok(call)
}

/// Returns the call of a kind by its fields.
fn fields_call(kind: CallKind, text: &[u8]) -> Result<Call, Fault<'_>>
    ensures reading { result_ok result ≡ option_and_then (call_with kind) (fields_at (kind_layout kind) (words_of text.now)) }
    ensures fault { IfErr result (λ fault.
        IsFirstMisfit (call_fields (Some kind) (words_of text.now)) (words_of text.now) fault.cause (words_of fault.at.now)) }
{
    match kind.layout() {
        Layout::Numbers(_) => call_in::<5>(kind, text),
        Layout::Ids => call_in::<32>(kind, text),
    }
}

/// `WORD FIELDS` from the word on, and the word and the fields separately.
#[tactic(auto, unfolding(crate::specs::Calls::row_call_at))]
fn row_call<'a>(whole: &'a [u8], word: &[u8], text: &'a [u8]) -> Result<Call, Fault<'a>>
    requires whole { words_of whole.now ≡ word.now ∷ words_of text.now }
    requires named { bytes_eq word.now (codes "raw") ≡ false }
    ensures reading { result_ok result ≡ row_call_at word.now (words_of text.now) }
    ensures fault { IfErr result (λ fault. IsFirstMisfit (call_places (words_of whole.now)) (words_of whole.now) fault.cause (words_of fault.at.now)) }
{
    let Some(kind) = CallKind::of_word(word) else {
        return Err(Fault::unfit(whole, Wanted::Call));
    };
    fields_call(kind, text)
}

/// Returns the call that the words of a text spell.
#[tactic(auto, unfolding(crate::specs::Calls::call_at))]
pub(crate) fn call_of(text: &[u8]) -> Result<Call, Fault<'_>>
    ensures reading { result_ok result ≡ call_at (words_of text.now) }
    ensures fault { IfErr result (λ fault. IsFirstMisfit (call_places (words_of text.now)) (words_of text.now) fault.cause (words_of fault.at.now)) }
{
    let (first, rest) = word_of(Wanted::Call, text)?;
    if first == RAW {
        raw(rest)
    } else {
        row_call(text, first, rest)
    }
}
