//! The lines of answers.

ghost use Rattle.std.specs.Prelude.{◌≡◌, ◌+◌, ◌*◌, ◌≤◌, ◌<◌, ◌++◌, length};
ghost use Rattle.std.specs.List.{flat_map};
ghost use Rattle.arrayvec.specs.ArrayString.{array_string_len};
ghost use Rattle.drm_table.specs.Answers.{told};
ghost use Rattle.drm_table.specs.Rules.{rule_name, apart_name};
ghost use Rattle.drm_script.specs.Lines.{answer_line, answer_words, apart_words, denied_words, number_behind, told_words};

use crate::audits::push_page;
use crate::lists::{push_list, push_resources};
use crate::texts::{LINE, LineText, push_number};
use arrayvec::ArrayString;
use drm_table::{Answer, Apart, Field, Rule, Told};

/// Returns the name of a rule, which is short.
fn name_of(rule: Rule) -> &'static str
    ensures name { result.now ≡ rule_name rule }
    ensures short { length result.now ≤ 16 }
{
    rule.name()
}

/// Returns the name of a fault, which is short.
fn apart_name_of(apart: Apart) -> &'static str
    ensures name { result.now ≡ apart_name apart }
    ensures short { length result.now ≤ 16 }
{
    apart.name()
}

fn push_denied(text: &mut ArrayString<LINE>, rule: Rule)
    requires { array_string_len text.old ≡ 0 }
    ensures bytes { text.new.bytes ≡ text.old.bytes ++ denied_words rule }
    ensures len { array_string_len text.new < LINE }
{
    text.push_str("denied ");
    push_number(text, u64::from(rule.number()));
    text.push_str(" ");
    text.push_str(name_of(rule));
    text.push_str(" ");
    push_number(text, u64::from(rule.errno()));
}

fn push_apart(text: &mut ArrayString<LINE>, apart: Apart)
    requires { array_string_len text.old ≡ 0 }
    ensures bytes { text.new.bytes ≡ text.old.bytes ++ apart_words apart }
    ensures len { array_string_len text.new < LINE }
{
    text.push_str("apart ");
    push_number(text, u64::from(apart.number()));
    text.push_str(" ");
    text.push_str(apart_name_of(apart));
    text.push_str(" ");
    push_number(text, u64::from(apart.errno()));
}

/// A number after a word, or after another number.
fn push_field(text: &mut ArrayString<LINE>, field: Field)
    requires { array_string_len text.old + 21 ≤ LINE }
    ensures bytes { text.new.bytes ≡ text.old.bytes ++ number_behind field }
    ensures len { array_string_len text.new ≤ array_string_len text.old + 21 }
{
    text.push_str(" ");
    push_number(text, field.number());
}

/// Each field after the one before.
fn push_fields(text: &mut ArrayString<LINE>, fields: &[Field])
    requires { array_string_len text.old + 21 * length fields.now ≤ LINE }
    ensures bytes { text.new.bytes ≡ text.old.bytes ++ flat_map number_behind fields.now }
    ensures len { array_string_len text.new ≤ array_string_len text.old + 21 * length fields.now }
{
    for field in fields {
        push_field(text, *field);
    }
}

fn push_answer(text: &mut ArrayString<LINE>, answer: &Answer)
    requires { array_string_len text.old ≡ 0 }
    ensures bytes { text.new.bytes ≡ text.old.bytes ++ told_words (told answer.now) }
    ensures len { array_string_len text.new < LINE }
{
    match answer.told() {
        Told::Fields(kind, fields) => {
            text.push_str(kind.word());
            push_fields(text, fields.as_slice());
        }
        Told::Resources {
            crtcs,
            connectors,
            encoders,
            framebuffers,
        } => push_resources(text, crtcs, connectors, encoders, framebuffers),
        Told::List(list) => push_list(text, list),
        Told::Page(page) => push_page(text, page),
        Told::Denial(rule) => push_denied(text, rule),
    }
}

fn push_outcome(text: &mut ArrayString<LINE>, outcome: &Result<Answer, Apart>)
    requires { array_string_len text.old ≡ 0 }
    ensures bytes { text.new.bytes ≡ text.old.bytes ++ answer_words outcome.now }
    ensures len { array_string_len text.new < LINE }
{
    match outcome {
        Ok(answer) => push_answer(text, answer),
        Err(apart) => push_apart(text, *apart),
    }
}

impl LineText {
    /// Replaces the text by the line of an answer, with its end (own). Does not allocate.
    ///
    /// To write many lines, this moves fewer bytes than [`line_of`].
    pub fn write(&mut self, outcome: &Result<Answer, Apart>)
        ensures line { self.new ≡ answer_line outcome.now }
        ensures nonempty { 0 < length self.new }
        ensures fits { length self.new ≤ LINE }
    {
        self.text.clear();
        push_outcome(&mut self.text, outcome);
        self.text.push_str("\n");
    }
}

/// Returns the line of an answer, with its end (own). Does not allocate.
pub fn line_of(outcome: &Result<Answer, Apart>) -> LineText
    ensures line { result ≡ answer_line outcome.now }
    ensures nonempty { 0 < length result }
    ensures fits { length result ≤ LINE }
{
    let mut line = LineText::new();
    line.write(outcome);
    line
}
