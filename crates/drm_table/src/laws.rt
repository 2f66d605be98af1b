//! Laws of the table. Each function is its contract; calling it does nothing.
ghost use Rattle.std.specs.Prelude.{◌≡◌, ◌↔◌, ℕ, List, Some};
ghost use Rattle.drm_table.specs.Answers.{AreToldBy, HasToldWidths, TellsBack, answer_kind_of, answer_number, answer_with, told};
ghost use Rattle.drm_table.specs.Rules.{IsFoundByNumber, apart_number, apart_of_number, rule_number, rule_of_number};
ghost use Rattle.drm_table.specs.Table.{AreFieldsOf, HasWidths, IsFoundBy, IsReadBack, call_row, call_with, kind_number, call_kind_of, call_kind_of_word, kind_word};
ghost use Rattle.drm_table.specs.declared.answer_kinds.AnswerKind.{AnswerKind as AnAnswerKind};
ghost use Rattle.drm_table.specs.declared.answers.Answer.{Answer as AnAnswer};
ghost use Rattle.drm_table.specs.declared.calls.Call.{Call as ACall};
ghost use Rattle.drm_table.specs.declared.fields.Field.{Field as AField};
ghost use Rattle.drm_table.specs.declared.calls.CallKind.{CallKind as AKind};

/// A call is the call of its row and its fields, and of no other row and fields (own).
pub fn calls_by_their_fields()
    ensures read_back { (call : ACall) → IsReadBack call (call_row call) }
    ensures fields { (kind : AKind) (fields : List AField)
        → AreFieldsOf kind fields (call_with kind fields) }
    ensures widths { (call : ACall) → HasWidths (call_row call) }
{}

/// A row is found by its number and by its word, and by no others (own).
pub fn rows_by_their_numbers_and_words()
    ensures numbers { IsFoundBy call_kind_of kind_number }
    ensures words { IsFoundBy call_kind_of_word kind_word }
{}

/// An answer is the answer of its content, and of no other content (own).
pub fn answers_by_their_fields()
    ensures told { (answer : AnAnswer) → TellsBack answer (told answer) }
    ensures row { (kind : AnAnswerKind) (fields : List AField)
        → AreToldBy kind fields (answer_with kind fields) }
    ensures widths { (answer : AnAnswer) → HasToldWidths (told answer) }
    ensures numbers { (kind : AnAnswerKind) (number : ℕ)
        → (answer_kind_of number ≡ Some kind) ↔ (answer_number kind ≡ number) }
{}

/// A rule is found by its number, a fault by its own, and neither by another (own).
pub fn refusals_by_their_numbers()
    ensures rules { IsFoundByNumber rule_of_number rule_number }
    ensures aparts { IsFoundByNumber apart_of_number apart_number }
{}
