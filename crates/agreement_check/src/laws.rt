//! Laws of the definitions, for whoever relies on them. The functions do nothing.
ghost use Rattle.std.specs.Prelude.{◌≡◌, ◌<◌, ◌^◌, ℕ, List, codes, length, nat_eq, true};
ghost use Rattle.std.specs.List.{starts_with};
ghost use Rattle.field_boxes.specs.Lists.{filter_list};
ghost use Rattle.field_boxes.specs.declared.rule_list.RuleList.{RuleList};
ghost use Rattle.ternary_words.specs.Views.{table_of};
ghost use Rattle.ternary_words.specs.declared.table.Table.{Table};
ghost use Rattle.agreement_check.specs.declared.valid.Valid.{Valid};
ghost use Rattle.agreement_check.specs.declared.wrong.Wrong.{Wrong};
ghost use Rattle.agreement_check.specs.Answers.{IsTrueOf};
ghost use Rattle.agreement_check.specs.Proofs.{IsRight, Proof, proof_text};
ghost use Rattle.agreement_check.specs.Streams.{ReadsTooMuch, ReadsWrong};
ghost use Rattle.agreement_check.specs.Verdict.{IsShown, IsValid, IsWrong};

use ternary_words::laws::first_match_answers;

/// What a valid text shows is true, whoever wrote it.
pub fn valid_proofs_are_true()
    ensures { (list : RuleList) (table : Table) (text : List ℕ) (v : Valid) → IsValid list table text v → IsTrueOf list table v.shown }
{
    first_match_answers();
}

/// The text of a right proof is valid: covers that hold, pairs in order, and each open pair among them.
pub fn right_proofs_are_valid()
    ensures { (list : RuleList) (table : Table) (p : Proof) (v : Valid) → IsRight list table p → length p.pairs < 2 ^ 32 →
        v.pairs ≡ length p.pairs → IsShown list table p.before v.shown → IsValid list table (proof_text list table p) v }
{}

/// A text that is valid isn't wrong, and one that is wrong is so in one line and for one reason, also where it goes on
/// after a limit.
pub fn a_text_has_one_verdict()
    ensures apart { (list : RuleList) (table : Table) (text : List ℕ) (v : Valid) (w : Wrong) → IsValid list table text v → IsWrong list table text w → ⊥ }
    ensures wrong { (list : RuleList) (table : Table) (text : List ℕ) (v w : Wrong) → IsWrong list table text v → IsWrong list table text w → v ≡ w }
    ensures limited { (list : RuleList) (table : Table) (limit : ℕ) (text : List ℕ) (v w : Wrong) →
        ReadsWrong list table limit text v → ReadsWrong list table limit text w → v ≡ w }
{}

/// Whether a proof is wrong depends on what list and table are, and not on how they are kept: one that goes on after a
/// limit, with no wrong line before it, isn't wrong within the limit.
pub fn equal_lists_have_one_verdict()
    ensures { (a b : RuleList) (s t : Table) (limit : ℕ) (text : List ℕ) (w : Wrong) → filter_list a ≡ filter_list b → table_of s ≡ table_of t →
        ReadsTooMuch a s limit text → ReadsWrong b t limit text w → ⊥ }
{}

/// The text of a valid proof begins with the word that tells it from a certificate of rows.
pub fn valid_proofs_begin_so()
    ensures { (list : RuleList) (table : Table) (text : List ℕ) (v : Valid) → IsValid list table text v → starts_with nat_eq text (codes "proof ") ≡ true }
{}
