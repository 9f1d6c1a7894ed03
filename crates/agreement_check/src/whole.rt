//! Checking a proof that is whole in memory.
ghost use Rattle.std.specs.Prelude.{◌≡◌, Err, IfOk};
ghost use Rattle.agreement_check.specs.declared.wrong.Wrong.{Wrong as wrong_line};
ghost use Rattle.agreement_check.specs.Answers.{IsTrueOf};
ghost use Rattle.agreement_check.specs.Verdict.{IsValid, IsWrong};

use crate::laws::valid_proofs_are_true;
use crate::reader::Reader;
use crate::stream::Stop;
use crate::valid::Valid;
use field_boxes::RuleList;
use std::alloc::Global;
use ternary_words::Table;

/// Checks the text of a proof, of any length.
pub fn check_text(alloc: Global, list: &RuleList, table: &Table, text: &[u8]) -> Result<Valid, Stop>
    ensures valid { IfOk result (IsValid list.now table.now text.now) }
    ensures wrong { (w : wrong_line) → result ≡ Err (Stop.Wrong w) → IsWrong list.now table.now text.now w }

    // What it shows is true, whoever wrote it.
    ensures is_true { IfOk result (λ v. IsTrueOf list.now table.now v.shown) }
{
    valid_proofs_are_true();
    let mut reader = Reader::new(alloc, list, table);
    reader.take(text)?;
    let valid = reader.end()?;
    Ok(valid)
}
