//! Checking a certificate that is there whole.
ghost use Rattle.std.specs.Prelude.{◌≡◌, IfOk, IfErr, OnOk};
ghost use Rattle.partition_check.specs.Agreement.{Agree, HaveNames};
ghost use Rattle.partition_check.specs.Verdict.{IsValid, IsWrong};

use crate::checker::Checker;
use crate::reader::Reader;
use crate::row::Wrong;

/// Checks the certificate's text, and gives the number of rows.
///
/// The checker has accepted no row. It takes no memory, and knows no limit.
pub fn check_whole(checker: Checker<'_>, text: &[u8]) -> Result<u64, Wrong>
    requires { checker.accepted ≡ 0 }
    ensures valid { IfOk result (λ rows. IsValid checker.entry text.now rows) }
    ensures agree { OnOk result (Agree checker.entry.list checker.entry.table) }
    ensures wrong { IfErr result (λ w. IsWrong checker.entry text.now w) }
    ensures named { IfErr result (λ w. HaveNames checker.entry.list checker.entry.table w.why) }
{
    let mut reader = Reader {
        checker,
        ended: None,
    };
    let start = reader.take_lines(text)?;
    reader.end(&text[start..])
}
