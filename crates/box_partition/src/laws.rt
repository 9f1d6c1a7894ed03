//! Laws of the certificate, for whoever relies on it. The functions do nothing.
ghost use Rattle.std.specs.Prelude.{◌≡◌, ◌≤◌, List, length};
ghost use Rattle.razor_limits.specs.declared.limits.TheConstants.{MOST_CERTIFICATE_BYTES};
ghost use Rattle.field_boxes.specs.declared.rule_list.RuleList.{RuleList};
ghost use Rattle.ternary_words.specs.declared.table.Table.{Table};
ghost use Rattle.partition_check.specs.Agreement.{Agree};
ghost use Rattle.partition_check.specs.Checking.{Statement, begun};
ghost use Rattle.partition_check.specs.Good.{certificate_text};
ghost use Rattle.partition_check.specs.Verdict.{IsValid};
ghost use Rattle.box_partition.specs.Certificate.{IsCertificate};

use partition_check::laws::{first_matches_decide, valid_texts_are_good_certificates};

/// A list and a table that agree have one certificate, and no other one.
pub fn one_certificate()
    ensures some { (list : RuleList) (table : Table) → Agree list table → (rows : List Statement) × IsCertificate list table rows }
    ensures one { (list : RuleList) (table : Table) (rows others : List Statement) → IsCertificate list table rows → IsCertificate list table others → rows ≡ others }
{
    first_matches_decide();
}

/// The checker finds the certificate valid, if its text has at most 268,435,456 bytes.
pub fn certificates_are_valid()
    ensures { (list : RuleList) (table : Table) (rows : List Statement) → IsCertificate list table rows → length (certificate_text rows) ≤ MOST_CERTIFICATE_BYTES →
        IsValid (begun list table) (certificate_text rows) (length rows) }
{
    valid_texts_are_good_certificates();
}
