//! The certificate of a list and a table.
ghost use Rattle.std.specs.Prelude.{◌≡◌, ◌≤◌, List, [], ◌∷◌, ◌++◌, length, IfOk, IfErr, OnOk, IsErrOf};
ghost use Rattle.razor_limits.specs.Counts.{Rose};
ghost use Rattle.razor_base.specs.Headline.Outcomes.{Extends};
ghost use Rattle.razor_base.specs.Output.{Puts};
ghost use Rattle.field_boxes.specs.Headline.Fields.{stated};
ghost use Rattle.node_store.specs.Diagram.{level_of};
ghost use Rattle.partition_check.specs.Agreement.{Agree};
ghost use Rattle.partition_check.specs.Checking.{Statement};
ghost use Rattle.partition_check.specs.Good.{certificate_text, last_text};
ghost use Rattle.partition_check.specs.PrefixWords.{ArePrefixes};
ghost use Rattle.box_partition.specs.Outcome.{AreWritesOf, Ends, IsWriting, IsWritten};
ghost use Rattle.box_partition.specs.Output.{PutsUntil};
ghost use Rattle.box_partition.specs.Rows.{AreRowsOf};
ghost use Rattle.box_partition.specs.declared.error.CertError.TheVariants.{Fault, Memory};

use crate::difference::differ;
use crate::error::CertError;
use crate::standing::{entries_by_place, rules_by_place};
use crate::stop::Stop;
use crate::walk::Walk;
use fdd_build::build;
use field_boxes::{RuleList, Span};
use list_equiv::Verdict;
use node_store::{NodeId, Store, stated_order};
use partition_check::laws::first_matches_decide;
use partition_check::only_prefixes;
use razor_base::{Failed, Part, Pending, Sink, put_parts};
use std::alloc::Global;
use ternary_words::Table;

/// Writes the certificate that list and table decide every header alike, and answers how many rows it has.
///
/// It is the coarsest certificate, and the only one. A table with a word that isn't a prefix in each field
/// is refused first, then a list and a table that differ on a header; nothing is written then. The rows go
/// out as they are found, so a front of them was written where a write failed or memory was refused. The
/// cost is that of four diagrams and of the rows, which may be far more than the rules and the entries.
pub fn write_certificate<K: Sink>(
    alloc: Global,
    list: &RuleList,
    table: &Table,
    out: &mut K,
) -> Result<u128, CertError>
    ensures ok { IfOk result (λ rows. IsWritten list.now table.now (K.written out.old) (K.written out.new) rows) }
    ensures prefixes { OnOk result (ArePrefixes table.now.entries.items) }
    ensures err { IfErr result (λ error. Ends list.now table.now (K.written out.old) (K.written out.new) error) }

    // A fault comes only where the sink's count of them rose, which never falls, and a refusal of memory only where it
    // stayed.
    ensures fault { IsErrOf result Fault → Rose (K.faults out.old) (K.faults out.new) }
    ensures memory { IsErrOf result Memory → K.faults out.new ≡ K.faults out.old }
    ensures counts { K.faults out.old ≤ K.faults out.new }

    // No write failed but the last one of a call that ends by it.
    ensures writes { Extends (K.written out.old) (K.written out.new) (AreWritesOf result) }
{
    only_prefixes(table)?;
    match differ(alloc, list, table)? {
        Verdict::Differ {
            header,
            left,
            right,
        } => Err(CertError::Differs {
            header,
            left,
            right,
        }),
        Verdict::Equal => {
            let rows = write_rows(alloc, list, table, out)?;
            Ok(rows)
        }
    }
}

/// Writes the certificate of a list and a table that agree.
fn write_rows<K: Sink>(
    alloc: Global,
    list: &RuleList,
    table: &Table,
    out: &mut K,
) -> Result<u128, Stop>
    requires prefixes { ArePrefixes table.now.entries.items }
    requires agree { Agree list.now table.now }
    ensures { IsWriting list.now table.now K.written K.faults out.old out.new result }
{
    first_matches_decide();
    let rules = rules_by_place(alloc, &list.rules)?;
    let entries = entries_by_place(alloc, &table.entries)?;
    let mut store = Store::new(alloc);
    let first_rule = build(alloc, &mut store, &stated_order(), &rules)?;
    let first_entry = build(alloc, &mut store, &stated_order(), &entries)?;
    write_nodes(alloc, &store, first_rule, first_entry, out)
}

/// Writes the rows of two diagrams, and the last line.
#[inline(never)]
fn write_nodes<K: Sink>(
    alloc: Global,
    store: &Store,
    left: NodeId,
    right: NodeId,
    out: &mut K,
) -> Result<u128, Stop>
    requires left { level_of store.now left.0 ≡ stated }
    requires right { level_of store.now right.0 ≡ stated }
    ensures puts { (rows : List Statement) → AreRowsOf store.now 0 left.0 right.0 rows →
        PutsUntil K.written K.faults out.old out.new [] [] (certificate_text rows) result }
    ensures count { (rows : List Statement) → AreRowsOf store.now 0 left.0 right.0 rows → IfOk result (λ n. n ≡ length rows) }
{
    let walk = Walk { alloc, store };
    let mut pending = Pending::new();
    let spans = [Span { lo: 0, hi: 0 }; 5];
    let rows = walk.rows(0, spans, left, right, &mut pending, out)?;
    put_last(rows, &mut pending, out)?;
    pending.flush(out)?;
    Ok(rows)
}

/// Puts the last line, which states so many rows.
fn put_last<K: Sink>(rows: u128, pending: &mut Pending, out: &mut K) -> Result<(), Failed>
    ensures { Puts K.written K.faults out.old out.new pending.old pending.new (last_text rows ++ 10 ∷ []) result }
{
    let last = [Part::Text("rows "), Part::Number(rows), Part::Text("\n")];
    put_parts(pending, out, &last)
}
