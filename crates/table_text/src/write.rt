//! Writing a table.
ghost use Rattle.std.specs.Prelude.{◌≤◌, ◌*◌, ◌/◌, ◌^◌, ◌∷◌, [], ◌++◌, length};
ghost use Rattle.std.specs.List.{flat_map};
ghost use Rattle.razor_base.specs.Output.{Puts, Writes};
ghost use Rattle.field_boxes.specs.Headline.Bits.{bits};
ghost use Rattle.field_boxes.specs.Headline.Fields.{stated};
ghost use Rattle.table_text.specs.Headline.Hexadecimal.{hex_digits};
ghost use Rattle.table_text.specs.Headline.TableText.{columns_text, entry_line, first_line, table_text};
ghost use Rattle.ternary_words.specs.Views.{entry_of, table_of, word_of};

use crate::hexadecimal::hexadecimal;
use field_boxes::Decisions;
use razor_base::{Failed, Part, Pending, Sink, put_parts};
use ternary_words::{Entry, Table, Word};

/// Writes the text of the table, in large pieces and without taking memory.
#[inline(never)]
pub fn write_table<K: Sink>(table: &Table, out: &mut K) -> Result<(), Failed>
    ensures { Writes K.written K.faults out.old out.new (table_text (table_of table.now)) result }
{
    let mut pending = Pending::new();
    put_first_line(table, &mut pending, out)?;
    put_entries(table, &mut pending, out)?;
    pending.flush(out)
}

/// Puts the first line: the slot's width, the number composed, and the number of entries.
fn put_first_line<K: Sink>(table: &Table, pending: &mut Pending, out: &mut K) -> Result<(), Failed>
    ensures { Puts K.written K.faults out.old out.new pending.old pending.new (first_line (table_of table.now)) result }
{
    put_parts(
        pending,
        out,
        &[
            Part::Text("table 2 slot "),
            Part::Number(u128::from(table.slot.bits)),
            Part::Text(" composed "),
            Part::Number(u128::from(table.composed)),
            Part::Text(" entries "),
            Part::Number(table.entries.len() as u128),
            Part::Text("\n"),
        ],
    )
}

/// Puts a line for each entry.
fn put_entries<K: Sink>(table: &Table, pending: &mut Pending, out: &mut K) -> Result<(), Failed>
    ensures { Puts K.written K.faults out.old out.new pending.old pending.new (flat_map entry_line (table_of table.now).entries) result }
{
    for entry in &table.entries {
        put_entry(entry, &table.names, pending, out)?;
    }
    Ok(())
}

/// Puts the line of an entry: a column for each field, and the name of the decision.
fn put_entry<K: Sink>(
    entry: &Entry,
    names: &Decisions,
    pending: &mut Pending,
    out: &mut K,
) -> Result<(), Failed>
    requires { entry.now.decision ≤ length names.now }
    ensures { Puts K.written K.faults out.old out.new pending.old pending.new (entry_line (entry_of names.now entry.now)) result }
{
    put_word(&entry.word, pending, out)?;
    let name = names.name(entry.decision);
    put_parts(pending, out, &[Part::Text(name), Part::Text("\n")])
}

/// Puts the five columns of a word, and a space behind each.
pub fn put_word<K: Sink>(word: &Word, pending: &mut Pending, out: &mut K) -> Result<(), Failed>
    ensures { Puts K.written K.faults out.old out.new pending.old pending.new (columns_text stated (word_of word.now)) result }
{
    put_column(word, 72, 8, pending, out)?;
    put_column(word, 40, 8, pending, out)?;
    put_column(word, 24, 4, pending, out)?;
    put_column(word, 8, 4, pending, out)?;
    put_column(word, 0, 2, pending, out)
}

/// Puts a column and a space: what the word has from the bit `low` on, in so many digits.
fn put_column<K: Sink>(
    word: &Word,
    low: u8,
    digits: usize,
    pending: &mut Pending,
    out: &mut K,
) -> Result<(), Failed>
    requires low { low ≤ 72 }
    requires digits { digits ≤ 8 }
    ensures { Puts K.written K.faults out.old out.new pending.old pending.new
        (hex_digits (bits (4 * digits) (word.now.value / 2 ^ low)) ++ 47 ∷ [] ++ (hex_digits (bits (4 * digits) (word.now.mask / 2 ^ low)) ++ 32 ∷ [])) result }
{
    let value = hexadecimal(word.value >> low, b'/');
    let mask = hexadecimal(word.mask >> low, b' ');
    pending.put(out, &value[8 - digits..])?;
    pending.put(out, &mask[8 - digits..])
}
