//! Laws of the definitions, for whoever relies on them. The functions do nothing.
ghost use Rattle.std.specs.Prelude.{◌≡◌, ℕ, List, All, IsTrue, Ok};
ghost use Rattle.ternary_words.specs.Headline.Table.{Table as Spelled};
ghost use Rattle.table_text.specs.Headline.TableText.{table_text};
ghost use Rattle.ternary_words.specs.Views.{table_of};
ghost use Rattle.ternary_words.specs.declared.table.Table.{Table};
ghost use Rattle.table_text.specs.Names.{is_name};
ghost use Rattle.table_text.specs.Reading.{table_in_text};
ghost use Rattle.table_text.specs.UpperCase.{is_upper_text};

/// The text of a table spells that table, where each of its names is a decision word or the name of a rule.
pub fn written_tables_are_read()
    ensures { (table : Table) → All (λ name. IsTrue (is_name name)) table.names →
        table_in_text (table_text (table_of table)) ≡ Ok (table_of table) }
{}

/// A text of the second version, its digits in upper case, is the text of the table that it spells.
pub fn upper_case_texts_are_written_as_they_were_read()
    ensures { (text : List ℕ) (table : Spelled) → table_in_text text ≡ Ok table → IsTrue (is_upper_text text) → table_text table ≡ text }
{}

/// The text of a table is in upper case, where its names can be spelled.
pub fn written_tables_are_in_upper_case()
    ensures { (table : Table) → All (λ name. IsTrue (is_name name)) table.names → IsTrue (is_upper_text (table_text (table_of table))) }
{}
