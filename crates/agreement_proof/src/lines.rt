//! The parts of lines.
ghost use Rattle.std.specs.Prelude.{◌≡◌, ◌+◌, ◌∷◌, [], ◌++◌, OnOk, codes, length};
ghost use Rattle.std.specs.Fmt.{decimal};
ghost use Rattle.agreement_check.specs.Proofs.{before_text, heading_text, numbers_text, word_text};
ghost use Rattle.agreement_proof.specs.Outcome.{values_of};
ghost use Rattle.agreement_proof.specs.Texts.{pair_line_text, steps_text};

use agreement_check::{Pair, Sides, Step};
use field_boxes::Header;
use itoa::Buffer;
use razor_limits::Memory;

/// Puts a number in decimal behind the text.
fn put_number(text: &mut Vec<u8>, number: u64) -> Result<(), Memory>
    ensures { OnOk result (text.new.items ≡ text.old.items ++ decimal number) }
{
    let mut buffer = Buffer::new();
    text.extend_from_slice(buffer.format(number).as_bytes())?;
    Ok(())
}

/// Puts bytes and a number behind the text.
fn put_behind(text: &mut Vec<u8>, front: &[u8], number: u64) -> Result<(), Memory>
    ensures { OnOk result (text.new.items ≡ text.old.items ++ (front.now ++ decimal number)) }
{
    text.extend_from_slice(front)?;
    put_number(text, number)
}

/// Puts a space and the word of the step behind the text.
fn put_step(text: &mut Vec<u8>, step: Step) -> Result<(), Memory>
    ensures { OnOk result (text.new.items ≡ text.old.items ++ (32 ∷ word_text step)) }
{
    match step {
        Step::InRule(place) => put_behind(text, b" r", u64::from(place) + 1),
        Step::InEntry(place) => put_behind(text, b" e", u64::from(place) + 1),
        Step::Missed => {
            text.extend_from_slice(b" -")?;
            Ok(())
        }
        Step::Late => {
            text.extend_from_slice(b" >")?;
            Ok(())
        }
        Step::Halved(bit) => put_behind(text, b" ", u64::from(bit)),
    }
}

/// Puts a cover and the end of the line behind the text.
pub(crate) fn put_cover(text: &mut Vec<u8>, steps: &[Step]) -> Result<(), Memory>
    ensures { OnOk result (text.new.items ≡ text.old.items ++ steps_text steps.now) }
{
    for step in steps {
        put_step(text, *step)?;
    }
    text.push(b'\n')?;
    Ok(())
}

/// Puts the line of an entry behind the text.
pub(crate) fn put_entry(text: &mut Vec<u8>, steps: &[Step]) -> Result<(), Memory>
    ensures { OnOk result (text.new.items ≡ text.old.items ++ (101 ∷ steps_text steps.now)) }
{
    text.push(b'e')?;
    put_cover(text, steps)
}

/// Puts the line of a rule behind the text.
pub(crate) fn put_rule(text: &mut Vec<u8>, steps: &[Step]) -> Result<(), Memory>
    ensures { OnOk result (text.new.items ≡ text.old.items ++ (114 ∷ steps_text steps.now)) }
{
    text.push(b'r')?;
    put_cover(text, steps)
}

/// Puts the line of a pair behind the text.
pub(crate) fn put_pair(text: &mut Vec<u8>, pair: &Pair, steps: &[Step]) -> Result<(), Memory>
    ensures { OnOk result (text.new.items ≡ text.old.items ++ pair_line_text pair.now steps.now) }
{
    put_behind(text, b"p ", u64::from(pair.rule) + 1)?;
    put_behind(text, b" ", u64::from(pair.entry) + 1)?;
    put_cover(text, steps)
}

/// Puts a space and a number for each behind the text.
fn put_numbers(text: &mut Vec<u8>, numbers: &[u32]) -> Result<(), Memory>
    ensures { OnOk result (text.new.items ≡ text.old.items ++ numbers_text numbers.now) }
{
    for number in numbers {
        put_behind(text, b" ", u64::from(*number))?;
    }
    Ok(())
}

/// Puts the header that the first line states behind the text.
fn put_before(text: &mut Vec<u8>, header: Option<Header>) -> Result<(), Memory>
    ensures { OnOk result (text.new.items ≡ text.old.items ++ before_text (values_of header)) }
{
    let Some(header) = header else {
        return Ok(());
    };
    text.extend_from_slice(b" before")?;
    put_numbers(text, &header.values)
}

/// Puts the first line behind the text.
pub(crate) fn put_heading(
    text: &mut Vec<u8>,
    sides: &Sides,
    header: Option<Header>,
) -> Result<(), Memory>
    ensures { OnOk result (text.new.items ≡ text.old.items ++ heading_text (length sides.now.list.now.rules.items) (length sides.now.table.now.entries.items) (values_of header)) }
{
    put_behind(text, b"proof 1 rules ", u64::from(sides.rule_count()))?;
    put_behind(text, b" entries ", u64::from(sides.entry_count()))?;
    put_before(text, header)?;
    text.push(b'\n')?;
    Ok(())
}

/// Puts the last line behind the text.
pub(crate) fn put_end(text: &mut Vec<u8>, pairs: u64) -> Result<(), Memory>
    ensures { OnOk result (text.new.items ≡ text.old.items ++ (codes "pairs " ++ (decimal pairs ++ 10 ∷ []))) }
{
    put_behind(text, b"pairs ", pairs)?;
    text.push(b'\n')?;
    Ok(())
}
