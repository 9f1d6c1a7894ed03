//! Proofs whose covers are found by halves, against the checker.
use agreement_check::{
    Pair, Shown, Sides, Step, Task, check_proof, entry_task, pair_task, rule_task,
};
use field_boxes::{Header, RuleList};
use filter_reader::read_list;
use razor_base::MemDesk;
use std::alloc::Global;
use std::process::Abort;
use std::test::Fail;
use table_equiv::{cover_by_halves, first_difference};
use table_text::read_table;
use ternary_words::{Table, key};
use word_cover::meets;

/// Some ports of one network are accepted, all else is denied.
const LIST: &[u8] =
    b"@10.0.0.0/8 0.0.0.0/0 0 : 65535 20 : 22 0x06/0xFF accept\n@0.0.0.0/0 0.0.0.0/0 0 : 65535 0 : 65535 0x00/0x00 deny\n";

/// The same in entries, with one of them left out, and behind a word that is no prefix.
const TABLES: [&[u8]; 3] = [
    b"table 2 slot 144 composed 3 entries 3\n0A000000/FF000000 00000000/00000000 0000/0000 0017/FFFF 06/FF deny\n0A000000/FF000000 00000000/00000000 0000/0000 0014/FFFC 06/FF accept\n00000000/00000000 00000000/00000000 0000/0000 0000/0000 00/00 deny\n",
    b"table 2 slot 144 composed 2 entries 2\n0A000000/FF000000 00000000/00000000 0000/0000 0014/FFFC 06/FF accept\n00000000/00000000 00000000/00000000 0000/0000 0000/0000 00/00 deny\n",
    b"table 2 slot 144 composed 3 entries 3\n00000001/0000FFFF 00000000/00000000 0000/0000 0000/0000 00/00 accept\n0A000000/FF000000 00000000/00000000 0000/0000 0014/FFFC 06/FF accept\n00000000/00000000 00000000/00000000 0000/0000 0000/0000 00/00 deny\n",
];

/// Puts the word of the step behind the text.
fn put_step(text: &mut String, step: Step) -> Result<(), Fail> {
    match step {
        Step::InRule(place) => write!(text, " r{}", u64::from(place) + 1)?,
        Step::InEntry(place) => write!(text, " e{}", u64::from(place) + 1)?,
        Step::Missed => write!(text, " -")?,
        Step::Late => write!(text, " >")?,
        Step::Halved(bit) => write!(text, " {bit}")?,
    }
    Ok(())
}

/// Puts a cover that shows the task behind the text, and ends the line.
fn put_cover(alloc: Global, text: &mut String, sides: &Sides, task: &Task) -> Result<(), Fail> {
    for step in &cover_by_halves(alloc, sides, task)? {
        put_step(text, *step)?;
    }
    writeln!(text)?;
    Ok(())
}

/// Whether rule and entry decide by other names, and may have a header both.
fn are_apart(sides: &Sides, pair: &Pair) -> bool {
    let entry = sides.entry_word(pair.entry);
    !sides.decide_alike(pair)
        && meets(&sides.rule_word(pair.rule), &entry)
        && sides.meets_rule(pair.rule, &entry)
}

/// Puts the lines of all pairs that are apart behind the text, and says how many there are.
fn put_pairs(alloc: Global, text: &mut String, sides: &Sides) -> Result<u64, Fail> {
    let mut count = 0u64;
    for entry in 0..sides.entry_count() + 1 {
        for rule in 0..sides.rule_count() + 1 {
            let pair = Pair { rule, entry };
            if are_apart(sides, &pair) {
                write!(text, "p {} {}", u64::from(rule) + 1, u64::from(entry) + 1)?;
                put_cover(alloc, text, sides, &pair_task(sides, &pair))?;
                count = count.saturating_add(1);
            }
        }
    }
    Ok(count)
}

/// The text of a proof, and how many pairs it has.
fn proof_of(alloc: Global, sides: &Sides, header: Option<Header>) -> Result<(String, u64), Fail> {
    let mut text = String::new(alloc);
    write!(
        text,
        "proof 1 rules {} entries {}",
        sides.rule_count(),
        sides.entry_count()
    )?;
    if let Some(header) = header {
        let [a, b, c, d, e] = header.values;
        write!(text, " before {a} {b} {c} {d} {e}")?;
    }
    writeln!(text)?;
    for entry in 0..sides.entry_count() + 1 {
        write!(text, "e")?;
        put_cover(alloc, &mut text, sides, &entry_task(sides, entry))?;
    }
    for rule in 0..sides.rule_count() + 1 {
        write!(text, "r")?;
        put_cover(alloc, &mut text, sides, &rule_task(sides, rule))?;
    }
    let pairs = put_pairs(alloc, &mut text, sides)?;
    writeln!(text, "pairs {pairs}")?;
    Ok((text, pairs))
}

/// The proof of what the descent finds is valid, and shows the same.
fn expect(rt: &impl Abort, alloc: Global, list: &RuleList, table: &Table) -> Result<(), Fail> {
    let header = first_difference(alloc, list, table)?;
    let bound = match header {
        Some(header) => key(header.values),
        None => 1 << 104,
    };
    let sides = Sides { list, table, bound };
    let (text, pairs) = proof_of(alloc, &sides, header)?;
    let mut desk = MemDesk::new(alloc);
    desk.add("proof", text.as_bytes())?;
    let mut buffer = [0; 256];
    let valid = check_proof(alloc, list, table, &mut desk, "proof", &mut buffer, 0)?;
    assert_eq!(rt; valid.pairs, pairs);
    let shown = match valid.shown {
        Shown::Equal => None,
        Shown::Differ(difference) => Some(difference.header),
    };
    assert_eq!(rt; shown, header);
    Ok(())
}

#[test]
fn a_proof_by_halves_is_valid(rt: HostRuntime) -> Result<(), Fail> {
    let list = read_list(rt.alloc(), LIST)?;
    for text in TABLES {
        let table = read_table(rt.alloc(), text)?;
        expect(&rt, rt.alloc(), &list, &table)?;
    }
    Ok(())
}
