//! Commits of an editing session.
ghost use Rattle.std.specs.Prelude.{◌≡◌, ◌<◌, All, IfOk};
ghost use Rattle.field_boxes.specs.NamedRules.{IsNumberedBy};
ghost use Rattle.field_boxes.specs.FilterRules.{IsFilterRule};
ghost use Rattle.edit_session.specs.Lists.{IsEditable};

use crate::input::{input, list_of};
use crate::numbers::Numbers;
use crate::tables::checksum;
use anyhow::{Result, anyhow, ensure};
use edit_session::{Editor, Method};
use field_boxes::{Order, Rule, RuleList, decision_word};
use razor_base::limits::{MOST_ENTRIES, MOST_LIST_BYTES};
use rule_compilation::{Compiler, compile};
use std::alloc::Global;
use std::fs::Files;
use std::time::CpuClock;
use tcam_sim::Bank;
use ternary_words::{Limit, SlotWidth, Table};

/// What compiles the list at a commit.
#[derive(Clone, Copy, Debug, PartialEq, Eq)]
pub enum Way {
    /// The session, which may keep what it worked out.
    Session,
    /// `compile` and a compiler that keeps what it worked out, one after the other: both must give the same table.
    Both,
}

/// As many slots as the memory has.
const SLOTS: u32 = 65_536;

const SLOT: SlotWidth = SlotWidth { bits: 144 };

const LIMIT: Limit = Limit { count: 262_144 };

const NAMES: [&str; 2] = ["accept", "deny"];

/// The edits of a list with an open rule at its end. At the first place, in the middle, and at the last place in front of
/// the open rule, in turn, a rule is taken out and another one put there.
#[derive(Clone, Copy)]
struct Edits {
    numbers: Numbers,
    turn: u32,
}

/// Reads the list on standard input, commits it, and so often does so many edits and commits it again. Prints how many
/// entries each table has, and how long it took to be made; the swap to it is aborted.
pub fn run(
    rt: &(impl Files + Input + Print + CpuClock + AllocGlobal),
    way: Way,
    edits: u32,
    commits: u32,
) -> Result<()> {
    let bytes = input(rt, MOST_LIST_BYTES)?;
    let list = list_of(rt.alloc(), &bytes)?;
    let order = Order::stated();
    let mut editor = session(rt.alloc(), list, &order, SLOTS)?;
    commit_often(rt, way, &mut editor, edits, commits)
}

/// Commits the list, and so often does so many edits and commits it again.
fn commit_often(
    rt: &(impl Print + CpuClock + AllocGlobal),
    way: Way,
    editor: &mut Editor<'_, Bank>,
    edits: u32,
    commits: u32,
) -> Result<()> {
    let order = Order::stated();
    let mut compiler = Compiler::new(rt.alloc(), &order);
    commit_over(rt, way, &mut compiler, editor, edits, commits)
}

/// The same, over a compiler that keeps what it worked out.
fn commit_over(
    rt: &(impl Print + CpuClock + AllocGlobal),
    way: Way,
    compiler: &mut Compiler<'_>,
    editor: &mut Editor<'_, Bank>,
    edits: u32,
    commits: u32,
) -> Result<()> {
    let mut drawn = Edits {
        numbers: Numbers::new(20),
        turn: 0,
    };
    commit(rt, way, compiler, editor)?;
    for _commit in 0..commits {
        edit_often(rt.alloc(), editor, &mut drawn, edits)?;
        commit(rt, way, compiler, editor)?;
    }
    Ok(())
}

/// A session over the list and an empty memory of so many slots.
fn session<'a>(
    alloc: Global,
    list: RuleList,
    order: &'a Order,
    slots: u32,
) -> Result<Editor<'a, Bank>> {
    ensure!(1 <= slots, "no slots");
    ensure!(slots <= MOST_ENTRIES, "too many slots");
    let bank = Bank::new(alloc, slots)?;
    let method = Method::Compiled(order);
    Ok(Editor::new(alloc, list, method, SLOT, LIMIT, bank))
}

/// Commits the list.
fn commit(
    rt: &(impl Print + CpuClock + AllocGlobal),
    way: Way,
    compiler: &mut Compiler<'_>,
    editor: &mut Editor<'_, Bank>,
) -> Result<()> {
    match way {
        Way::Session => commit_kept(rt, editor),
        Way::Both => compile_both(rt, compiler, editor),
    }
}

/// Has the session commit the list, prints how many entries its table has and how long it took, and aborts the swap.
fn commit_kept(
    rt: &(impl Print + CpuClock + AllocGlobal),
    editor: &mut Editor<'_, Bank>,
) -> Result<()> {
    let start = rt.thread_cpu_time()?;
    let entries = editor.commit()?;
    let time = rt.thread_cpu_time()?.saturating_sub(start);
    let _stage = editor.abort().ok();
    println!(rt;
        "rules {} entries {entries} nanoseconds {}",
        editor.count(),
        time.as_nanos()
    )?;
    Ok(())
}

/// Compiles the list anew and right after that over what the compiler kept, which must give the same table. Prints how
/// many entries it has and how long either took.
fn compile_both(
    rt: &(impl Print + CpuClock + AllocGlobal),
    compiler: &mut Compiler<'_>,
    editor: &Editor<'_, Bank>,
) -> Result<()> {
    let rules = editor.rules(rt.alloc())?;
    let start = rt.thread_cpu_time()?;
    let anew = table_of(rt.alloc(), rules.as_slice(), editor)?;
    let middle = rt.thread_cpu_time()?;
    let kept = kept_table(compiler, rules.as_slice(), editor)?;
    let end = rt.thread_cpu_time()?;
    compare(&anew, &kept)?;
    println!(rt;
        "rules {} entries {} nanoseconds {} anew {}",
        editor.count(),
        anew.entries.len(),
        end.saturating_sub(middle).as_nanos(),
        middle.saturating_sub(start).as_nanos()
    )?;
    Ok(())
}

/// The tables are the same.
fn compare(anew: &Table, kept: &Table) -> Result<()> {
    ensure!(anew.composed == kept.composed, "the costs differ");
    ensure!(
        checksum(&anew.entries) == checksum(&kept.entries),
        "the entries differ"
    );
    Ok(())
}

/// The table of the list, of which these are the rules, compiled anew.
fn table_of(alloc: Global, rules: &[Rule], editor: &Editor<'_, Bank>) -> Result<Table>
    requires { All (IsNumberedBy editor.now.session.list.names) rules.now }
{
    compile(alloc, rules, editor.names(), LIMIT, SLOT).map_err(|_refused| anyhow!(
        "no table is composed"
    ))
}

/// The table of the list, of which these are the rules, over what the compiler kept.
fn kept_table(
    compiler: &mut Compiler<'_>,
    rules: &[Rule],
    editor: &Editor<'_, Bank>,
) -> Result<Table>
    requires { All (IsNumberedBy editor.now.session.list.names) rules.now }
{
    compiler
        .compile(rules, editor.names(), LIMIT, SLOT)
        .map_err(|_refused| anyhow!("no table is composed"))
}

/// Does so many edits.
fn edit_often(
    alloc: Global,
    editor: &mut Editor<'_, Bank>,
    drawn: &mut Edits,
    edits: u32,
) -> Result<()> {
    for _edit in 0..edits {
        edit(alloc, editor, drawn)?;
    }
    Ok(())
}

/// Does the next edit.
fn edit(alloc: Global, editor: &mut Editor<'_, Bank>, drawn: &mut Edits) -> Result<()> {
    let turn = drawn.turn;
    drawn.turn = turn.wrapping_add(1) % 6;
    let place = place_of(turn / 2, editor.count());
    if turn % 2 == 0 {
        let _left = editor.take_out(place)?;
        return Ok(());
    }
    add(alloc, editor, drawn, place)
}

/// The first place of a list of so many rules, the one in the middle, or the last one in front of its last rule.
fn place_of(which: u32, rules: u32) -> u32 {
    match which {
        0 => 1,
        1 => rules / 2,
        _ => rules.saturating_sub(1),
    }
}

/// Puts a rule at the place that has its columns from rules of the list.
fn add(alloc: Global, editor: &mut Editor<'_, Bank>, drawn: &mut Edits, place: u32) -> Result<()> {
    let rules = editor.rules(alloc)?;
    add_like(editor, rules.as_slice(), drawn, place)
}

/// Puts a rule at the place that has its columns from these.
fn add_like(
    editor: &mut Editor<'_, Bank>,
    rules: &[Rule],
    drawn: &mut Edits,
    place: u32,
) -> Result<()>
    requires { All IsFilterRule rules.now }
{
    let rule = rule_of_list(rules, &mut drawn.numbers)?;
    let name = NAMES[drawn.numbers.below(2) as usize];
    ensure!(decision_word(name.as_bytes()), "{name} is no decision");
    ensure!(editor.names().count() < 1000, "too many names");
    let _rules = editor.add(place, &rule, name)?;
    Ok(())
}

/// A rule with the source of a rule of the list, the destination of another one, and the ports and protocol of a third.
fn rule_of_list(rules: &[Rule], numbers: &mut Numbers) -> Result<Rule>
    requires { All IsFilterRule rules.now }
    ensures { IfOk result IsEditable }
{
    let count = u32::try_from(rules.len())?;
    ensure!(0 < count, "no rules");
    let source = numbers.below(count) as usize;
    let destination = numbers.below(count) as usize;
    let ports = numbers.below(count) as usize;
    Ok(Rule {
        source: rules[source].source,
        destination: rules[destination].destination,
        ports: rules[ports].ports,
        protocol: rules[ports].protocol,
        decision: 0,
    })
}
