//! The steps of compiling a list, one after another, and how long each takes of its processor.
ghost use Rattle.std.specs.Prelude.{◌≡◌, IfOk};
ghost use Rattle.field_boxes.specs.Headline.Fields.{stated};
ghost use Rattle.node_store.specs.Diagram.{level_of};
ghost use Rattle.table_compose.specs.Plans.{ArePlansOf, IsMarked};

use crate::input::{input, list_of};
use anyhow::{Result, bail};
use fdd_build::build;
use field_boxes::Rule;
use node_store::{NodeId, Store, stated_order};
use razor_base::limits::{MOST_ENTRIES, MOST_LIST_BYTES};
use redundancy::Removal;
use redundancy_laws::laws::orders;
use std::alloc::Global;
use std::fs::Files;
use std::time::{CpuClock, Duration};
use table_compose::{Plans, Row, cost};
use ternary_words::Entry;

/// Compiles the list on standard input so often, and prints for each step its result and its nanoseconds. A list that
/// costs too much ends with its cost.
pub fn run(rt: &(impl Files + Input + Print + CpuClock + AllocGlobal), times: u32) -> Result<()> {
    let bytes = input(rt, MOST_LIST_BYTES)?;
    for _time in 0..times {
        compile(rt, &bytes)?;
    }
    Ok(())
}

/// Reads the list, and goes on from there.
fn compile(rt: &(impl Print + CpuClock + AllocGlobal), bytes: &[u8]) -> Result<()> {
    let start = rt.thread_cpu_time()?;
    let list = list_of(rt.alloc(), bytes)?;
    tell(rt, "rules", list.rules.len() as u128, start)?;
    let mut store = Store::new(rt.alloc());
    diagram(rt, &mut store, &list.rules)
}

/// Builds the diagram of the rules, and goes on from there.
fn diagram(
    rt: &(impl Print + CpuClock + AllocGlobal),
    store: &mut Store,
    rules: &[Rule],
) -> Result<()> {
    let start = rt.thread_cpu_time()?;
    let root = build(rt.alloc(), store, &stated_order(), rules)?;
    tell(rt, "nodes", store.count() as u128, start)?;
    if costed(rt, store, root)? <= u128::from(MOST_ENTRIES) {
        tight(rt, store, root)?;
    }
    Ok(())
}

/// What the diagram costs.
fn costed(rt: &(impl Print + CpuClock + AllocGlobal), store: &Store, root: NodeId) -> Result<u128>
    requires { level_of store.now root.0 ≡ stated }
{
    let start = rt.thread_cpu_time()?;
    let cost = cost(rt.alloc(), store, root)?;
    tell(rt, "cost", cost, start)?;
    Ok(cost)
}

/// Finds the cheapest prefix lists of the diagram's nodes, and what stays of the table that is composed of them.
fn tight(rt: &(impl Print + CpuClock + AllocGlobal), store: &Store, root: NodeId) -> Result<()>
    requires { level_of store.now root.0 ≡ stated }
{
    let start = rt.thread_cpu_time()?;
    let plans = planned(rt.alloc(), store, root)?;
    tell_rows(rt, RowTally::of(&plans), start)?;
    let start = rt.thread_cpu_time()?;
    let entries = needed(rt.alloc(), store, &plans, root)?;
    tell(rt, "entries", entries.len() as u128, start)
}

/// Prints what came of a step, and its nanoseconds.
fn tell(rt: &(impl Print + CpuClock), what: &str, number: u128, start: Duration) -> Result<()> {
    let time = since(rt, start)?;
    println!(rt; "{what} {number} nanoseconds {time}")?;
    Ok(())
}

/// Prints the numbers of the prefix lists, and their nanoseconds.
fn tell_rows(rt: &(impl Print + CpuClock), tally: RowTally, start: Duration) -> Result<()> {
    let time = since(rt, start)?;
    println!(rt;
        "rows {} checksum {} nanoseconds {time}",
        tally.rows, tally.sum
    )?;
    Ok(())
}

/// The cheapest prefix lists of the diagram's nodes.
fn planned(alloc: Global, store: &Store, root: NodeId) -> Result<Plans>
    requires { level_of store.now root.0 ≡ stated }
    ensures plans { IfOk result (ArePlansOf store.now) }
    ensures known { IfOk result (λ plans. IsMarked plans.known.items root.0) }
{
    let mut plans = Plans::new(alloc);
    match plans.learn(alloc, store, &stated_order(), root, MOST_ENTRIES) {
        Ok(()) => Ok(plans),
        Err(_) => bail!("no prefix lists are found"),
    }
}

/// What stays of the table that is composed of the lists.
fn needed(alloc: Global, store: &Store, plans: &Plans, root: NodeId) -> Result<Vec<Entry>>
    requires root { level_of store.now root.0 ≡ stated }
    requires plans { ArePlansOf store.now plans.now }
    requires known { IsMarked plans.now.known.items root.0 }
{
    orders();
    let order = stated_order();
    let mut removal = Removal::new(alloc);
    match removal.needed(alloc, store, plans, &order, root) {
        Ok(entries) => Ok(entries),
        Err(_) => bail!("memory was refused"),
    }
}

/// The nanoseconds since the time.
fn since(rt: &impl CpuClock, start: Duration) -> Result<u128> {
    Ok(rt.thread_cpu_time()?.saturating_sub(start).as_nanos())
}

/// The rows of prefix lists in numbers, for a comparison with another program.
#[derive(Clone, Copy, Debug, Default, PartialEq, Eq)]
struct RowTally {
    rows: u64,
    sum: u64,
}

impl RowTally {
    /// The numbers of all rows.
    fn of(plans: &Plans) -> RowTally {
        let mut tally = RowTally::default();
        for list in &plans.lists {
            tally = tally.with(list.as_slice());
        }
        tally
    }

    /// The numbers with the rows of one more list.
    fn with(self, list: &[Row]) -> RowTally {
        let mut sum = self.sum;
        for row in list {
            let word = u64::from(row.prefix.value) * 64;
            sum = sum
                .wrapping_add(word)
                .wrapping_add(u64::from(row.prefix.len));
        }
        RowTally {
            rows: self.rows.wrapping_add(list.len() as u64),
            sum,
        }
    }
}
