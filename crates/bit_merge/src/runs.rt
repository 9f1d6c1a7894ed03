//! The runs of a table, each merged by itself.

ghost use Rattle.std.specs.Prelude.{◌≡◌, ◌<◌, IfOk, length};
ghost use Rattle.bit_merge.specs.Runs.{AllHave, IsMergedRun, IsMergedTable, IsRunEnd, decision_at};

use crate::merging::merge_words;
use crate::places::Places;
use razor_limits::Memory;
use std::alloc::Global;
use ternary_words::Entry;

/// The merged table.
pub(crate) fn merge_runs(alloc: Global, entries: &[Entry]) -> Result<Vec<Entry>, Memory>
    ensures { IfOk result (λ out. IsMergedTable entries.now out.items) }
{
    let mut merged = Vec::new(alloc);
    let mut start = 0;
    while start < entries.len() {
        let decision = entries[start].decision;
        let end = run_end(entries, start, decision);
        let run = merge_run(alloc, &entries[start..end], decision)?;
        merged.extend_from_slice(run.as_slice())?;
        start = end;
    }
    Ok(merged)
}

/// The place behind the run that begins at the start and has this decision.
fn run_end(entries: &[Entry], start: usize, decision: u32) -> usize
    requires start { start < length entries.now }
    requires decision { decision_at entries.now start ≡ decision }
    ensures { IsRunEnd entries.now start decision result }
{
    let mut end = start + 1;
    while end < entries.len() && entries[end].decision == decision {
        end += 1;
    }
    end
}

/// The merged run of the decision.
fn merge_run(alloc: Global, run: &[Entry], decision: u32) -> Result<Vec<Entry>, Memory>
    requires { AllHave decision run.now }
    ensures { IfOk result (λ out. IsMergedRun decision run.now out.items) }
{
    let mut places = Places::of(alloc, run)?;
    merge_words(&mut places)?;
    places.entries(alloc, decision)
}
