//! The program `razor_bench`: does the work that its words name and prints the results.
//!
//! It measures nothing but commits and the steps of a compilation: the scripts under `bench/` time it from outside. It
//! is proved safe and to end, and nothing else.
//!
//! ```text
//! razor_bench nodes 1000000
//! razor_bench minimise 100000
//! razor_bench build 20 < LIST
//! razor_bench read 20 < LIST
//! razor_bench phases 20 < LIST
//! razor_bench tables 20 < TABLE
//! razor_bench session 1 1000 < LIST
//! razor_bench both 1 100 < LIST
//! ```
//!
//! | Module | Holds |
//! |---|---|
//! | `work`, `input`, `numbers` | what the words ask for, the list on standard input, and random numbers |
//! | `nodes`, `plan`, `tally` | diagram nodes, made and asked for |
//! | `minimise`, `pieces` | cheapest prefix lists |
//! | `build` | diagrams of lists |
//! | `read`, `tables`, `phases`, `commits` | lists and tables read, compiled, and committed |
#![tactic(auto)]

mod build;
mod commits;
mod input;
mod minimise;
mod nodes;
mod numbers;
mod phases;
mod pieces;
mod plan;
mod read;
mod tables;
mod tally;
mod work;

use work::Work;

fn main(rt: HostRuntime) -> anyhow::Result<()> {
    match Work::of_words(&rt)? {
        Work::Nodes(count) => nodes::run(&rt, count),
        Work::Minimise(count) => minimise::run(&rt, count),
        Work::Build(times) => build::run(&rt, times),
        Work::Read(times) => read::run(&rt, times),
        Work::Tables(times) => tables::run(&rt, times),
        Work::Phases(times) => phases::run(&rt, times),
        Work::Commits {
            way,
            edits,
            commits,
        } => commits::run(&rt, way, edits, commits),
    }
}
