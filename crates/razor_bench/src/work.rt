//! What the words ask for.

use crate::commits::Way;
use anyhow::{Context, Result, bail};
use std::env;
use std::rt::Env;

/// A piece of work, and its size.
#[derive(Clone, Copy, Debug, PartialEq, Eq)]
pub enum Work {
    /// Make so many diagram nodes, and ask for each again.
    Nodes(u32),
    /// Find the cheapest prefix list of so many pieces.
    Minimise(u32),
    /// Build the diagram of the filter list on standard input, so often.
    Build(u32),
    /// Read the filter list on standard input, so often.
    Read(u32),
    /// Read the table on standard input, so often.
    Tables(u32),
    /// Compile the filter list on standard input, so often, and time each step.
    Phases(u32),
    /// Edit the filter list on standard input and commit it, so many edits a commit, so often.
    Commits { way: Way, edits: u32, commits: u32 },
}

impl Work {
    /// The work with the name and the size; how often it is done counts for commits alone.
    pub fn of(name: &str, size: u32, times: u32) -> Result<Work> {
        match name {
            "nodes" => Ok(Work::Nodes(size)),
            "minimise" => Ok(Work::Minimise(size)),
            "build" => Ok(Work::Build(size)),
            "read" => Ok(Work::Read(size)),
            "tables" => Ok(Work::Tables(size)),
            "phases" => Ok(Work::Phases(size)),
            "session" => Ok(Work::commits(Way::Session, size, times)),
            "both" => Ok(Work::commits(Way::Both, size, times)),
            _ => bail!("no work is named {name:?}"),
        }
    }

    fn commits(way: Way, edits: u32, commits: u32) -> Work {
        Work::Commits {
            way,
            edits,
            commits,
        }
    }

    /// The work that the words after the program's name ask for: a name, a size, and how often, or once.
    pub fn of_words(rt: &(impl Env + AllocGlobal)) -> Result<Work> {
        let mut words = env::args(rt)?.skip(1);
        let name = words.next().context(
            "nodes, minimise, build, read, tables, phases, session or both, and a size",
        )?;
        let size = words.next().context("a size")?;
        let times = match words.next() {
            Some(word) => number(word.as_str())?,
            None => 1,
        };
        Work::of(name.as_str(), number(size.as_str())?, times)
    }
}

/// The number that the word spells.
pub fn number(word: &str) -> Result<u32> {
    word.parse::<u32>()
        .context(format_args!("the number {word:?}"))
}
