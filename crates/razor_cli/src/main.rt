//! The program `razor`: hands the words, the real files and the standard streams to the top call.
//!
//! What a status, what was read and what was written mean is the contract of [`run_over`]. Left to trust is what stands
//! here: that the words are those of the call, that the files are the system's, that the output is standard output and the
//! messages go to standard error, and that the status is handed on.
//!
//! [`run_over`]: program::run_over
#![tactic(auto)]

mod program;

use program::run_over;
use razor_base::{HostDesk, HostSink};
use razor_core::Words;
use std::alloc::Global;
use std::env;
use std::process::ExitCode;
use std::rt::Env;

/// The status with which the program ends where memory is refused for its words.
const OUT_OF_MEMORY: u8 = 7;

/// The status with which it ends where the runtime can't give the words.
const NO_WORDS: u8 = 8;

/// The words after the program's name, or the status with which the program ends.
fn words_of(rt: &(impl Env + AllocGlobal), alloc: Global) -> Result<Words, u8> {
    let Ok(arguments) = env::args(rt) else {
        return Err(NO_WORDS);
    };
    let mut words = Words::new(alloc);
    for word in arguments.skip(1) {
        if words.push(word.as_str()).is_err() {
            return Err(OUT_OF_MEMORY);
        }
    }
    Ok(words)
}

fn main(rt: HostRuntime) -> ExitCode {
    let alloc = rt.alloc();
    let words = match words_of(&rt, alloc) {
        Ok(words) => words,
        Err(status) => return ExitCode::from(status),
    };
    let mut desk = HostDesk::new(&rt, alloc);
    let mut out = HostSink::out(&rt);
    let mut err = HostSink::err(&rt);
    ExitCode::from(run_over(alloc, &words, &mut desk, &mut out, &mut err))
}
