//! What errors say of themselves.

mod lists;
mod memories;

use std::fmt::Display;
use std::process::Abort;
use std::test::Fail;

/// Compares what the error says.
fn check<R: Abort + AllocGlobal, E: Display>(rt: &R, error: &E, text: &str) -> Result<(), Fail> {
    let told = format!(in rt.alloc(); "{error}")?;
    assert!(rt; told.as_str() == text);
    Ok(())
}
