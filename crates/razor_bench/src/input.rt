//! Standard input, and the filter list that it spells.
ghost use Rattle.std.specs.Prelude.{◌≤◌};
ghost use Rattle.razor_limits.specs.declared.limits.TheConstants.{MOST_CERTIFICATE_BYTES};

use anyhow::{Result, bail};
use field_boxes::RuleList;
use filter_reader::read_list;
use razor_base::{HostDesk, read_all};
use std::alloc::Global;
use std::fs::Files;

/// The bytes of standard input, at most so many.
pub fn input(rt: &(impl Files + Input + AllocGlobal), most: u64) -> Result<Vec<u8>>
    requires { most ≤ MOST_CERTIFICATE_BYTES }
{
    let mut desk = HostDesk::new(rt, rt.alloc());
    let mut bytes = Vec::new(rt.alloc());
    if read_all(&mut desk, "-", most, &mut bytes).is_err() {
        bail!("standard input isn't read");
    }
    Ok(bytes)
}

/// The list that the bytes spell.
pub fn list_of(alloc: Global, bytes: &[u8]) -> Result<RuleList> {
    match read_list(alloc, bytes) {
        Ok(list) => Ok(list),
        Err(_) => bail!("standard input is no filter list"),
    }
}
