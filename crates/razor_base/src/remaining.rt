//! What is left of an input in memory.
ghost use Rattle.std.specs.Prelude.{◌≡◌, ◌≢◌, ℕ, List, Some, OnOk, OnErr, ◌+◌, ◌++◌, length, min, take};
ghost use Rattle.std.specs.BTreeMap.{get_by_text};
ghost use Rattle.razor_base.specs.Standing.{given_in, left_over, stands_so};

use razor_limits::Memory;
use std::alloc::Global;
use std::collections::BTreeMap;
use std::marker::Model;

/// An input in memory, of which some bytes were read.
#[derive(Drop)]
pub struct Remaining {
    bytes: Vec<u8>,
    start: usize,
}

impl Model for Remaining {
    ghost use Rattle.std.specs.Prelude.{vec_len, ◌≤◌};
    ghost use Rattle.razor_base.specs.Standing.{Standing, stands_so};

    ghost Value = { Standing };

    ghost view = { λ r. stands_so r.bytes.items r.start };

    ghost invariant = { λ r. r.start ≤ vec_len r.bytes };
}

impl Remaining {
    /// All of the bytes are left.
    pub(crate) fn new(bytes: Vec<u8>) -> Self
        ensures { result ≡ stands_so bytes.items 0 }
    {
        Remaining { bytes, start: 0 }
    }

    /// Moves the next bytes into the front of the piece, at most so many.
    pub(crate) fn read(&mut self, piece: &mut [u8], most: usize) -> usize
        ensures all { self.new.all ≡ self.old.all }
        ensures moved { given_in self.new ≡ given_in self.old ++ take result piece.new }
        ensures count { result ≡ min (min (length piece.old) most) (length (left_over self.old)) }
        ensures place { self.new.start ≡ self.old.start + result }
    {
        let left = self.bytes.len() - self.start;
        let count = piece.len().min(most).min(left);
        piece[..count].copy_from_slice(&self.bytes[self.start..self.start + count]);
        self.start += count;
        count
    }
}

/// Puts an input under a name that isn't there. Where memory is refused, all stays.
pub(crate) fn put(
    inputs: &mut BTreeMap<String, Remaining>,
    alloc: Global,
    name: &str,
    bytes: &[u8],
) -> Result<(), Memory>
    ensures ok { OnOk result (get_by_text inputs.new name.now ≡ Some (stands_so bytes.now 0)) }
    ensures err { OnErr result (get_by_text inputs.new name.now ≡ get_by_text inputs.old name.now) }
    ensures others { (other : List ℕ) → other ≢ name.now → get_by_text inputs.new other ≡ get_by_text inputs.old other }
{
    let copy = Vec::from_slice(alloc, bytes)?;
    let key = String::from_str(alloc, name)?;
    inputs.insert(key, Remaining::new(copy))?;
    Ok(())
}
