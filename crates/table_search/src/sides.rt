//! The ports of a rule, by the prefixes of its entries.

use entry_index::{field, raised, sharp};
use razor_limits::Memory;
use std::alloc::Global;
use ternary_words::Word;
use word_cover::{all_headers, freed, hull};

/// The prefixes that a rule has in one port.
#[derive(Drop)]
pub(crate) struct Side {
    pub prefixes: Vec<Word>,
    /// The least prefix that holds them all.
    pub hull: Word,
    /// What that holds besides, in prefixes; none where these are too many.
    pub outside: Option<Vec<Word>>,
}

impl Side {
    /// What these cubes have in the field with this number.
    pub fn of(alloc: Global, cubes: &[Word], f: usize) -> Result<Side, Memory> {
        let prefixes = parts(alloc, cubes, field(f))?;
        let hull = hull_of(&prefixes);
        Ok(Side {
            outside: sharp(alloc, hull, &prefixes)?,
            hull,
            prefixes,
        })
    }

    /// Its prefixes, or the one that holds them all.
    pub fn cubes(&self, alloc: Global, is_wide: bool) -> Result<Vec<Word>, Memory> {
        let mut cubes = Vec::new(alloc);
        if is_wide {
            cubes.push(self.hull)?;
        } else {
            cubes.extend_from_slice(&self.prefixes)?;
        }
        Ok(cubes)
    }
}

/// The cubes, each once, with these bits alone.
pub(crate) fn parts(alloc: Global, cubes: &[Word], bits: u128) -> Result<Vec<Word>, Memory> {
    let mut parts = Vec::new(alloc);
    for cube in cubes {
        parts.push(freed(cube, !bits))?;
    }
    parts.sort_unstable_by_key(|cube: &Word| (cube.mask, cube.value));
    parts.dedup();
    Ok(parts)
}

/// The least prefix that holds these prefixes of one field; the whole field where there are none.
fn hull_of(prefixes: &[Word]) -> Word {
    let Some(first) = prefixes.first() else {
        return all_headers();
    };
    let hull = prefixes
        .iter()
        .fold(*first, |around, one| hull(&around, one));
    raised(hull, first.mask & !hull.mask)
}
