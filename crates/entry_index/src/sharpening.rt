//! What of a cube lies outside of others.

use crate::fields::highest;
use razor_limits::Memory;
use std::alloc::Global;
use std::mem;
use ternary_words::Word;
use word_cover::{fixed, meets};

/// Pieces into which a cube may fall.
const PIECES: usize = 64;

/// Disjoint cubes that hold exactly what the cube holds outside of all the others; none where they are more
/// than 64, or more than 128 on the way.
#[inline(never)]
pub fn sharp(alloc: Global, cube: Word, others: &[Word]) -> Result<Option<Vec<Word>>, Memory> {
    let mut pieces = vec![in alloc; cube]?;
    let mut next = Vec::new(alloc);
    for other in others {
        next.clear();
        if !cut_all(&pieces, *other, &mut next)? {
            return Ok(None);
        }
        mem::swap(&mut pieces, &mut next);
    }
    Ok(if pieces.len() <= PIECES {
        Some(pieces)
    } else {
        None
    })
}

/// Pushes what the pieces hold outside of the other; false where that gets too much.
fn cut_all(pieces: &[Word], other: Word, next: &mut Vec<Word>) -> Result<bool, Memory> {
    for piece in pieces {
        if !meets(piece, &other) {
            next.push(*piece)?;
            continue;
        }
        cut(*piece, other, next)?;
        if next.len() > 2 * PIECES {
            return Ok(false);
        }
    }
    Ok(true)
}

/// Pushes what the piece holds outside of the other, which meets it.
fn cut(mut piece: Word, other: Word, next: &mut Vec<Word>) -> Result<(), Memory> {
    let mut extra = other.mask & !piece.mask;
    for _ in 0..128u32 {
        if extra == 0 {
            break;
        }
        let bit = highest(extra);
        extra ^= bit;
        next.push(fixed(&piece, bit, !other.value))?;
        piece = fixed(&piece, bit, other.value);
    }
    Ok(())
}
