//! A word split at a bit.
ghost use Rattle.std.specs.Prelude.{ℕ, List, ◌<◌, ◌⊎◌};
ghost use Rattle.word_cover.specs.Cubes.{IsOpen, cube_of};
ghost use Rattle.table_equiv.specs.Cubes.{IsIn};

use ternary_words::Word;
use word_cover::{one_half, zero_half};

/// The two halves of a word at a bit that it leaves open, the one with 0 first.
pub(crate) fn halves(word: &Word, bit: u32) -> (Word, Word)
    requires { IsOpen (cube_of word.now) bit }
    ensures cover { (header : List ℕ) → IsIn word.now header → IsIn result.0 header ⊎ IsIn result.1 header }
    ensures in_zero { (header : List ℕ) → IsIn result.0 header → IsIn word.now header }
    ensures in_one { (header : List ℕ) → IsIn result.1 header → IsIn word.now header }
    ensures zero { word.now.mask < result.0.mask }
    ensures one { word.now.mask < result.1.mask }
{
    let zero = zero_half(word, bit);
    let one = one_half(word, bit);
    (zero, one)
}
