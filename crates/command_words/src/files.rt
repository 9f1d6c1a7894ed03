//! The file words of a command, of which no two are equal.
ghost use Rattle.std.specs.Prelude.{◌≡◌, ◌≤◌, ◌&&◌, List, ℕ, length, map, nat_le};
ghost use Rattle.std.specs.List.{list_any};
ghost use Rattle.std.specs.Option.{option_map};
ghost use Rattle.std.specs.Str.{bytes_eq};
ghost use Rattle.command_words.specs.Commands.{Command};
ghost use Rattle.command_words.specs.Files.{all_differ, is_script_run, over_one, over_three, over_two};
ghost use Rattle.command_words.specs.PlainWords.{plain_seen};

use crate::operands::{ThreeFiles, TwoFiles};
use crate::plain::PlainWords;

fn has(words: &[&str], word: &str) -> bool
    ensures { result ≡ list_any (λ other. bytes_eq other.now word.now) words.now }
{
    words.iter().any(|other| *other == word)
}

/// Whether no two of the words are equal.
fn all_differ(words: &[&str]) -> bool
    ensures { result ≡ all_differ (map (λ word. word.now) words.now) }
{
    match words {
        [] => true,
        [first, rest @ ..] => !has(rest, first) && all_differ(rest),
    }
}

/// The only file word.
pub(crate) fn one_file<'a>(words: &PlainWords<'a>) -> Option<&'a str>
    ensures { (make : List ℕ → Command) → option_map (λ file. make file.now) result ≡ over_one make (plain_seen words.now) }
{
    match words.as_slice() {
        [file] => Some(file),
        _ => None,
    }
}

/// The only two file words.
pub(crate) fn two_files<'a>(words: &PlainWords<'a>) -> Option<TwoFiles<'a>>
    ensures { (make : List ℕ → List ℕ → Command) → option_map (λ both. make both.first.now both.second.now) result ≡ over_two make (plain_seen words.now) }
{
    let words = words.as_slice();
    if !all_differ(words) {
        return None;
    }
    match words {
        [first, second] => Some(TwoFiles { first, second }),
        _ => None,
    }
}

/// The only three file words.
pub(crate) fn three_files<'a>(words: &PlainWords<'a>) -> Option<ThreeFiles<'a>>
    ensures { (make : List ℕ → List ℕ → List ℕ → Command) → option_map (λ all. make all.first.now all.second.now all.third.now) result ≡ over_three make (plain_seen words.now) }
{
    let words = words.as_slice();
    if !all_differ(words) {
        return None;
    }
    match words {
        [first, second, third] => Some(ThreeFiles {
            first,
            second,
            third,
        }),
        _ => None,
    }
}

/// Whether the words are those of a script and of one to eight tables.
pub(crate) fn is_script_run(words: &[&str]) -> bool
    ensures { result ≡ is_script_run (map (λ word. word.now) words.now) }
{
    2 <= words.len() && words.len() <= 9 && all_differ(words)
}
