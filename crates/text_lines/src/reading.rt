//! Reading a text line by line, up to its first bad line.
ghost use Rattle.std.specs.Prelude.{◌≡◌, List, ℕ, MatchResult, Ok, OnOk, Result};
ghost use Rattle.text_lines.specs.Reading.{BecomesTextError, IsLineRefused, IsTextRefused, read_text};

use crate::error::{LineError, TextError};
use crate::line::{is_skipped, next_line};

/// What is made of the lines of a text, one after another.
pub trait TakeLine {
    /// Why a line is bad.
    type Reason;

    /// What is known beforehand, and stays.
    ghost Given: { Type 0 };

    ghost given: { Self → Given };

    /// What was read so far.
    ghost Read: { Type 0 };

    ghost read: { Self → Read };

    /// What it comes to with one more line.
    ghost step: { Given → Read → List ℕ → Result Read Self.Reason };

    /// What stays true from line to line.
    ghost is_sound: { Self → Type 0 };

    /// Takes the next line that isn't skipped.
    fn take_line(&mut self, line: &[u8]) -> Result<(), LineError<Self::Reason>>
        requires sound { is_sound self.old }
        ensures read { MatchResult result
            (λ _. step (given self.old) (read self.old) line.now ≡ Ok (read self.new))
            (λ e. IsLineRefused e (step (given self.old) (read self.old) line.now)) }
        ensures given { OnOk result (given self.new ≡ given self.old) }
        ensures sound { OnOk result (is_sound self.new) };
}

/// The error of the text whose line of this number was refused.
fn at_line<R>(error: LineError<R>, line: u64) -> TextError<R>
    ensures { BecomesTextError error line result }
{
    match error {
        LineError::Bad(reason) => TextError::BadLine { line, reason },
        LineError::Memory => TextError::Memory,
    }
}

/// Takes the lines of the text in order, up to the first bad one.
///
/// Lines are counted from 1, and skipped lines count.
pub fn take_lines<T: TakeLine>(taker: &mut T, bytes: &[u8]) -> Result<(), TextError<T::Reason>>
    requires sound { T.is_sound taker.old }
    ensures read { MatchResult result
        (λ _. read_text (T.step (T.given taker.old)) (T.read taker.old) bytes.now ≡ Ok (T.read taker.new))
        (λ e. IsTextRefused e (read_text (T.step (T.given taker.old)) (T.read taker.old) bytes.now)) }
    ensures given { OnOk result (T.given taker.new ≡ T.given taker.old) }
    ensures sound { OnOk result (T.is_sound taker.new) }
{
    let mut rest = bytes;
    let mut number = 0u64;
    'lines: while let Some((line, after)) = next_line(rest) {
        number += 1;
        if !is_skipped(line) {
            if let Err(error) = taker.take_line(line) {
                return Err(at_line(error, number));
            }
        }
        rest = after;
    }
    Ok(())
}
