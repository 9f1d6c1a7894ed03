//! The top call: words in, status out.
ghost use Rattle.std.specs.Prelude.{◌≡◌, ℕ, List, [], ◌∷◌, true, codes};
ghost use Rattle.razor_base.specs.Headline.Outcomes.{Extends, taken};
ghost use Rattle.razor_base.specs.Headline.Readings.{ended, given};
ghost use Rattle.razor_base.specs.Texts.{left_of};
ghost use Rattle.command_words.specs.Spelling.{command_of};
ghost use Rattle.razor_core.specs.CallsByStatus.{AreReads, AreWritten};
ghost use Rattle.razor_core.specs.Headline.Further.{IsArranged, IsShortened};
ghost use Rattle.razor_core.specs.Headline.Tables.{IsCompiled};
ghost use Rattle.razor_core.specs.Outside.{seen};
ghost use Rattle.razor_core.specs.PossibleTexts.{MayBeTexts};
ghost use Rattle.razor_core.specs.Says.{Says};
ghost use Rattle.razor_core.specs.Promise.{Promise};

use crate::commands::run;
use crate::ending::status;
use crate::message::{say_ending, say_usage};
use command_words::{Words, spelled_command};
use razor_base::{Desk, Sink};
use std::alloc::Global;

/// Does what the words say, and answers the status with which the program ends.
///
/// It reads the inputs that the words name from the desk, writes the output to `out`, and says in one
/// line on `err` how it went; a fault of `err` changes nothing else. The statuses:
///
/// - 0: the output was written whole, and every named input was read to its end; 1: likewise, and the
///   answer is no;
/// - 2: the words are no command;
/// - 3: an input has a bad line; 4: an input has a byte after its limit, or more entries are needed
///   than the limit;
/// - 5: an input couldn't be read; 6: the output couldn't be written; 7: memory was refused.
pub fn razor<D: Desk, K: Sink, E: Sink>(
    alloc: Global,
    words: &Words,
    desk: &mut D,
    out: &mut K,
    err: &mut E,
) -> u8
    // The file was read to its end in this call, and what was written then is the text of a table for what was read of it.
    ensures headline { (file : List ℕ) → words.now ≡ codes "compile" ∷ codes "--" ∷ file ∷ [] → result ≡ 0 →
        Extends (D.reads desk.old) (D.reads desk.new) (λ read. (ended read file ≡ true) × Extends (K.written out.old) (K.written out.new) (λ written. IsCompiled (given read file) (taken written))) }
    ensures arranged { (file : List ℕ) → words.now ≡ codes "arrange" ∷ codes "--" ∷ file ∷ [] → result ≡ 0 →
        Extends (D.reads desk.old) (D.reads desk.new) (λ read. (ended read file ≡ true) × Extends (K.written out.old) (K.written out.new) (λ written. IsArranged (given read file) (taken written))) }
    ensures shortened { (file : List ℕ) → words.now ≡ codes "shorten" ∷ codes "--" ∷ file ∷ [] → result ≡ 0 →
        Extends (D.reads desk.old) (D.reads desk.new) (λ read. (ended read file ≡ true) × Extends (K.written out.old) (K.written out.new) (λ written. IsShortened (given read file) (taken written))) }

    // The promise for each command, whatever the inputs may hold by what was read of them.
    ensures promise { (texts : List ℕ → List ℕ) → MayBeTexts (D.reads desk.new) texts →
        let before = seen (left_of D.reads texts) D.faults K.written K.faults desk.old out.old in
        let after = seen (left_of D.reads texts) D.faults K.written K.faults desk.new out.new in
        Promise words.now before after (Says E.written E.faults err.old err.new) result }

    // Which reads and writes it made.
    ensures reads { Extends (D.reads desk.old) (D.reads desk.new) (AreReads (command_of words.now) result) }
    ensures writes { Extends (K.written out.old) (K.written out.new) (AreWritten result) }
{
    let Some(command) = spelled_command(words) else {
        say_usage(err);
        return 2;
    };
    let ending = run(alloc, &command, desk, out);
    say_ending(err, ending);
    status(ending)
}
