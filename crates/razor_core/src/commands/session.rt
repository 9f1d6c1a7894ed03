//! `session`: a list that is edited, and whose tables are replaced in a memory.
ghost use Rattle.std.specs.Prelude.{◌≡◌, ◌≢◌, ◌≤◌, ◌<◌, ◌+◌, ◌*◌, ℕ, List, [], ◌∷◌, count_by, length};
ghost use Rattle.razor_base.specs.Headline.Outcomes.{Extends};
ghost use Rattle.razor_limits.specs.declared.limits.TheConstants.{MOST_ENTRIES, MOST_SCRIPT_BYTES};
ghost use Rattle.field_boxes.specs.Headline.Classifier.{Rule};
ghost use Rattle.filter_reader.specs.FirstSeen.{first_seen};
ghost use Rattle.field_boxes.specs.Lists.{filter_list};
ghost use Rattle.command_words.specs.Commands.{Session};
ghost use Rattle.command_words.specs.Sessions.{SessionTerms as SeenTerms};
ghost use Rattle.command_words.specs.Settings.{making_seen, terms_seen};
ghost use Rattle.edit_session.specs.Methods.{method_seen};
ghost use Rattle.edit_session.specs.SessionEnds.{adds_of};
ghost use Rattle.edit_session.specs.SessionText.{is_add};
ghost use Rattle.razor_base.specs.Texts.{StaysUnread, left_of};
ghost use Rattle.razor_core.specs.PossibleTexts.{MayBeTexts};
ghost use Rattle.razor_core.specs.Ending.{Ends};
ghost use Rattle.razor_core.specs.Outside.{seen, Adds, Outside};
ghost use Rattle.razor_core.specs.Commands.Session.{IsEndOfSession, editing, first_state, method_of, IsEdited};
ghost use Rattle.razor_core.specs.Promise.{KeepsPromise};
ghost use Rattle.razor_core.specs.Calls.{MakesCalls, WritesBehind};
ghost use Rattle.razor_core.specs.Meaning.{by_lines};

use crate::commands::drive::drive_ended;
use crate::ending::Ending;
use crate::taking::take;
use crate::texts::{ListText, SessionText};
use command_words::{Making, SessionTerms, Swap, TwoFiles};
use edit_session::{Editor, Method, Replaced, session_on};
use field_boxes::RuleList;
use razor_base::{Desk, Sink};
use std::alloc::Global;
use tcam_sim::Bank;

/// Runs the session over the editor, and says how the command ends.
fn run_over<'a, K: Sink, T: Replaced>(
    alloc: Global,
    session: &edit_session::Session,
    mut editor: Editor<'_, Bank, T>,
    out: &mut K,
) -> Ending<'a>
    requires { length editor.session.list.names + adds_of session.now < MOST_ENTRIES }
    ensures ends { (terms : SeenTerms) (rules : List (Rule (List ℕ))) → editor.entry.session ≡ first_state terms rules →
        IsEndOfSession terms rules session.now (K.written out.old) (K.written out.new) (K.faults out.old) (K.faults out.new) result }
    ensures writes { Extends (K.written out.old) (K.written out.new) (WritesBehind result) }
{
    let ended = session_on(alloc, session, &mut editor, out);
    drive_ended(ended)
}

/// The method that the terms ask for.
fn method_of(making: &Making) -> Method<'_>
    ensures { method_seen result ≡ method_of (making_seen making.now) }
{
    match making {
        Making::CompiledIn(order) => Method::Compiled(order),
        Making::Shortened => Method::Shortened,
    }
}

/// Runs the session on its terms, over the list and an empty memory, and says how the command ends.
fn run_in<'a, K: Sink>(
    alloc: Global,
    terms: &SessionTerms,
    session: &edit_session::Session,
    list: RuleList,
    out: &mut K,
) -> Ending<'a>
    requires few { 40 * count_by is_add session.now ≤ MOST_SCRIPT_BYTES }
    requires names { list.names ≡ first_seen (filter_list list).rules }
    ensures ends { IsEndOfSession (terms_seen terms.now) (filter_list list).rules session.now (K.written out.old) (K.written out.new) (K.faults out.old) (K.faults out.new) result }
    ensures writes { Extends (K.written out.old) (K.written out.new) (WritesBehind result) }
{
    let bank = match Bank::new(alloc, terms.slots.count) {
        Ok(bank) => bank,
        Err(_) => return Ending::Memory,
    };
    let method = method_of(&terms.making);
    let sizes = terms.sizes;
    match terms.swap {
        Swap::Whole => {
            let editor = Editor::new(alloc, list, method, sizes.slot, sizes.limit, bank);
            run_over(alloc, session, editor, out)
        }
        Swap::InPlace => {
            match Editor::in_place(alloc, list, method, sizes.slot, sizes.limit, bank) {
                Ok(editor) => run_over(alloc, session, editor, out),
                Err(_) => Ending::Memory,
            }
        }
    }
}

/// Writes the line of each command of the session, run on its terms over the list and an empty memory.
#[inline(never)]
pub(crate) fn run_session<'a, D: Desk, K: Sink>(
    alloc: Global,
    terms: &SessionTerms,
    files: TwoFiles<'a>,
    desk: &mut D,
    out: &mut K,
) -> Ending<'a>
    ensures ends { (texts : List ℕ → List ℕ) → MayBeTexts (D.reads desk.new) texts → Ends (editing (terms_seen terms.now) files.entry.first.now files.entry.second.now)
        (seen (left_of D.reads texts) D.faults K.written K.faults desk.old out.old)
        (seen (left_of D.reads texts) D.faults K.written K.faults desk.new out.new)
        result }
    ensures others { (other : List ℕ) → other ≢ files.entry.first.now → other ≢ files.entry.second.now → StaysUnread (D.reads desk.old) (D.reads desk.new) other }
    ensures calls { MakesCalls by_lines (files.entry.first.now ∷ files.entry.second.now ∷ []) (D.reads desk.old) (D.reads desk.new) (K.written out.old) (K.written out.new) result }
{
    let session = match take(alloc, &SessionText, files.first, desk) {
        Ok(session) => session,
        Err(ending) => return ending,
    };
    let list = match take(alloc, &ListText, files.second, desk) {
        Ok(list) => list,
        Err(ending) => return ending,
    };
    run_in(alloc, terms, &session, list, out)
}

/// What `session` has written is the line of each command of the session, run over the list.
pub fn sessions_print_their_runs()
    ensures { (before after : Outside) (line : List ℕ) (terms : SeenTerms) (script list first second : List ℕ) →
        KeepsPromise (editing terms script list) before after line 0 → before.remaining script ≡ first → before.remaining list ≡ second →
        Adds before after (IsEdited terms first second) }
{}
