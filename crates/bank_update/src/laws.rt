//! Laws of the states of a swap and of the writes between them, and of how a swap ends. The functions do nothing.
ghost use Rattle.std.specs.Prelude.{map, ◌≡◌, ◌≢◌, ◌+◌, ◌-◌, ◌≤◌, ◌<◌, ℕ, suc, Bool, true, false, cond, List, [], ◌∷◌, length, replicate, set, find, position, slice_get, Option, Some, None, option_map};
ghost use Rattle.std.specs.List.{position_from};
ghost use Rattle.std.specs.Option.{option_or};
ghost use Rattle.tcam_sim.specs.Slots.{Stored, stored};
ghost use Rattle.ternary_words.specs.Limits.{AreNumbered};
ghost use Rattle.ternary_words.specs.declared.entry.Entry.{Entry};
ghost use Rattle.bank_update.specs.Machine.{State, Update, after_steps, held, looked, old_or_new, settle, stepped, total, with_update};
ghost use Rattle.bank_update.specs.Plans.{bank_after_writes};
ghost use Rattle.bank_update.specs.Standing.{Standing, answer, bank_of, entries_in};
ghost use Rattle.bank_update.specs.Whole.{IsRoomAt, IsTogether, layout, whole};
ghost use Rattle.bank_update.specs.declared.write.Write.{Write};
ghost use Rattle.bank_update.specs.Sound.{IsSound, MayBegin};
ghost use Rattle.bank_update.specs.Swapping.{at_stage};
ghost use Rattle.bank_update.specs.Banks.{alone, first_from, least_match, passes};
ghost use Rattle.ternary_words.specs.declared.table.Table.{Table};
ghost use Rattle.bank_update.specs.Runs.{IsRun, session, session_end};
ghost use Rattle.bank_update.specs.Script.{Event};
ghost use Rattle.bank_update.specs.Writes.{IsBeside, Layout, bank_after, erased, new_put, old_left, target, turned, write_count};

/// What a lookup finds after so many writes: the first match among what is left and what stands, the upper
/// block first.
pub fn a_look_up_meets_what_stands()
    ensures below { (s : Layout Stored) (m : Stored → Bool) (d : ℕ) → IsBeside true s → d ≤ write_count s →
        least_match m (bank_after s d) 0 ≡ option_or (first_from m (old_left s d) s.a) (first_from m (new_put s d) s.b) }
    ensures above { (s : Layout Stored) (m : Stored → Bool) (d : ℕ) → IsBeside false s → d ≤ write_count s →
        least_match m (bank_after s d) 0 ≡ option_or (first_from m (new_put s d) s.b) (first_from m (old_left s d) s.a) }
{}

/// A lookup finds the slot and entry of the first match in the whole new table, or in the whole old one.
pub fn a_look_up_is_old_or_new()
    ensures { (below : Bool) (s : Layout Stored) (m : Stored → Bool) (d : ℕ) → IsBeside below s → d ≤ write_count s →
        least_match m (bank_after s d) 0 ≡ cond (turned below m s d) (first_from m s.new s.b) (first_from m s.old s.a) }
{}

/// A lookup answers by name as the new table does, or as the old one does; with no update pending as the settled one.
pub fn an_answer_is_old_or_new()
    ensures { (s : State) (values : List ℕ) → IsSound s → looked s values ≡ old_or_new s s.pending values }
{}

/// Where the tables answer apart, a header that has the new answer at one stage of an update keeps it at each later
/// stage, forward or back, and once the new table has settled.
pub fn a_new_answer_stays()
    ensures stays { (s : State) (u : Update) (done : ℕ) (back : Bool) (values : List ℕ) →
        IsSound s → s.pending ≡ Some u → u.done ≤ done → done ≤ total u →
        answer u.plan.new values ≢ answer s.settled values → looked s values ≡ answer u.plan.new values →
        looked (at_stage s u done back) values ≡ answer u.plan.new values }
    ensures settled { (u : Update) (values : List ℕ) → looked (settle u) values ≡ answer u.plan.new values }
{}

/// Before the first write the settled table stands alone, after the last one the new table; and undoing a write
/// gives the slots before it.
pub fn an_update_begins_and_ends_whole()
    ensures begin { (s : State) (u : Update) → bank_after_writes s.settled u.plan 0 ≡ bank_of s.settled.slots }
    ensures end { (s : State) (u : Update) → IsSound s → s.pending ≡ Some u →
        bank_after_writes s.settled u.plan (total u) ≡ bank_of u.plan.new.slots }
    ensures undo { (s : State) (u : Update) (d : ℕ) (w : Write) → IsSound s → s.pending ≡ Some u → slice_get u.plan.writes d ≡ Some w →
        set (bank_after_writes s.settled u.plan (suc d)) w.slot (option_map stored w.before) ≡ bank_after_writes s.settled u.plan d }
    ensures empty { (slots from : ℕ) → from ≤ slots → alone {E = Stored} slots from [] ≡ replicate slots None }
{}

/// The slots of a whole swap, after any number of its writes, hold the new entries that are put and the old ones that
/// are left; it has as many writes as both tables have entries; and its plan is good.
pub fn a_whole_swap_is_a_good_plan()
    ensures held { (old : Standing) (start : ℕ) (entries : List Entry) (names : List (List ℕ)) (d : ℕ) →
        IsTogether old.slots → d ≤ write_count (layout old start entries) →
        bank_after_writes old (whole old start entries names) d ≡ bank_of (bank_after (layout old start entries) d) }
    ensures count { (old : Standing) (start : ℕ) (entries : List Entry) (names : List (List ℕ)) →
        length (whole old start entries names).writes ≡ length (entries_in old.slots) + length entries }
    ensures good { (old : Standing) (start : ℕ) (entries : List Entry) (names : List (List ℕ)) →
        IsTogether old.slots → IsRoomAt old start entries → AreNumbered (length old.names) (entries_in old.slots) → AreNumbered (length names) entries →
        MayBegin old (whole old start entries names) }
{}

/// A lookup gives the least slot that passes; a first match is the table's, stands in the table's block,
/// and has its slot there; and in a bank with one table alone a lookup gives the first match.
pub fn a_look_up_finds_the_least_slot()
    ensures least { (m : Stored → Bool) (bank : List (Option Stored)) → option_map (λ r. r.0) (least_match m bank 0) ≡ position (passes m) bank }
    ensures stands { (m : Stored → Bool) (bank : List (Option Stored)) (k : ℕ) (e : Stored) → least_match m bank 0 ≡ Some (k, e) → slice_get bank k ≡ Some (Some e) }
    ensures entry { (m : Stored → Bool) (entries : List Stored) (from : ℕ) → option_map (λ r. r.1) (first_from m entries from) ≡ find m entries }
    ensures place { (m : Stored → Bool) (entries : List Stored) (from : ℕ) → option_map (λ r. r.0) (first_from m entries from) ≡ position_from m from entries }
    ensures within { (m : Stored → Bool) (entries : List Stored) (from k : ℕ) (e : Stored) → first_from m entries from ≡ Some (k, e) →
        (from ≤ k) × (k < from + length entries) × (slice_get entries (k - from) ≡ Some e) }
    ensures settled { (m : Stored → Bool) (slots from : ℕ) (entries : List Stored) → least_match m (alone slots from entries) 0 ≡ first_from m entries from }
{}

/// An update that goes forward ends after exactly as many steps as writes are left, with the new table alone in the
/// slots; until then it stays pending.
pub fn an_update_ends_with_the_new_table()
    ensures settles { (s : State) (u : Update) (n : ℕ) → s.pending ≡ Some u → u.back ≡ false → u.done + suc n ≡ total u →
        after_steps (suc n) s ≡ settle u }
    ensures pending { (s : State) (u : Update) (n : ℕ) → s.pending ≡ Some u → u.back ≡ false → u.done + n < total u →
        after_steps n s ≡ at_stage s u (u.done + n) false }
    ensures alone { (u : Update) → held (settle u) ≡ bank_of u.plan.new.slots }
{}

/// An update that goes back: each step leaves the slots that stood before the write that it undoes, and when no
/// write is left the old table is alone in them.
pub fn an_update_that_goes_back_ends_with_the_old_table()
    ensures restores { (s : State) (u : Update) → s.pending ≡ Some u → u.back ≡ true →
        held (stepped s) ≡ bank_after_writes s.settled u.plan (u.done - 1) }
    ensures over { (s : State) (u : Update) → s.pending ≡ Some u → u.back ≡ true → u.done ≡ 1 → stepped s ≡ with_update s None }
    ensures alone { (s : State) → held (with_update s None) ≡ bank_of s.settled.slots }
{}

/// A run prints one line a command. One over a device whose count of faults stays 0 prints what the commands
/// print where no device fails, and ends in the state that they come to.
pub fn a_run_without_faults_is_the_session()
    ensures lines { (tables : List Table) (start last : State) (events : List Event) (lines : List (List ℕ)) →
        IsRun tables start last 0 0 events lines → lines ≡ session tables start events }
    ensures state { (tables : List Table) (start last : State) (events : List Event) (lines : List (List ℕ)) →
        IsRun tables start last 0 0 events lines → last ≡ session_end tables start events }
    ensures count { (tables : List Table) (start last : State) (before after : ℕ) (events : List Event) (lines : List (List ℕ)) →
        IsRun tables start last before after events lines → length lines ≡ length events }
{}

/// A swap of one entry to two below it in a bank of five slots, after each write.
pub fn worked_writes()
    ensures { let s : Layout ℕ = record { slots = 5; a = 1; old = 5 ∷ []; b = 2; new = 7 ∷ 8 ∷ [] } in
        (bank_after s 0 ≡ None ∷ Some 5 ∷ None ∷ None ∷ None ∷ [])
        × (bank_after s 1 ≡ None ∷ Some 5 ∷ Some 7 ∷ None ∷ None ∷ [])
        × (bank_after s 2 ≡ None ∷ Some 5 ∷ Some 7 ∷ Some 8 ∷ None ∷ [])
        × (bank_after s 3 ≡ None ∷ None ∷ Some 7 ∷ Some 8 ∷ None ∷ []) }
{}
