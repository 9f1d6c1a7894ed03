//! Laws. The functions do nothing.
ghost use Rattle.node_store.specs.Levels.{HasField, IsLevel, next, top_of};
ghost use Rattle.std.specs.Prelude.{◌≡◌, ◌<◌, ◌≤◌, ◌+◌, ◌∷◌, ◌++◌, ℕ, suc, List, [], Bool, true, false, Some, cond, length, map, slice_get, take};
ghost use Rattle.std.specs.List.{list_any};
ghost use Rattle.field_boxes.specs.Alike.{AreAlike, IsTight};
ghost use Rattle.field_boxes.specs.Headline.Fields.{stated, AreValues, IsHeader};
ghost use Rattle.field_boxes.specs.Headline.Classifier.{Interval, interval_holds};
ghost use Rattle.node_store.specs.declared.edge.Edge.{Edge};
ghost use Rattle.node_store.specs.Edges.{AreFull, child_of};
ghost use Rattle.node_store.specs.Diagram.{Node, answer, level_of, edges_of};
ghost use Rattle.node_store.specs.Store.{IsStore, Grows};
ghost use Rattle.redundancy_laws.specs.Rows.{Row, in_front, last_row, matches};
ghost use Rattle.redundancy_laws.specs.Marks.{Mark, all_of, marked};
ghost use Rattle.redundancy_laws.specs.Contexts.{Contexts, before_block, after_block, IsRight, IsWanted, AreMerged};
ghost use Rattle.redundancy_laws.specs.Layers.{Run, rows_of_runs, AreApart, AreApartFrom, AreSplit, AreJoined, SiftedRun, AreSiftedRuns, runs_of, flags_of, AreLayerAnswers, end_of};
ghost use Rattle.redundancy_laws.specs.Sifted.{node_at, context_at, is_in, contexts_of, AreNodes, AreContexts, IsSifted, AreBelow, IsCover, IsCoverBehind, IsEmpty, IsUnion, IsBehind, IsSoFar, LeadOn, LeadsAs};
ghost use Rattle.node_store.specs.declared.edge.NodeId.{NodeId};
ghost use Rattle.redundancy_laws.specs.declared.context.Context.{Context};
ghost use Rattle.redundancy_laws.specs.declared.sifted.Sifted.{Sifted};
ghost use Rattle.redundancy_laws.specs.Drafts.{Fill};
ghost use Rattle.ternary_words.specs.Entries.{IsPart, answer as table_answer, entry_matches, ArePrefixes};
ghost use Rattle.field_boxes.specs.Orders.{IsOrder, picked};
ghost use Rattle.redundancy_laws.specs.Pass.{Keeps};
ghost use Rattle.redundancy_laws.specs.Built.{field_of, row_at, HaveSpan};
ghost use Rattle.redundancy_laws.specs.Flags.{AreRightFlags, with_flags};
ghost use Rattle.ternary_words.specs.declared.entry.Entry.{Entry};
ghost use Rattle.ternary_words.specs.Prefixes.{IsPrefixInEach};
ghost use Rattle.ternary_words.specs.Views.{word_of};

/// With no field left a row is kept exactly where some context wants it.
pub fn last()
    ensures { (cs : Contexts) (kept : Bool) (decision : ℕ) (out : ℕ → List ℕ → ℕ) → IsWanted cs kept (last_row decision) →
        ((c : ℕ) → c < cs.count → out c [] ≡ cond kept decision (cs.after c [])) →
        IsRight [] cs (record { row = last_row decision; kept = kept } ∷ []) out }
{}

/// A block before another: the later one stands after the earlier one's rows, the earlier one before the later one's answers.
pub fn two()
    ensures { (level : List ℕ) (cs : Contexts) (xs ys : List Mark) (later out : ℕ → List ℕ → ℕ) →
        IsRight level (after_block cs (all_of xs)) ys later → IsRight level (before_block cs later) xs out → IsRight level cs (xs ++ ys) out }
{}

/// Only the set of the contexts matters: what is right for some is right for others that are the same but for order and number.
pub fn merged()
    ensures { (level : List ℕ) (cs ds : Contexts) (to : ℕ → ℕ) (marks : List Mark) (inner out : ℕ → List ℕ → ℕ) →
        AreMerged level cs ds to → IsRight level ds marks inner →
        ((c : ℕ) → c < cs.count → (values : List ℕ) → AreValues level values → out c values ≡ inner (to c) values) → IsRight level cs marks out }
{}

/// Rows behind an interval, behind rows that match no value of it: no row of either sees those of the other.
pub fn next_run()
    ensures right { (level : List ℕ) (span : Interval) (cs ds : Contexts) (to : ℕ → ℕ → ℕ) (rows more : List Row) (flags others : List Bool) (inner before out : ℕ → List ℕ → ℕ) →
        HasField level → length flags ≡ length rows → AreApartFrom span rows → IsRight level cs (marked rows flags) before → AreSplit level span cs ds to →
        IsRight (next level) ds (marked more others) inner → AreJoined level span cs.count to inner before out →
        IsRight level cs (marked (rows ++ map (in_front span) more) (flags ++ others)) out }
    ensures unchanged { (level : List ℕ) (span : Interval) (cs ds : Contexts) (to : ℕ → ℕ → ℕ) (rows more : List Row) (flags others : List Bool) (inner before : ℕ → List ℕ → ℕ) →
        HasField level → length flags ≡ length rows → AreApartFrom span rows → IsRight level cs (marked rows flags) before → AreSplit level span cs ds to →
        IsRight (next level) ds (marked more others) inner → list_any (λ b. b) others ≡ false →
        IsRight level cs (marked (rows ++ map (in_front span) more) (flags ++ others)) before }
{}

/// Runs whose intervals rise and are apart: each is gone through for contexts of its own, whatever the others keep.
pub fn layer()
    ensures right { (level : List ℕ) (cs : Contexts) (runs : List SiftedRun) (out : ℕ → List ℕ → ℕ) → HasField level →
        AreApart 0 (runs_of runs) → AreSiftedRuns level cs runs → AreLayerAnswers level cs runs out →
        IsRight level cs (marked (rows_of_runs (runs_of runs)) (flags_of runs)) out }
    ensures none { (level : List ℕ) (cs : Contexts) → IsRight level cs [] cs.after }
    ensures apart { (least k : ℕ) (runs : List Run) (r : Run) → AreApart least runs → slice_get runs k ≡ Some r → AreApartFrom r.span (rows_of_runs (take k runs)) }
    ensures more { (k : ℕ) (runs : List Run) (r : Run) → slice_get runs k ≡ Some r → rows_of_runs (take (suc k) runs) ≡ rows_of_runs (take k runs) ++ map (in_front r.span) r.rows }
    ensures parts { (runs more : List Run) → rows_of_runs (runs ++ more) ≡ rows_of_runs runs ++ rows_of_runs more }
    ensures longer { (least : ℕ) (runs : List Run) (r : Run) → AreApart least runs → end_of least runs ≤ r.span.lo → r.span.lo ≤ r.span.hi →
        AreApart least (runs ++ r ∷ []) × (end_of least (runs ++ r ∷ []) ≡ r.span.hi + 1) }
{}

/// The pairs of nodes below the values of an interval stand for the contexts there.
pub fn below()
    ensures split { (nodes : List Node) (level : List ℕ) (span : Interval) (pairs lower : List Context) (to : ℕ → ℕ → ℕ) →
        AreBelow nodes level span pairs lower to → AreSplit level span (contexts_of nodes pairs) (contexts_of nodes lower) to }
    ensures pairs { (nodes : List Node) (level : List ℕ) (span : Interval) (pairs lower : List Context) (to : ℕ → ℕ → ℕ) → IsStore nodes → HasField level → AreContexts nodes level pairs →
        AreBelow nodes level span pairs lower to → AreContexts nodes (next level) lower }
{}

/// With no field left a row matches.
pub fn cover_of_last()
    ensures { (nodes : List Node) (set decision : ℕ) → is_in nodes set [] ≡ true → IsCover nodes [] set (last_row decision ∷ []) }
{}

/// Two blocks match what one of them does.
pub fn cover_of_two()
    ensures { (nodes : List Node) (level : List ℕ) (first second id : ℕ) (xs ys : List Row) → IsCover nodes level first xs → IsCover nodes level second ys →
        IsUnion nodes level first second id → IsCover nodes level id (xs ++ ys) }
{}

/// A layer matches at a value of a run what the run's block does, and elsewhere nothing.
pub fn cover_of_layer()
    ensures values { (nodes : List Node) (level : List ℕ) (id : ℕ) (rows : List Row) → HasField level →
        ((v : ℕ) → v ≤ top_of level → IsCoverBehind nodes level v (child_of (edges_of nodes id) v) rows) → IsCover nodes level id rows }
    ensures within { (nodes : List Node) (level : List ℕ) (least : ℕ) (runs : List Run) (k : ℕ) (r : Run) (v set : ℕ) → AreApart least runs → slice_get runs k ≡ Some r →
        interval_holds v r.span ≡ true → IsCover nodes (next level) set r.rows → IsCoverBehind nodes level v set (rows_of_runs (take (suc k) runs)) }
    ensures without { (nodes : List Node) (level : List ℕ) (runs : List Run) (k : ℕ) (r : Run) (v set : ℕ) → slice_get runs k ≡ Some r → interval_holds v r.span ≡ false →
        IsCoverBehind nodes level v set (rows_of_runs (take k runs)) → IsCoverBehind nodes level v set (rows_of_runs (take (suc k) runs)) }
    ensures past { (nodes : List Node) (level : List ℕ) (least : ℕ) (runs : List Run) (v set : ℕ) → AreApart least runs → end_of least runs ≤ v →
        IsEmpty nodes (next level) set → IsCoverBehind nodes level v set (rows_of_runs runs) }
    ensures front { (least k : ℕ) (runs : List Run) → AreApart least runs → AreApart least (take k runs) }
    ensures end { (least k : ℕ) (runs : List Run) (r : Run) → AreApart least runs → slice_get runs k ≡ Some r →
        (end_of least (take k runs) ≤ r.span.lo) × (end_of least (take (suc k) runs) ≡ r.span.hi + 1) }
{}

/// Headers and entries read in an order of the five fields: each list of values in the order is that of a header, and
/// an entry's row matches a header's values where its word, a prefix in each field, matches the header.
pub fn orders()
    ensures stated { IsOrder stated }
    ensures first { (order : List ℕ) → IsOrder order → HasField order }
    ensures within { (order header : List ℕ) → IsOrder order → IsHeader header → AreValues order (picked order header) }
    ensures some { (order values : List ℕ) → IsOrder order → AreValues order values → (header : List ℕ) × IsHeader header × (picked order header ≡ values) }
    ensures same { (header : List ℕ) → IsHeader header → picked stated header ≡ header }
    ensures row { (order header : List ℕ) (e : Entry) → IsOrder order → IsPrefixInEach (word_of e.word) → IsHeader header →
        matches (picked order header) (row_at order e) ≡ entry_matches header e }
{}

/// A table whose words are prefixes in each field, as rows over the fields in an order: what is right for it as a whole is what a pass keeps.
pub fn whole_table()
    ensures pass { (order : List ℕ) (entries : List Entry) (flags : List Bool) → IsOrder order → ArePrefixes entries → AreRightFlags order entries flags → Keeps [] entries (with_flags entries flags) }
    ensures flags { (nodes : List Node) (order : List ℕ) (pair : Context) (entries : List Entry) (flags : List Bool) (out : ℕ → List ℕ → ℕ) → length flags ≡ length entries →
        ((values : List ℕ) → AreValues order values → answer nodes pair.after.0 values ≡ 0) → ((values : List ℕ) → AreValues order values → answer nodes pair.met.0 values ≡ 0) →
        IsRight order (contexts_of nodes (pair ∷ [])) (marked (map (row_at order) entries) flags) out → AreRightFlags order entries flags }
    ensures rows { (level : List ℕ) (span : Interval) (entries : List Entry) → HasField level → HaveSpan (field_of level) span entries →
        map (row_at level) entries ≡ map (in_front span) (map (row_at (next level)) entries) }
    ensures last { (e : Entry) → row_at [] e ≡ last_row e.decision }
{}

/// What a pass from the last entry to the first keeps is part of the table in its order, answers every header alike and is
/// tight; and no other entries are kept by one.
pub fn one_pass()
    ensures part { (entries kept : List Entry) → Keeps [] entries kept → IsPart kept entries }
    ensures alike { (entries kept : List Entry) → Keeps [] entries kept → AreAlike (table_answer kept) (table_answer entries) }
    ensures tight { (entries kept : List Entry) → Keeps [] entries kept → IsTight table_answer kept }
    ensures one { (entries xs ys : List Entry) → Keeps [] entries xs → Keeps [] entries ys → xs ≡ ys }
{}

/// What was worked out at a store stays right where it grows.
pub fn growth()
    ensures sifted { (old new : List Node) (level : List ℕ) (rows : List Row) (pairs : List Context) (s : Sifted) → IsLevel level → Grows old new → AreContexts old level pairs →
        IsSifted old level rows pairs s → IsSifted new level rows pairs s }
    ensures so_far { (old new : List Node) (level : List ℕ) (rows : List Row) (pairs : List Context) (flags : List Bool) (leads : ℕ → ℕ → ℕ) → HasField level → Grows old new → AreContexts old level pairs →
        IsSoFar old level rows pairs flags leads → IsSoFar new level rows pairs flags leads }
    ensures made { (old new : List Node) (level : List ℕ) (leads : ℕ → ℕ → ℕ) (c : ℕ) (id : NodeId) → HasField level → Grows old new → ((v : ℕ) → v ≤ top_of level → level_of old (leads c v) ≡ next level) →
        LeadsAs old level leads c id → LeadsAs new level leads c id }
    ensures below { (old new : List Node) (level : List ℕ) (span : Interval) (pairs lower : List Context) (to : ℕ → ℕ → ℕ) → IsLevel level → Grows old new → AreContexts old level pairs →
        AreBelow old level span pairs lower to → AreBelow new level span pairs lower to }
    ensures pairs { (old new : List Node) (level : List ℕ) (pairs : List Context) → IsLevel level → Grows old new → AreContexts old level pairs → AreContexts new level pairs }
    ensures numbers { (old new : List Node) (level : List ℕ) (ids : List NodeId) → IsLevel level → Grows old new → AreNodes old level ids → AreNodes new level ids }
    ensures cover { (old new : List Node) (level : List ℕ) (set : ℕ) (rows : List Row) → IsLevel level → Grows old new → level_of old set ≡ level → IsCover old level set rows → IsCover new level set rows }
    ensures union { (old new : List Node) (level : List ℕ) (x y id : ℕ) → IsLevel level → Grows old new → level_of old x ≡ level → level_of old y ≡ level → level_of old id ≡ level →
        IsUnion old level x y id → IsUnion new level x y id }
{}

/// With no field left, the leaf of the row's decision is answered where the row is wanted.
pub fn last_of_nodes()
    ensures { (old new : List Node) (pairs : List Context) (wanted : Bool) (decision : ℕ) (leaf : NodeId) (s : Sifted) → Grows old new → AreContexts old [] pairs →
        IsWanted (contexts_of old pairs) wanted (last_row decision) → level_of new leaf.0 ≡ [] → answer new leaf.0 [] ≡ decision → s.kept.items ≡ wanted ∷ [] →
        length s.after.items ≡ length pairs → ((c : ℕ) → c < length pairs → node_at s.after.items c ≡ cond wanted leaf (context_at pairs c).after) →
        IsSifted new [] (last_row decision ∷ []) pairs s }
{}

/// Two blocks, one after the other, by what was worked out of either.
pub fn two_of_nodes()
    ensures { (nodes : List Node) (level : List ℕ) (first second : List Row) (pairs behind before : List Context) (cover : NodeId) (later earlier s : Sifted) →
        IsCover nodes level cover.0 first → length behind ≡ length pairs → length before ≡ length pairs →
        ((c : ℕ) → c < length pairs → IsBehind nodes level cover (context_at pairs c) (context_at behind c)) →
        ((c : ℕ) → c < length pairs → (context_at before c).after ≡ node_at later.after.items c) →
        ((c : ℕ) → c < length pairs → (context_at before c).met ≡ (context_at pairs c).met) →
        IsSifted nodes level second behind later → IsSifted nodes level first before earlier →
        s.kept.items ≡ earlier.kept.items ++ later.kept.items → s.after.items ≡ earlier.after.items → IsSifted nodes level (first ++ second) pairs s }
{}

/// A layer run by run, by where each context leads on with the runs so far in front.
pub fn layer_of_nodes()
    ensures start { (nodes : List Node) (level : List ℕ) (pairs : List Context) → IsStore nodes → HasField level → AreContexts nodes level pairs →
        IsSoFar nodes level [] pairs [] (λ c v. child_of (edges_of nodes (context_at pairs c).after.0) v) }
    ensures next { (nodes : List Node) (level : List ℕ) (span : Interval) (pairs lower : List Context) (to : ℕ → ℕ → ℕ) (rows more : List Row) (flags : List Bool) (inner : Sifted) (before leads : ℕ → ℕ → ℕ) →
        HasField level → AreApartFrom span rows → AreBelow nodes level span pairs lower to → IsSoFar nodes level rows pairs flags before → IsSifted nodes (next level) more lower inner →
        LeadOn level span (length pairs) to inner.after.items before leads → IsSoFar nodes level (rows ++ map (in_front span) more) pairs (flags ++ inner.kept.items) leads }
    ensures unchanged { (nodes : List Node) (level : List ℕ) (span : Interval) (pairs lower : List Context) (to : ℕ → ℕ → ℕ) (rows more : List Row) (flags : List Bool) (inner : Sifted) (before : ℕ → ℕ → ℕ) →
        HasField level → AreApartFrom span rows → AreBelow nodes level span pairs lower to → IsSoFar nodes level rows pairs flags before → IsSifted nodes (next level) more lower inner →
        list_any (λ b. b) inner.kept.items ≡ false → IsSoFar nodes level (rows ++ map (in_front span) more) pairs (flags ++ inner.kept.items) before }
    ensures end { (nodes : List Node) (level : List ℕ) (rows : List Row) (pairs : List Context) (leads : ℕ → ℕ → ℕ) (s : Sifted) → HasField level → IsSoFar nodes level rows pairs s.kept.items leads →
        length s.after.items ≡ length pairs → ((c : ℕ) → c < length pairs → LeadsAs nodes level leads c (node_at s.after.items c)) → IsSifted nodes level rows pairs s }
    ensures made { (old new : List Node) (level : List ℕ) (leads : ℕ → ℕ → ℕ) (c : ℕ) (id : NodeId) → HasField level → Grows old new → ((v : ℕ) → v ≤ top_of level → level_of old (leads c v) ≡ next level) →
        level_of new id.0 ≡ level → ((v : ℕ) (values : List ℕ) → v ≤ top_of level → answer new id.0 (v ∷ values) ≡ answer old (leads c v) values) → LeadsAs new level leads c id }
{}

/// Where edges lead that fill a field part by part, in front of others that are left of a node.
pub fn drafts()
    ensures before { (low mid : ℕ) (xs ys : List Edge) (v : ℕ) → Fill low mid xs → low ≤ v → v < mid → child_of (xs ++ ys) v ≡ child_of xs v }
    ensures past { (low mid : ℕ) (xs ys : List Edge) (v : ℕ) → Fill low mid xs → mid ≤ v → child_of (xs ++ ys) v ≡ child_of ys v }
    ensures joined { (low mid top : ℕ) (xs ys : List Edge) → Fill low mid xs → Fill mid top ys → Fill low top (xs ++ ys) }
    ensures parted { (edges more : List Edge) (d e : Edge) (v : ℕ) → d.to ≡ e.to → d.hi ≤ e.hi → child_of (edges ++ d ∷ e ∷ more) v ≡ child_of (edges ++ e ∷ more) v }
    ensures dropped { (mid : ℕ) (edges more : List Edge) (e : Edge) (v : ℕ) → Fill 0 mid edges → e.hi < mid → child_of (edges ++ e ∷ more) v ≡ child_of (edges ++ more) v }
    ensures full { (greatest : ℕ) (edges : List Edge) → Fill 0 (suc greatest) edges → AreFull greatest edges }
    ensures filled { (greatest : ℕ) (edges : List Edge) → AreFull greatest edges → Fill 0 (suc greatest) edges }
{}
