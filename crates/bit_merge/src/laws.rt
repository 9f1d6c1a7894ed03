//! Laws of the definitions, for whoever relies on them. The functions do nothing.
ghost use Rattle.std.specs.Prelude.{◌≡◌, ◌≤◌, ℕ, List, length};
ghost use Rattle.field_boxes.specs.Alike.{IsTight};
ghost use Rattle.ternary_words.specs.Headline.Table.{Entry, answer};
ghost use Rattle.bit_merge.specs.Merge.{IsClosed, IsMerged};

/// Each table has one merged table, which is closed, no longer, answers alike, and is tight where the table is.
pub fn one_merged()
    ensures some { (entries : List Entry) → (out : List Entry) × IsMerged entries out }
    ensures one { (entries xs ys : List Entry) → IsMerged entries xs → IsMerged entries ys → xs ≡ ys }
    ensures closed { (entries out : List Entry) → IsMerged entries out → IsClosed out }
    ensures fewer { (entries out : List Entry) → IsMerged entries out → length out ≤ length entries }
    ensures alike { (entries out : List Entry) (values : List ℕ) → IsMerged entries out → answer out values ≡ answer entries values }
    ensures tight { (entries out : List Entry) → IsMerged entries out → IsTight answer entries → IsTight answer out }
{}
