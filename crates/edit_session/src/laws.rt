//! Laws of editing sessions. The functions do nothing.
ghost use Rattle.std.specs.Prelude.{◌≡◌, ◌<◌, ◌∷◌, ℕ, List, None, Ok};
ghost use Rattle.field_boxes.specs.Headline.Classifier.{source};
ghost use Rattle.field_boxes.specs.Headline.Fields.{stated};
ghost use Rattle.text_lines.specs.Columns.{columns, behind_column};
ghost use Rattle.edit_session.specs.Machine.{HasSettled, IsCommit, SessionState, after_steps, decided};

/// While no swap is pending, the settled table's list decides.
pub fn with_no_swap_the_settled_list_decides()
    ensures { (s : SessionState) (values : List ℕ) → s.state.pending ≡ None → decided s.state s.copies values ≡ source stated values s.copies.settled }
{}

/// A swap that a commit has begun ends after as many steps as it has writes, unless it is aborted; then its table
/// is the settled one. So with no edit since the commit the list as it is now decides.
pub fn a_commit_ends_with_the_list_as_it_is()
    ensures ends { (s t : SessionState) (total : ℕ) → IsCommit s t (Ok total) → HasSettled s.list (after_steps total t) }
    ensures decides { (s t : SessionState) (total : ℕ) (values : List ℕ) → IsCommit s t (Ok total) →
        decided (after_steps total t).state (after_steps total t).copies values ≡ source stated values (after_steps total t).list.rules }
{}

/// What stands behind the first column of a text has the columns behind the first.
pub fn columns_go_on_behind_a_column()
    ensures { (text word : List ℕ) (more : List (List ℕ)) → columns text ≡ word ∷ more → columns (behind_column text) ≡ more }
{}
