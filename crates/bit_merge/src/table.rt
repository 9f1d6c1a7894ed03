//! The call that merges a table.

ghost use Rattle.std.specs.Prelude.{◌≡◌, ◌≤◌, ℕ, List, IfOk, map, vec_len};
ghost use Rattle.field_boxes.specs.Alike.{IsTight};
ghost use Rattle.ternary_words.specs.Limits.{AreNumbered};
ghost use Rattle.ternary_words.specs.Headline.Table.{answer};
ghost use Rattle.bit_merge.specs.Merge.{IsClosed, IsMerged};
ghost use Rattle.bit_merge.specs.Table.{UnderNames};

use crate::runs::merge_runs;
use razor_limits::Memory;
use std::alloc::Global;
use ternary_words::Entry;

/// The entries as they are merged: as long as two of one run can be joined, those with the least first
/// place and then the least second one become one entry, at the first place.
///
/// There is [exactly one](crate::laws::one_merged) such table.
pub fn merge(alloc: Global, entries: Vec<Entry>) -> Result<Vec<Entry>, Memory>
    ensures merged { IfOk result (λ out. UnderNames entries.items (λ view. IsMerged (map view entries.items) (map view out.items))) }
    ensures closed { IfOk result (λ out. UnderNames entries.items (λ view. IsClosed (map view out.items))) }
    ensures alike { IfOk result (λ out. UnderNames entries.items (λ view.
        (values : List ℕ) → answer (map view out.items) values ≡ answer (map view entries.items) values)) }
    ensures tight { IfOk result (λ out. UnderNames entries.items (λ view. IsTight answer (map view entries.items) → IsTight answer (map view out.items))) }
    ensures fewer { IfOk result (λ out. vec_len out ≤ vec_len entries) }
    ensures numbered { IfOk result (λ out. (count : ℕ) → AreNumbered count entries.items → AreNumbered count out.items) }
{
    merge_runs(alloc, entries.as_slice())
}
