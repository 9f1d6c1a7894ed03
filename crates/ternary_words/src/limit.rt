//! How many entries a table may have.
ghost use Rattle.std.specs.Prelude.{◌≤◌};
ghost use Rattle.razor_limits.specs.declared.limits.TheConstants.{MOST_ENTRIES};

use razor_limits::limits::MOST_ENTRIES;

/// The greatest number of entries that a table may have: 1 to 262,144.
#[derive(Clone, Copy, Debug, PartialEq, Eq)]
pub struct Limit {
    pub count: u32,
    pub ghost some: { 1 ≤ count },
    pub ghost few: { count ≤ MOST_ENTRIES },
}

impl Limit {
    ghost use Rattle.std.specs.Prelude.{◌≡◌, ◌≤◌, ◌↔◌, IfSome, IsSome};
    ghost use Rattle.razor_limits.specs.declared.limits.TheConstants.{MOST_ENTRIES};

    /// The limit of so many entries; none where that is 0 or more than 262,144.
    pub fn of(count: u32) -> Option<Limit>
        ensures count { IfSome result (λ limit. limit.count ≡ count) }
        ensures some { IsSome result ↔ (1 ≤ count) × (count ≤ MOST_ENTRIES) }
    {
        if count == 0 || count > MOST_ENTRIES {
            return None;
        }
        Some(Limit { count })
    }
}
