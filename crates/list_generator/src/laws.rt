//! Laws of the definitions, for whoever relies on them. The functions do nothing.
ghost use Rattle.std.specs.Prelude.{◌≡◌, ◌∷◌, [], codes};
ghost use Rattle.list_generator.specs.Draws.{state_after};
ghost use Rattle.list_generator.specs.DrawnRules.{drawn_rules};
ghost use Rattle.list_generator.specs.DrawnSets.{from_to, ten};

/// The first six states from 1 on.
pub fn worked_states()
    ensures first { state_after 1 1 ≡ 1103527590 }
    ensures second { state_after 2 1 ≡ 377401575 }
    ensures third { state_after 3 1 ≡ 662824084 }
    ensures fourth { state_after 4 1 ≡ 1147902781 }
    ensures fifth { state_after 5 1 ≡ 2035015474 }
    ensures sixth { state_after 6 1 ≡ 368800899 }
{}

/// The one rule that seed 1 gives: from 10.7.3.0/24 to port 53 of any address by UDP, `deny`.
pub fn worked_rule()
    ensures { drawn_rules 1 1 ≡ record {
      sets = (from_to (ten 7 3 0) (ten 7 3 255) ∷ []) ∷ (from_to 0 4294967295 ∷ []) ∷ (from_to 0 65535 ∷ []) ∷ (from_to 53 53 ∷ []) ∷ (from_to 17 17 ∷ []) ∷ [];
      decision = codes "deny";
    } ∷ [] }
{}
