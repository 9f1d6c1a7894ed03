//! Laws of the boxes, for whoever relies on them. The functions do nothing.
ghost use Rattle.std.specs.Prelude.{◌≡◌, ℕ, List, Option};
ghost use Rattle.std.specs.List.{AllPairs};
ghost use Rattle.field_boxes.specs.Headline.Classifier.{Interval, Rule};
ghost use Rattle.box_query.specs.Boxes.{AreBoxesOf};
ghost use Rattle.field_boxes.specs.Boxes.{LiesIn};

/// Two lists of boxes of the same rules, box and name are the same.
pub fn one_list_of_boxes()
    ensures { (rules : List (Rule (List ℕ))) (box : List Interval) (name : Option (List ℕ)) (boxes others : List (List Interval)) →
        AreBoxesOf rules box name boxes → AreBoxesOf rules box name others → boxes ≡ others }
{}

/// No header lies in two of the boxes.
pub fn boxes_are_apart()
    ensures { (rules : List (Rule (List ℕ))) (box : List Interval) (name : Option (List ℕ)) (boxes : List (List Interval)) (header : List ℕ) →
        AreBoxesOf rules box name boxes → AllPairs (λ b c. LiesIn b header → LiesIn c header → ⊥) boxes }
{}
