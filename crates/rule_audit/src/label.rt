//! Labels of headers: an open rule that is the first that matches, and how the next one that matches decides.

use field_boxes::Rule;

/// How the next rule that matches a header decides.
#[derive(Clone, Copy, Debug, PartialEq, Eq)]
pub(crate) enum Next {
    /// There is none.
    Nothing,
    /// As the one before it.
    Alike,
    /// Otherwise than the one before it.
    Otherwise,
}

impl Next {
    ghost use Rattle.std.specs.Prelude.{◌≡◌};
    ghost use Rattle.rule_audit.specs.Labels.{code_of, next_at, next_of};

    /// How the next decision is beside the one before it, 0 for none.
    fn of(decision: u32, next: u32) -> Next
        ensures { result ≡ next_of decision next }
    {
        if next == 0 {
            Next::Nothing
        } else if decision == next {
            Next::Alike
        } else {
            Next::Otherwise
        }
    }

    /// The way with the number.
    fn at(code: u32) -> Next
        ensures { result ≡ next_at code }
    {
        match code {
            0 => Next::Nothing,
            1 => Next::Alike,
            _ => Next::Otherwise,
        }
    }

    /// The number of the way.
    fn code(self) -> u32
        ensures { result ≡ code_of self }
    {
        match self {
            Next::Nothing => 0,
            Next::Alike => 1,
            Next::Otherwise => 2,
        }
    }
}

/// The place of the first rule that matches, and how the next one decides.
///
/// A label stands in a leaf as a number: three numbers for each rule, from the first one on. Those below are
/// decisions, and 0 where no rule matches.
#[derive(Clone, Copy, Debug, PartialEq, Eq)]
pub(crate) struct Label {
    pub place: u32,
    pub next: Next,
}

impl Label {
    ghost use Rattle.std.specs.Prelude.{◌≡◌, ◌≤◌, ◌+◌, ◌*◌};
    ghost use Rattle.rule_audit.specs.Labels.{label_at, number_of, with_next};

    /// The label with the number: none below the first one.
    pub fn at(first: u32, number: u32) -> Option<Label>
        ensures { result ≡ label_at first number }
    {
        if number < first {
            return None;
        }
        let above = number - first;
        Some(Label {
            place: above / 3,
            next: Next::at(above % 3),
        })
    }

    /// The number of the label, with the first one.
    pub fn number(self, first: u32) -> u32
        requires { first + 3 * self.place ≤ 4294967293 }
        ensures { result ≡ number_of first self }
    {
        first + 3 * self.place + self.next.code()
    }

    /// The number once a decision comes behind the label's rule: where nothing was known to come next, it does.
    pub fn with_next(self, first: u32, number: u32, rule: &Rule, below: u32) -> u32
        requires { first + 3 * self.place ≤ 4294967293 }
        ensures { result ≡ with_next first number self.place (Some rule.now) self.next below }
    {
        match self.next {
            Next::Nothing => {
                let label = Label {
                    place: self.place,
                    next: Next::of(rule.decision, below),
                };
                label.number(first)
            }
            Next::Alike => number,
            Next::Otherwise => number,
        }
    }
}
