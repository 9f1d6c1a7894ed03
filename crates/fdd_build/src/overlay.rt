//! What shows where one diagram is laid over another.

/// How one diagram is laid over another: where the upper one answers 0, the lower one shows.
#[derive(Clone, Copy, Debug, PartialEq, Eq)]
pub(crate) enum Overlay {
    /// Elsewhere the upper one's answer stands.
    Answer,
    /// Elsewhere this decision stands.
    Decision(u32),
}

impl Overlay {
    ghost use Rattle.std.specs.Prelude.{◌≡◌};
    ghost use Rattle.fdd_build.specs.Overlay.{shown};

    /// What shows of the two answers.
    pub fn of(self, upper: u32, lower: u32) -> u32
        ensures { result ≡ shown self upper lower }
    {
        if upper == 0 {
            return lower;
        }
        match self {
            Overlay::Answer => upper,
            Overlay::Decision(decision) => decision,
        }
    }
}
