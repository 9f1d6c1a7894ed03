//! Numbers that are drawn one after another, the same ones each time.

ghost use Rattle.std.specs.Prelude.{◌<◌};

const SEED: u64 = 88_172_645_463_325_252;

/// A source of numbers.
#[derive(Clone, Copy)]
pub(crate) struct Draws {
    state: u64,
}

impl Draws {
    pub fn new() -> Draws {
        Draws { state: SEED }
    }

    /// The five fields in an order that is drawn.
    pub fn order(&mut self) -> [usize; 5] {
        let mut order = [4, 3, 2, 1, 0];
        for last in (1..5).rev() {
            let other = self.below(last + 1);
            order.swap(last, other);
        }
        order
    }

    /// A number below this one.
    fn below(&mut self, limit: usize) -> usize
        requires { 0 < limit }
        ensures { result < limit }
    {
        self.state ^= self.state << 13;
        self.state ^= self.state >> 7;
        self.state ^= self.state << 17;
        (self.state >> 11) as usize % limit
    }
}
