//! The random numbers of which lists are made.
ghost use Rattle.std.specs.Prelude.{◌≡◌, ◌<◌, ◌^◌};
ghost use Rattle.list_generator.specs.Draws.{drawn, next_state};

/// The state after one turn of the generator: `(x * 1103515245 + 12345) mod 2^31`.
#[tactic(auto, unfolding(crate::specs::Draws::next_state))]
pub fn next(state: u32) -> u32
    requires { state < 2 ^ 31 }
    ensures value { result ≡ next_state state }
    ensures small { result < 2 ^ 31 }
{
    ((u64::from(state) * 1_103_515_245 + 12_345) % (1 << 31)) as u32
}

/// Numbers that are drawn one after another.
#[derive(Clone, Copy, Debug)]
pub(crate) struct Draws {
    pub state: u32,
    pub ghost small: { state < 2 ^ 31 },
}

impl Draws {
    /// The next number: the next state without its lowest eight bits.
    pub fn draw(&mut self) -> u32
        ensures state { self.new.state ≡ next_state self.old.state }
        ensures number { result ≡ drawn 1 self.old.state }
    {
        self.state = next(self.state);
        self.state / 256
    }
}
