//! Numbers that look random and are the same each time: the generator splitmix64.
ghost use Rattle.std.specs.Prelude.{◌<◌};

/// The generator, by Steele, Lea and Flood.
#[derive(Clone, Copy, Debug)]
pub struct Numbers {
    state: u64,
}

impl Numbers {
    /// The numbers that follow from the seed.
    pub fn new(seed: u64) -> Numbers {
        Numbers { state: seed }
    }

    /// The next 64 bits.
    pub fn next(&mut self) -> u64 {
        self.state = self.state.wrapping_add(0x9e37_79b9_7f4a_7c15);
        let word = (self.state ^ self.state >> 30).wrapping_mul(0xbf58_476d_1ce4_e5b9);
        let word = (word ^ word >> 27).wrapping_mul(0x94d0_49bb_1331_11eb);
        word ^ word >> 31
    }

    /// The next number below the bound.
    pub fn below(&mut self, bound: u32) -> u32
        requires { 0 < bound }
        ensures { result < bound }
    {
        (self.next() % u64::from(bound)) as u32
    }
}
