//! How often each bit is 1 in many numbers.
ghost use Rattle.std.specs.Prelude.{◌<◌};

/// Counts for 104 bits: the bit at a place of plane k counts 2^k of the numbers that have a 1 there.
#[derive(Clone, Copy)]
pub struct BitCounts {
    planes: [u128; 20],
}

impl BitCounts {
    /// All zero.
    pub fn new() -> BitCounts {
        BitCounts { planes: [0; 20] }
    }

    /// Counts the bits of one more number. At most 2^20 - 1 are counted.
    #[inline]
    pub fn add(&mut self, number: u128) {
        let mut carry = number;
        for plane in self.planes.iter_mut() {
            if carry == 0 {
                return;
            }
            let both = *plane & carry;
            *plane ^= carry;
            carry = both;
        }
    }

    /// How often the bit was 1.
    pub fn count(&self, bit: u32) -> u64
        requires { bit < 128 }
    {
        let mut count = 0;
        for plane in self.planes.iter().rev() {
            count = count << 1 | ((*plane >> bit) % 2) as u64;
        }
        count
    }

    /// The bits that were 1 most often; all bits where none was.
    pub fn most(&self) -> u128 {
        let mut most = u128::MAX;
        for plane in self.planes.iter().rev() {
            if *plane & most != 0 {
                most &= *plane;
            }
        }
        most
    }
}
