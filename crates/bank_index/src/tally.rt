//! Counts of all bits at once.

/// How often each bit was set in some numbers, up to 63 times: plane `k` has bit `k` of every count.
#[derive(Drop)]
pub(crate) struct Tally {
    planes: [u128; 6],
}

impl Tally {
    /// Of no numbers.
    pub(crate) fn new() -> Tally {
        Tally { planes: [0; 6] }
    }

    /// Counts the bits of one number more.
    #[inline]
    pub(crate) fn add(&mut self, number: u128) {
        let mut carry = number;
        for plane in &mut self.planes {
            let both = *plane & carry;
            *plane ^= carry;
            carry = both;
        }
    }

    /// The bits that were counted so often at least.
    #[inline]
    pub(crate) fn at_least(&self, count: u32) -> u128 {
        let mut enough = u128::MAX;
        let mut left = count;
        for plane in &self.planes {
            enough = if left % 2 == 1 {
                enough & *plane
            } else {
                enough | *plane
            };
            left /= 2;
        }
        enough
    }
}
