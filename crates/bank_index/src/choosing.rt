//! The choice of the bit by which a node parts its slots.
ghost use Rattle.std.specs.Prelude.{◌<◌, IfSome};

use crate::tally::Tally;
use ternary_words::Entry;

/// Of so many slots at most the trits are counted.
const SAMPLE: usize = 63;

/// The shares of `*` that are allowed, one after another.
const STARS: [u32; 4] = [0, 4, 16, 63];

/// The trits of some slots, counted at each bit.
#[derive(Drop)]
struct Sample {
    zeros: Tally,
    ones: Tally,
    fixed: Tally,
    count: u32,
}

impl Sample {
    /// Counts the trits of slots at even distances.
    fn of(entries: &[Entry], slots: &[u32]) -> Sample {
        let mut sample = Sample {
            zeros: Tally::new(),
            ones: Tally::new(),
            fixed: Tally::new(),
            count: 0,
        };
        let distance = slots.len() / SAMPLE + 1;
        for k in 0..SAMPLE {
            let Some(slot) = slots.get(k.wrapping_mul(distance)) else {
                break;
            };
            if let Some(entry) = entries.get(*slot as usize) {
                sample.add(entry.word.value, entry.word.mask);
            }
        }
        sample
    }

    /// Counts the trits of one word more.
    #[inline]
    fn add(&mut self, value: u128, mask: u128) {
        self.zeros.add(mask & !value);
        self.ones.add(mask & value);
        self.fixed.add(mask);
        self.count = self.count.wrapping_add(1);
    }

    /// The bits that so many at least have as 0, and as 1, with so many stars at most.
    #[inline]
    fn parting(&self, each: u32, stars: u32) -> u128 {
        self.zeros.at_least(each)
            & self.ones.at_least(each)
            & self.fixed.at_least(self.count.saturating_sub(stars))
    }

    /// The bits that part the sample best with so many stars at most.
    fn best(&self, stars: u32) -> (u32, u128) {
        let mut each = 0;
        let mut found = 0;
        for step in [16u32, 8, 4, 2, 1] {
            let more = each | step;
            let parting = self.parting(more, stars);
            if parting != 0 {
                each = more;
                found = parting;
            }
        }
        (each, found)
    }
}

/// The highest of the bits, where that is one of a word.
fn highest(bits: u128) -> Option<u32>
    ensures { IfSome result (λ bit. bit < 104) }
{
    let bit = 127u32.wrapping_sub(bits.leading_zeros());
    if bit < 104 { Some(bit) } else { None }
}

/// A bit by which the slots may be parted: the one that leaves most on the smaller side, with as few stars as can be.
pub(crate) fn choose(entries: &[Entry], slots: &[u32]) -> Option<u32>
    ensures { IfSome result (λ bit. bit < 104) }
{
    let sample = Sample::of(entries, slots);
    for stars in STARS {
        let (each, found) = sample.best(sample.count.saturating_mul(stars) / 63);
        if found != 0 && each >= sample.count / 8 {
            return highest(found);
        }
    }
    None
}
