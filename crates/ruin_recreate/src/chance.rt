//! Numbers by chance.

use rand_core::utils::NextWord;
use rand_pcg::Pcg32;

/// The stream of the generator.
const STREAM: u64 = 54;

/// Every so manyth place is passed over, on average half as many.
const PLACES_APART: u32 = 199;

/// Numbers by chance, the same ones for the same seed.
#[derive(Drop)]
pub(crate) struct Chance {
    words: Pcg32,
    /// How many places are looked at before the next one is passed over.
    looks_left: usize,
}

impl Chance {
    pub(crate) fn new(seed: u64) -> Chance {
        Chance {
            words: Pcg32::new(seed, STREAM),
            looks_left: 0,
        }
    }

    /// A word.
    pub(crate) fn word(&mut self) -> u32 {
        self.words.next_word()
    }

    /// A number below a count, and 0 where that is 0.
    pub(crate) fn below(&mut self, count: usize) -> usize {
        let word = u64::from(self.words.next_word());
        (word.wrapping_mul(count as u64) >> 32) as usize
    }

    /// Whether a thing happens that does in so many of a hundred cases.
    pub(crate) fn is_within(&mut self, hundredths: usize) -> bool {
        self.below(100) < hundredths
    }

    /// Whether a place is passed over: one in a hundred is.
    pub(crate) fn passes_over(&mut self) -> bool {
        if self.looks_left == 0 {
            self.looks_left = self.below(PLACES_APART as usize);
            return true;
        }
        self.looks_left -= 1;
        false
    }
}
