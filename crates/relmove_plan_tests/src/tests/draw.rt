//! Random numbers: the same ones each time from one seed, by the generator SplitMix64 of Steele, Lea and Flood.
use std::alloc::{AllocError, Global};

const STEP: u64 = 0x9E37_79B9_7F4A_7C15;

const FIRST_FACTOR: u64 = 0xBF58_476D_1CE4_E5B9;

const SECOND_FACTOR: u64 = 0x94D0_49BB_1331_11EB;

/// Draws numbers.
#[derive(Drop)]
pub struct Draw {
    state: u64,
}

impl Draw {
    /// The numbers of a seed.
    pub fn new(seed: u64) -> Draw {
        Draw { state: seed }
    }

    fn next(&mut self) -> u64 {
        self.state = self.state.wrapping_add(STEP);
        let mut mixed = self.state;
        mixed = (mixed ^ (mixed >> 30)).wrapping_mul(FIRST_FACTOR);
        mixed = (mixed ^ (mixed >> 27)).wrapping_mul(SECOND_FACTOR);
        mixed ^ (mixed >> 31)
    }

    /// A number below `bound`, or 0 if there is none.
    pub fn below(&mut self, bound: usize) -> usize {
        let number = (self.next() >> 32) as usize;
        if bound == 0 { 0 } else { number % bound }
    }

    /// One of some words.
    pub fn word<'a>(&mut self, words: &[&'a str]) -> &'a str {
        let number = self.below(words.len());
        match words.get(number) {
            Some(word) => *word,
            None => "",
        }
    }

    /// The path of one of some rows.
    pub fn path(&mut self, alloc: Global, rows: &[(String, String)]) -> Result<String, AllocError> {
        let number = self.below(rows.len());
        match rows.get(number) {
            Some((path, _)) => String::from_str(alloc, path),
            None => Ok(String::new(alloc)),
        }
    }
}
