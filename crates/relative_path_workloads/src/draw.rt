//! Random numbers.

// The step of the state, and the factors that mix it: the generator SplitMix64 of Steele, Lea and Flood.
const STEP: u64 = 0x9E37_79B9_7F4A_7C15;

const FIRST_FACTOR: u64 = 0xBF58_476D_1CE4_E5B9;

const SECOND_FACTOR: u64 = 0x94D0_49BB_1331_11EB;

// Draws numbers: the same ones each time from one seed.
#[derive(Drop)]
pub(crate) struct Draw {
    state: u64,
}

impl Draw {
    // The numbers of a seed.
    pub(crate) fn new(seed: u64) -> Draw {
        Draw { state: seed }
    }

    // The next number.
    fn next(&mut self) -> u64 {
        self.state = self.state.wrapping_add(STEP);
        let mut mixed = self.state;
        mixed = (mixed ^ (mixed >> 30)).wrapping_mul(FIRST_FACTOR);
        mixed = (mixed ^ (mixed >> 27)).wrapping_mul(SECOND_FACTOR);
        mixed ^ (mixed >> 31)
    }

    // A number below `bound`, or 0 if there is none.
    pub(crate) fn below(&mut self, bound: usize) -> usize {
        let number = (self.next() >> 32) as usize;
        if bound == 0 { 0 } else { number % bound }
    }

    // One of `count` numbers, of which `least` is the least.
    pub(crate) fn from(&mut self, least: usize, count: usize) -> usize {
        least.saturating_add(self.below(count))
    }

    // Whether one of `count` cases, all as likely, is the case.
    pub(crate) fn once_in(&mut self, count: usize) -> bool {
        self.below(count) == 0
    }

    // One of some words.
    pub(crate) fn word<'a>(&mut self, words: &[&'a str]) -> &'a str {
        let number = self.below(words.len());
        match words.get(number) {
            Some(word) => *word,
            None => "",
        }
    }

    // One of some texts.
    pub(crate) fn text<'a>(&mut self, texts: &'a [String]) -> &'a str {
        let number = self.below(texts.len());
        match texts.get(number) {
            Some(text) => text.as_str(),
            None => "",
        }
    }
}
