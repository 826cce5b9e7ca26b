//! A set of hashes.
ghost use Rattle.std.specs.Prelude.{◌≡◌, ◌<◌, ℕ, true};
ghost use Rattle.relmove_mentions.specs.Hashes.{has_bit, has_number, may_have, other_hash};

use std::alloc::{AllocError, Global};

// For each hash so many bits, of which it sets two, and for at most so many hashes.
const BITS_EACH: usize = 128;

const MOST_HASHES: usize = 32_768;

// How many bits a word has.
const WORD: u64 = 64;

// A set of hashes. It can also have a hash that was never inserted.
#[derive(Drop)]
pub(crate) struct Hashes {
    words: Vec<u64>,
    mask: u64,
}

impl Hashes {
    // Returns an empty set, with room for about so many hashes.
    pub(crate) fn new(alloc: Global, count: usize) -> Result<Hashes, AllocError> {
        let bits = BITS_EACH * count.clamp(1, MOST_HASHES).next_power_of_two();
        let words = vec![in alloc; 0; bits / WORD as usize]?;
        Ok(Hashes {
            words,
            mask: bits as u64 - 1,
        })
    }

    // Inserts a hash.
    pub(crate) fn insert(&mut self, hash: u64)
        ensures has { may_have self.new hash ≡ true }
        ensures keeps { (other : ℕ) → may_have self.old other ≡ true → may_have self.new other ≡ true }
    {
        self.insert_number(hash);
        self.insert_number(other_hash(hash));
    }

    // Sets the bit of a number.
    fn insert_number(&mut self, number: u64)
        ensures has { has_number self.new number ≡ true }
        ensures keeps { (other : ℕ) → has_number self.old other ≡ true → has_number self.new other ≡ true }
    {
        let at = number & self.mask;
        if let Some(word) = self.words.get_mut((at / WORD) as usize) {
            *word |= 1 << (at % WORD);
        }
    }

    // Returns whether the set has a hash.
    #[inline]
    pub(crate) fn may_have(&self, hash: u64) -> bool
        ensures { result ≡ may_have self.now hash }
    {
        self.has_number(hash) && self.has_number(other_hash(hash))
    }

    // Returns whether the bit of a number is set.
    #[inline]
    fn has_number(&self, number: u64) -> bool
        ensures { result ≡ has_number self.now number }
    {
        let at = number & self.mask;
        match self.words.get((at / WORD) as usize) {
            Some(word) => has_bit(*word, at % WORD),
            None => true,
        }
    }
}

// Returns whether a word has a bit.
#[inline]
fn has_bit(word: u64, bit: u64) -> bool
    requires { bit < 64 }
    ensures { result ≡ has_bit bit word }
{
    word >> bit & 1 == 1
}

// Returns a number that is made of all of a hash. Hashes of short texts differ in their last bits alone.
#[inline]
fn other_hash(hash: u64) -> u64
    ensures { result ≡ other_hash hash }
{
    hash.wrapping_mul(11_400_714_819_323_198_485) / 4_294_967_296
}
