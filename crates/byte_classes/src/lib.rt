//! The first byte of a class in a text. Sixteen bytes are compared at once.
#![tactic(auto)]

ghost use Rattle.std.specs.Prelude.{◌≡◌, ◌≤◌, ◌<◌, ◌+◌, ◌-◌, ◌==◌, ℕ, Bool, MatchOption, length, map};
ghost use Rattle.std.specs.List.{position_or_len};
ghost use Rattle.std.specs.Simd.Lanes.{mask_l};

use std::simd::prelude::*;

// How many bytes are compared at once.
const BLOCK: usize = 16;

/// A class of bytes, such as the bytes that end a line. Its ghost item `has`, which only proofs see, says
/// which bytes are in the class.
///
/// ```
/// let hash = OneByte { byte: b'#' };
/// assert!(rt; hash.has(b'#') && !hash.has(b'a'));
/// ```
pub trait ByteClass {
    // Whether a byte is in the class.
    ghost has: { Self → ℕ → Bool };

    /// Whether a byte is in the class.
    fn has(&self, byte: u8) -> bool
        ensures { result ≡ has self.now byte };

    /// A bit for each byte of a block, from the lowest bit up. The bit is set if the byte is in the class.
    fn those_in(&self, block: u8x16) -> u64
        ensures { result ≡ mask_l (map (has self.now) block) };
}

/// The class that has one byte.
#[derive(Clone, Copy)]
pub struct OneByte {
    /// The byte.
    pub byte: u8,
}

impl ByteClass for OneByte {
    // the class has this byte alone
    ghost has = { λ class byte. byte == class.byte };

    fn has(&self, byte: u8) -> bool {
        byte == self.byte
    }

    fn those_in(&self, block: u8x16) -> u64 {
        block.simd_eq(u8x16::splat(self.byte)).to_bitmask()
    }
}

/// How many bytes come before the first one of a class, or how many bytes a text has if there is none.
///
/// Allocates nothing.
///
/// ```
/// assert_eq!(rt; len_before(&OneByte { byte: b'#' }, b"a.md#top"), 4);
/// assert_eq!(rt; len_before(&OneByte { byte: b'?' }, b"a.md#top"), 8);
/// ```
#[tactic(auto, using(crate::proofs::FirstLemmas::position_le))]
pub fn len_before<C: ByteClass>(class: &C, text: &[u8]) -> usize
    // the position of the first byte of the class, or the text's length
    ensures first { result ≡ position_or_len (C.has class.now) text.now }
    // at most the text's length
    ensures within { result ≤ length text.now }
{
    if text.len() < BLOCK {
        return len_before_in_few(class, text);
    }
    let mut start = 0;
    while text.len() - start > BLOCK {
        if let Some(len) = len_before_in_block(class, text, start) {
            return start + len;
        }
        start += BLOCK;
    }
    len_before_in_last_block(class, text)
}

// The same for a text that is shorter than a block.
#[tactic(auto, using(crate::proofs::FirstLemmas::position_is))]
fn len_before_in_few<C: ByteClass>(class: &C, text: &[u8]) -> usize
    ensures { result ≡ position_or_len (C.has class.now) text.now }
{
    let mut len = 0;
    while len < text.len() && !class.has(text[len]) {
        len += 1;
    }
    len
}

// The same, if none comes before the last block, which may overlap the one before.
#[tactic(auto, using(crate::proofs::FirstLemmas::position_le))]
fn len_before_in_last_block<C: ByteClass>(class: &C, text: &[u8]) -> usize
    requires block { BLOCK ≤ length text.now }
    requires before { length text.now - BLOCK ≤ position_or_len (C.has class.now) text.now }
    ensures { result ≡ position_or_len (C.has class.now) text.now }
{
    let start = text.len() - BLOCK;
    match len_before_in_block(class, text, start) {
        Some(len) => start + len,
        None => text.len(),
    }
}

// How many bytes of a block come before the first one of a class; `None` if the block has none.
#[inline(always)]
fn len_before_in_block<C: ByteClass>(class: &C, text: &[u8], start: usize) -> Option<usize>
    requires block { start + BLOCK ≤ length text.now }
    requires before { start ≤ position_or_len (C.has class.now) text.now }
    ensures { MatchOption result (start + BLOCK ≤ position_or_len (C.has class.now) text.now)
        (λ len. start + len ≡ position_or_len (C.has class.now) text.now) }
{
    let found = class.those_in(u8x16::from_slice(&text[start..]));
    if found == 0 {
        None
    } else {
        Some(found.trailing_zeros() as usize)
    }
}
