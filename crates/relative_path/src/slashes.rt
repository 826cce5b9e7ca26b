//! A text cut at its slashes.
ghost use Rattle.std.specs.Prelude.{◌≡◌, ◌≢◌, ◌≤◌, ◌+◌, ◌-◌, ◌<◌, MatchOption, drop, length, map, slice_index, take};
ghost use Rattle.std.specs.List.{position_or_len, before_last, after_last};
ghost use Rattle.std.specs.Simd.Lanes.{mask_l};
ghost use Rattle.relative_path.specs.Slashes.{last_start};
ghost use Rattle.relative_path.specs.Steps.{slash, is_slash, components};

use std::simd::prelude::*;

// How many bytes are compared at once.
pub(crate) const BLOCK: usize = 16;

// How many bytes have no slash where a search for a far one begins.
pub(crate) const NEAR: usize = 64;

// How many bytes this search compares at once.
const FAR: usize = 32;

// How many bytes are compared at once in a text shorter than a block.
const HALF: usize = 8;

// A run of slashes, which is dropped at once.
const SLASHES: &str = "////////////////";

// Returns the text without the slashes at its start.
#[inline(always)]
pub(crate) fn without_leading_slashes(text: &str) -> &str
    ensures suffix { result.now ≡ drop (length text.now - length result.now) text.now }
    ensures start { slice_index result.now 0 ≢ slash }
    ensures same { components result.now ≡ components text.now }
{
    if text.as_bytes().first() == Some(&b'/') {
        without_leading_slashes_slow(text)
    } else {
        text
    }
}

// Drops the slashes at the start of the text: first in runs of sixteen, then one by one.
#[inline(never)]
fn without_leading_slashes_slow(text: &str) -> &str
    ensures suffix { result.now ≡ drop (length text.now - length result.now) text.now }
    ensures start { slice_index result.now 0 ≢ slash }
    ensures same { components result.now ≡ components text.now }
{
    let mut rest = text;
    while let Some(shorter) = rest.strip_prefix(SLASHES) {
        rest = shorter;
    }
    rest.trim_start_matches('/')
}

// Returns the text without the slashes at its end.
#[inline(always)]
pub(crate) fn without_trailing_slashes(text: &str) -> &str
    ensures prefix { result.now ≡ take (length result.now) text.now }
    ensures end { slice_index result.now (length result.now - 1) ≢ slash }
    ensures same { components result.now ≡ components text.now }
{
    if text.as_bytes().last() == Some(&b'/') {
        without_trailing_slashes_slow(text)
    } else {
        text
    }
}

// Drops the slashes at the end of the text: first in runs of sixteen, then one by one.
#[inline(never)]
fn without_trailing_slashes_slow(text: &str) -> &str
    ensures prefix { result.now ≡ take (length result.now) text.now }
    ensures end { slice_index result.now (length result.now - 1) ≢ slash }
    ensures same { components result.now ≡ components text.now }
{
    let mut front = text;
    while let Some(shorter) = front.strip_suffix(SLASHES) {
        front = shorter;
    }
    front.trim_end_matches('/')
}

// Counts the bytes before the first slash, if the near ones have none.
#[inline(never)]
#[tactic(auto, using(crate::proofs::SlashesLemmas::position_le))]
pub(crate) fn far_first_piece_len(bytes: &[u8]) -> usize
    requires long { NEAR ≤ length bytes.now }
    requires near { NEAR ≤ position_or_len is_slash bytes.now }
    ensures { result ≡ position_or_len is_slash bytes.now }
{
    let last = bytes.len() - FAR;
    let mut start = NEAR;
    while start < last {
        if let Some(len) = first_in::<FAR>(bytes, start) {
            return start + len;
        }
        start += FAR;
    }
    first_in_last::<FAR>(bytes)
}

// Counts the bytes before the first slash, if none comes before the last N bytes.
#[inline(always)]
#[tactic(auto, using(crate::proofs::SlashesLemmas::position_le))]
fn first_in_last<const N: usize>(bytes: &[u8]) -> usize
    requires lanes { N ≤ 64 }
    requires block { N ≤ length bytes.now }
    requires after { length bytes.now - N ≤ position_or_len is_slash bytes.now }
    ensures { result ≡ position_or_len is_slash bytes.now }
{
    let last = bytes.len() - N;
    match first_in::<N>(bytes, last) {
        Some(len) => last + len,
        None => bytes.len(),
    }
}

// Counts the bytes before the first slash in a block of N bytes; `None` if the block has no slash.
#[inline(always)]
fn first_in<const N: usize>(bytes: &[u8], start: usize) -> Option<usize>
    requires lanes { N ≤ 64 }
    requires block { start + N ≤ length bytes.now }
    requires after { start ≤ position_or_len is_slash bytes.now }
    ensures { MatchOption result (start + N ≤ position_or_len is_slash bytes.now)
        (λ len. start + len ≡ position_or_len is_slash bytes.now) }
{
    let slashes = slashes_in::<N>(bytes, start);
    if slashes == 0 {
        None
    } else {
        Some(slashes.trailing_zeros() as usize)
    }
}

// Returns the bytes before the last slash, and the bytes after it.
#[inline(always)]
#[tactic(auto, using(crate::proofs::SlashesLemmas::IsCharBoundary_before_last, crate::proofs::SlashesLemmas::IsCharBoundary_last))]
pub(crate) fn split_last(text: &str) -> (&str, &str)
    ensures front { result.0.now ≡ before_last is_slash text.now }
    ensures piece { result.1.now ≡ after_last is_slash text.now }
{
    let start = last_piece_start(text);
    (&text[..start.saturating_sub(1)], &text[start..])
}

// Finds where the bytes after the last slash begin.
#[inline(always)]
#[tactic(auto, using(crate::proofs::SlashesLemmas::last_start_is, crate::proofs::SlashesLemmas::last_start_none))]
fn last_piece_start(text: &str) -> usize
    ensures { result ≡ last_start is_slash text.now }
{
    let bytes = text.as_bytes();
    if bytes.len() >= BLOCK {
        let start = bytes.len() - BLOCK;
        let len = last_in::<BLOCK>(bytes, start);
        return if len > 0 {
            start + len
        } else {
            far_last_piece_start(bytes)
        };
    }
    if bytes.len() >= HALF {
        let start = bytes.len() - HALF;
        let len = last_in::<HALF>(bytes, start);
        return if len > 0 {
            start + len
        } else {
            last_in::<HALF>(bytes, 0)
        };
    }
    let mut start = bytes.len();
    while start > 0 && bytes[start - 1] != b'/' {
        start -= 1;
    }
    start
}

// Finds where the bytes after the last slash begin, if the last block has no slash. The first block may overlap the
// second.
#[inline(never)]
fn far_last_piece_start(bytes: &[u8]) -> usize
    requires block { BLOCK ≤ length bytes.now }
    requires near { last_start is_slash bytes.now ≤ length bytes.now - BLOCK }
    ensures { result ≡ last_start is_slash bytes.now }
{
    let mut end = bytes.len() - BLOCK;
    while end > BLOCK {
        let start = end - BLOCK;
        let len = last_in::<BLOCK>(bytes, start);
        if len > 0 {
            return start + len;
        }
        end = start;
    }
    last_in::<BLOCK>(bytes, 0)
}

// Finds where the bytes after the last slash of a block of N bytes begin: 0 if the block has no slash.
#[inline(always)]
fn last_in<const N: usize>(bytes: &[u8], start: usize) -> usize
    requires lanes { N ≤ 64 }
    requires block { start + N ≤ length bytes.now }
    requires before { last_start is_slash bytes.now ≤ start + N }
    ensures none { result ≡ 0 → last_start is_slash bytes.now ≤ start }
    ensures some { 0 < result → start + result ≡ last_start is_slash bytes.now }
{
    64 - slashes_in::<N>(bytes, start).leading_zeros() as usize
}

// Returns a bit for each byte of a block of N bytes, set if the byte is a slash.
#[inline(always)]
pub(crate) fn slashes_in<const N: usize>(bytes: &[u8], start: usize) -> u64
    requires lanes { N ≤ 64 }
    requires block { start + N ≤ length bytes.now }
    ensures { result ≡ mask_l (map is_slash (take N (drop start bytes.now))) }
{
    Simd::<u8, N>::from_slice(&bytes[start..])
        .simd_eq(Simd::splat(b'/'))
        .to_bitmask()
}
