//! Classes of bytes, and steps over the bytes of a text.
ghost use Rattle.std.specs.Prelude.{◌≡◌, ◌≤◌, ◌<◌, ◌==◌, ◌+◌, length, drop, IfSome};
ghost use Rattle.std.specs.List.{list_all};
ghost use Rattle.markdown_targets.specs.Classes.{is_blank, is_line_end, is_space, is_special, is_destination_mark};
ghost use Rattle.markdown_targets.specs.Destinations.{is_space_or_control};
ghost use Rattle.markdown_targets.specs.Offsets.{Skips, Advances, first_from, escape_or_byte_len};
ghost use Rattle.markdown_targets.specs.Words.{word_end};

use byte_classes::{ByteClass, OneByte, len_before};
use std::simd::prelude::*;

// Returns whether a byte ends a line.
pub(crate) fn is_line_end(byte: u8) -> bool
    ensures { result ≡ is_line_end byte }
{
    byte == b'\n' || byte == b'\r'
}

// Returns whether a byte is a space or a tab.
pub(crate) fn is_blank(byte: u8) -> bool
    ensures { result ≡ is_blank byte }
{
    byte == b' ' || byte == b'\t'
}

// Returns whether a byte is a space or a tab, or ends a line.
pub(crate) fn is_space(byte: u8) -> bool
    ensures { result ≡ is_space byte }
{
    is_blank(byte) || is_line_end(byte)
}

// Returns whether a byte is a space or a control byte of ASCII other than NUL, which CommonMark reads as U+FFFD.
pub(crate) fn is_space_or_control(byte: u8) -> bool
    ensures { result ≡ is_space_or_control byte }
{
    byte != 0 && byte <= b' ' || byte == 127
}

// Returns whether a text has only spaces and tabs.
pub(crate) fn is_blank_text(text: &[u8]) -> bool
    ensures { result ≡ list_all is_blank text.now }
{
    text.iter().all(|&byte| is_blank(byte))
}

// Returns how many times a byte is repeated at the beginning of a text.
pub(crate) fn run_length(text: &[u8], byte: u8) -> usize
    ensures { result ≤ length text.now }
{
    run_end(text, 0, |other| other == byte)
}

// Returns the offset of the first byte from an offset on that fails a test, or the end of the text.
pub(crate) fn run_end<F: Fn(u8) -> bool>(text: &[u8], from: usize, test: F) -> usize
    requires callable { F.IsAlwaysCallable test }
    requires within { from ≤ length text.now }
    ensures { Skips text.now from result }
{
    for k in from..text.len() {
        if !test(text[k]) {
            return k;
        }
    }
    text.len()
}

// Returns the end of a text without the bytes at its end that pass a test. The text begins at an offset.
pub(crate) fn trim_end<F: Fn(u8) -> bool>(text: &[u8], start: usize, test: F) -> usize
    requires callable { F.IsAlwaysCallable test }
    requires within { start ≤ length text.now }
    ensures { Skips text.now start result }
{
    for k in (start..text.len()).rev() {
        if !test(text[k]) {
            return k + 1;
        }
    }
    start
}

// Returns the offset of the first byte of a class from an offset on, or the end of the text.
fn first_at<C: ByteClass>(text: &[u8], from: usize, class: &C) -> usize
    requires { from ≤ length text.now }
    ensures first { result ≡ first_from (C.has class.now) text.now from }
    ensures within { Skips text.now from result }
{
    from + len_before(class, &text[from..])
}

// Returns the offset of the first of this byte from an offset on, or the end of the text.
pub(crate) fn byte_at(text: &[u8], from: usize, byte: u8) -> usize
    requires { from ≤ length text.now }
    ensures first { result ≡ first_from (λ b. b == byte) text.now from }
    ensures within { Skips text.now from result }
{
    first_at(text, from, &OneByte { byte })
}

// Returns the offset of the first line end from an offset on, or the end of the text.
pub(crate) fn line_end(text: &[u8], from: usize) -> usize
    requires { from ≤ length text.now }
    ensures first { result ≡ first_from is_line_end text.now from }
    ensures within { Skips text.now from result }
{
    first_at(text, from, &LineEnd)
}

// The bytes that end a line.
#[derive(Drop)]
struct LineEnd;

impl ByteClass for LineEnd {
    ghost has = { λ _. is_line_end };

    fn has(&self, byte: u8) -> bool {
        is_line_end(byte)
    }

    fn those_in(&self, block: u8x16) -> u64 {
        let ends = block.simd_eq(u8x16::splat(b'\n')) | block.simd_eq(u8x16::splat(b'\r'));
        ends.to_bitmask()
    }
}

// Returns the offset of the first byte from an offset on with which an inline or an escape may begin, or the end of the
// text.
pub(crate) fn special_at(text: &[u8], from: usize) -> usize
    requires { from ≤ length text.now }
    ensures first { result ≡ first_from is_special text.now from }
    ensures within { Skips text.now from result }
{
    first_at(text, from, &Special)
}

// The bytes with which an inline or an escape may begin or end.
#[derive(Drop)]
struct Special;

impl ByteClass for Special {
    ghost has = { λ _. is_special };

    fn has(&self, byte: u8) -> bool {
        matches!(byte, b'!' | b'<' | b'[' | b'\\' | b']' | b'`')
    }

    fn those_in(&self, block: u8x16) -> u64 {
        let brackets = block.simd_eq(u8x16::splat(b'['))
            | block.simd_eq(u8x16::splat(b'\\'))
            | block.simd_eq(u8x16::splat(b']'));
        let others = block.simd_eq(u8x16::splat(b'!'))
            | block.simd_eq(u8x16::splat(b'<'))
            | block.simd_eq(u8x16::splat(b'`'));
        (brackets | others).to_bitmask()
    }
}

// Returns the offset of the first byte from an offset on with which a destination may end, or with which parentheses or
// an escape may begin or end, or the end of the text.
pub(crate) fn destination_mark_at(text: &[u8], from: usize) -> usize
    requires { from ≤ length text.now }
    ensures first { result ≡ first_from is_destination_mark text.now from }
    ensures within { Skips text.now from result }
{
    first_at(text, from, &DestinationMark)
}

// The bytes with which a destination may end, or with which parentheses or an escape may begin or end. NUL is one of
// these bytes only because the bytes up to the space are compared at once.
#[derive(Drop)]
struct DestinationMark;

impl ByteClass for DestinationMark {
    ghost has = { λ _. is_destination_mark };

    fn has(&self, byte: u8) -> bool {
        byte <= b' ' || matches!(byte, b'(' | b')' | b'\\' | 127)
    }

    fn those_in(&self, block: u8x16) -> u64 {
        let controls = block.simd_le(u8x16::splat(b' ')) | block.simd_eq(u8x16::splat(127));
        let others = block.simd_eq(u8x16::splat(b'('))
            | block.simd_eq(u8x16::splat(b')'))
            | block.simd_eq(u8x16::splat(b'\\'));
        (controls | others).to_bitmask()
    }
}

// Returns the offset after the spaces and line ends at an offset.
pub(crate) fn skip_spaces(text: &[u8], from: usize) -> usize
    requires { from ≤ length text.now }
    ensures { Skips text.now from result }
{
    run_end(text, from, is_space)
}

// Returns the offset after this byte, where it is at an offset.
pub(crate) fn skip_byte(text: &[u8], k: usize, byte: u8) -> Option<usize>
    ensures { IfSome result (λ end. Advances text.now k end) }
{
    if k < text.len() && text[k] == byte {
        Some(k + 1)
    } else {
        None
    }
}

// Returns the offset after the first of these words from an offset on.
pub(crate) fn find_end(text: &[u8], from: usize, word: &[u8]) -> Option<usize>
    requires { from ≤ length text.now }
    ensures end { result ≡ word_end word.now from (drop from text.now) }
    ensures within { IfSome result (λ end. Skips text.now from end) }
{
    let mut k = word_start(text, from, word);
    while k < text.len() {
        if let Some(rest) = text[k..].strip_prefix(word) {
            return Some(text.len() - rest.len());
        }
        k = word_start(text, k + 1, word);
    }
    None
}

// Returns the first offset from an offset on where a word may begin, or the end of the text.
fn word_start(text: &[u8], from: usize, word: &[u8]) -> usize
    requires { from ≤ length text.now }
    ensures none_before { word_end word.now from (drop from text.now) ≡ word_end word.now result (drop result text.now) }
    ensures within { Skips text.now from result }
{
    match word.first() {
        Some(first) => byte_at(text, from, *first),
        None => from,
    }
}

// Returns the offset after the escape at an offset, or after the one byte.
#[inline(always)]
pub(crate) fn skip_escape_or_byte(text: &[u8], k: usize) -> usize
    requires { k < length text.now }
    ensures step { result ≡ k + escape_or_byte_len (drop k text.now) }
    ensures within { Advances text.now k result }
{
    match &text[k..] {
        [b'\\', escaped, ..] if escaped.is_ascii_punctuation() => k + 2,
        _ => k + 1,
    }
}

// Returns the offset of the first byte from an offset on that passes a test and isn't escaped.
pub(crate) fn find_unescaped<F: Fn(u8) -> bool>(text: &[u8], from: usize, test: F) -> Option<usize>
    requires callable { F.IsAlwaysCallable test }
    requires within { from ≤ length text.now }
    ensures { IfSome result (λ k. (from ≤ k) × (k < length text.now)) }
{
    let mut k = from;
    while k < text.len() {
        if test(text[k]) {
            return Some(k);
        }
        k = skip_escape_or_byte(text, k);
    }
    None
}
