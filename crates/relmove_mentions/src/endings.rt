//! What a text ends in.
ghost use Rattle.std.specs.Prelude.{◌≡◌, ◌≤◌, ◌<◌, ◌-◌, ℕ, drop, false, length, take};
ghost use Rattle.std.specs.List.{fold};
ghost use Rattle.relative_path.specs.Steps.{is_slash};
ghost use Rattle.relmove_mentions.specs.Endings.{ending_of, may_end, next_ending, no_ending};
ghost use Rattle.relmove_mentions.specs.Spans.{is_bounded_after};

use crate::hashes::Hashes;
use crate::name_hashes::hash_with;
use crate::text_span::{is_path_byte, is_plain_byte};

// The hash of a full stop.
const DOT_HASH: u64 = 46;

// A text up to an offset, and what it ends in there.
#[derive(Clone, Copy)]
pub(crate) struct EndingAt {
    pub(crate) ending: Ending,
    pub(crate) end: usize,
}

// What a text ends in, apart from slashes: its last word, which is path bytes and then at most one other byte.
#[derive(Clone, Copy)]
pub(crate) struct Ending {
    // The hash of its bytes.
    pub(crate) hash: u64,
    // Whether it has a percent sign.
    pub(crate) encoded: bool,
    // Whether the next byte, if it is no slash, begins another.
    pub(crate) ended: bool,
}

impl Ending {
    // Returns what the empty text ends in.
    #[inline]
    pub(crate) fn none() -> Ending
        ensures { result ≡ no_ending }
    {
        Ending {
            hash: 0,
            encoded: false,
            ended: true,
        }
    }

    // Returns what the text ends in with one more byte.
    #[inline]
    pub(crate) fn then(self, byte: u8) -> Ending
        ensures { result ≡ next_ending self byte }
    {
        if byte == b'/' {
            return Ending {
                ended: true,
                ..self
            };
        }
        self.then_no_slash(byte)
    }

    // Returns what the text ends in with one more byte that is no slash.
    #[inline]
    fn then_no_slash(self, byte: u8) -> Ending
        requires { is_slash byte ≡ false }
        ensures { result ≡ next_ending self byte }
    {
        let word = if self.ended { Ending::none() } else { self };
        Ending {
            hash: hash_with(word.hash, byte),
            encoded: word.encoded || byte == b'%',
            ended: !is_path_byte(byte),
        }
    }

    // Returns whether a name of which the set has the ending may end as the text does.
    #[inline]
    pub(crate) fn may_be_of(self, endings: &Hashes) -> bool
        ensures { result ≡ may_end endings.now self }
    {
        self.encoded || self.hash == DOT_HASH || endings.may_have(self.hash)
    }
}

// Returns what a text ends in after one that ends so, with its bytes from an offset on: with the first of them, and with more
// of them as long as it is clear that a path goes on. The first can also end a word before they begin another.
#[inline]
pub(crate) fn with_word(before: Ending, text: &[u8], start: usize) -> EndingAt
    requires { start < length text.now }
    ensures after { start < result.end }
    ensures within { result.end ≤ length text.now }
    ensures ending { result.ending ≡ fold next_ending before (take (result.end - start) (drop start text.now)) }
    ensures inside { (at : ℕ) → start < at → at < result.end → is_bounded_after text.now at ≡ false }
{
    let ending = before.then(text[start]);
    if ending.ended {
        return with_next_word(ending, text, start + 1);
    }
    with_plain_bytes(ending, text, start + 1)
}

// Returns the same with the plain bytes from an offset on, if the next byte begins another word.
#[inline]
fn with_next_word(before: Ending, text: &[u8], start: usize) -> EndingAt
    requires within { start ≤ length text.now }
    ensures after { start ≤ result.end }
    ensures within { result.end ≤ length text.now }
    ensures ending { result.ending ≡ fold next_ending before (take (result.end - start) (drop start text.now)) }
    ensures inside { (at : ℕ) → start ≤ at → at < result.end → is_bounded_after text.now at ≡ false }
{
    if text.len() <= start || !is_plain_byte(text[start]) {
        return EndingAt {
            ending: before,
            end: start,
        };
    }
    with_plain_bytes(before.then(text[start]), text, start + 1)
}

// Returns the same with the plain bytes from an offset on, if the next byte goes on the word.
#[inline]
fn with_plain_bytes(before: Ending, text: &[u8], start: usize) -> EndingAt
    requires within { start ≤ length text.now }
    requires goes_on { before.ended ≡ false }
    ensures after { start ≤ result.end }
    ensures within { result.end ≤ length text.now }
    ensures ending { result.ending ≡ fold next_ending before (take (result.end - start) (drop start text.now)) }
    ensures inside { (at : ℕ) → start ≤ at → at < result.end → is_bounded_after text.now at ≡ false }
{
    let mut hash = before.hash;
    let mut end = start;
    while end < text.len() && is_plain_byte(text[end]) {
        hash = hash_with(hash, text[end]);
        end += 1;
    }
    let ending = Ending { hash, ..before };
    EndingAt { ending, end }
}

// Returns what a text ends in.
pub(crate) fn ending_of(text: &[u8]) -> Ending
    ensures { result ≡ ending_of text.now }
{
    let mut ending = Ending::none();
    for byte in text {
        ending = ending.then(*byte);
    }
    ending
}
