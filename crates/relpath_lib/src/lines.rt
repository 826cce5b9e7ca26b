//! The lines of a text, and the fields of a line.
ghost use Rattle.std.specs.Prelude.{◌≡◌, ◌<◌, ◌==◌, [], ◌∷◌, length, map, take, IfSome, IfNone};
ghost use Rattle.std.specs.List.{position_or_len, slice_split};
ghost use Rattle.relpath_lib.specs.Lines.{lines_of, fields_of, fields_left};

use byte_classes::{OneByte, len_before};
use memchr::memchr;

/// How many fields of a line are read at most: one more than a command with its arguments has.
pub const MAX_FIELDS: usize = 5;

/// Returns the first line of a text, and the text after it.
pub fn first_line(text: &str) -> Option<(&str, &str)>
    ensures none { IfNone result (lines_of text.now ≡ []) }
    ensures first { IfSome result (λ parts.
        lines_of text.now ≡ parts.0.now ∷ lines_of parts.1.now) }
    ensures shorter { IfSome result (λ parts. length parts.1.now < length text.now) }
{
    if text.is_empty() {
        return None;
    }
    Some(cut_at(text, b'\n').unwrap_or((text, "")))
}

/// Writes the first fields of a line into `room`, and returns them. There is at least one.
pub fn split_fields<'a, 'b>(line: &'a str, room: &'b mut [&'a str; MAX_FIELDS]) -> &'b [&'a str]
    ensures fields { map (λ field. field.now) result.now ≡ take MAX_FIELDS (fields_of line.now) }
    ensures some { 0 < length result.now }
{
    let mut count = 0;
    let mut left = Some(line);
    while count < MAX_FIELDS
        && let Some(text) = left
    {
        let (field, rest) = first_field(text);
        room[count] = field;
        count += 1;
        left = rest;
    }
    &room[..count]
}

// Returns the first field of a text, and the text after its tab.
fn first_field(text: &str) -> (&str, Option<&str>)
    ensures { fields_of text.now ≡ result.0.now ∷ fields_left result.1 }
{
    match cut_at(text, b'\t') {
        Some((field, rest)) => (field, Some(rest)),
        None => (text, None),
    }
}

// Returns the text before the first `byte`, which is ASCII, and the text after it.
#[inline(always)]
fn cut_at(text: &str, byte: u8) -> Option<(&str, &str)>
    requires { byte < 128 }
    ensures none { IfNone result (slice_split (λ b. b == byte) text.now ≡ text.now ∷ []) }
    ensures some { IfSome result (λ parts. slice_split (λ b. b == byte) text.now
        ≡ parts.0.now ∷ slice_split (λ b. b == byte) parts.1.now) }
    ensures shorter { IfSome result (λ parts. length parts.1.now < length text.now) }
{
    let at = len_before_byte(byte, text.as_bytes());
    if at == text.len() {
        return None;
    }
    Some((&text[..at], &text[at + 1..]))
}

// How many bytes are searched block by block. In more bytes a call of `memchr` takes fewer instructions.
const NEAR: usize = 64;

// Returns how many bytes come before the first `byte`, or how many there are if it isn't there.
#[inline(always)]
fn len_before_byte(byte: u8, text: &[u8]) -> usize
    ensures { result ≡ position_or_len (λ b. b == byte) text.now }
{
    let class = OneByte { byte };
    if text.len() <= NEAR {
        return len_before(&class, text);
    }
    let (near, far) = text.split_at(NEAR);
    let len = len_before(&class, near);
    if len < NEAR {
        return len;
    }
    match memchr(byte, far) {
        Some(at) => NEAR + at,
        None => text.len(),
    }
}
