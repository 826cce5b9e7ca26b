//! Relative URLs.
ghost use Rattle.std.specs.Prelude.{◌≡◌, ◌≤◌, ◌<◌, ◌+◌, length, slice_index};
ghost use Rattle.std.specs.List.{list_all, position};
ghost use Rattle.target_paths.specs.Shown.{piece_of, read_bytes};
ghost use Rattle.target_paths.specs.Url.{
  decoded_byte,
  has_scheme,
  is_colon,
  is_not_relative,
  is_scheme,
  is_scheme_byte,
  url_piece,
  without_leading,
  without_trailing,
};

use crate::character_reference::begins_with_letter;
use crate::piece::{Piece, Read};
use crate::target::WhyUnknown;

// Returns a text without control bytes and spaces at its start.
pub(crate) fn without_leading(text: &[u8]) -> &[u8]
    ensures { result.now ≡ without_leading text.now }
{
    let mut left = text;
    while let [first, rest @ ..] = left {
        if *first > b' ' {
            break;
        }
        left = rest;
    }
    left
}

// Returns a text without control bytes and spaces at its end.
pub(crate) fn without_trailing(text: &[u8]) -> &[u8]
    ensures { result.now ≡ without_trailing text.now }
{
    let mut left = text;
    while let [rest @ .., last] = left {
        if *last > b' ' {
            break;
        }
        left = rest;
    }
    left
}

// Returns whether a text isn't relative to the page's directory.
pub(crate) fn is_not_relative(text: &[u8]) -> bool
    ensures { result ≡ is_not_relative text.now }
{
    match text {
        [] => true,
        [b'/', ..] => true,
        _ => has_scheme(text),
    }
}

// Returns whether a text begins with a scheme and a colon.
fn has_scheme(text: &[u8]) -> bool
    ensures { result ≡ has_scheme text.now }
{
    if !begins_with_letter(text) {
        return false;
    }
    match first_colon(text) {
        Some(end) => is_scheme(&text[..end]),
        None => false,
    }
}

fn first_colon(text: &[u8]) -> Option<usize>
    ensures { result ≡ position is_colon text.now }
{
    text.iter().position(|&byte| byte == b':')
}

// Returns whether a text is a scheme: a letter, and then letters, digits, `+`, `-` and `.`.
fn is_scheme(text: &[u8]) -> bool
    ensures { result ≡ is_scheme text.now }
{
    begins_with_letter(text) && are_scheme_bytes(text)
}

// Returns whether each byte of a text may be in a scheme.
fn are_scheme_bytes(text: &[u8]) -> bool
    ensures { result ≡ list_all is_scheme_byte text.now }
{
    text.iter().all(|&byte| is_scheme_byte(byte))
}

// Returns whether a byte may be in a scheme.
fn is_scheme_byte(byte: u8) -> bool
    ensures { result ≡ is_scheme_byte byte }
{
    byte.is_ascii_alphanumeric() || byte == b'+' || byte == b'-' || byte == b'.'
}

// Returns the piece that a byte of a URL's path and the text after it begin with.
pub(crate) fn url_piece(byte: u8, text: &[u8]) -> Piece
    ensures piece { piece_of result ≡ url_piece byte text.now }
    ensures some { 0 < result.size }
    ensures within { result.size ≤ length text.now + 1 }
{
    if byte == b'%'
        && let [high, low, ..] = text
        && let Some(high) = char::from(*high).to_digit(16)
        && let Some(low) = char::from(*low).to_digit(16)
    {
        return Piece {
            size: 3,
            read: decoded_byte((16 * high + low) as u8),
        };
    }
    Piece {
        size: 1,
        read: Read::Byte(byte),
    }
}

// Returns what a percent sign and the two digits of a byte are read as.
fn decoded_byte(byte: u8) -> Read
    ensures { read_bytes result ≡ decoded_byte byte }
{
    match byte {
        0 => Read::Unknown(WhyUnknown::EncodedNul),
        b'/' => Read::Unknown(WhyUnknown::EncodedSlash),
        _ => Read::Byte(byte),
    }
}
