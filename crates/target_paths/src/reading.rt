//! What a target means to a reader of its page.
ghost use Rattle.std.specs.Prelude.{◌≡◌, ◌≤◌, ◌-◌, ◌+◌, length, not, take, true, Ok, IfOk, IfErr};
ghost use Rattle.std.specs.List.{list_all};
ghost use Rattle.target_paths.specs.Pieces.{bytes_of_pieces, read_pieces, total_size};
ghost use Rattle.target_paths.specs.Reading.{
  begins_tail,
  BeginsRelative,
  IfPath,
  IsTailAt,
  meaning,
  meaning_decoded,
  meaning_of_url,
  path_pieces,
  Says,
  trim_url,
};
ghost use Rattle.target_paths.specs.Shown.{HasTail, read_bytes, SaysWhy, SaysWhyOfTarget};
ghost use Rattle.target_paths.specs.Source.{is_read_as_itself, is_read_otherwise};
ghost use Rattle.target_paths.specs.Url.{is_unencoded, url_piece};

use crate::piece::{Read, ReadError, push_read};
use crate::source::source_piece;
use crate::target::{TargetReading, TargetSyntax, WhyUnknown};
use crate::url::{is_not_relative, url_piece, without_leading, without_trailing};
use byte_classes::{ByteClass, OneByte, len_before};
use std::alloc::{AllocError, Global};
use std::simd::prelude::*;

// What a target is read as before its tail, and the offset of the tail.
#[derive(Drop)]
struct PathPart {
    bytes: Vec<u8>,
    tail_at: usize,
}

/// Returns what a target means to a reader of its page: a path that is relative to the page's directory, with
/// the offset of the query or fragment; not such a path; or that the meaning isn't known.
///
/// The call first reads escapes and character references, up to the first `?` or `#`. An escape or a character
/// reference may stand for that `?` or `#`. What comes after it is the tail, and has no influence. The text that
/// was read is a URL. If it is empty, has a scheme or begins with a slash, the result is
/// [`TargetReading::NotRelative`]. Otherwise the call decodes percent signs, once.
///
/// | In the target | In Markdown | In an attribute |
/// |---|---|---|
/// | `\` before ASCII punctuation | the punctuation | a slash, as every backslash |
/// | `&#38;` and `&#x26;`, with 1 to 7 decimal or 1 to 6 hexadecimal digits | the character | the character, but unknown for 128 to 159 |
/// | `&eacute;` and HTML's other names that end in a semicolon | the character, or the two | the character, or the two |
/// | `&eacute` and HTML's other names without a semicolon | itself | the character, but itself before `=`, a letter or a digit |
/// | another `&` | unknown in `&name;`, otherwise itself | unknown before a letter or `#`, otherwise itself |
/// | NUL | U+FFFD | U+FFFD |
/// | tabs and line ends | themselves | nothing |
/// | control bytes and spaces at the ends | themselves | nothing |
///
/// A character reference to 0, to a surrogate or past U+10FFFF is read as U+FFFD. The meaning is also unknown if
/// the path has `%2F` or `%00`, or if the decoded path isn't UTF-8. [`WhyUnknown`] has the reasons.
///
/// Allocates once, or twice for a path: as many bytes as the target has, and two more for each NUL; and then as many
/// bytes as were read before the tail. `&nGt;` and `&nLt;`, which are longer as characters, may need more. Time is
/// linear.
///
/// ```
/// let reading = path_of_target(alloc, TargetSyntax::Markdown, "my%20a\\_b.md?q#top")?;
/// let TargetReading::Path { path, tail_at } = reading else {
///     return Err(Fail::new("a path"));
/// };
/// assert_eq!(rt; (path.as_str(), tail_at), ("my a_b.md", 12));
/// let reading = path_of_target(alloc, TargetSyntax::Attribute, "&#35;top")?;
/// assert_eq!(rt; reading, TargetReading::NotRelative);
/// let reading = path_of_target(alloc, TargetSyntax::Attribute, "a%2Fb")?;
/// assert_eq!(rt; reading, TargetReading::Unknown(WhyUnknown::EncodedSlash));
/// ```
pub fn path_of_target(
    alloc: Global,
    syntax: TargetSyntax,
    target: &str,
) -> Result<TargetReading, AllocError>
    // what the definition `meaning` says of the target
    ensures reading { IfOk result (Says (meaning syntax target.now)) }
    // after a path the target is a tail, from `tail_at` on
    ensures tail { IfOk result (λ reading. IfPath reading (λ _ tail_at. IsTailAt syntax target.now tail_at)) }
    // a path isn't empty and doesn't begin with a slash
    ensures relative { IfOk result (λ reading. IfPath reading (λ path _. BeginsRelative path)) }
{
    match read_target(alloc, syntax, target.as_bytes()) {
        Ok(reading) => Ok(reading),
        Err(ReadError::Unknown(why)) => Ok(TargetReading::Unknown(why)),
        Err(ReadError::OutOfMemory) => Err(AllocError),
    }
}

// Returns the meaning of a target; an unknown meaning is an error.
fn read_target(
    alloc: Global,
    syntax: TargetSyntax,
    target: &[u8],
) -> Result<TargetReading, ReadError>
    ensures ok { IfOk result (Says (meaning syntax target.now)) }
    ensures tail { IfOk result (λ _. HasTail syntax target.now) }
    ensures err { IfErr result (SaysWhyOfTarget (meaning syntax target.now)) }
{
    let part = read_path(alloc, syntax, target)?;
    let text = trim_url(syntax, part.tail_at < target.len(), &part.bytes);
    read_url(alloc, text, part.tail_at)
}

// Returns the meaning of a target, by its text as a URL.
fn read_url(alloc: Global, text: &[u8], tail_at: usize) -> Result<TargetReading, ReadError>
    ensures ok { IfOk result (Says (meaning_of_url text.now tail_at)) }
    ensures err { IfErr result (SaysWhyOfTarget (meaning_of_url text.now tail_at)) }
{
    if is_not_relative(text) {
        return Ok(TargetReading::NotRelative);
    }
    let path = decode(alloc, text)?;
    read_path_bytes(path, tail_at)
}

// Returns the meaning of a target, by the bytes of its path.
fn read_path_bytes(path: Vec<u8>, tail_at: usize) -> Result<TargetReading, ReadError>
    ensures ok { IfOk result (Says (meaning_decoded (Ok path.items) tail_at)) }
    ensures err { IfErr result (SaysWhyOfTarget (meaning_decoded (Ok path.items) tail_at)) }
{
    match String::from_utf8(path) {
        Ok(path) => Ok(TargetReading::Path { path, tail_at }),
        Err(_) => Err(ReadError::Unknown(WhyUnknown::NotUtf8)),
    }
}

// Returns what a target is read as before its tail.
fn read_path(alloc: Global, syntax: TargetSyntax, target: &[u8]) -> Result<PathPart, ReadError>
    ensures bytes { IfOk result (λ part. bytes_of_pieces (path_pieces syntax target.now) ≡ Ok part.bytes.items) }
    ensures size { IfOk result (λ part. part.tail_at ≡ total_size (path_pieces syntax target.now)) }
    ensures tail { IfOk result (λ _. HasTail syntax target.now) }
    ensures err { IfErr result (SaysWhy (bytes_of_pieces (path_pieces syntax target.now))) }
{
    let plain = plain_len(target);
    let room = plain.saturating_add(room_for(&target[plain..]));
    let mut bytes = Vec::with_capacity(alloc, room)?;
    bytes.extend_from_slice(&target[..plain])?;
    let mut left = &target[plain..];
    while let [first, rest @ ..] = left {
        let piece = source_piece(syntax, *first, rest);
        if begins_tail(piece.read) {
            let tail_at = target.len() - left.len();
            return Ok(PathPart { bytes, tail_at });
        }
        push_read(&mut bytes, piece.read)?;
        left = &left[piece.size..];
    }
    let tail_at = target.len();
    Ok(PathPart { bytes, tail_at })
}

// Returns how many bytes a target begins with that are read as themselves.
fn plain_len(target: &[u8]) -> usize
    ensures within { result ≤ length target.now }
    ensures plain { list_all is_read_as_itself (take result target.now) ≡ true }
{
    len_before(&ReadOtherwise, target)
}

// The bytes that are read otherwise than as themselves in a syntax, or begin a query or a fragment.
#[derive(Drop)]
struct ReadOtherwise;

impl ByteClass for ReadOtherwise {
    ghost has = { λ _. is_read_otherwise };

    fn has(&self, byte: u8) -> bool {
        matches!(byte, 0 | b'\t' | b'\n' | b'\r' | b'#' | b'&' | b'?' | b'\\')
    }

    fn those_in(&self, block: u8x16) -> u64 {
        let removed = block.simd_eq(u8x16::splat(b'\t'))
            | block.simd_eq(u8x16::splat(b'\n'))
            | block.simd_eq(u8x16::splat(b'\r'));
        let read = block.simd_eq(u8x16::splat(0))
            | block.simd_eq(u8x16::splat(b'&'))
            | block.simd_eq(u8x16::splat(b'\\'));
        let tail = block.simd_eq(u8x16::splat(b'#')) | block.simd_eq(u8x16::splat(b'?'));
        (removed | read | tail).to_bitmask()
    }
}

// Returns how many bytes of a URL come before its first percent sign.
fn unencoded_len(text: &[u8]) -> usize
    ensures within { result ≤ length text.now }
    ensures plain { list_all is_unencoded (take result text.now) ≡ true }
{
    len_before(&OneByte { byte: b'%' }, text)
}

// Returns how many bytes a text is read as at most. A NUL, which is one byte, is read as U+FFFD, which has three.
fn room_for(text: &[u8]) -> usize {
    let nuls = text.iter().filter(|byte| **byte == 0).count();
    text.len().saturating_add(nuls.saturating_mul(2))
}

// Returns whether a piece that is read as these bytes begins a query or a fragment.
fn begins_tail(read: Read) -> bool
    ensures { result ≡ begins_tail (read_bytes read) }
{
    match read {
        Read::Byte(byte) => byte == b'#' || byte == b'?',
        Read::Character(character) => character == '#' || character == '?',
        Read::Pair(_, _) => false,
        Read::Nothing => false,
        Read::Unknown(_) => false,
    }
}

// Returns the text of a URL without the control bytes and spaces that a reader removes from its ends.
fn trim_url(syntax: TargetSyntax, has_tail: bool, text: &[u8]) -> &[u8]
    ensures { result.now ≡ trim_url syntax has_tail text.now }
{
    match syntax {
        TargetSyntax::Markdown => text,
        TargetSyntax::Attribute if has_tail => without_leading(text),
        TargetSyntax::Attribute => without_trailing(without_leading(text)),
    }
}

// Decodes the percent signs of a URL's path, once.
fn decode(alloc: Global, text: &[u8]) -> Result<Vec<u8>, ReadError>
    ensures ok { IfOk result (λ path. bytes_of_pieces (read_pieces url_piece 0 text.now) ≡ Ok path.items) }
    ensures err { IfErr result (SaysWhy (bytes_of_pieces (read_pieces url_piece 0 text.now))) }
{
    let mut bytes = Vec::with_capacity(alloc, text.len())?;
    let plain = unencoded_len(text);
    bytes.extend_from_slice(&text[..plain])?;
    let mut left = &text[plain..];
    while let [first, rest @ ..] = left {
        let piece = url_piece(*first, rest);
        push_read(&mut bytes, piece.read)?;
        left = &left[piece.size..];
    }
    Ok(bytes)
}
