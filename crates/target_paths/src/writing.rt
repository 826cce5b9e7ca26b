//! How a path is written as a target.
ghost use Rattle.std.specs.Prelude.{◌≡◌, ◌++◌, ◌<◌, true, false, length, IfOk, OnErr, IsTrue, string_bytes};
ghost use Rattle.std.specs.List.{list_all, list_any};
ghost use Rattle.target_paths.specs.Reading.{path_before, unknown};
ghost use Rattle.target_paths.specs.Writing.{
  begins_block,
  begins_template,
  ends_target,
  hexadecimal,
  is_escaped_later,
  is_nul,
  is_unescaped,
  IsPartlyAppended,
  IsTakenAs,
  path_written,
  percent_text,
  spelling,
  target_of,
  without_slashes,
  written_character,
};
ghost use Rattle.target_paths.specs.declared.target.WhyUnknown.TheVariants.{EncodedNul};

use crate::path_position::PathPosition;
use byte_classes::{ByteClass, len_before};
use std::alloc::{AllocError, Global};
use std::simd::prelude::*;

// Returns the digit of a number below 16.
fn hexadecimal(digit: u8) -> char
    requires { digit < 16 }
    ensures { result ≡ hexadecimal digit }
{
    if digit < 10 {
        char::from(b'0' + digit)
    } else {
        char::from(b'A' - 10 + digit)
    }
}

// Adds a percent sign and the two digits of a byte.
fn push_percent(target: &mut String, byte: u8) -> Result<(), AllocError>
    ensures text { IfOk result (λ _. string_bytes target.new ≡ string_bytes target.old ++ percent_text byte) }
    ensures err { OnErr result
        (IsPartlyAppended (string_bytes target.old) (percent_text byte) (string_bytes target.new)) }
{
    target.push('%')?;
    target.push(hexadecimal(byte / 16))?;
    target.push(hexadecimal(byte % 16))?;
    Ok(())
}

// Returns the target that spells a path.
fn spelling(alloc: Global, path: &str) -> Result<String, AllocError>
    ensures { IfOk result (λ target. string_bytes target ≡ spelling path.now) }
{
    let mut target = String::with_capacity(alloc, path.len())?;
    push_spelling(&mut target, path)?;
    Ok(target)
}

// Adds the target that spells a path.
fn push_spelling(target: &mut String, path: &str) -> Result<(), AllocError>
    ensures text { IfOk result (λ _. string_bytes target.new ≡ string_bytes target.old ++ spelling path.now) }
    ensures err { OnErr result
        (IsPartlyAppended (string_bytes target.old) (spelling path.now) (string_bytes target.new)) }
{
    if has_room(target, path) && spells_itself(path) {
        target.push_str(path)?;
        Ok(())
    } else {
        push_characters(target, path)
    }
}

// Returns whether a text fits into the capacity of a target. A text that doesn't fit is added character by character,
// so that the capacity grows by doubling alone.
fn has_room(target: &String, text: &str) -> bool {
    text.len() <= target.capacity().saturating_sub(target.len())
}

// Returns whether a path spells itself, since none of its bytes is escaped. A path with a colon may do so all the same.
fn spells_itself(path: &str) -> bool
    ensures { IsTrue result → spelling path.now ≡ path.now }
{
    match path.as_bytes() {
        [] => true,
        [first, rest @ ..] => {
            !PathPosition::first(path).escapes(char::from(*first)) && are_unescaped(rest)
        }
    }
}

// Returns whether no byte after the first one of a path is escaped.
fn are_unescaped(text: &[u8]) -> bool
    ensures { result ≡ list_all is_unescaped text.now }
{
    len_before(&EscapedLater, text) == text.len()
}

// The bytes that are escaped somewhere after the first one of a path.
#[derive(Drop)]
struct EscapedLater;

impl ByteClass for EscapedLater {
    ghost has = { λ _. is_escaped_later };

    fn has(&self, byte: u8) -> bool {
        PathPosition::FirstSegment.escapes(char::from(byte))
    }

    fn those_in(&self, block: u8x16) -> u64 {
        let controls = block.simd_le(u8x16::splat(b' ')) | block.simd_eq(u8x16::splat(127));
        let low = block.simd_eq(u8x16::splat(b'"'))
            | block.simd_eq(u8x16::splat(b'#'))
            | block.simd_eq(u8x16::splat(b':'));
        let brackets = (block - u8x16::splat(b'%')).simd_le(u8x16::splat(b')' - b'%'))
            | (block - u8x16::splat(b'<')).simd_le(u8x16::splat(b'?' - b'<'));
        let high = block.simd_eq(u8x16::splat(b'\\'))
            | block.simd_eq(u8x16::splat(b'`'))
            | block.simd_eq(u8x16::splat(b'|'));
        (controls | low | brackets | high).to_bitmask()
    }
}

// Adds the target that spells a path, character by character.
fn push_characters(target: &mut String, path: &str) -> Result<(), AllocError>
    ensures text { IfOk result (λ _. string_bytes target.new ≡ string_bytes target.old ++ spelling path.now) }
    ensures err { OnErr result
        (IsPartlyAppended (string_bytes target.old) (spelling path.now) (string_bytes target.new)) }
{
    let mut position = PathPosition::first(path);
    for character in path.chars() {
        push_character(target, position, character)?;
        position = position.after(character);
    }
    Ok(())
}

// Adds what is written for a character.
fn push_character(
    target: &mut String,
    position: PathPosition,
    character: char,
) -> Result<(), AllocError>
    ensures text { IfOk result
        (λ _. string_bytes target.new ≡ string_bytes target.old ++ written_character position character) }
    ensures err { OnErr result (IsPartlyAppended (string_bytes target.old) (written_character position character)
        (string_bytes target.new)) }
{
    if position.escapes(character) {
        push_percent(target, character as u8)
    } else {
        target.push(character)?;
        Ok(())
    }
}

// Returns a path without the slashes at its start.
fn without_slashes(path: &str) -> &str
    ensures { result.now ≡ without_slashes path.now }
{
    path.trim_start_matches('/')
}

// Returns the path that a target spells for a path: without slashes at its start, and `./` for an empty path.
fn path_written(path: &str) -> &str
    ensures { result.now ≡ path_written path.now }
{
    let path = without_slashes(path);
    if path.is_empty() { "./" } else { path }
}

/// Returns the target to write for a path. In each syntax [`path_of_target`](crate::path_of_target) reads it
/// back as the path, whatever query or fragment is written after it.
///
/// The call writes a percent sign and two digits for the bytes 0 to 32 and 127, and for `"`, `#`, `%`, `&`,
/// `'`, `(`, `)`, `<`, `=`, `>`, `?`, `\`, `` ` `` and `|`. It does so for a colon in the first segment, and at the
/// start for `{` and `$`, with which a template may begin, and for `!`, `*`, `+` and `~`, with which a block of
/// Markdown may begin on a line of the target's own. For the same reason it does so for the first byte of a path
/// that consists of dashes and underscores, such as `---`, or that begins with a digit and ends in a dot, such as
/// `1.`. Other bytes stay, also those past ASCII. So the same text serves with and without angle brackets or quotes
/// around it.
///
/// The call leaves out slashes at the start of the path. The path without them has the same components, but a
/// URL reference that begins with a slash leads elsewhere. For an empty path it writes `./`, since an empty URL
/// reference leads to the page itself. No target spells a path with NUL; what is written for such a path is
/// read as unknown.
///
/// Allocates the target, at first as many bytes as the path has, and more if bytes are escaped. Time is linear.
///
/// ```
/// assert_eq!(rt; target_of_path(alloc, "docs/my a_b.md")?.as_str(), "docs/my%20a_b.md");
/// assert_eq!(rt; target_of_path(alloc, "a:b")?.as_str(), "a%3Ab");
/// assert_eq!(rt; target_of_path(alloc, "---")?.as_str(), "%2D--");
/// assert_eq!(rt; target_of_path(alloc, "")?.as_str(), "./");
/// ```
pub fn target_of_path(alloc: Global, path: &str) -> Result<String, AllocError>
    // the defined target of the path
    ensures text { IfOk result (λ target. string_bytes target ≡ target_of path.now) }
    // without NUL, each syntax reads back the path that is written
    ensures read { list_any is_nul path.now ≡ false → IfOk result (λ target.
        IsTakenAs (string_bytes target) (path_before (path_written path.now) (length (string_bytes target)))) }
    // with a NUL, each syntax reads it as unknown
    ensures nul { list_any is_nul path.now ≡ true → IfOk result (λ target.
        IsTakenAs (string_bytes target) (unknown EncodedNul)) }
    // no byte that ends a target, such as a space
    ensures whole { IfOk result (λ target. list_any ends_target (string_bytes target) ≡ false) }
    // no `{` or `$` at the start, which may begin a template
    ensures start { IfOk result (λ target. begins_template (string_bytes target) ≡ false) }
    // no defined form with which a block may begin
    ensures block { IfOk result (λ target. begins_block (string_bytes target) ≡ false) }
{
    spelling(alloc, path_written(path))
}

/// Appends to a text what [`target_of_path`] returns for a path.
///
/// Allocates only if the text's capacity is too small. If the call fails, the text may have the first bytes of the
/// target at its end. Time is linear in the path.
///
/// ```
/// let mut text = String::from_str(alloc, "[b](")?;
/// push_target_of_path(&mut text, "my b.md")?;
/// assert_eq!(rt; text.as_str(), "[b](my%20b.md");
/// ```
pub fn push_target_of_path(text: &mut String, path: &str) -> Result<(), AllocError>
    // the defined target of the path is appended
    ensures text { IfOk result
        (λ _. string_bytes text.new ≡ string_bytes text.old ++ target_of path.now) }
    // a failed call appends at most the first bytes of the target
    ensures err { OnErr result
        (IsPartlyAppended (string_bytes text.old) (target_of path.now) (string_bytes text.new)) }
    // without NUL, each syntax reads back the path that is written
    ensures read { list_any is_nul path.now ≡ false
        → IsTakenAs (target_of path.now) (path_before (path_written path.now) (length (target_of path.now))) }
{
    push_spelling(text, path_written(path))
}
