//! Escapes and character references, and what they stand for.
ghost use Rattle.std.specs.Prelude.{◌≤◌, ◌<◌, ◌+◌, ◌^◌, length, IfOk, IfSome};

use character_names::{Characters, characters_of};
use std::alloc::AllocError;
use target_paths::TargetSyntax;

// How many digits the number of a character reference may have: decimal ones, and hexadecimal ones.
const MOST_DIGITS: usize = 7;

const MOST_HEXADECIMAL_DIGITS: usize = 6;

// How many bytes the longest name of a character has, with its semicolon.
const LONGEST_NAME: usize = 32;

// What a text begins with that stands for characters, and how many bytes it has.
#[derive(Clone, Copy)]
pub(crate) struct Reference {
    pub(crate) characters: Characters,
    pub(crate) size: usize,
}

// Appends a text, with the characters for which its escapes and character references stand.
pub(crate) fn push_source(
    out: &mut Vec<u8>,
    syntax: TargetSyntax,
    source: &[u8],
) -> Result<(), AllocError> {
    let mut k = 0;
    while k < source.len() {
        k = push_piece(out, syntax, source, k)?;
    }
    Ok(())
}

// Appends the escape, the character reference or the byte at an offset, and returns the offset after it.
fn push_piece(
    out: &mut Vec<u8>,
    syntax: TargetSyntax,
    source: &[u8],
    k: usize,
) -> Result<usize, AllocError>
    requires { k < length source.now }
    ensures { IfOk result (λ end. k < end) }
{
    match &source[k..] {
        [b'\\', byte, ..] if syntax == TargetSyntax::Markdown && byte.is_ascii_punctuation() => {
            out.push(*byte)?;
            Ok(k.saturating_add(2))
        }
        [b'\t' | b'\n' | b'\r', ..] if syntax == TargetSyntax::Attribute => Ok(k + 1),
        [b'&', name @ ..] => push_reference(out, name, k),
        [byte, ..] => {
            out.push(*byte)?;
            Ok(k + 1)
        }
        [] => Ok(k + 1),
    }
}

// Appends what an `&` and the text after it begin with, and returns the offset after it. The `&` is at an offset.
fn push_reference(out: &mut Vec<u8>, name: &[u8], k: usize) -> Result<usize, AllocError>
    requires { k + 1 < 2 ^ 64 }
    ensures { IfOk result (λ end. k < end) }
{
    let Some(reference) = read_reference(name) else {
        out.push(b'&')?;
        return Ok(k + 1);
    };
    push_characters(out, reference.characters)?;
    Ok(k.saturating_add(reference.size))
}

// Returns the character reference with which a text after an `&` begins.
pub(crate) fn read_reference(text: &[u8]) -> Option<Reference>
    ensures { IfSome result (λ reference. 0 < reference.size) }
{
    match text {
        [b'#', b'x' | b'X', digits @ ..] => {
            numbered(digits, 16, MOST_HEXADECIMAL_DIGITS).map(|(character, count)| Reference {
                characters: Characters::One(character),
                size: count.saturating_add(4),
            })
        }
        [b'#', digits @ ..] => numbered(digits, 10, MOST_DIGITS).map(|(
            character,
            count,
        )| Reference {
            characters: Characters::One(character),
            size: count.saturating_add(3),
        }),
        _ => named(text),
    }
}

// Returns the character that some digits and a semicolon stand for, and the number of the digits. U+FFFD stands for 0 and for a
// number that is no character.
fn numbered(text: &[u8], radix: u32, most: usize) -> Option<(char, usize)>
    requires lower { 2 ≤ radix }
    requires upper { radix ≤ 16 }
{
    let front = text.get(..most.saturating_add(1)).unwrap_or(text);
    let count = front.iter().position(|byte| *byte == b';')?;
    if count == 0 {
        return None;
    }
    let mut number = 0u32;
    for &byte in front.get(..count)? {
        let digit = char::from(byte).to_digit(radix)?;
        number = number.saturating_mul(radix).saturating_add(digit);
    }
    match char::from_u32(number) {
        Some(character) if number != 0 => Some((character, count)),
        _ => Some((char::REPLACEMENT_CHARACTER, count)),
    }
}

// Returns the characters that a name and a semicolon stand for.
fn named(text: &[u8]) -> Option<Reference>
    ensures { IfSome result (λ reference. 0 < reference.size) }
{
    let front = text.get(..LONGEST_NAME).unwrap_or(text);
    let end = front.iter().position(|byte| *byte == b';')?;
    let characters = characters_of(front.get(..=end)?)?;
    Some(Reference {
        characters,
        size: end.saturating_add(2),
    })
}

// Appends characters in UTF-8.
pub(crate) fn push_characters(out: &mut Vec<u8>, characters: Characters) -> Result<(), AllocError> {
    match characters {
        Characters::One(character) => push_character(out, character),
        Characters::Two(first, second) => {
            push_character(out, first)?;
            push_character(out, second)
        }
    }
}

// Appends a character in UTF-8.
fn push_character(out: &mut Vec<u8>, character: char) -> Result<(), AllocError> {
    let mut buffer = [0; 4];
    out.extend_from_slice(character.encode_utf8(&mut buffer).as_bytes())?;
    Ok(())
}
