//! The texts of statements, with their escapes.
use crate::fault::Fault;
use std::alloc::Global;

// The word that stands for an empty one.
const EMPTY: &str = "''";

// What a line of input or of output ends in that has no line end.
const NO_LINE_END: &str = "\\c";

/// The bytes that a text with escapes stands for.
pub fn bytes_of(alloc: Global, text: &str) -> Result<Vec<u8>, Fault> {
    let mut bytes = Vec::new(alloc);
    let mut is_escape = false;
    for piece in text.split('\\') {
        if !is_escape {
            bytes.extend_from_slice(piece.as_bytes())?;
            is_escape = true;
        } else if piece.is_empty() {
            // A second backslash: what comes after it is no escape.
            bytes.push(b'\\')?;
            is_escape = false;
        } else {
            push_escape(alloc, &mut bytes, piece)?;
        }
    }
    if is_escape {
        Ok(bytes)
    } else {
        Err(Fault::Wrong("a backslash is the last character"))
    }
}

// Adds what comes after a backslash.
fn push_escape(alloc: Global, bytes: &mut Vec<u8>, piece: &str) -> Result<(), Fault> {
    if let Some(rest) = piece.strip_prefix("u{") {
        return push_character(alloc, bytes, rest);
    }
    if let Some(rest) = piece.strip_prefix('x') {
        return push_byte(bytes, rest);
    }
    if let Some(rest) = piece.strip_prefix('{') {
        return push_repeated(bytes, rest);
    }
    if let Some((letter, rest)) = piece.as_bytes().split_first() {
        bytes.push(byte_of(*letter)?)?;
        bytes.extend_from_slice(rest)?;
    }
    Ok(())
}

// The byte for which a letter after a backslash stands.
fn byte_of(letter: u8) -> Result<u8, Fault> {
    match letter {
        b'n' => Ok(b'\n'),
        b't' => Ok(b'\t'),
        b's' => Ok(b' '),
        _ => Err(Fault::Wrong("no such escape")),
    }
}

// Adds a character by its number, and what comes after it.
fn push_character(alloc: Global, bytes: &mut Vec<u8>, text: &str) -> Result<(), Fault> {
    let Some((digits, rest)) = text.split_once('}') else {
        return Err(Fault::Wrong("no } after \\u{"));
    };
    let Some(character) = character_of(digits) else {
        return Err(Fault::Wrong("no character has this number"));
    };
    let mut written = String::new(alloc);
    written.push(character)?;
    bytes.extend_from_slice(written.as_str().as_bytes())?;
    bytes.extend_from_slice(rest.as_bytes())?;
    Ok(())
}

// Adds a text so often as a number says, and what comes after it: `256:n}` is the letter n, 256 times.
fn push_repeated(bytes: &mut Vec<u8>, text: &str) -> Result<(), Fault> {
    let Some((repeated, rest)) = text.split_once('}') else {
        return Err(Fault::Wrong("no } after \\{"));
    };
    let Some((digits, repeated)) = repeated.split_once(':') else {
        return Err(Fault::Wrong("no : after \\{"));
    };
    let Ok(count) = digits.parse::<u16>() else {
        return Err(Fault::Wrong("not a number"));
    };
    for _ in 0..count {
        bytes.extend_from_slice(repeated.as_bytes())?;
    }
    bytes.extend_from_slice(rest.as_bytes())?;
    Ok(())
}

// The character of a hexadecimal number.
fn character_of(digits: &str) -> Option<char> {
    char::from_u32(u32::from_str_radix(digits, 16).ok()?)
}

// Adds a byte by its two hexadecimal digits, and what comes after them.
fn push_byte(bytes: &mut Vec<u8>, text: &str) -> Result<(), Fault> {
    let (Some(digits), Some(rest)) = (text.get(..2), text.get(2..)) else {
        return Err(Fault::Wrong("no two digits after \\x"));
    };
    let Ok(byte) = u8::from_str_radix(digits, 16) else {
        return Err(Fault::Wrong("no two digits after \\x"));
    };
    bytes.push(byte)?;
    bytes.extend_from_slice(rest.as_bytes())?;
    Ok(())
}

/// The text that a text with escapes stands for.
pub fn text_of(alloc: Global, text: &str) -> Result<String, Fault> {
    match String::from_utf8(bytes_of(alloc, text)?) {
        Ok(text) => Ok(text),
        Err(_) => Err(Fault::Wrong("not UTF-8")),
    }
}

/// The bytes of a line of input or of output: with a line end, unless an escape says that it has none.
pub fn line_of(alloc: Global, text: &str) -> Result<Vec<u8>, Fault> {
    if let Some(text) = text.strip_suffix(NO_LINE_END) {
        return bytes_of(alloc, text);
    }
    let mut bytes = bytes_of(alloc, text)?;
    bytes.push(b'\n')?;
    Ok(bytes)
}

/// A word: it has no space in it, but for an escaped one.
pub fn word_of(alloc: Global, text: &str) -> Result<String, Fault> {
    if text == EMPTY {
        return Ok(String::new(alloc));
    }
    if text.is_empty() {
        return Err(Fault::Wrong("a word is missing"));
    }
    if text.contains(' ') {
        return Err(Fault::Wrong("a word too much"));
    }
    text_of(alloc, text)
}

/// The words of a call, separated by spaces.
pub fn words_of(alloc: Global, text: &str) -> Result<Vec<String>, Fault> {
    let mut words = Vec::new(alloc);
    if !text.is_empty() {
        for word in text.split(' ') {
            words.push(word_of(alloc, word)?)?;
        }
    }
    Ok(words)
}

/// Two words, of which the second one may be more than a word.
pub fn two_of(text: &str) -> Result<(&str, &str), Fault> {
    match text.split_once(' ') {
        Some(words) => Ok(words),
        None => Err(Fault::Wrong("a word is missing")),
    }
}

/// Fails if a statement that has no word has one.
pub fn need_nothing(text: &str) -> Result<(), Fault> {
    if text.is_empty() {
        Ok(())
    } else {
        Err(Fault::Wrong("a word too much"))
    }
}
