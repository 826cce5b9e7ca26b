//! Fences of backticks or tildes, which hold code.

use crate::finder::bytes::{is_blank_text, run_length};
use crate::finder::cursor::Cursor;

// How many bytes a fence has at least.
const SHORTEST: usize = 3;

// The fence that begins a block of code.
#[derive(Clone, Copy)]
pub(crate) struct Fence {
    // A backtick or a tilde.
    byte: u8,
    // How many times the character is repeated.
    length: usize,
}

impl Fence {
    // Returns the fence at the beginning of a text, if it begins a block of code.
    pub(crate) fn read(text: &[u8]) -> Option<Fence> {
        let byte = *text.first()?;
        let length = run_length(text, byte);
        let is_fence = match byte {
            b'~' => true,
            b'`' => !text[length..].contains(&b'`'),
            _ => false,
        };
        if !is_fence || length < SHORTEST {
            return None;
        }
        Some(Fence { byte, length })
    }

    // Returns whether a line closes the block.
    pub(crate) fn is_closed_by(self, cursor: Cursor<'_>) -> bool {
        let length = run_length(cursor.rest, self.byte);
        !cursor.is_indented() && length >= self.length && is_blank_text(&cursor.rest[length..])
    }
}
