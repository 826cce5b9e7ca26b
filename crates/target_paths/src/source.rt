//! The pieces of a target as a page has it.
ghost use Rattle.std.specs.Prelude.{◌≡◌, ◌≤◌, ◌<◌, ◌+◌, length, true, Ok, IfSome, if◌then◌else◌};
ghost use Rattle.std.specs.Option.{option_map};
ghost use Rattle.character_names.specs.Names.{longest_name};
ghost use Rattle.target_paths.specs.CharacterReferences.{body_number, character_of};
ghost use Rattle.target_paths.specs.Shown.{is_plain_pair, piece_of, read_bytes};
ghost use Rattle.target_paths.specs.Source.{
  byte_read,
  character_read,
  character_reference_piece,
  character_unless_replaced,
  characters_read,
  ends_reference,
  goes_on,
  is_escape,
  is_replaced,
  may_begin_character_reference,
  named_piece,
  numeric_piece,
  read_character_reference,
  source_piece,
};

use crate::character_reference::{begins_with_letter, body, character_of, is_name, number};
use crate::piece::{Piece, Read};
use crate::target::{TargetSyntax, WhyUnknown};
use character_names::{Characters, longest_name};

// Returns the piece that a byte and the text after it begin with.
pub(crate) fn source_piece(syntax: TargetSyntax, byte: u8, text: &[u8]) -> Piece
    ensures piece { piece_of result ≡ source_piece syntax byte text.now }
    ensures some { 0 < result.size }
    ensures within { result.size ≤ length text.now + 1 }
{
    match text {
        [next, ..] if is_escape(syntax, byte, *next) => Piece {
            size: 2,
            read: Read::Byte(*next),
        },
        _ if byte == b'&' => character_reference_piece(syntax, text),
        _ => Piece {
            size: 1,
            read: byte_read(syntax, byte),
        },
    }
}

// Returns whether a backslash before a byte escapes it.
fn is_escape(syntax: TargetSyntax, byte: u8, next: u8) -> bool
    ensures { result ≡ is_escape syntax byte next }
{
    match syntax {
        TargetSyntax::Markdown => byte == b'\\' && next.is_ascii_punctuation(),
        TargetSyntax::Attribute => false,
    }
}

// Returns what a byte outside character references and escapes is read as.
fn byte_read(syntax: TargetSyntax, byte: u8) -> Read
    ensures { read_bytes result ≡ Ok (byte_read syntax byte) }
{
    if byte == 0 {
        Read::Character(char::REPLACEMENT_CHARACTER)
    } else if byte.is_ascii() {
        character_read(syntax, char::from(byte))
    } else {
        Read::Byte(byte)
    }
}

// Returns what a character is read as.
fn character_read(syntax: TargetSyntax, character: char) -> Read
    ensures { read_bytes result ≡ Ok (character_read syntax character) }
{
    match syntax {
        TargetSyntax::Markdown => Read::Character(character),
        TargetSyntax::Attribute => match character {
            '\t' => Read::Nothing,
            '\n' => Read::Nothing,
            '\r' => Read::Nothing,
            '\\' => Read::Byte(b'/'),
            _ => Read::Character(character),
        },
    }
}

// Returns the piece of an `&` before a text.
fn character_reference_piece(syntax: TargetSyntax, text: &[u8]) -> Piece
    ensures piece { piece_of result
        ≡ character_reference_piece syntax text.now (read_character_reference syntax text.now) }
    ensures some { 0 < result.size }
    ensures within { result.size ≤ length text.now + 1 }
{
    match read_character_reference(syntax, text) {
        Some(piece) => piece,
        None if may_begin_character_reference(syntax, text) => Piece {
            size: 1,
            read: Read::Unknown(WhyUnknown::CharacterReference),
        },
        None => Piece {
            size: 1,
            read: Read::Byte(b'&'),
        },
    }
}

// Returns the piece of a character reference that is known, by the text after its `&`.
fn read_character_reference(syntax: TargetSyntax, text: &[u8]) -> Option<Piece>
    ensures piece { option_map piece_of result ≡ read_character_reference syntax text.now }
    ensures size { IfSome result (λ piece. (0 < piece.size) × (piece.size ≤ length text.now + 1)) }
{
    match text {
        [b'#', ..] => numeric_piece(syntax, text),
        _ => named_piece(syntax, text),
    }
}

// Returns the piece of a number, by the text after its `&`.
fn numeric_piece(syntax: TargetSyntax, text: &[u8]) -> Option<Piece>
    ensures piece { option_map piece_of result ≡ numeric_piece syntax text.now }
    ensures size { IfSome result (λ piece. (0 < piece.size) × (piece.size ≤ length text.now + 1)) }
{
    let body = body(text)?;
    let character = numeric_character(syntax, body)?;
    Some(Piece {
        size: body.len() + 2,
        read: character_read(syntax, character),
    })
}

// Returns the character that the number in a body stands for.
fn numeric_character(syntax: TargetSyntax, body: &[u8]) -> Option<char>
    ensures { result ≡ character_unless_replaced syntax (body_number body.now) }
{
    character_unless_replaced(syntax, number(body)?)
}

// Returns the piece of the longest name that a text after an `&` begins with.
fn named_piece(syntax: TargetSyntax, text: &[u8]) -> Option<Piece>
    ensures piece { option_map piece_of result ≡ named_piece syntax text.now (longest_name text.now) }
    ensures size { IfSome result (λ piece. (0 < piece.size) × (piece.size ≤ length text.now + 1)) }
{
    let (len, characters) = longest_name(text)?;
    if ends_reference(syntax, text[len - 1], &text[len..]) {
        Some(Piece {
            size: len + 1,
            read: characters_read(syntax, characters),
        })
    } else {
        None
    }
}

// Returns whether a name with this last byte is a character reference before a text.
fn ends_reference(syntax: TargetSyntax, last: u8, text: &[u8]) -> bool
    ensures { result ≡ ends_reference syntax last text.now }
{
    match syntax {
        TargetSyntax::Markdown => last == b';',
        TargetSyntax::Attribute => last == b';' || !goes_on(text),
    }
}

// Returns whether a name without a semicolon is no character reference before a text.
fn goes_on(text: &[u8]) -> bool
    ensures { result ≡ goes_on text.now }
{
    match text {
        [next, ..] => next.is_ascii_alphanumeric() || *next == b'=',
        [] => false,
    }
}

// Returns what the characters of a name are read as.
fn characters_read(syntax: TargetSyntax, characters: Characters) -> Read
    requires { is_plain_pair characters ≡ true }
    ensures { read_bytes result ≡ Ok (characters_read syntax characters) }
{
    match characters {
        Characters::One(character) => character_read(syntax, character),
        Characters::Two(first, second) => Read::Pair(first, second),
    }
}

// Returns the character of a number, unless browsers take another.
fn character_unless_replaced(syntax: TargetSyntax, number: u32) -> Option<char>
    ensures { result ≡ (if is_replaced syntax number then None else Some (character_of number)) }
{
    if is_replaced(syntax, number) {
        None
    } else {
        Some(character_of(number))
    }
}

// Returns whether browsers take another character for a number.
fn is_replaced(syntax: TargetSyntax, number: u32) -> bool
    ensures { result ≡ is_replaced syntax number }
{
    match syntax {
        TargetSyntax::Markdown => false,
        TargetSyntax::Attribute => 128 <= number && number <= 159,
    }
}

// Returns whether an `&` before a text, which doesn't begin a known character reference, may begin another.
fn may_begin_character_reference(syntax: TargetSyntax, text: &[u8]) -> bool
    ensures { result ≡ may_begin_character_reference syntax text.now }
{
    match syntax {
        TargetSyntax::Markdown => body(text).is_some_and(is_name),
        TargetSyntax::Attribute => {
            text.starts_with(b"#") || begins_with_letter(text) && longest_name(text).is_none()
        }
    }
}
