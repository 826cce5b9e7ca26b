//! Character references by number, `&#38;` and `&#x26;`, and what may be others.
ghost use Rattle.std.specs.Prelude.{◌≡◌, ◌≤◌, ◌<◌, ◌+◌, length, min, slice_index, MatchOption, true, false};
ghost use Rattle.std.specs.Char.{is_ascii_alphabetic, is_ascii_alphanumeric};
ghost use Rattle.std.specs.List.{list_all, position};
ghost use Rattle.std.specs.Option.{option_map};
ghost use Rattle.target_paths.specs.CharacterReferences.{
  are_digits,
  body_number,
  body_of,
  character_of,
  ends_body,
  is_closed,
  is_name,
  is_x,
  number_of,
};

// The first number that isn't that of a character.
const PAST_CHARACTERS: u32 = 0x11_0000;

// Returns the body of the character reference that a text after an `&` may begin with: letters, digits and `#`, if a
// semicolon comes after them.
pub(crate) fn body(text: &[u8]) -> Option<&[u8]>
    ensures { MatchOption result (is_closed text.now ≡ false)
        (λ body. (is_closed text.now ≡ true) × (body.now ≡ body_of text.now) × (length body.now < length text.now)) }
{
    match body_end(text) {
        Some(end) if text[end] == b';' => Some(&text[..end]),
        _ => None,
    }
}

// Returns the end of the body of a character reference, if text comes after it.
fn body_end(text: &[u8]) -> Option<usize>
    ensures { result ≡ position ends_body text.now }
{
    text.iter()
        .position(|&byte| !(byte.is_ascii_alphanumeric() || byte == b'#'))
}

// Returns whether a body has the form of a name.
pub(crate) fn is_name(body: &[u8]) -> bool
    ensures { result ≡ is_name body.now }
{
    begins_with_letter(body) && are_alphanumeric(body)
}

pub(crate) fn begins_with_letter(text: &[u8]) -> bool
    ensures { result ≡ is_ascii_alphabetic (slice_index text.now 0) }
{
    match text {
        [first, ..] => first.is_ascii_alphabetic(),
        [] => false,
    }
}

// Returns whether a text has only letters and digits.
fn are_alphanumeric(text: &[u8]) -> bool
    ensures { result ≡ list_all is_ascii_alphanumeric text.now }
{
    text.iter().all(|byte| byte.is_ascii_alphanumeric())
}

// Returns the number in a body, or a number past all characters if the body's number is greater.
pub(crate) fn number(body: &[u8]) -> Option<u32>
    ensures { result ≡ option_map (min 0x11_0000) (body_number body.now) }
{
    match body {
        [b'#', b'x', digits @ ..] => number_of(digits, 16, 6),
        [b'#', b'X', digits @ ..] => number_of(digits, 16, 6),
        [b'#', digits @ ..] => number_of(digits, 10, 7),
        _ => None,
    }
}

// Returns the number that at most `most` digits write, or the first number past all characters if that is less.
fn number_of(digits: &[u8], radix: u32, most: usize) -> Option<u32>
    requires lower { 2 ≤ radix }
    requires upper { radix ≤ 16 }
    ensures { result ≡ option_map (min 0x11_0000) (number_of radix most digits.now) }
{
    if digits.is_empty() || digits.len() > most {
        return None;
    }
    let mut number = 0;
    for &byte in digits {
        let digit = char::from(byte).to_digit(radix)?;
        number = (number * radix + digit).min(PAST_CHARACTERS);
    }
    Some(number)
}

// Returns the character that a number means. U+FFFD stands for 0 and for a number that is no character.
pub(crate) fn character_of(number: u32) -> char
    ensures { result ≡ character_of number }
{
    match char::from_u32(number) {
        Some(character) if number != 0 => character,
        _ => char::REPLACEMENT_CHARACTER,
    }
}
