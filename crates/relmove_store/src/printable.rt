//! Texts as they are printed.
ghost use Rattle.std.specs.Prelude.{◌≡◌, IsFalse, Some};
ghost use Rattle.std.specs.Fmt.{WritesOnOk};
ghost use Rattle.relmove_store.specs.Printing.{changes_text, has_change, printed, printed_character};

use std::fmt;

/// A text of a stranger as it is printed, such as a path or the target of a link.
///
/// A character that a terminal obeys, that ends a line, that turns the direction of what follows or that isn't seen is
/// written as `\u{1b}`, with its number in hexadecimal. All others are written as they are.
#[derive(Clone, Copy, Debug)]
pub struct Printable<'a>(pub &'a str);

impl fmt::Display for Printable<'_> {
    // each character that changes the text around it is printed by its number
    ghost output = { λ text. Some (printed text.0.now) };

    fn fmt<W: fmt::Write>(&self, f: &mut fmt::Formatter<W>) -> fmt::Result {
        write_text(f, self.0)
    }
}

// Writes a text, character by character.
fn write_text<W: fmt::Write>(f: &mut fmt::Formatter<W>, text: &str) -> fmt::Result
    ensures { WritesOnOk W.write_str_gives f.old result (printed text.now) f.new }
{
    for character in text.chars() {
        write_character(f, character)?;
    }
    Ok(())
}

// Writes a character, or its number.
fn write_character<W: fmt::Write>(f: &mut fmt::Formatter<W>, character: char) -> fmt::Result
    ensures { WritesOnOk W.write_str_gives f.old result (printed_character character) f.new }
{
    if changes_text(character) {
        write!(f, "\\u{{{:x}}}", character as u32)
    } else {
        f.write_char(character)
    }
}

// Returns whether a character changes how the text around it is shown: a control, a separator of lines, a mark or an
// embedding of a direction, a character without a width, or a tag.
fn changes_text(character: char) -> bool
    ensures { result ≡ changes_text character }
{
    character.is_control()
        || matches!(
            character,
            '\u{ad}'
                | '\u{61c}'
                | '\u{200b}'
                | '\u{200e}'..='\u{200f}'
                | '\u{2028}'..='\u{202e}'
                | '\u{2066}'..='\u{2069}'
                | '\u{feff}'
                | '\u{e0000}'..='\u{e007f}'
        )
}

// What is printed changes nothing of the text around it.
fn prints_what_changes_nothing(text: &str)
    ensures { IsFalse (has_change (printed text.now)) }
{}
