//! Lines and columns of a page.
ghost use Rattle.std.specs.Prelude.{◌≡◌};
ghost use Rattle.std.specs.List.{after_last, count_by};
ghost use Rattle.markdown_targets.specs.Classes.{begins_character};
ghost use Rattle.relmove_folder.specs.Position.{is_line_end, first_place, position_after};

use relative_path_links::Target;
use std::simd::prelude::*;

/// A place in a text. Both numbers begin at 1, and columns count characters.
#[derive(Clone, Copy, Debug, PartialEq, Eq)]
pub struct Position {
    /// The line.
    pub line: usize,
    /// The column.
    pub column: usize,
}

/// Returns the place after a text: the line and the column of the character that follows it. Allocates nothing; time
/// is linear.
///
/// A text begins at line 1 and column 1. A line end, `\n`, leads to column 1 of the next line, and each other character
/// leads to the next column. A number that is `usize::MAX` stays so.
///
/// ```
/// assert_eq!(rt; position_after("a\né"), Position { line: 2, column: 2 });
/// ```
pub fn position_after(text: &str) -> Position
    ensures { result ≡ position_after first_place text.now }
{
    FIRST.after(text)
}

// The first place of a text.
const FIRST: Position = Position { line: 1, column: 1 };

impl Position {
    // The place after a text that begins here.
    #[tactic(auto, using(crate::proofs::PositionLemmas::place_after_no_line_end, crate::proofs::PositionLemmas::place_after_line_ends))]
    fn after(self, text: &str) -> Position
        ensures { result ≡ position_after self text.now }
    {
        let bytes = text.as_bytes();
        let lines = line_end_count(bytes);
        if lines == 0 {
            return Position {
                column: self.column.saturating_add(character_count(bytes)),
                ..self
            };
        }
        Position {
            line: self.line.saturating_add(lines),
            column: character_count(last_line(bytes)).saturating_add(1),
        }
    }
}

/// The places of a text, asked for from its beginning to its end. All questions together take time linear in the text, and
/// allocate nothing.
///
/// ```
/// let mut positions = Positions::new("a\nbc");
/// assert_eq!(rt; positions.at(3), Some(Position { line: 2, column: 2 }));
/// assert_eq!(rt; positions.at(1), None);
/// ```
#[derive(Drop)]
pub struct Positions<'a> {
    text: &'a str,
    offset: usize,
    position: Position,
}

impl<'a> Positions<'a> {
    /// The places of a text.
    pub fn new(text: &'a str) -> Positions<'a> {
        Positions {
            text,
            offset: 0,
            position: FIRST,
        }
    }

    /// Returns the place at an offset. There is none if the offset is before the last one, or within a character.
    pub fn at(&mut self, offset: usize) -> Option<Position> {
        let passed = self.text.get(self.offset..offset)?;
        self.position = self.position.after(passed);
        self.offset = offset;
        Some(self.position)
    }

    /// Returns the place at which a target begins, and its text. There is none if the target begins before the last place,
    /// or begins or ends within a character.
    pub fn of(&mut self, target: Target) -> Option<(Position, &'a str)> {
        let written = self.text.get(target.start..target.end)?;
        Some((self.at(target.start)?, written))
    }
}

// How many bytes are compared at once.
const BLOCK: usize = 16;

// How many line ends a text has.
fn line_end_count(text: &[u8]) -> usize
    ensures { result ≡ count_by is_line_end text.now }
{
    let mut count = 0;
    let mut start = 0;
    while start + BLOCK <= text.len() {
        count += line_end_count_in_block(Simd::from_slice(&text[start..]));
        start += BLOCK;
    }
    count + line_end_count_in_few(&text[start..])
}

// The same for a block.
fn line_end_count_in_block(block: Simd<u8, BLOCK>) -> usize
    ensures { result ≡ count_by is_line_end block }
{
    let ends = block.simd_eq(Simd::splat(b'\n')).to_bitmask();
    ends.count_ones() as usize
}

// The same, byte by byte.
fn line_end_count_in_few(text: &[u8]) -> usize
    ensures { result ≡ count_by is_line_end text.now }
{
    text.iter().filter(|&&byte| byte == b'\n').count()
}

// What comes after the last line end of a text.
#[tactic(auto, using(crate::proofs::PositionLemmas::after_last_is))]
fn last_line(text: &[u8]) -> &[u8]
    ensures { result.now ≡ after_last is_line_end text.now }
{
    let mut start = text.len();
    while start > 0 && text[start - 1] != b'\n' {
        start -= 1;
    }
    &text[start..]
}

// How many characters a text has.
fn character_count(text: &[u8]) -> usize
    ensures { result ≡ count_by begins_character text.now }
{
    text.iter().filter(|&&byte| begins_character(byte)).count()
}

// Whether a byte is the first one of a character.
fn begins_character(byte: u8) -> bool
    ensures { result ≡ begins_character byte }
{
    byte < 128 || 192 <= byte
}
