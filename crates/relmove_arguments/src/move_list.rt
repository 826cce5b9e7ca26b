//! Reads lists of moves: an old and a new path on each line, with a tab between them, or what git says of renames.
use std::alloc::{AllocError, AllocFailed, Global};
use std::error::Error;
use std::fmt;

/// Why a text isn't a list of moves.
#[derive(Clone, Copy, Debug, PartialEq, Eq)]
pub enum WrongList {
    /// An allocation failed.
    OutOfMemory,
    /// The line of this number, counted from 1, has no old and new path.
    Line(usize),
}

impl fmt::Display for WrongList {
    fn fmt<W: fmt::Write>(&self, f: &mut fmt::Formatter<W>) -> fmt::Result {
        match self {
            WrongList::OutOfMemory => f.write_str("memory ran out"),
            WrongList::Line(number) => write!(f, "line {number} isn't OLD, a tab and NEW"),
        }
    }
}

impl Error for WrongList {}

impl From<AllocError> for WrongList {
    fn from(_: AllocError) -> WrongList {
        WrongList::OutOfMemory
    }
}

impl<T: Drop> From<AllocFailed<T>> for WrongList {
    fn from(_: AllocFailed<T>) -> WrongList {
        WrongList::OutOfMemory
    }
}

/// Returns the moves of a list: the old path and the new one of each.
///
/// A line is an old and a new path with a tab between, or a line of `git diff --name-status`: a status, a tab and a path, or
/// two. Of these, the lines whose status begins with `R` are moves, and all others are passed over, as empty lines are. A
/// path that begins with `"` is in git's quotes. An old path that looks like a status, such as `M`, is written `./M`.
///
/// Allocates the paths, and a list of each line's fields.
///
/// ```
/// let moves = moves_of_list(alloc, "a.md\tb.md\nR100\tc.md\t\"d\\tc.md\"\nM\te.md\n")?;
/// assert_eq!(rt; moves.len(), 2);
/// assert_eq!(rt; moves[1].1.as_str(), "d\tc.md");
/// ```
pub fn moves_of_list(alloc: Global, text: &str) -> Result<Vec<(String, String)>, WrongList> {
    let mut moves = Vec::new(alloc);
    for (index, line) in text.split('\n').enumerate() {
        match reading_of(alloc, line)? {
            LineReading::Move(old, new) => moves.push((old, new))?,
            LineReading::Nothing => {}
            LineReading::Wrong => return Err(WrongList::Line(index.saturating_add(1))),
        }
    }
    Ok(moves)
}

// What a line says.
#[derive(Drop)]
enum LineReading {
    // A move.
    Move(String, String),
    // Nothing of a move.
    Nothing,
    // Nothing that a line may say.
    Wrong,
}

// What a line says. A carriage return at its end isn't part of it.
fn reading_of(alloc: Global, line: &str) -> Result<LineReading, AllocError> {
    let line = line.strip_suffix('\r').unwrap_or(line);
    if line.is_empty() {
        return Ok(LineReading::Nothing);
    }
    let fields = line.split('\t').collect::<Vec<_>>(alloc)?;
    match fields.as_slice() {
        [status, _] if is_status(status) => Ok(LineReading::Nothing),
        [old, new] => move_of(alloc, old, new),
        [status, old, new] if is_rename(status) => move_of(alloc, old, new),
        [status, _, _] if is_status(status) => Ok(LineReading::Nothing),
        _ => Ok(LineReading::Wrong),
    }
}

// The move of two fields.
fn move_of(alloc: Global, old: &str, new: &str) -> Result<LineReading, AllocError> {
    match (path_of_field(alloc, old)?, path_of_field(alloc, new)?) {
        (Some(old), Some(new)) => Ok(LineReading::Move(old, new)),
        _ => Ok(LineReading::Wrong),
    }
}

// The letters of git's statuses.
const STATUSES: &str = "ACDMRTUXB";

// Whether a field is a status of git: a letter, and a number or nothing.
fn is_status(field: &str) -> bool {
    let mut characters = field.chars();
    match characters.next() {
        Some(letter) => {
            STATUSES.contains(letter) && characters.all(|digit| digit.is_ascii_digit())
        }
        None => false,
    }
}

// Whether a field is git's status of a rename.
fn is_rename(field: &str) -> bool {
    field.starts_with('R') && is_status(field)
}

// The path that a field spells, as it is or in git's quotes. `None` if the quotes or what is in them is wrong.
fn path_of_field(alloc: Global, field: &str) -> Result<Option<String>, AllocError> {
    let Some(quoted) = field.strip_prefix('"') else {
        return Ok(Some(String::from_str(alloc, field)?));
    };
    match quoted.strip_suffix('"') {
        Some(text) => unquoted(alloc, text),
        None => Ok(None),
    }
}

// The path that is spelled between git's quotes, or `None` if it is spelled wrong, or isn't UTF-8.
fn unquoted(alloc: Global, text: &str) -> Result<Option<String>, AllocError> {
    let mut bytes = Vec::with_capacity(alloc, text.len())?;
    let mut escape = Escape::None;
    for byte in text.bytes() {
        escape = match after_byte(escape, byte) {
            Reading::Byte(byte) => {
                bytes.push(byte)?;
                Escape::None
            }
            Reading::Escape(escape) => escape,
            Reading::Wrong => return Ok(None),
        };
    }
    if escape != Escape::None {
        return Ok(None);
    }
    match String::from_utf8(bytes) {
        Ok(path) => Ok(Some(path)),
        Err(_) => Ok(None),
    }
}

// The part of an escape that was read.
#[derive(Clone, Copy, PartialEq, Eq)]
enum Escape {
    // None.
    None,
    // The backslash.
    Backslash,
    // The first digit of three, as its part of the byte.
    FirstDigit(u8),
    // The first two.
    SecondDigit(u8),
}

// What is known after a byte between quotes.
#[derive(Clone, Copy)]
enum Reading {
    // A byte of the path.
    Byte(u8),
    // A part of an escape.
    Escape(Escape),
    // What git doesn't write.
    Wrong,
}

// What is known after a byte between quotes, if this part of an escape is before it.
fn after_byte(escape: Escape, byte: u8) -> Reading {
    match escape {
        Escape::None => match byte {
            b'\\' => Reading::Escape(Escape::Backslash),
            b'"' => Reading::Wrong,
            _ => Reading::Byte(byte),
        },
        Escape::Backslash => after_backslash(byte),
        Escape::FirstDigit(part) => match digit_of(byte) {
            Some(digit) => Reading::Escape(Escape::SecondDigit(part | digit << 3)),
            None => Reading::Wrong,
        },
        Escape::SecondDigit(part) => match digit_of(byte) {
            Some(digit) => Reading::Byte(part | digit),
            None => Reading::Wrong,
        },
    }
}

// What is known after a backslash and a byte: a control's letter, a quote, a backslash, or the first of three octal digits.
fn after_backslash(byte: u8) -> Reading {
    match byte {
        b'a' => Reading::Byte(7),
        b'b' => Reading::Byte(8),
        b't' => Reading::Byte(9),
        b'n' => Reading::Byte(10),
        b'v' => Reading::Byte(11),
        b'f' => Reading::Byte(12),
        b'r' => Reading::Byte(13),
        b'"' | b'\\' => Reading::Byte(byte),
        b'0'..=b'3' => Reading::Escape(Escape::FirstDigit((byte & 3) << 6)),
        _ => Reading::Wrong,
    }
}

// The value of an octal digit.
fn digit_of(byte: u8) -> Option<u8> {
    match byte {
        b'0'..=b'7' => Some(byte & 7),
        _ => None,
    }
}
