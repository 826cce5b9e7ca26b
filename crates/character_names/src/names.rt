//! The table, searched.
ghost use Rattle.std.specs.Prelude.{◌≡◌, ◌≤◌, ◌<◌, ◌+◌, ◌-◌, length, take, drop, slice_index, true, IfSome};
ghost use Rattle.std.specs.List.{position};
ghost use Rattle.character_names.specs.Names.{
  characters_at,
  characters_in,
  characters_of,
  ends_name,
  is_table,
  IsLongest,
  longest_name,
  longest_within,
  rows_from,
};

use crate::characters::Characters;
use crate::table::{BOUNDS, CHARACTERS, NAMES};
use std::cmp::Ordering;

/// Returns the characters that a name stands for. The name is as it stands after the `&`, with the semicolon if it has
/// one.
///
/// Allocates nothing. Takes at most 12 comparisons of names.
///
/// ```
/// assert_eq!(rt; characters_of(b"eacute;"), Some(Characters::One('é')));
/// assert_eq!(rt; characters_of(b"copy"), Some(Characters::One('©')));
/// assert_eq!(rt; characters_of(b"fjlig;"), Some(Characters::Two('f', 'j')));
/// assert_eq!(rt; characters_of(b"fjlig"), None);
/// ```
pub fn characters_of(name: &[u8]) -> Option<Characters>
    // what the table says of this name
    ensures characters { result ≡ characters_of name.now }
{
    find(&BOUNDS, NAMES, &CHARACTERS, name)
}

// Returns the characters of a name in a table.
fn find(bounds: &[u16], text: &[u8], pairs: &[(char, char)], name: &[u8]) -> Option<Characters>
    requires { is_table bounds.now text.now pairs.now ≡ true }
    ensures { result ≡ characters_in (rows_from bounds.now text.now pairs.now) name.now }
{
    let mut low = 0;
    let mut high = pairs.len();
    while low < high {
        let mid = low + (high - low) / 2;
        match name_at(bounds, text, mid).cmp(name) {
            Ordering::Less => low = mid + 1,
            Ordering::Equal => return Some(characters_at(pairs[mid])),
            Ordering::Greater => high = mid,
        }
    }
    None
}

// Returns a name of a table.
fn name_at<'a>(bounds: &[u16], text: &'a [u8], index: usize) -> &'a [u8]
    requires inside { index + 1 < length bounds.now }
    requires order { slice_index bounds.now index ≤ slice_index bounds.now (index + 1) }
    requires within { slice_index bounds.now (index + 1) ≤ length text.now }
    ensures { result.now ≡ take (slice_index bounds.now (index + 1) - slice_index bounds.now index)
        (drop (slice_index bounds.now index) text.now) }
{
    &text[bounds[index] as usize..bounds[index + 1] as usize]
}

// Returns what a pair of the table says.
fn characters_at(pair: (char, char)) -> Characters
    ensures { result ≡ characters_at pair }
{
    let (first, second) = pair;
    if second == '\0' {
        Characters::One(first)
    } else {
        Characters::Two(first, second)
    }
}

/// Returns the longest name that a text begins with: how many bytes it has, and the characters that it stands for.
///
/// Allocates nothing. Looks up the letters and digits that the text begins with, with the byte after them, and each
/// shorter beginning until it finds one.
///
/// ```
/// assert_eq!(rt; longest_name(b"notin;x"), Some((6, Characters::One('∉'))));
/// assert_eq!(rt; longest_name(b"notit;x"), Some((3, Characters::One('¬'))));
/// assert_eq!(rt; longest_name(b"no"), None);
/// ```
pub fn longest_name(text: &[u8]) -> Option<(usize, Characters)>
    // the defined longest name
    ensures name { result ≡ longest_name text.now }
    // the text begins with this name, and with no longer one
    ensures longest { IsLongest text.now result }
    // not empty, and within the text
    ensures within { IfSome result (λ found. (0 < found.0) × (found.0 ≤ length text.now)) }
{
    let mut len = longest_candidate(text);
    while 0 < len {
        if let Some(characters) = characters_of(&text[..len]) {
            return Some((len, characters));
        }
        len -= 1;
    }
    None
}

// Returns how many bytes a name has at most that a text begins with.
fn longest_candidate(text: &[u8]) -> usize
    ensures within { result ≤ length text.now }
    ensures longest { longest_within result text.now ≡ longest_name text.now }
{
    match name_end(text) {
        Some(end) => end + 1,
        None => text.len(),
    }
}

// Returns the end of the letters and digits that a text begins with, if text comes after them.
fn name_end(text: &[u8]) -> Option<usize>
    ensures { result ≡ position ends_name text.now }
{
    text.iter().position(|byte| !byte.is_ascii_alphanumeric())
}
