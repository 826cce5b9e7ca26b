//! Texts that are written within their capacity: a copy, a piece after a slash, and climbs, up to twenty-four at a
//! time.
ghost use Rattle.std.specs.Prelude.{◌≡◌, ◌≤◌, IfOk, fold, length, replicate, string_bytes};
ghost use Rattle.std.specs.String.{string_capacity};
ghost use Rattle.relative_path.specs.Steps.{up, step_text};
ghost use Rattle.relative_path.specs.Writing.{with_piece};

use std::alloc::{AllocError, Global};

// Copies the text into a `String` with a capacity of at least `room` bytes. Allocates once, if `room` isn't 0.
pub(crate) fn copy_with_room(alloc: Global, text: &str, room: usize) -> Result<String, AllocError>
    requires { length text.now ≤ room }
    ensures text { IfOk result (λ copy. string_bytes copy ≡ text.now) }
    ensures room { IfOk result (λ copy. room ≤ string_capacity copy) }
{
    let mut copy = String::with_capacity(alloc, room)?;
    copy.push_str(text).unwrap();
    Ok(copy)
}

// Appends a piece to a text whose capacity holds it: after a slash, or alone if the text is empty.
pub(crate) fn add_piece(text: &mut String, piece: &str)
    requires { length (with_piece (string_bytes text.old) piece.now) ≤ string_capacity text.old }
    ensures text { string_bytes text.new ≡ with_piece (string_bytes text.old) piece.now }
    ensures room { string_capacity text.old ≤ string_capacity text.new }
{
    if !text.is_empty() {
        text.push_str("/").unwrap();
    }
    text.push_str(piece).unwrap();
}

// The largest number of climbs that are written at once.
const MOST: usize = 24;

// `MOST` times `..`, with a slash after each.
const CLIMBS: &str = "../../../../../../../../../../../../../../../../../../../../../../../../";

// Appends `climb` times `..`.
#[inline]
pub(crate) fn push_climb(text: &mut String, climb: usize)
    requires { length (fold with_piece (string_bytes text.old) (replicate climb (step_text up)))
        ≤ string_capacity text.old }
    ensures text { string_bytes text.new
        ≡ fold with_piece (string_bytes text.old) (replicate climb (step_text up)) }
    ensures room { string_capacity text.old ≤ string_capacity text.new }
{
    let mut left = climb;
    while left > 0 {
        let count = left.min(MOST);
        add_piece(text, &CLIMBS[..3 * count - 1]);
        left -= count;
    }
}
