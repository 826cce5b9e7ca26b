//! How a call ends, and the values that carry a status and an answer.
ghost use Rattle.std.specs.Prelude.{◌≡◌, MatchOption};
ghost use Rattle.std.specs.Str.{IsUtf8};
ghost use Rattle.relative_path.specs.RelativePath.{path_text};

use relative_path::RelativePath;

// The answer is there.
pub(crate) const DONE: u32 = 0;

// An argument isn't UTF-8.
pub(crate) const NOT_UTF8: u32 = 1;

// The answer is that there is none.
pub(crate) const ABSENT: u32 = 2;

// The caller's memory is too short for the text.
pub(crate) const NO_ROOM: u32 = 3;

// An allocation failed.
pub(crate) const OUT_OF_MEMORY: u32 = 4;

// The platform path begins with a slash.
pub(crate) const NON_RELATIVE: u32 = 5;

// One of the platform paths begins with a slash, and the other doesn't.
pub(crate) const PREFIX_MISMATCH: u32 = 6;

// The root climbs above the components that both platform paths begin with.
pub(crate) const AMBIGUOUS_TRAVERSAL: u32 = 7;

/// How a call ended, and its answer to a question.
#[repr(C)]
#[derive(Clone, Copy)]
pub struct Answer {
    pub status: u32,
    pub yes: bool,
}

/// How a call ended, and a number.
#[repr(C)]
#[derive(Clone, Copy)]
pub struct Count {
    pub status: u32,
    pub count: usize,
}

/// How a call ended, and an order: 0 for less, 1 for equal, 2 for greater.
#[repr(C)]
#[derive(Clone, Copy)]
pub struct Order {
    pub status: u32,
    pub order: u32,
}

/// How a call ended, and how many bytes it wrote, or would have to write.
#[repr(C)]
#[derive(Clone, Copy)]
pub struct Written {
    pub status: u32,
    pub len: usize,
}

// Views bytes as a path, if they are UTF-8.
pub(crate) fn view(text: &[u8]) -> Option<RelativePath<'_>>
    ensures { MatchOption result (¬ IsUtf8 text.now)
        (λ path. IsUtf8 text.now × (path_text path ≡ text.now)) }
{
    match std::str::from_utf8(text) {
        Ok(text) => Some(RelativePath::new(text)),
        Err(_) => None,
    }
}
