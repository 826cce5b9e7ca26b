//! The parts of an edit, and the lengths of the texts that edits leave.
ghost use Rattle.std.specs.Prelude.{◌≡◌, ◌++◌, [], ◌∷◌, if◌then◌else◌, length};
ghost use Rattle.relative_path.specs.Editing.{pushed, unslashed, with_separator};
ghost use Rattle.relative_path.specs.Naming.{dotted};
ghost use Rattle.relative_path.specs.Steps.{slash};

use crate::masked::{after_slash, starts_with_slash};

// Returns how many bytes the text has once the path is pushed onto it.
#[inline(always)]
pub(crate) fn pushed_len(text: &str, path: &str) -> usize
    ensures { result ≡ length (pushed text.now path.now) }
{
    text.len() + usize::from(needs_separator(text)) + strip_slash(path).len()
}

// Returns how many bytes a dot and the extension have: 0 for an empty extension.
pub(crate) fn dotted_len(extension: &str) -> usize
    ensures { result ≡ length (dotted extension.now) }
{
    if extension.is_empty() {
        0
    } else {
        1 + extension.len()
    }
}

// Returns whether a push onto the text adds a slash first.
#[inline(always)]
pub(crate) fn needs_separator(text: &str) -> bool
    ensures { with_separator text.now ≡ (if result then text.now ++ slash ∷ [] else text.now) }
{
    let bytes = text.as_bytes();
    !bytes.is_empty() && bytes[bytes.len() - 1] != b'/'
}

// Returns the text without one slash at its start.
#[inline(always)]
pub(crate) fn strip_slash(text: &str) -> &str
    ensures { result.now ≡ unslashed text.now }
{
    if starts_with_slash(text) {
        after_slash(text)
    } else {
        text
    }
}
