//! Which characters of a path are escaped, by where they are.
ghost use Rattle.std.specs.Prelude.{◌≡◌};
ghost use Rattle.target_paths.specs.Writing.{
  begins_mark,
  first_position,
  is_always_escaped,
  is_block_byte,
  is_escaped,
  is_escaped_at_start,
  is_template_byte,
  next_position,
};

use crate::mark::is_mark;

// Where a character stands in a path that is being written.
#[derive(Clone, Copy)]
pub(crate) enum PathPosition {
    Start,
    // The start of a path that is a mark.
    Mark,
    FirstSegment,
    AfterSlash,
}

impl PathPosition {
    // Returns where the first character of a path is written: as a mark, if the path may begin a block of Markdown.
    pub(crate) fn first(path: &str) -> PathPosition
        ensures { result ≡ first_position path.now }
    {
        if is_mark(path.as_bytes()) {
            PathPosition::Mark
        } else {
            PathPosition::Start
        }
    }

    // Returns whether a character is escaped at this position.
    #[inline(always)]
    pub(crate) fn escapes(self, character: char) -> bool
        ensures { result ≡ is_escaped self character }
    {
        match self {
            PathPosition::Start => is_escaped_at_start(character),
            PathPosition::Mark => is_escaped_at_start(character) || begins_mark(character),
            PathPosition::FirstSegment => is_always_escaped(character) || character == ':',
            PathPosition::AfterSlash => is_always_escaped(character),
        }
    }

    // Returns where the next character is written: a slash ends a segment.
    pub(crate) fn after(self, character: char) -> PathPosition
        ensures { result ≡ next_position self character }
    {
        match self {
            PathPosition::Start if character == '/' => PathPosition::AfterSlash,
            PathPosition::Start => PathPosition::FirstSegment,
            PathPosition::Mark if character == '/' => PathPosition::AfterSlash,
            PathPosition::Mark => PathPosition::FirstSegment,
            PathPosition::FirstSegment if character == '/' => PathPosition::AfterSlash,
            PathPosition::FirstSegment => PathPosition::FirstSegment,
            PathPosition::AfterSlash => PathPosition::AfterSlash,
        }
    }
}

// Returns whether a character is escaped at the start of each path.
fn is_escaped_at_start(character: char) -> bool
    ensures { result ≡ is_escaped_at_start character }
{
    is_always_escaped(character)
        || character == ':'
        || is_template(character)
        || is_block(character)
}

// Returns whether a mark may begin with a character.
fn begins_mark(character: char) -> bool
    ensures { result ≡ begins_mark character }
{
    match character {
        '-' => true,
        '_' => true,
        '0'..='9' => true,
        _ => false,
    }
}

// Returns whether a character is escaped wherever it is.
fn is_always_escaped(character: char) -> bool
    ensures { result ≡ is_always_escaped character }
{
    match character {
        '\0'..=' ' => true,
        '"'..='#' => true,
        '%'..=')' => true,
        '<'..='?' => true,
        '\\' => true,
        '`' => true,
        '|' => true,
        '\u{7F}' => true,
        _ => false,
    }
}

// Returns whether a template may begin with a character.
fn is_template(character: char) -> bool
    ensures { result ≡ is_template_byte character }
{
    character == '$' || character == '{'
}

// Returns whether a block may begin with a character.
fn is_block(character: char) -> bool
    ensures { result ≡ is_block_byte character }
{
    character == '!' || character == '*' || character == '+' || character == '~'
}
