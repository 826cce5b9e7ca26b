//! Texts that may be the mark of a block of Markdown.
ghost use Rattle.std.specs.Prelude.{◌≡◌, ◌==◌, ◌&&◌, slice_index};
ghost use Rattle.std.specs.List.{list_all};
ghost use Rattle.target_paths.specs.Writing.{is_digit_byte, is_line_byte, is_mark, last_byte};

// Returns whether a text may be the mark of a block.
pub(crate) fn is_mark(text: &[u8]) -> bool
    ensures { result ≡ is_mark text.now }
{
    is_line(text) || is_number(text)
}

// Returns whether a text consists of dashes and underscores.
fn is_line(text: &[u8]) -> bool
    ensures { result ≡ list_all is_line_byte text.now }
{
    text.iter().all(|&byte| byte == b'-' || byte == b'_')
}

// Returns whether a text begins with a digit and ends in a dot.
fn is_number(text: &[u8]) -> bool
    ensures { result ≡ (is_digit_byte (slice_index text.now 0) && last_byte text.now == 46) }
{
    match text {
        [first, .., last] => first.is_ascii_digit() && *last == b'.',
        _ => false,
    }
}
