//! Spans of a text, and where one can begin and end.
ghost use Rattle.std.specs.Prelude.{◌≡◌, ◌≤◌, ◌↔◌, ◌==◌, ◌&&◌, ◌||◌, IsTrue, length, not};
ghost use Rattle.relmove_mentions.specs.Spans.{
  FollowFrom,
  is_apart,
  is_bounded_after,
  is_bounded_at,
  is_bounded_before,
  is_path_byte,
  may_separate,
  others_in,
};

/// A span of a text: its bytes from the offset `start` up to the offset `end`.
///
/// ```
/// let span = TextSpan { start: 4, end: 8 };
/// assert_eq!(rt; &"see a.md"[span.start..span.end], "a.md");
/// ```
#[derive(Clone, Copy, Debug, PartialEq, Eq)]
pub struct TextSpan {
    /// The offset of the first byte.
    pub start: usize,
    /// The offset after the last byte.
    pub end: usize,
}

/// Returns whether spans are in order, without overlap: what [`OldNames::mentions`](crate::OldNames::mentions) needs of what
/// was read. Allocates nothing; time is linear in the spans.
///
/// ```
/// let [a, c] = [(4, 5), (11, 12)].map(|(start, end)| TextSpan { start, end });
/// assert!(rt; are_spans_in_order(&[a, c]));
/// assert!(rt; !are_spans_in_order(&[c, a]));
/// ```
pub fn are_spans_in_order(spans: &[TextSpan]) -> bool
    ensures { IsTrue result ↔ FollowFrom 0 spans.now }
{
    let mut at = 0;
    let mut rest = spans;
    while let Some((span, others)) = rest.split_first() {
        if span.start < at || span.end < span.start {
            return false;
        }
        at = span.end;
        rest = others;
    }
    true
}

// Returns whether a span has no byte of another one.
#[inline]
pub(crate) fn is_apart(span: TextSpan, other: TextSpan) -> bool
    ensures { result ≡ is_apart span other }
{
    other.end <= other.start || span.end <= other.start || other.end <= span.start
}

// Whether a path goes on with each byte.
static PATH_BYTES: [bool; 256] = [
    false, false, false, false, false, false, false, false, false, false, false, false, false,
    false, false, false, false, false, false, false, false, false, false, false, false, false,
    false, false, false, false, false, false, false, false, false, false, false, true, false,
    false, false, false, false, false, false, true, true, true, true, true, true, true, true, true,
    true, true, true, true, false, false, false, false, false, false, false, true, true, true,
    true, true, true, true, true, true, true, true, true, true, true, true, true, true, true, true,
    true, true, true, true, true, true, true, false, false, false, false, true, false, true, true,
    true, true, true, true, true, true, true, true, true, true, true, true, true, true, true, true,
    true, true, true, true, true, true, true, true, false, false, false, false, false, true, true,
    true, true, true, true, true, true, true, true, true, true, true, true, true, true, true, true,
    true, true, true, true, true, true, true, true, true, true, true, true, true, true, true, true,
    true, true, true, true, true, true, true, true, true, true, true, true, true, true, true, true,
    true, true, true, true, true, true, true, true, true, true, true, true, true, true, true, true,
    true, true, true, true, true, true, true, true, true, true, true, true, true, true, true, true,
    true, true, true, true, true, true, true, true, true, true, true, true, true, true, true, true,
    true, true, true, true, true, true, true, true, true, true, true, true, true, true, true, true,
    true, true, true, true, true, true, true, true, true, true, true, true, true, true,
];

// Returns whether a path goes on with a byte.
#[inline]
pub(crate) fn is_path_byte(byte: u8) -> bool
    ensures { result ≡ is_path_byte byte }
{
    PATH_BYTES[byte as usize]
}

// Returns whether a path goes on with a byte that is no percent sign, full stop or slash.
#[inline]
pub(crate) fn is_plain_byte(byte: u8) -> bool
    ensures { result ≡ (is_path_byte byte && not (byte == 37 || byte == 46 || byte == 47)) }
{
    is_path_byte(byte) && !(byte == b'%' || byte == b'.' || byte == b'/')
}

// Returns whether a byte is a slash, or may begin one that is encoded.
#[inline]
pub(crate) fn may_separate(byte: u8) -> bool
    ensures { result ≡ may_separate byte }
{
    byte == b'/' || byte == b'%'
}

// Returns how many bytes of a text aren't path bytes.
pub(crate) fn others_in(text: &[u8]) -> usize
    ensures { result ≡ others_in text.now }
{
    text.iter().filter(|byte| !is_path_byte(**byte)).count()
}

// Returns whether the byte before an offset, if there is one, isn't a path byte.
#[inline]
pub(crate) fn is_bounded_before(text: &[u8], start: usize) -> bool
    requires { start ≤ length text.now }
    ensures { result ≡ is_bounded_before text.now start }
{
    start == 0 || !is_path_byte(text[start - 1])
}

// Returns whether the byte at an offset, if there is one, isn't a path byte, or is a full stop before such an end.
#[inline]
pub(crate) fn is_bounded_after(text: &[u8], end: usize) -> bool
    ensures { result ≡ is_bounded_after text.now end }
{
    is_bounded_at(text, end) || (text[end] == b'.' && is_bounded_at(text, end + 1))
}

// Returns whether the byte at an offset, if there is one, isn't a path byte.
#[inline]
fn is_bounded_at(text: &[u8], end: usize) -> bool
    ensures { result ≡ is_bounded_at text.now end }
{
    text.len() <= end || !is_path_byte(text[end])
}
