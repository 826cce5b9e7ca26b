//! Spans of a page.
ghost use Rattle.std.specs.Prelude.{◌↔◌, IsTrue};
ghost use Rattle.markdown_targets.specs.Spans.{IsSpanOf};

/// A part of a page: the bytes from `start` on, before `end`.
#[derive(Clone, Copy, Debug, PartialEq, Eq)]
pub struct PageSpan {
    /// The offset of its first byte.
    pub start: usize,
    /// The offset after its last byte.
    pub end: usize,
}

impl PageSpan {
    // Returns whether the span lies within a page, between two ends of characters.
    pub(crate) fn is_of(self, page: &str) -> bool
        ensures { IsTrue result ↔ IsSpanOf page.now self }
    {
        self.start <= self.end
            && page.is_char_boundary(self.start)
            && page.is_char_boundary(self.end)
    }
}
