//! Targets of links: their spans in a page, and the syntax of their text.
ghost use Rattle.std.specs.Prelude.{◌≡◌, ◌↔◌, IsTrue};
ghost use Rattle.relative_path_links.specs.Targets.{target_text, HasTarget, HasTargets};

use target_paths::TargetSyntax;

/// The target of a link in a page: the bytes from `start` on, before `end`. Angle brackets and quotes around
/// the target, and the title after it, aren't part of it.
///
/// ```
/// let page = "[a](b.md#top \"A title\")";
/// let target = Target { syntax: TargetSyntax::Markdown, start: 4, end: 12 };
/// assert_eq!(rt; &page[target.start..target.end], "b.md#top");
/// ```
#[derive(Clone, Copy, Debug, PartialEq, Eq)]
pub struct Target {
    /// The syntax of its text.
    pub syntax: TargetSyntax,
    /// The offset of its first byte.
    pub start: usize,
    /// The offset after its last byte.
    pub end: usize,
}

impl Target {
    /// Returns whether a page has the target: whether its span lies within the page, between two ends of
    /// characters. Allocates nothing.
    ///
    /// ```
    /// let target = Target { syntax: TargetSyntax::Markdown, start: 4, end: 6 };
    /// assert!(rt; target.is_of("[a](é)"));
    /// assert!(rt; !target.is_of("[é](b)"[..5].trim()));
    /// ```
    pub fn is_of(self, page: &str) -> bool
        ensures { IsTrue result ↔ HasTarget page.now self }
    {
        self.start <= self.end
            && page.is_char_boundary(self.start)
            && page.is_char_boundary(self.end)
    }

    // Returns the target's text, in a page that has the target.
    pub(crate) fn text(self, page: &str) -> &str
        requires { HasTarget page.now self }
        ensures { result.now ≡ target_text page.now self }
    {
        &page[self.start..self.end]
    }
}

/// Returns whether a page has these targets, each after the end of the one before: what
/// [`rewrite_links`](crate::rewrite_links) needs of targets. Allocates nothing; time is linear in the targets.
///
/// ```
/// let [a, c] = [(4, 5), (11, 12)]
///     .map(|(start, end)| Target { syntax: TargetSyntax::Markdown, start, end });
/// assert!(rt; are_in_order("[a](b) [c](d)", &[a, c]));
/// assert!(rt; !are_in_order("[a](b) [c](d)", &[c, a]));
/// ```
pub fn are_in_order(page: &str, targets: &[Target]) -> bool
    ensures { IsTrue result ↔ HasTargets page.now 0 targets.now }
{
    let mut at = 0;
    let mut rest = targets;
    while let Some((target, others)) = rest.split_first() {
        if target.start < at || !target.is_of(page) {
            return false;
        }
        at = target.end;
        rest = others;
    }
    true
}
