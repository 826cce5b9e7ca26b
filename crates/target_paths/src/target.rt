//! The syntaxes of targets, and what a target is read as.

/// The syntax of a target's text.
#[derive(Clone, Copy, Debug, PartialEq, Eq)]
pub enum TargetSyntax {
    /// The destination of a link, an image or a link reference definition in Markdown, without the angle
    /// brackets around it.
    Markdown,
    /// The value of an attribute of HTML, without its quotes.
    Attribute,
}

/// What a target is for a reader of its page.
#[derive(Debug, PartialEq, Eq, Drop)]
pub enum TargetReading {
    /// Not a path that is relative to the page's directory: the target is empty or a tail alone, has a scheme,
    /// or begins with a slash.
    NotRelative,
    /// A path that is relative to the page's directory.
    Path {
        /// The path, decoded.
        path: String,
        /// The offset in the target of its query or fragment, or the target's length.
        tail_at: usize,
    },
    /// The meaning isn't known, for this reason.
    Unknown(WhyUnknown),
}

/// Why the meaning of a target isn't known.
#[derive(Clone, Copy, Debug, PartialEq, Eq)]
pub enum WhyUnknown {
    /// The target has a character reference that this crate doesn't read.
    CharacterReference,
    /// The target has `%2F`, a slash that doesn't separate directories.
    EncodedSlash,
    /// The target has `%00`, a byte that no path of a file has.
    EncodedNul,
    /// The decoded path isn't UTF-8.
    NotUtf8,
}
