//! A file whose text is searched.
use crate::text_span::TextSpan;
use relative_path::RelativePath;

/// The text of a file, with what is known of it.
///
/// ```
/// let [top, docs] = ["", "docs"].map(|path| RelativePath::new(path));
/// let file = FileText { directories: &[docs], tops: &[top], text: b"see a.md", read: &[] };
/// assert_eq!(rt; file.text.len(), 8);
/// ```
#[derive(Clone, Copy)]
pub struct FileText<'a> {
    /// The directories, from the root of the run, from which a path in the file can lead: that of the file, and perhaps
    /// the one that it is as a page of a site.
    pub directories: &'a [RelativePath<'a>],
    /// Those from which a path can lead that begins with a slash, or has a directory before its name: the root of the run,
    /// and perhaps the top of a site below it.
    pub tops: &'a [RelativePath<'a>],
    /// The bytes of the file.
    pub text: &'a [u8],
    /// The spans of the text that the run has read as targets, in order and without overlap. A span can be empty.
    pub read: &'a [TextSpan],
}
