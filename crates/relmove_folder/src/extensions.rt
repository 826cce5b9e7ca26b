//! What the extension of a file says.
use relative_path::RelativePath;
use relmove_mentions::is_page;

// The extensions of files that have values more than sentences.
const DATA: [&str; 4] = ["yml", "yaml", "toml", "json"];

/// Whether the file at a path has values more than sentences. Allocates nothing.
pub fn is_data(path: RelativePath<'_>) -> bool {
    is_one_of(path, &DATA)
}

// Whether a path has one of these extensions, in any case.
fn is_one_of(path: RelativePath<'_>, extensions: &[&str]) -> bool {
    match path.extension() {
        Some(extension) => extensions
            .iter()
            .any(|other| extension.eq_ignore_ascii_case(other)),
        None => false,
    }
}

/// Whether the file at a path is searched for old paths though it is no page. Allocates nothing.
pub fn is_searched_file(path: RelativePath<'_>) -> bool {
    is_one_of(path, &SEARCHED)
}

/// Whether the file at a path is searched for old paths. Allocates nothing.
pub fn is_searched(path: RelativePath<'_>) -> bool {
    is_page(path) || is_searched_file(path)
}

// The extensions of the files that are searched beside pages.
const SEARCHED: [&str; 9] = [
    "html", "mdx", "rst", "adoc", "txt", "yml", "yaml", "toml", "json",
];
