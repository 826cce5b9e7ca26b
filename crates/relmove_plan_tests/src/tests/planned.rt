//! Plans for the trees of the vectors.
use super::model::DIRECTORY;
use relative_path::RelativePath;
use relative_path_links::{Markdown, SitePage, SiteRoot};
use relative_path_places::NormalPath;
use relmove_plan::{Entry, Kind, NameRule, Plan, Refusal, SiteTree, make_plan};
use std::alloc::{AllocError, Global};
use std::test::Fail;

fn as_paths<'a>((old, new): (&'a str, &'a str)) -> (RelativePath<'a>, RelativePath<'a>) {
    (RelativePath::new(old), RelativePath::new(new))
}

// An entry of a row: a directory, a directory with a name that isn't UTF-8, a directory that isn't read, a symbolic
// link, or a file.
fn entry_of<'a>(alloc: Global, (path, text): (&'a str, &'a str)) -> Result<Entry<'a>, AllocError> {
    let kind = match text {
        DIRECTORY => Kind::Directory {
            has_foreign_name: false,
            is_read: true,
        },
        "/?" => Kind::Directory {
            has_foreign_name: true,
            is_read: true,
        },
        "/..." => Kind::Directory {
            has_foreign_name: false,
            is_read: false,
        },
        _ => match text.strip_prefix("-> ") {
            Some(path) => Kind::Symlink {
                path: Some(RelativePath::new(path)),
            },
            None => Kind::File,
        },
    };
    let path = NormalPath::of(alloc, RelativePath::new(path))?;
    Ok(Entry { path, kind })
}

/// The plan for a tree of these rows and these moves.
pub fn planned<'a>(
    alloc: Global,
    rows: &[(&str, &str)],
    moves: &[(&'a str, &'a str)],
    rule: NameRule,
) -> Result<Result<Plan<'a>, Refusal>, Fail> {
    let mut entries = Vec::new(alloc);
    for (path, text) in rows {
        entries.push(entry_of(alloc, (path, text))?)?;
    }
    let mut pages = Vec::new(alloc);
    for ((path, text), entry) in rows.iter().zip(&entries) {
        if path.ends_with(".md") {
            pages.push(SitePage {
                path: &entry.path,
                text,
            })?;
        }
    }
    let mut pairs = Vec::new(alloc);
    for pair in moves {
        pairs.push(as_paths(*pair))?;
    }
    let tree = SiteTree {
        entries: &entries,
        pages: &pages,
        root: &SiteRoot::unknown(),
    };
    Ok(make_plan(alloc, tree, &pairs, None, rule, &Markdown))
}
