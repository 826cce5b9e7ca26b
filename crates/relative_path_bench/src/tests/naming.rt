//! The laws of parents, file names and stems.
use super::same;
use crate::{parent_law, stem_law};
use relative_path::RelativePath;
use std::test::Fail;

#[test]
fn cuts_file_names_in_two() -> Result<(), Fail> {
    let parts = stem_law(RelativePath::new("foo."));
    same("foo.", parts, Some(("foo.", "foo", Some(""))))?;
    let parts = stem_law(RelativePath::new("日本/語.é"));
    same("日本/語.é", parts, Some(("語.é", "語", Some("é"))))
}

#[test]
fn splits_off_parents() -> Result<(), Fail> {
    let pair = parent_law(RelativePath::new("foo/./bar/."));
    let expected = Some((RelativePath::new("foo/."), "bar"));
    same("foo/./bar/.", pair, expected)?;
    same("foo/..", parent_law(RelativePath::new("foo/..")), None)
}
