//! The caller to which the page of `relative_path_moves` leads.
ghost use Rattle.std.specs.Prelude.{IfOk};
ghost use Rattle.relative_path.specs.Steps.{components};
ghost use Rattle.relative_path.specs.Relating.{Leads};
ghost use Rattle.relative_path.specs.RelativePath.{path_components};
ghost use Rattle.relative_path_moves.specs.Moves.{ForFileOfLink, moves_of};

use super::{same, text_of};
use relative_path::{RelativePath, RelativePathBuf};
use relative_path_moves::{MoveTable, ReferenceError};
use std::alloc::Global;
use std::test::Fail;

/// The reference to write in a page after the moves. It leads from the page's new directory to the target of the
/// old reference.
pub fn reference_after(
    alloc: Global,
    table: &MoveTable<'_>,
    page: RelativePath<'_>,
    reference: RelativePath<'_>,
) -> Result<RelativePathBuf, ReferenceError>
    ensures { IfOk result (λ new. ForFileOfLink (moves_of table.now)
        (path_components page.entry) (path_components reference.entry)
        (λ directory. Leads directory (components new.text))) }
{
    let moved = table.moved_in(alloc, page, reference)?;
    match moved {
        Some(way) => Ok(way),
        None => Ok(reference.to_relative_path_buf(alloc)?),
    }
}

// Fails where a reference of a page becomes another text than is expected.
fn refers(
    alloc: Global,
    table: &MoveTable<'_>,
    reference: &str,
    expected: &str,
) -> Result<(), Fail> {
    let page = RelativePath::new("docs/a.md");
    let new = reference_after(alloc, table, page, RelativePath::new(reference))?;
    same(reference, text_of(&new), expected)
}

#[test]
fn the_caller_of_the_page(rt: HostRuntime) -> Result<(), Fail> {
    let alloc = rt.alloc();
    let moves = [(
        RelativePath::new("img/x.png"),
        RelativePath::new("art/y.png"),
    )];
    let table = MoveTable::new(alloc, &moves)?;
    refers(alloc, &table, "../img/x.png", "../art/y.png")?;
    refers(alloc, &table, "./b.md", "./b.md")
}
