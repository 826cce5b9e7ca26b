//! The caller that the README shows.
ghost use Rattle.std.specs.Prelude.{◌++◌, IfOk};
ghost use Rattle.relative_path.specs.Normalizing.{IsNormalTextOf};
ghost use Rattle.relative_path.specs.RelativePath.{path_components};

use super::gives;
use relative_path::{RelativePath, RelativePathBuf};
use std::alloc::{AllocError, Global};
use std::test::Fail;

/// The path of the file to which `link` leads. The link is written in a page that is in `directory`.
fn resolve(
    alloc: Global,
    directory: RelativePath<'_>,
    link: RelativePath<'_>,
) -> Result<RelativePathBuf, AllocError>
    ensures { IfOk result (λ file.
        IsNormalTextOf (path_components directory.entry ++ path_components link.entry) file.text) }
{
    directory
        .join(alloc, link)?
        .as_relative_path()
        .normalize(alloc)
}

#[test]
fn resolves_a_link(rt: HostRuntime) -> Result<(), Fail> {
    let [directory, link] = ["docs/guide", "../img/./a.png"].map(RelativePath::new);
    gives(
        "resolve",
        resolve(rt.alloc(), directory, link),
        "docs/img/a.png",
    )
}
