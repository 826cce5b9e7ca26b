//! A file that is searched.
ghost use Rattle.std.specs.Prelude.{◌≡◌, IfOk, map};
ghost use Rattle.relative_path.specs.RelativePath.{path_text};
ghost use Rattle.relmove_mentions.specs.Bases.{base_text};

use crate::bases::Base;
use crate::file_text::FileText;
use relative_path::RelativePath;
use std::alloc::{AllocError, Global};

// A file that is searched, with its directories and tops as bases.
#[derive(Clone, Copy)]
pub(crate) struct SearchedFile<'a> {
    pub(crate) file: FileText<'a>,
    pub(crate) directories: &'a [Base<'a>],
    pub(crate) tops: &'a [Base<'a>],
    ghost directories_same: { map base_text directories.now ≡ map path_text file.directories.now },
    ghost tops_same: { map base_text tops.now ≡ map path_text file.tops.now },
}

// Returns directories as bases.
pub(crate) fn bases_of<'a>(
    alloc: Global,
    directories: &[RelativePath<'a>],
) -> Result<Vec<Base<'a>>, AllocError>
    ensures { IfOk result (λ bases. map base_text bases.items ≡ map path_text directories.now) }
{
    let mut bases = Vec::with_capacity(alloc, directories.len())?;
    for directory in directories {
        bases.push(Base::of(*directory))?;
    }
    Ok(bases)
}
