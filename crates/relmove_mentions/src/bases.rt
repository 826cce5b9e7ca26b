//! A directory from which paths lead.
ghost use Rattle.std.specs.Prelude.{◌≡◌};
ghost use Rattle.relative_path.specs.RelativePath.{path_components, path_text};
ghost use Rattle.relmove_mentions.specs.NameHashes.{last_hash};

use crate::name_hashes::last_hash;
use relative_path::RelativePath;

// A directory from which paths lead.
#[derive(Clone, Copy)]
pub(crate) struct Base<'a> {
    pub(crate) path: RelativePath<'a>,
    // The hash of its last name.
    pub(crate) name: Option<u64>,
    ghost hashed: { name ≡ last_hash (path_components path) },
}

impl<'a> Base<'a> {
    // Returns a directory as a base.
    pub(crate) fn of(path: RelativePath<'a>) -> Base<'a>
        ensures { path_text result.path ≡ path_text path.entry }
    {
        Base {
            path,
            name: last_hash(path),
        }
    }
}
