//! Names for what moves, while it moves.
ghost use Rattle.std.specs.Prelude.{IfOk, [], string_bytes};
ghost use Rattle.relative_path.specs.Normalizing.{IsNormalText};
ghost use Rattle.relative_path.specs.RelativePath.{path_components, path_text};
ghost use Rattle.relative_path_places.specs.Views.{view_components};
ghost use Rattle.relmove_steps.specs.StagingNames.{AreDrawn, IsDrawn, IsDrawnIn};

use crate::number::Number;
use relative_path::RelativePath;
use relative_path_places::{NormalPath, NormalView, PlaceIndex};
use relmove_actions::STAGING;
use std::alloc::{AllocError, Global};

// Free names, each with a greater number than those before it.
#[derive(Drop)]
pub(crate) struct FreeNames<'a> {
    // The paths of the entries.
    entries: &'a PlaceIndex,
    // The number of the last name, or 0.
    last: Number,
}

impl<'a> FreeNames<'a> {
    // Returns the free names beside these entries. The first is `.relmove-1`, if it is free.
    pub(crate) fn new(alloc: Global, entries: &'a PlaceIndex) -> FreeNames<'a>
        ensures { AreDrawn entries.now result [] }
    {
        FreeNames {
            entries,
            last: Number::zero(alloc),
        }
    }

    // Returns the next name that is free in the root.
    pub(crate) fn in_root(&mut self, alloc: Global) -> Result<String, AllocError>
        ensures drawn { IfOk result (λ name. IsDrawn self.old self.new (string_bytes name)) }
    {
        self.draw(alloc, RelativePath::new(""))
    }

    // Returns the next name that is free in a directory, as a path.
    pub(crate) fn in_directory(
        &mut self,
        alloc: Global,
        directory: NormalView<'_>,
    ) -> Result<String, AllocError>
        ensures drawn { IfOk result (λ file.
            IsDrawnIn (view_components directory.entry) self.old self.new (string_bytes file)) }
    {
        self.draw(alloc, directory.as_relative_path())
    }

    // Returns the next name that is free where a normal path leads, as a path.
    fn draw(&mut self, alloc: Global, directory: RelativePath<'_>) -> Result<String, AllocError>
        requires { IsNormalText (path_text directory) }
        ensures drawn { IfOk result (λ file.
            IsDrawnIn (path_components directory.entry) self.old self.new (string_bytes file)) }
    {
        loop {
            self.last = self.last.next(alloc)?;
            let mut name = String::from_str(alloc, STAGING)?;
            self.last.push_onto(&mut name)?;
            let path = NormalPath::of_joined(alloc, directory, RelativePath::new(&name))?;
            if self.entries.get(&path).is_none() {
                return Ok(path.into_relative_path_buf().into_string());
            }
        }
    }
}
