//! The directory above a path.
ghost use Rattle.std.specs.Prelude.{◌≡◌, ◌≢◌, ◌≤◌, ◌++◌, [], ◌∷◌, MatchOption, length};
ghost use Rattle.relative_path.specs.Steps.{Step};
ghost use Rattle.relative_path_places.specs.Views.{view_components};

use relative_path_places::NormalView;

/// Returns the path of the directory above a normal path. `None` if the path has no more than one component.
pub fn directory_above<'a>(path: NormalView<'a>) -> Option<NormalView<'a>>
    // all components but the last, or `None` exactly if none is left
    ensures { MatchOption result (length (view_components path.entry) ≤ 1)
        (λ directory. (view_components directory ≢ [])
        × ((last : Step) × (view_components path.entry ≡ view_components directory ++ last ∷ []))) }
{
    let directory = path.parent()?;
    if directory.as_relative_path().as_str().is_empty() {
        return None;
    }
    Some(directory)
}
