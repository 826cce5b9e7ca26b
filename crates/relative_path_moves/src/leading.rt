//! Whether a reference leads from a directory to a file, found with no allocation.
ghost use Rattle.std.specs.Prelude.{◌≡◌, ◌↔◌, ◌++◌, List, replicate, IfSome, IfNone, IsTrue};
ghost use Rattle.relative_path.specs.Steps.{Step, up, components};
ghost use Rattle.relative_path.specs.Walk.{IsSame};
ghost use Rattle.relative_path.specs.Normalizing.{IsNormal};
ghost use Rattle.relative_path.specs.Relating.{Leads};
ghost use Rattle.relative_path.specs.RelativePath.{path_components};

use relative_path::{Component, RelativePath};
use relative_path_places::{NormalPath, directory as parent_directory};

// Returns whether a reference leads from a directory to a file. Allocates nothing.
pub(crate) fn leads_to(
    directory: &NormalPath,
    reference: RelativePath<'_>,
    file: &NormalPath,
) -> bool
    ensures { IsTrue result
        ↔ Leads (components directory.now) (path_components reference.entry) (components file.now) }
{
    match before_reference(reference, file.as_relative_path()) {
        Some((climb, left)) => climbs_to(directory.as_relative_path(), climb, left),
        None => false,
    }
}

// Walks back over a reference and its file from their ends. The reference leads to the file exactly from
// where that many `..` lead to the rest of the file. `None` if the reference leads there from nowhere.
fn before_reference<'t>(
    reference: RelativePath<'_>,
    file: RelativePath<'t>,
) -> Option<(usize, RelativePath<'t>)>
    requires { IsNormal (path_components file) }
    ensures none { IfNone result ((from : List Step)
        → ¬ Leads from (path_components reference.entry) (path_components file.entry)) }
    ensures normal { IfSome result (λ before. IsNormal (path_components before.1)) }
    ensures some { IfSome result (λ before. (from : List Step)
        → Leads from (path_components reference.entry) (path_components file.entry)
        ↔ Leads from (replicate before.0 up) (path_components before.1)) }
{
    let mut climb = 0_usize;
    let mut left = file.components();
    let mut reference_left = reference.components();
    while let Some(component) = reference_left.next_back() {
        match component {
            Component::CurDir => {}
            Component::ParentDir => climb += 1,
            Component::Normal(_) if climb > 0 => climb -= 1,
            Component::Normal(_) => {
                if left.next_back() != Some(component) {
                    return None;
                }
            }
        }
    }
    Some((climb, left.as_relative_path()))
}

// Returns whether that many `..` lead from a directory to a file.
fn climbs_to(directory: RelativePath<'_>, climb: usize, file: RelativePath<'_>) -> bool
    requires directory { IsNormal (path_components directory) }
    requires file { IsNormal (path_components file) }
    ensures { IsTrue result
        ↔ Leads (path_components directory.entry) (replicate climb up) (path_components file.entry) }
{
    let (mut above, mut climb) = (directory, climb);
    while climb > 0 {
        if above.file_name().is_none() {
            return has_then(file, above, climb);
        }
        above = parent_directory(above);
        climb -= 1;
    }
    above == file
}

// Returns whether the file has the components of a front, and then that many `..`.
fn has_then(file: RelativePath<'_>, front: RelativePath<'_>, climb: usize) -> bool
    requires { IsNormal (path_components file) }
    ensures { IsTrue result
        ↔ (path_components file.entry ≡ path_components front.entry ++ replicate climb up) }
{
    let Ok(rest) = file.strip_prefix(front) else {
        return false;
    };
    if rest.climb() != climb {
        return false;
    }
    rest.file_name().is_none()
}
