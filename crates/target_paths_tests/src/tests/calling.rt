//! A caller, proved from the contracts.
ghost use Rattle.std.specs.Prelude.{◌≡◌, false, length, IfOk, IfSome, string_bytes};
ghost use Rattle.std.specs.List.{list_any};
ghost use Rattle.target_paths.specs.Reading.{meaning, path_before};
ghost use Rattle.target_paths.specs.Writing.{is_nul, path_written, target_of};

use super::same;
use std::alloc::{AllocError, Global};
use std::test::Fail;
use target_paths::{TargetReading, TargetSyntax, path_of_target, target_of_path};

/// A target with another path in place of its own; its query and fragment stay as they are written.
fn with_path(
    alloc: Global,
    syntax: TargetSyntax,
    target: &str,
    path: &str,
) -> Result<Option<String>, AllocError>
    requires { list_any is_nul path.now ≡ false }
    ensures { IfOk result (λ new. IfSome new (λ new.
        meaning syntax (string_bytes new) ≡ path_before (path_written path.now) (length (target_of path.now)))) }
{
    match path_of_target(alloc, syntax, target)? {
        TargetReading::Path { tail_at, .. } => {
            let mut new = target_of_path(alloc, path)?;
            new.push_str(&target[tail_at..])?;
            Ok(Some(new))
        }
        _ => Ok(None),
    }
}

#[test]
fn a_target_keeps_its_tail(rt: HostRuntime) -> Result<(), Fail> {
    let new = with_path(
        rt.alloc(),
        TargetSyntax::Markdown,
        "a\\_b.md\\#top",
        "c d.md",
    )?;
    same(
        "a tail",
        &new.as_ref().map(|new| new.as_str()),
        &Some("c%20d.md\\#top"),
    )
}
