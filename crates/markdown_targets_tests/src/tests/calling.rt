//! The caller that the page of `markdown_targets` shows.
ghost use Rattle.std.specs.Prelude.{◌≡◌, ℕ, IfOk, IfSome, slice_range};

use markdown_targets::{Quote, TargetKind, link_targets};
use std::alloc::{AllocError, Global};
use std::test::Fail;

/// The first target of a page, which is a part of the page.
pub fn first_target<'a>(alloc: Global, page: &'a str) -> Result<Option<&'a str>, AllocError>
    ensures { IfOk result (λ found. IfSome found (λ target. (start end : ℕ)
        × (target.now ≡ slice_range page.now start end))) }
{
    let found = link_targets(alloc, page)?;
    let Some((first, _)) = found.targets.split_first() else {
        return Ok(None);
    };
    Ok(Some(&page[first.span.start..first.span.end]))
}

#[test]
fn the_caller_of_the_page(rt: HostRuntime) -> Result<(), Fail> {
    let alloc = rt.alloc();
    assert_eq!(rt; first_target(alloc, "See [b](b.md).")?, Some("b.md"));
    assert_eq!(rt; first_target(alloc, "See `[b](b.md)`.")?, None);
    Ok(())
}

const KINDS: [TargetKind; 6] = [
    TargetKind::Inline,
    TargetKind::Inline,
    TargetKind::Definition,
    TargetKind::Attribute(Quote::Double),
    TargetKind::Attribute(Quote::Single),
    TargetKind::Attribute(Quote::Unquoted),
];

#[test]
fn says_what_a_target_belongs_to(rt: HostRuntime) -> Result<(), Fail> {
    let page = "[a](b) ![c](d)\n\n[e]: f\n\n<a href=\"g\" src='h'>\n<a href=i>\n";
    let found = link_targets(rt.alloc(), page)?;
    let kinds = found.targets.iter().map(|target| target.kind);
    let kinds = kinds.collect::<Vec<_>>(rt.alloc())?;
    assert_eq!(rt; kinds.as_slice(), KINDS.as_slice());
    Ok(())
}
