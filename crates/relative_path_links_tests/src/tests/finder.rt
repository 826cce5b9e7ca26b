use super::same;
use relative_path_links::{Finder, Markdown, Target, are_in_order, targets};
use std::test::Fail;
use target_paths::TargetSyntax;

#[test]
fn finds_targets_with_their_syntax(rt: HostRuntime) -> Result<(), Fail> {
    let page = "[a](b.md \"t\") <img src='c.png'> `[d](e)`\n\n[f]: <g h>\n";
    let found = targets(rt.alloc(), page)?;
    let [b, c, g] = [
        (TargetSyntax::Markdown, 4, 8),
        (TargetSyntax::Attribute, 24, 29),
        (TargetSyntax::Markdown, 48, 51),
    ]
    .map(|(syntax, start, end)| Target { syntax, start, end });
    same(page, found.as_slice(), [b, c, g].as_slice())?;
    let found = Markdown.targets(rt.alloc(), page)?;
    same(page, found.as_slice(), [b, c, g].as_slice())
}

#[test]
fn finds_nothing_where_links_have_another_base(rt: HostRuntime) -> Result<(), Fail> {
    let found = targets(rt.alloc(), "<base href='x/'>\n\n[a](b.md)")?;
    same("a base", found.len(), 0)
}

// Spans of two targets in this page, and whether they are in order there.
const SPANS: [((usize, usize), (usize, usize), bool); 6] = [
    ((0, 1), (1, 4), true),
    ((0, 0), (0, 0), true),
    ((1, 4), (0, 1), false),
    ((0, 2), (2, 4), false),
    ((0, 1), (3, 6), false),
    ((1, 0), (1, 1), false),
];

#[test]
fn knows_targets_in_order(_rt: HostRuntime) -> Result<(), Fail> {
    for ((start, end), (next, last), expected) in &SPANS {
        let syntax = TargetSyntax::Markdown;
        let first = Target {
            syntax,
            start: *start,
            end: *end,
        };
        let second = Target {
            syntax,
            start: *next,
            end: *last,
        };
        let in_order = are_in_order("aébc", &[first, second]);
        same("two spans", in_order, *expected)?;
    }
    Ok(())
}
