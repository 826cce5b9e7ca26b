//! Pages that are read again with their edits, by a finder that finds something else there than `Markdown` does.
//!
//! The expected values are by hand, from this rule. Each page that changes is read again. If the finder doesn't find
//! the same links in the same order, each with the text of its edit, the last new target at or before the first
//! difference is given up, or the first new target if there is none. After three such targets all new ones of the page
//! are given up. A page without a new target isn't read again.
ghost use Rattle.std.specs.Prelude.{IfOk};
ghost use Rattle.relative_path_links.specs.Targets.{HasTargets};

use super::{moves, same};
use relative_path::RelativePath;
use relative_path_links::{
    Change, Edit, Finder, MovedSitePage, SitePage, SiteRoot, Target, Unchanged, are_in_order,
    rewrite_site, targets,
};
use relative_path_moves::TreeMoves;
use relative_path_places::NormalPath;
use std::alloc::{AllocError, Global};
use std::cell::Cell;
use std::test::Fail;
use target_paths::TargetSyntax;

// What a finder finds in a page with the marker `!`, in place of what `Markdown` finds.
#[derive(Clone, Copy)]
enum Otherwise {
    // The same.
    Same,
    // No target after the marker begins.
    BeforeMarker,
    // No target with the marker.
    WithoutMarker,
    // No target with this text.
    Without(&'static str),
    // Only the targets with this text.
    Only(&'static str),
    // Each target as that of an attribute.
    AsAttributes,
    // Each target without its first byte.
    WithoutFirstByte,
    // Each target without its last byte.
    WithoutLastByte,
    // Each target so many bytes before it.
    Before(usize),
    // The first byte of the page as well.
    AndFirstByte,
    // The last byte of the page as well.
    AndLastByte,
}

impl Otherwise {
    // Returns what is found in place of a target of a page that has its marker at this offset.
    fn in_place_of(self, page: &str, marker: usize, target: Target) -> Option<Target> {
        let text = page.get(target.start..target.end).unwrap_or("");
        match self {
            Otherwise::Same => Some(target),
            Otherwise::BeforeMarker => is_found(target.end <= marker, target),
            Otherwise::WithoutMarker => is_found(!text.contains('!'), target),
            Otherwise::Without(hidden) => is_found(text != hidden, target),
            Otherwise::Only(shown) => is_found(text == shown, target),
            Otherwise::AsAttributes => Some(Target {
                syntax: TargetSyntax::Attribute,
                ..target
            }),
            Otherwise::WithoutFirstByte => Some(Target {
                start: target.start.saturating_add(1),
                ..target
            }),
            Otherwise::WithoutLastByte => Some(Target {
                end: target.end.saturating_sub(1),
                ..target
            }),
            Otherwise::Before(size) => Some(Target {
                syntax: target.syntax,
                start: target.start.saturating_sub(size),
                end: target.end.saturating_sub(size),
            }),
            Otherwise::AndFirstByte => Some(target),
            Otherwise::AndLastByte => Some(target),
        }
    }

    // Returns what is found before all targets.
    fn first(self) -> Option<Target> {
        match self {
            Otherwise::AndFirstByte => Some(link_at(0)),
            _ => None,
        }
    }

    // Returns what is found after all targets.
    fn last(self, page: &str) -> Option<Target> {
        match self {
            Otherwise::AndLastByte => Some(link_at(page.len().saturating_sub(1))),
            _ => None,
        }
    }
}

// Returns a target, if it is found.
fn is_found(is_found: bool, target: Target) -> Option<Target> {
    if is_found { Some(target) } else { None }
}

// Returns the target of this byte.
fn link_at(start: usize) -> Target {
    Target {
        syntax: TargetSyntax::Markdown,
        start,
        end: start.saturating_add(1),
    }
}

// Returns what is found in a page that has its marker at this offset.
fn found_otherwise(
    alloc: Global,
    page: &str,
    marker: usize,
    otherwise: Otherwise,
) -> Result<Vec<Target>, AllocError> {
    let mut found = Vec::new(alloc);
    if let Some(first) = otherwise.first() {
        found.push(first)?;
    }
    for target in &targets(alloc, page)? {
        if let Some(target) = otherwise.in_place_of(page, marker, *target) {
            found.push(target)?;
        }
    }
    if let Some(last) = otherwise.last(page) {
        found.push(last)?;
    }
    Ok(found)
}

// Returns these targets, or none if they aren't in order in the page.
fn if_in_order(alloc: Global, page: &str, found: Vec<Target>) -> Vec<Target>
    ensures { HasTargets page.now 0 result.items }
{
    if are_in_order(page, &found) {
        found
    } else {
        Vec::new(alloc)
    }
}

// A finder that counts how often it reads a page.
#[derive(Drop)]
struct Counting {
    otherwise: Otherwise,
    readings: Cell<u32>,
}

impl Counting {
    fn new(otherwise: Otherwise) -> Counting {
        Counting {
            otherwise,
            readings: Cell::new(0),
        }
    }
}

impl Finder for Counting {
    ghost finds = { λ _ page targets. HasTargets page 0 targets };

    fn targets(&self, alloc: Global, page: &str) -> Result<Vec<Target>, AllocError> {
        self.readings.set(self.readings.get().saturating_add(1));
        match page.find('!') {
            Some(marker) => {
                let found = found_otherwise(alloc, page, marker, self.otherwise)?;
                Ok(if_in_order(alloc, page, found))
            }
            None => targets(alloc, page),
        }
    }
}

// The files that move. With a new target for one of the last five the page has the marker.
const MOVES: [(&str, &str); 8] = [
    ("a", "a1"),
    ("b", "b1"),
    ("c", "c1"),
    ("p", "p!"),
    ("q", "q!"),
    ("r", "r!"),
    ("s", "s!"),
    ("t", "t!"),
];

// Words for a case, what the finder finds otherwise, a page, its text after the moves or `as it is`, and then what
// becomes of each target, and how often a page is read.
type Case = (
    &'static str,
    Otherwise,
    &'static str,
    &'static str,
    &'static str,
);

const NONE_GIVEN_UP: [Case; 5] = [
    (
        "all are found again",
        Otherwise::Same,
        "[a](a) [p](p) [k](k)",
        "[a](a1) [p](p!) [k](k)",
        "new new kept 2",
    ),
    (
        "all are found again, in each syntax and with tails",
        Otherwise::Same,
        "<img src='p#t'> [q](<q?q>)\n\n[k]: r\n",
        "<img src='p!#t'> [q](<q!?q>)\n\n[k]: r!\n",
        "new new new 2",
    ),
    (
        "the finder would find something else in a page with the marker, but the page hasn't got it",
        Otherwise::Without("a1"),
        "[a](a) [b](b)",
        "[a](a1) [b](b1)",
        "new new 2",
    ),
    (
        "no target is new, and so the page isn't read again",
        Otherwise::AndLastByte,
        "[k](k) [h](http://h) [u](a%2Fb)",
        "as it is",
        "kept kept unknown 1",
    ),
    (
        "there is no target",
        Otherwise::AndLastByte,
        "[k]",
        "as it is",
        "1",
    ),
];

const ONE_GIVEN_UP: [Case; 6] = [
    (
        "the only one isn't found",
        Otherwise::WithoutMarker,
        "[p](p)",
        "as it is",
        "left 2",
    ),
    (
        "the first isn't found",
        Otherwise::WithoutMarker,
        "[p](p) [b](b) [c](c)",
        "[p](p) [b](b1) [c](c1)",
        "left new new 3",
    ),
    (
        "nothing is found from the second on",
        Otherwise::BeforeMarker,
        "[a](a) [p](p) [c](c)",
        "[a](a1) [p](p) [c](c1)",
        "new left new 3",
    ),
    (
        "the last isn't found",
        Otherwise::WithoutMarker,
        "[a](a) [b](b) [p](p)",
        "[a](a1) [b](b1) [p](p)",
        "new new left 3",
    ),
    (
        "the last new one before a kept one that isn't found",
        Otherwise::Without("k"),
        "[a](a) [p](p) [k](k) [c](c)",
        "[a](a1) [p](p) [k](k) [c](c1)",
        "new left kept new 3",
    ),
    (
        "the first new one after a kept one that isn't found",
        Otherwise::Without("k"),
        "[k](k) [i](i) [p](p) [c](c)",
        "[k](k) [i](i) [p](p) [c](c1)",
        "kept kept left new 3",
    ),
];

const SOME_GIVEN_UP: [Case; 5] = [
    (
        "two before a kept one that isn't found, since the nearer isn't the cause",
        Otherwise::Without("k"),
        "[p](p) [a](a) [k](k) [c](c)",
        "[p](p) [a](a) [k](k) [c](c1)",
        "left left kept new 4",
    ),
    (
        "two after a kept one that isn't found, since the nearer isn't the cause",
        Otherwise::Without("k"),
        "[k](k) [a](a) [p](p) [c](c)",
        "[k](k) [a](a) [p](p) [c](c1)",
        "kept left left new 4",
    ),
    (
        "two, from each of which on nothing is found",
        Otherwise::BeforeMarker,
        "[a](a) [p](p) [q](q) [c](c)",
        "[a](a1) [p](p) [q](q) [c](c1)",
        "new left left new 4",
    ),
    (
        "three",
        Otherwise::WithoutMarker,
        "[p](p) [a](a) [q](q) [r](r) [c](c)",
        "[p](p) [a](a1) [q](q) [r](r) [c](c1)",
        "left new left left new 5",
    ),
    (
        "three, and no other is new",
        Otherwise::WithoutMarker,
        "[p](p) [k](k) [q](q) [r](r)",
        "as it is",
        "left kept left left 4",
    ),
];

const ALL_GIVEN_UP: [Case; 4] = [
    (
        "four aren't found",
        Otherwise::WithoutMarker,
        "[p](p) [q](q) [r](r) [s](s) [c](c) [k](k)",
        "as it is",
        "left left left left left kept 5",
    ),
    (
        "from each of five on nothing is found",
        Otherwise::BeforeMarker,
        "[a](a) [p](p) [q](q) [r](r) [s](s) [t](t)",
        "as it is",
        "left left left left left left 5",
    ),
    (
        "the cause is the fourth before a kept one that isn't found",
        Otherwise::Without("k"),
        "[p](p) [a](a) [b](b) [c](c) [k](k) [a](a)",
        "as it is",
        "left left left left kept left 5",
    ),
    (
        "the cause is the fifth after a kept one that isn't found",
        Otherwise::Without("k"),
        "[k](k) [a](a) [b](b) [c](c) [a](a) [p](p)",
        "as it is",
        "kept left left left left left 5",
    ),
];

const FOUND_OTHERWISE: [Case; 9] = [
    (
        "in another syntax",
        Otherwise::AsAttributes,
        "[p](p) [c](c)",
        "[p](p) [c](c1)",
        "left new 3",
    ),
    (
        "without the first byte",
        Otherwise::WithoutFirstByte,
        "[p](p) [c](c)",
        "[p](p) [c](c1)",
        "left new 3",
    ),
    (
        "without the last byte",
        Otherwise::WithoutLastByte,
        "[p](p) [c](c)",
        "[p](p) [c](c1)",
        "left new 3",
    ),
    (
        "elsewhere, with the same text",
        Otherwise::Before(7),
        "a1 [a](a) [p](p)",
        "as it is",
        "left left 3",
    ),
    (
        "one more after the last",
        Otherwise::AndLastByte,
        "[a](a) [p](p) [k](k) x",
        "[a](a1) [p](p) [k](k) x",
        "new left kept 3",
    ),
    (
        "one more after the last, and the last new one isn't the cause",
        Otherwise::AndLastByte,
        "[p](p) [a](a) x",
        "as it is",
        "left left 3",
    ),
    (
        "one more before the first",
        Otherwise::AndFirstByte,
        "x [p](p) [a](a)",
        "x [p](p) [a](a1)",
        "left new 3",
    ),
    (
        "only the second of three",
        Otherwise::Only("k"),
        "[p](p) [k](k) [a](a)",
        "[p](p) [k](k) [a](a1)",
        "left kept new 3",
    ),
    (
        "none of them",
        Otherwise::Only(""),
        "[k](k) [a](a) [p](p) [c](c)",
        "[k](k) [a](a) [p](p) [c](c1)",
        "kept left left new 4",
    ),
];

// Returns a word for what becomes of a target.
fn word_of(edit: &Edit) -> &'static str {
    match edit.change {
        Change::Kept => "kept",
        Change::New(_) => "new",
        Change::Left(Unchanged::WouldReadOtherwise) => "left",
        Change::Left(Unchanged::Unknown(_)) => "unknown",
        Change::Left(_) => "left otherwise",
    }
}

// Returns what becomes of each target of these pages, and a number.
fn told(alloc: Global, pages: &[MovedSitePage], readings: u32) -> Result<String, AllocError> {
    let mut words = String::new(alloc);
    for page in pages {
        for edit in &page.edits {
            words.push_str(word_of(edit))?;
            words.push(' ')?;
        }
    }
    words.push_str(&format!(in alloc; "{readings}")?)?;
    Ok(words)
}

// Fails where a page has another text after the moves than is expected.
fn has_text(case: &str, page: &MovedSitePage, expected: &str) -> Result<(), Fail> {
    same(case, page.text.as_deref().unwrap_or("as it is"), expected)
}

// Fails where one of these pages has another text, or something else becomes of their targets, or the finder read them
// another number of times.
fn are_told(
    alloc: Global,
    case: &str,
    (pages, readings): (&[MovedSitePage], u32),
    (text, words): (&str, &str),
) -> Result<(), Fail> {
    for page in pages {
        has_text(case, page, text)?;
    }
    let found = told(alloc, pages, readings)?;
    same(case, found.as_str(), words)
}

// Fails where something else becomes of these pages, all with the text of a case, than the case says.
fn become_in(
    alloc: Global,
    moves: &TreeMoves<'_>,
    count: usize,
    (case, otherwise, text, expected, words): Case,
) -> Result<(), Fail> {
    let finder = Counting::new(otherwise);
    let path = NormalPath::of(alloc, RelativePath::new("index.md"))?;
    let page = SitePage { path: &path, text };
    let pages = rewrite_site(
        alloc,
        &vec![in alloc; page; count]?,
        &SiteRoot::unknown(),
        moves,
        moves,
        &finder,
    )?;
    same(case, pages.len(), count)?;
    are_told(
        alloc,
        case,
        (&pages, finder.readings.get()),
        (expected, words),
    )
}

// The same of each of these cases, after the moves.
fn all_become(alloc: Global, count: usize, cases: &[Case]) -> Result<(), Fail> {
    let moves = moves(alloc, &MOVES)?;
    let moves = TreeMoves::new(alloc, &moves)?;
    for case in cases {
        become_in(alloc, &moves, count, *case)?;
    }
    Ok(())
}

#[test]
fn a_page_that_reads_as_its_edits_say_changes(rt: HostRuntime) -> Result<(), Fail> {
    all_become(rt.alloc(), 1, &NONE_GIVEN_UP)
}

#[test]
fn a_new_target_is_given_up(rt: HostRuntime) -> Result<(), Fail> {
    all_become(rt.alloc(), 1, &ONE_GIVEN_UP)
}

#[test]
fn new_targets_are_given_up_one_after_the_other(rt: HostRuntime) -> Result<(), Fail> {
    all_become(rt.alloc(), 1, &SOME_GIVEN_UP)
}

#[test]
fn all_new_targets_are_given_up_after_three(rt: HostRuntime) -> Result<(), Fail> {
    all_become(rt.alloc(), 1, &ALL_GIVEN_UP)
}

#[test]
fn a_target_is_found_where_it_is_and_nothing_else(rt: HostRuntime) -> Result<(), Fail> {
    all_become(rt.alloc(), 1, &FOUND_OTHERWISE)
}

// The same pages twice.
const TWO_PAGES: [Case; 2] = [
    (
        "three of each page are given up",
        Otherwise::WithoutMarker,
        "[p](p) [q](q) [r](r) [c](c)",
        "[p](p) [q](q) [r](r) [c](c1)",
        "left left left new left left left new 10",
    ),
    (
        "neither page is read again",
        Otherwise::WithoutMarker,
        "[k](k)",
        "as it is",
        "kept kept 2",
    ),
];

#[test]
fn new_targets_are_given_up_page_by_page(rt: HostRuntime) -> Result<(), Fail> {
    all_become(rt.alloc(), 2, &TWO_PAGES)
}
