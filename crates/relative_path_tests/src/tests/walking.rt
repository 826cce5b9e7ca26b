//! Iterators from either end, and from both in turn. The mask in which they keep where slashes are knows 64 bytes.
use super::same;
use relative_path::{Component, RelativePath};
use std::alloc::{AllocError, Global};
use std::test::Fail;

fn is_name(piece: &&str) -> bool {
    !piece.is_empty()
}

// Whether iterators give the texts between slashes, as the standard library cuts them, from the front or from the back.
fn gives_pieces_from_an_end(text: &str) -> bool {
    let path = RelativePath::new(text);
    path.iter().eq(text.split('/').filter(is_name))
        && path.into_iter().eq(text.split('/').filter(is_name))
        && path.iter().rev().eq(text.rsplit('/').filter(is_name))
}

// Whether they give them from both ends in turn.
fn gives_pieces_in_turn(text: &str) -> bool {
    let mut pieces = text.split('/').filter(is_name);
    let mut texts = RelativePath::new(text).iter();
    let mut walk = RelativePath::new(text).components();
    for _ in 0..=text.len() {
        let ends = (pieces.next(), pieces.next_back());
        let components = (
            walk.next().map(Component::as_str),
            walk.next_back().map(Component::as_str),
        );
        if components != ends || (texts.next(), texts.next_back()) != ends {
            return false;
        }
    }
    walk.as_relative_path().as_str().is_empty()
}

/// Whether iterators give the texts between slashes, from each end and from both in turn.
pub fn gives_pieces(text: &str) -> bool {
    gives_pieces_from_an_end(text) && gives_pieces_in_turn(text)
}

// Between blanks: texts whose components the stored lines of `conformance` have.
const TEXTS: &str =
    " foo / /foo foo/ /foo/ foo/bar /foo/bar ///foo/// ///foo///bar ./. /.. ../ foo/. foo/./ foo/.. \
    foo/../ foo/./bar foo/../bar ./a . ./ a/b a//b a/./b a/b/c .foo /a/./b/";

#[test]
fn gives_the_texts_between_slashes() -> Result<(), Fail> {
    for text in TEXTS.split(' ') {
        let left = RelativePath::new(text).components().as_relative_path();
        same(text, (gives_pieces(text), left.as_str()), (true, text))?;
    }
    Ok(())
}

// Fails where iterators give other texts of these pieces in one text than those between its slashes.
fn cuts(alloc: Global, pieces: &[&str]) -> Result<(), Fail> {
    let text = pieces.join(alloc, "")?;
    same(text.as_str(), gives_pieces(text.as_str()), true)
}

// A text of so many bytes with these slashes at this place, as far as they fit, and the same with a slash at its end.
fn cuts_at(alloc: Global, len: usize, place: usize, slashes: &str) -> Result<(), Fail> {
    let after = len.saturating_sub(place.saturating_add(slashes.len()));
    let first = "a".repeat(alloc, place)?;
    let last = "b".repeat(alloc, after)?;
    cuts(alloc, &[first.as_str(), slashes, last.as_str()])?;
    cuts(alloc, &[first.as_str(), slashes, last.as_str(), "/"])
}

fn cuts_at_each_place(alloc: Global, len: usize) -> Result<(), Fail> {
    for place in 0..len {
        cuts_at(alloc, len, place, "/")?;
        cuts_at(alloc, len, place, "//")?;
        cuts_at(alloc, len, place, "///")?;
    }
    Ok(())
}

#[test]
fn one_slash_or_some(rt: HostRuntime) -> Result<(), Fail> {
    for len in 62..=65 {
        cuts_at_each_place(rt.alloc(), len)?;
    }
    Ok(())
}

// A slash at every second place after a piece: names of one byte, and what the piece makes of the first.
fn cuts_after(alloc: Global, piece: &str, names: &str) -> Result<(), Fail> {
    cuts(alloc, &[piece, names])?;
    cuts(alloc, &[piece, names, "b"])?;
    cuts(alloc, &[piece, names, "bb"])
}

#[test]
fn many_slashes(rt: HostRuntime) -> Result<(), Fail> {
    let names = "a/".repeat(rt.alloc(), 31)?;
    for piece in &["a", "/", "//", "é/"] {
        cuts_after(rt.alloc(), piece, names.as_str())?;
    }
    Ok(())
}

#[test]
fn copies_of_components_go_their_own_way() -> Result<(), Fail> {
    let mut walk = RelativePath::new("a/./b").components();
    let copy = walk.clone()?;
    let found = (walk == copy, walk.next(), walk == copy);
    let expected = (true, Some(Component::Normal("a")), false);
    same("equal, taken, equal", found, expected)
}

#[test]
fn copies_of_texts_go_their_own_way() -> Result<(), Fail> {
    let mut texts = RelativePath::new("a/./b").iter();
    let mut copy = texts.clone()?;
    let found = (texts.next(), copy.next_back(), copy.next());
    same("texts", found, (Some("a"), Some("b"), Some("a")))
}

const COMPONENTS: [(Component<'static>, &str); 4] = [
    (Component::CurDir, "."),
    (Component::ParentDir, ".."),
    (Component::Normal("..."), "..."),
    (Component::Normal("c:"), "c:"),
];

#[test]
fn a_component_is_a_path() -> Result<(), Fail> {
    for (component, text) in &COMPONENTS {
        same(text, component.as_relative_path().as_str(), *text)?;
    }
    Ok(())
}
