//! Pages that are awkward to read, far down in directories, and many moves.
use crate::digest::Digest;
use crate::draw::Draw;
use crate::links::plan;
use crate::site::{Place, push_climb, tree_of};
use std::alloc::{AllocError, Global};
use std::io;

// The pages of a site.
const PAGES: usize = 100;

// How many pieces a page has.
const PIECES: usize = 400;

// Pieces of text in which a reader of Markdown looks far for an end.
const PIECES_OF_TEXT: [&str; 20] = [
    "[",
    "![",
    "]",
    "[[a](",
    "`",
    "``",
    "``` ",
    "<a href='",
    "<!-- ",
    "<b ",
    "\\[",
    "&#38;",
    "> ",
    "\n\n",
    "\n    ",
    "\n1. ",
    "\n> > - ",
    "*_*",
    "<https://example.org/",
    "\n<div>\n",
];

// Spellings of a slash and a letter in targets.
const SPELLINGS: [&str; 6] = ["%61", "&#97;", "a\\_", "a%20", "é", "%c3%a9"];

// Moves files of sites that have so many pages together.
pub(crate) fn move_files(
    rt: &HostRuntime,
    draw: &mut Draw,
    pages: usize,
    digest: &mut Digest,
) -> io::Result<()> {
    for first in (0..pages).step_by(PAGES) {
        let places = deep_places(rt.alloc(), PAGES.min(pages.saturating_sub(first)))?;
        let mut texts = Vec::new(rt.alloc());
        for place in &places {
            texts.push(text_of(rt.alloc(), draw, &places, place)?)?;
        }
        let tree = tree_of(rt.alloc(), &places, texts)?;
        let moves = moves_of(rt.alloc(), &places)?;
        plan(rt, &tree, &moves, digest)?;
    }
    Ok(())
}

// Places in a chain of directories, three in each.
fn deep_places(alloc: Global, count: usize) -> Result<Vec<Place>, AllocError> {
    let mut places = Vec::with_capacity(alloc, count)?;
    for number in 0..count {
        let depth = number / 3;
        let mut directory = String::new(alloc);
        for level in 0..depth {
            directory.push_str(if level % 2 == 0 { "d/" } else { "directory/" })?;
        }
        let name = format!(in alloc; "page {number}.md")?;
        places.push(Place {
            directory,
            depth,
            name,
        })?;
    }
    Ok(places)
}

// Moves: each page gets the name of the next one.
fn moves_of(alloc: Global, places: &[Place]) -> Result<Vec<(String, String)>, AllocError> {
    let mut moves = Vec::with_capacity(alloc, places.len())?;
    for (number, place) in places.iter().enumerate() {
        let next = places.get(number.saturating_add(1)).or(places.first());
        if let Some(next) = next {
            moves.push((place.path(alloc)?, next.path(alloc)?))?;
        }
    }
    Ok(moves)
}

// The text of a page.
fn text_of(
    alloc: Global,
    draw: &mut Draw,
    places: &[Place],
    place: &Place,
) -> Result<String, AllocError> {
    let mut text = String::with_capacity(alloc, 16384)?;
    for _ in 0..PIECES {
        let piece = draw.word(&PIECES_OF_TEXT);
        text.push_str(piece)?;
        if draw.once_in(4) {
            let number = draw.below(places.len());
            if let Some(to) = places.get(number) {
                push_link(&mut text, draw, place, to)?;
            }
        } else {
            text.push_str(" and more text ")?;
        }
    }
    Ok(text)
}

// Adds a link to a page.
fn push_link(
    text: &mut String,
    draw: &mut Draw,
    from: &Place,
    to: &Place,
) -> Result<(), AllocError> {
    text.push_str("[b](<")?;
    push_climb(text, from.depth)?;
    text.push_str(to.directory.as_str())?;
    if draw.once_in(3) {
        text.push_str(draw.word(&SPELLINGS))?;
    }
    text.push_str(to.name.as_str())?;
    text.push_str("?q=`#top> \"t\") ")
}
