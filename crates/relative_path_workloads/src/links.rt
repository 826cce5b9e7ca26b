//! The links of a site: those that lead to nothing, and all of them after files moved.
use crate::digest::Digest;
use crate::draw::Draw;
use crate::prose::sentences;
use crate::refused;
use crate::site::{Place, places, push_image_target, push_page_target, tree_of};
use relative_path_links::{Change, Edit, SiteRoot, Target};
use relmove_lib::report::print_dead_link;
use relmove_lib::{
    Moving, NameRule, Page, Position, Tree, dead_links_of, moving_of, position_after,
};
use relmove_run::Machine;
use std::alloc::{AllocError, Global};
use std::io;

// The pages of a site.
const PAGES: usize = 1000;

// One page in so many moves.
const MOVED: usize = 20;

// Finds the dead links of sites that have so many pages together.
pub(crate) fn check(
    rt: &HostRuntime,
    draw: &mut Draw,
    pages: usize,
    digest: &mut Digest,
) -> io::Result<()> {
    let sentences = sentences(rt.alloc(), draw)?;
    for first in (0..pages).step_by(PAGES) {
        let places = places(rt.alloc(), draw, PAGES.min(pages.saturating_sub(first)))?;
        let texts = texts_of(rt.alloc(), draw, &places, &sentences)?;
        let tree = tree_of(rt.alloc(), &places, texts)?;
        let Ok(dead) = dead_links_of(&mut rt.store_at("site")?, &tree) else {
            return Err(refused());
        };
        for link in &dead {
            print_dead_link(digest, "site", link)?;
        }
    }
    Ok(())
}

// Moves files and directories of sites that have so many pages together.
pub(crate) fn move_files(
    rt: &HostRuntime,
    draw: &mut Draw,
    pages: usize,
    digest: &mut Digest,
) -> io::Result<()> {
    let sentences = sentences(rt.alloc(), draw)?;
    for first in (0..pages).step_by(PAGES) {
        let places = places(rt.alloc(), draw, PAGES.min(pages.saturating_sub(first)))?;
        let texts = texts_of(rt.alloc(), draw, &places, &sentences)?;
        let tree = tree_of(rt.alloc(), &places, texts)?;
        let moves = moves_of(rt.alloc(), draw, &places)?;
        plan(rt, &tree, &moves, digest)?;
    }
    Ok(())
}

// Plans moves, and adds what the plan is.
pub(crate) fn plan<'t>(
    rt: &HostRuntime,
    tree: &'t Tree,
    moves: &'t [(String, String)],
    digest: &mut Digest,
) -> io::Result<()> {
    let mut pairs = Vec::with_capacity(rt.alloc(), moves.len())?;
    for (old, new) in moves {
        pairs.push((old.as_str(), new.as_str()))?;
    }
    let root = SiteRoot::unknown();
    let mut store = rt.store_at("site")?;
    let Ok(moving) = moving_of(&mut store, tree, &root, None, &pairs, NameRule::Plain) else {
        return Err(refused());
    };
    add_moving(tree, &moving, digest);
    for (page, new) in tree.pages.iter().zip(&moving.plan.pages) {
        add_changed_links(page, &new.edits, digest);
    }
    Ok(())
}

// Adds the links of a page that change.
fn add_changed_links(page: &Page, edits: &[Edit], digest: &mut Digest) {
    let mut position = position_after("");
    let mut offset = 0;
    for edit in edits {
        if let Change::New(new) = &edit.change {
            let Target { start, end, .. } = edit.target;
            position = place_after(position, page.text.get(offset..start).unwrap_or(""));
            offset = start;
            digest.add(page.path.as_str());
            digest.add_number(position.line);
            digest.add_number(position.column);
            digest.add(page.text.get(start..end).unwrap_or(""));
            digest.add(new.as_str());
        }
    }
}

// Returns the place after a text that begins at a place.
fn place_after(here: Position, text: &str) -> Position {
    let Position { line, column } = position_after(text);
    if line == 1 {
        Position {
            line: here.line,
            column: here.column.saturating_add(column).saturating_sub(1),
        }
    } else {
        Position {
            line: here.line.saturating_add(line).saturating_sub(1),
            column,
        }
    }
}

// Adds what a plan is.
fn add_moving(tree: &Tree, moving: &Moving<'_, '_>, digest: &mut Digest) {
    let news = &moving.plan.pages;
    for (page, new) in tree.pages.iter().zip(news) {
        let text = new.text.as_ref().unwrap_or(&page.text);
        digest.add(new.path.as_relative_path().as_str());
        digest.add_number(text.len());
    }
    for (number, new) in news.iter().enumerate() {
        if new.text.is_some() {
            digest.add_number(number);
            digest.add_number(new.edits.iter().filter(|edit| edit.is_new()).count());
        }
    }
    for link in &moving.left {
        digest.add(link.page);
        digest.add_number(link.position.line);
        digest.add_number(link.position.column);
        digest.add(link.target);
    }
    let actions = &moving.plan.actions;
    for text in &actions.texts {
        digest.add(text.page.as_str());
        digest.add(text.file.as_str());
        digest.add(text.text.as_str());
    }
    for rename in actions.staged.iter().chain(&actions.placed) {
        digest.add(rename.from.as_str());
        digest.add(rename.to.as_str());
    }
    for path in actions
        .made
        .iter()
        .chain(&actions.removed)
        .chain(&actions.emptied)
    {
        digest.add(path.as_str());
    }
}

// Moves: some pages get another name or another directory, and two directories get another name.
fn moves_of(
    alloc: Global,
    draw: &mut Draw,
    places: &[Place],
) -> Result<Vec<(String, String)>, AllocError> {
    let mut moves = Vec::new(alloc);
    for place in places {
        if draw.once_in(MOVED) {
            let (directory, name) = (place.directory.as_str(), place.name.as_str());
            let new = if draw.once_in(2) {
                format!(in alloc; "{directory}new-{name}")?
            } else {
                format!(in alloc; "archive/{directory}{name}")?
            };
            moves.push((place.path(alloc)?, new))?;
        }
    }
    for directory in &["guide", "reference"] {
        if places
            .iter()
            .any(|place| place.directory.as_str().starts_with(directory))
        {
            let old = String::from_str(alloc, directory)?;
            let new = format!(in alloc; "manual/{directory}")?;
            moves.push((old, new))?;
        }
    }
    Ok(moves)
}

// The texts of pages.
fn texts_of(
    alloc: Global,
    draw: &mut Draw,
    places: &[Place],
    sentences: &[String],
) -> Result<Vec<String>, AllocError> {
    let mut texts = Vec::with_capacity(alloc, places.len())?;
    for place in places {
        let mut text = String::with_capacity(alloc, 16384)?;
        let mut writer = Writer {
            draw,
            places,
            sentences,
            place,
            text: &mut text,
        };
        writer.push_page()?;
        texts.push(text)?;
    }
    Ok(texts)
}

// Writes a page.
#[derive(Drop)]
struct Writer<'a> {
    draw: &'a mut Draw,
    places: &'a [Place],
    sentences: &'a [String],
    place: &'a Place,
    text: &'a mut String,
}

impl Writer<'_> {
    // Adds a page of 10 to 49 blocks.
    fn push_page(&mut self) -> Result<(), AllocError> {
        self.text.push_str("# ")?;
        self.text.push_str(self.place.name.as_str())?;
        self.text.push_str("\n")?;
        for _ in 0..self.draw.from(10, 40) {
            self.text.push_str("\n")?;
            self.push_block()?;
        }
        Ok(())
    }

    // Adds a block.
    fn push_block(&mut self) -> Result<(), AllocError> {
        match self.draw.below(16) {
            0 | 1 => self.push_heading(),
            2 | 3 => self.push_list(),
            4 | 5 => self.push_code(),
            6 => self.push_image(),
            7 => self.push_html(),
            8 => self.push_quotation(),
            9 => self.push_definition(),
            10 => self.push_table(),
            _ => self.push_paragraph(),
        }
    }

    // Adds a sentence.
    fn push_sentence(&mut self) -> Result<(), AllocError> {
        self.text.push_str(self.draw.text(self.sentences))
    }

    // Adds a link to a page.
    fn push_link(&mut self) -> Result<(), AllocError> {
        if self.draw.once_in(5) {
            return self
                .text
                .push_str("[the project](https://example.org/project/issues?page=2)");
        }
        self.text.push_str("[`")?;
        let number = self.draw.below(self.places.len());
        if let Some(to) = self.places.get(number) {
            self.text.push_str(to.name.as_str())?;
            self.text.push_str("`](")?;
            push_page_target(self.text, self.draw, self.place, to)?;
        }
        self.text.push_str(")")
    }

    fn push_heading(&mut self) -> Result<(), AllocError> {
        self.text.push_str("## Class: `")?;
        self.text.push_str(self.place.name.as_str())?;
        self.text.push_str("`\n")
    }

    fn push_paragraph(&mut self) -> Result<(), AllocError> {
        for _ in 0..self.draw.from(1, 3) {
            self.push_sentence()?;
            self.text.push_str("\nSee ")?;
            self.push_link()?;
            self.text.push_str(". ")?;
            self.push_sentence()?;
            self.text.push_str("\n")?;
        }
        Ok(())
    }

    fn push_list(&mut self) -> Result<(), AllocError> {
        for _ in 0..self.draw.from(2, 5) {
            self.text.push_str("* ")?;
            self.push_link()?;
            self.text.push_str(": added in v12.3.0\n")?;
        }
        Ok(())
    }

    fn push_code(&mut self) -> Result<(), AllocError> {
        self.text
            .push_str("```js\nconst fs = require('node:fs');\n")?;
        for _ in 0..self.draw.from(2, 4) {
            self.text.push_str("// ")?;
            self.push_sentence()?;
            self.text.push_str(
                "\nfs.read(fd, [buffer](options), (err) => { if (err) throw err; });\n",
            )?;
        }
        self.text.push_str("```\n")
    }

    fn push_image(&mut self) -> Result<(), AllocError> {
        self.text.push_str("![A diagram](")?;
        push_image_target(self.text, self.draw, self.place)?;
        self.text.push_str(" \"How it works\")\n")
    }

    fn push_html(&mut self) -> Result<(), AllocError> {
        self.text.push_str("<p align=\"center\"><img width=\"400\" alt=\"A chart\" src=\"")?;
        push_image_target(self.text, self.draw, self.place)?;
        self.text
            .push_str("\"></p>\n\n<!-- YAML\nadded: v0.1.90\n-->\n")
    }

    fn push_quotation(&mut self) -> Result<(), AllocError> {
        self.text.push_str("> Stability: 2 - Stable. ")?;
        self.push_link()?;
        self.text.push_str("\n")
    }

    fn push_definition(&mut self) -> Result<(), AllocError> {
        self.text.push_str("[The definition][")?;
        self.text.push_str(self.place.name.as_str())?;
        self.text.push_str("] is below.\n\n[")?;
        self.text.push_str(self.place.name.as_str())?;
        self.text.push_str("]: ")?;
        push_image_target(self.text, self.draw, self.place)?;
        self.text.push_str("\n")
    }

    fn push_table(&mut self) -> Result<(), AllocError> {
        self.text.push_str("| Option | Page |\n| --- | --- |\n")?;
        for _ in 0..self.draw.from(3, 4) {
            self.text.push_str("| `--option` | ")?;
            self.push_link()?;
            self.text.push_str(" |\n")?;
        }
        Ok(())
    }
}
