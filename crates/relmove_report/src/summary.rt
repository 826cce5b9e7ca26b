//! What a call that moves files prints.
use relative_path::RelativePath;
use relative_path_links::{Change, Unchanged};
use relative_path_moves::Move;
use relmove_findings::{LeftLink, Loss, LostSymlink, PlannedMoves, WhyLeft, WhyRefused};
use relmove_folder::{
    Checked, MOST_PLACES, MentionPlace, MentionPlaces, Page, PlannedPage, Position, Positions,
    Tree, is_directory, shown_path,
};
use relmove_plan::{Refusal, SymlinkNotice};
use relmove_run::{Printable, Store};
use serde_json::json;
use std::alloc::{AllocError, Global};
use std::fmt;
use std::io::{self, Write};
use target_paths::WhyUnknown;

// A path below a root, with the root's path before it.
#[derive(Clone, Copy)]
struct Below<'a> {
    root: &'a str,
    path: &'a str,
}

impl fmt::Display for Below<'_> {
    fn fmt<W: fmt::Write>(&self, f: &mut fmt::Formatter<W>) -> fmt::Result {
        let (root, path) = (Printable(self.root), Printable(self.path));
        if self.root.is_empty() || self.root.ends_with('/') {
            write!(f, "{root}{path}")
        } else {
            write!(f, "{root}/{path}")
        }
    }
}

// A number of things: the number, and the word for one thing. More are written with an s.
#[derive(Clone, Copy)]
struct Counted {
    number: usize,
    word: &'static str,
}

impl fmt::Display for Counted {
    fn fmt<W: fmt::Write>(&self, f: &mut fmt::Formatter<W>) -> fmt::Result {
        let (number, word) = (self.number, self.word);
        if number == 1 {
            write!(f, "{number} {word}")
        } else {
            write!(f, "{number} {word}s")
        }
    }
}

/// How a plan is printed.
#[derive(Clone, Copy, Debug, PartialEq, Eq)]
pub struct Style {
    /// Whether each target that changes has a line.
    pub verbose: bool,
    /// Whether the moves were made before the call. What moved is then named by its path after the moves.
    pub made: bool,
}

/// How many pages change, and how many files and directories move.
#[derive(Clone, Copy, Debug, PartialEq, Eq)]
pub struct Counts {
    /// Whether files and directories moved before the call.
    pub made: bool,
    /// Pages that change.
    pub pages: usize,
    /// Files that move, and symbolic links.
    pub files: usize,
    /// Directories that move.
    pub directories: usize,
}

/// Counts what moves do. Allocates the normal form of each OLD.
pub fn counts_of(
    alloc: Global,
    tree: &Tree,
    moves: &[(&str, &str)],
    planned: &PlannedMoves<'_, '_>,
    made: bool,
) -> Result<Counts, AllocError> {
    let mut directories = 0usize;
    for (old, _) in moves {
        if is_directory(alloc, tree, old)? {
            directories = directories.saturating_add(1);
        }
    }
    Ok(Counts {
        made,
        pages: changed_page_count(&planned.pages),
        files: moves.len().saturating_sub(directories),
        directories,
    })
}

// Returns how many pages change.
fn changed_page_count(pages: &[PlannedPage]) -> usize {
    pages.iter().filter(|page| page.is_changed).count()
}

/// Prints what moves do: the pages that change, the links that no longer lead to their file or may not, and symbolic links.
pub fn print_moving<W: Write, S: Store>(
    out: &mut W,
    store: &S,
    tree: &Tree,
    planned: &PlannedMoves<'_, '_>,
    style: Style,
) -> io::Result<()> {
    let (alloc, root) = (store.alloc(), store.root());
    for (page, new) in tree.pages.iter().zip(&planned.pages) {
        if new.is_changed {
            print_changed_page(out, root, page.path.as_str(), new)?;
        }
        if style.verbose {
            print_changed_links(out, root, page, new, style)?;
        }
    }
    for link in &planned.left {
        let page = printed_path(alloc, planned, style, link.page)?;
        print_left_link(out, root, page.as_str(), link)?;
    }
    for notice in &planned.symlinks {
        let path = notice.path.as_relative_path().as_str();
        let path = printed_path(alloc, planned, style, path)?;
        print_notice(out, root, path.as_str(), notice)?;
    }
    for symlink in &planned.lost {
        let path = printed_path(alloc, planned, style, symlink.path)?;
        print_lost_symlink(out, root, path.as_str(), symlink)?;
    }
    Ok(())
}

// The path by which something is named: the one before the moves, unless they were made before the call.
fn printed_path(
    alloc: Global,
    planned: &PlannedMoves<'_, '_>,
    style: Style,
    path: &str,
) -> Result<String, AllocError> {
    shown_path(alloc, &planned.moves, style.made, path)
}

// The path by which a page is named.
fn page_path<'a>(page: &'a Page, new: &'a PlannedPage, style: Style) -> &'a str {
    if style.made {
        new.path.as_relative_path().as_str()
    } else {
        page.path.as_str()
    }
}

// Prints the links of a page that change: where the target begins, the target and the new one.
fn print_changed_links<'a, W: Write>(
    out: &mut W,
    root: &'a str,
    page: &'a Page,
    new: &'a PlannedPage,
    style: Style,
) -> io::Result<()> {
    let mut positions = Positions::new(page.text.as_str());
    let path = page_path(page, new, style);
    for edit in &new.edits {
        if let Change::New(text) = &edit.change
            && let Some(place) = positions.of(edit.target)
        {
            print_changed_link(out, Below { root, path }, place, text.as_str())?;
        }
    }
    Ok(())
}

// Prints a link that changes.
fn print_changed_link<W: Write>(
    out: &mut W,
    page: Below<'_>,
    (position, target): (Position, &str),
    new: &str,
) -> io::Result<()> {
    let Position { line, column } = position;
    let (target, new) = (Printable(target), Printable(new));
    writeln!(out, "{page}:{line}:{column}: {target} becomes {new}")
}

// Prints a page that changes: its path, its path before the moves if that is another, and how many links change.
fn print_changed_page<W: Write>(
    out: &mut W,
    root: &str,
    old: &str,
    new: &PlannedPage,
) -> io::Result<()> {
    let links = Counted {
        number: new.edits.iter().filter(|edit| edit.is_new()).count(),
        word: "link",
    };
    let path = new.path.as_relative_path().as_str();
    let page = Below { root, path };
    if path == old {
        return writeln!(out, "{page}: {links}");
    }
    let before = Below { root, path: old };
    writeln!(out, "{page}, from {before}: {links}")
}

// Prints a link that no longer leads to its file, or may not.
fn print_left_link<W: Write>(
    out: &mut W,
    root: &str,
    path: &str,
    link: &LeftLink<'_>,
) -> io::Result<()> {
    let page = Below { root, path };
    let Position { line, column } = link.position;
    let (root, target) = (Printable(root), Printable(link.target));
    let why = why_left(link.why);
    match link.why {
        WhyLeft::Unchanged(Unchanged::AboveRoot) => writeln!(
            out,
            "{page}:{line}:{column}: {target} leads above {root}, left as it is"
        ),
        WhyLeft::Unchanged(_) => {
            writeln!(out, "{page}:{line}:{column}: {target} {why}, left as it is")
        }
        WhyLeft::Lost(_) | WhyLeft::OtherSpelling | WhyLeft::Emptied => {
            writeln!(out, "{page}:{line}:{column}: {target} {why}")
        }
    }
}

// Why a link no longer leads to its file, or may not, in words that follow its target.
fn why_left(why: WhyLeft) -> &'static str {
    match why {
        WhyLeft::Unchanged(why) => why_unchanged(why),
        WhyLeft::Lost(Loss::Nowhere) => {
            "leads through a symbolic link, and to nothing after the moves"
        }
        WhyLeft::Lost(Loss::Elsewhere) => {
            "leads through a symbolic link, and to something else after the moves"
        }
        WhyLeft::Emptied => "leads to a directory that the moves leave empty",
        WhyLeft::OtherSpelling => {
            "leads to a name in another case or form, and may lead to nothing after the moves"
        }
    }
}

// Why a link stays, in words that follow its target.
fn why_unchanged(why: Unchanged) -> &'static str {
    match why {
        Unchanged::AboveRoot => "leads above the root",
        Unchanged::NoPath => "leads to a file to which no path leads from the page",
        Unchanged::OutsideSiteRoot => "leads to a file that is outside of the site's root",
        Unchanged::Nul => "leads to a path with a NUL",
        Unchanged::Unknown(why) => why_unknown(why),
        Unchanged::WouldReadOtherwise => {
            "can't get its new target, with which the page would be read otherwise"
        }
    }
}

// Why the meaning of a target isn't known, in words that follow it.
fn why_unknown(why: WhyUnknown) -> &'static str {
    match why {
        WhyUnknown::CharacterReference => "has a character reference that isn't known",
        WhyUnknown::EncodedSlash => "has %2F, a slash that separates no directories",
        WhyUnknown::EncodedNul => "has %00, a byte that no path has",
        WhyUnknown::NotUtf8 => "isn't UTF-8 when it is decoded",
    }
}

// Prints a symbolic link that moves, or that leads to what moves.
fn print_notice<W: Write>(
    out: &mut W,
    root: &str,
    path: &str,
    notice: &SymlinkNotice,
) -> io::Result<()> {
    let link = Below { root, path };
    let why = why_noticed(notice);
    writeln!(out, "{link}: this symbolic link {why}, left as it is")
}

// Why a symbolic link is printed.
fn why_noticed(notice: &SymlinkNotice) -> &'static str {
    match (notice.moves, notice.leads_to_moved) {
        (true, true) => "moves and leads to what moves",
        (true, false) => "moves",
        (false, _) => "leads to what moves",
    }
}

// Prints a symbolic link that no longer leads to what it led to.
fn print_lost_symlink<W: Write>(
    out: &mut W,
    root: &str,
    path: &str,
    symlink: &LostSymlink<'_>,
) -> io::Result<()> {
    let path = Below { root, path };
    let why = why_lost(symlink.loss);
    writeln!(out, "{path}: this symbolic link {why}, left as it is")
}

// Why a symbolic link that no longer leads to what it led to is printed.
fn why_lost(loss: Loss) -> &'static str {
    match loss {
        Loss::Nowhere => "leads to nothing after the moves",
        Loss::Elsewhere => "leads to something else after the moves",
    }
}

/// Prints what moves do, an object of JSON on each line: the links that change, the links that no longer lead to their file
/// or may not, and symbolic links.
pub fn print_moving_as_json<W: Write>(
    alloc: Global,
    out: &mut W,
    tree: &Tree,
    planned: &PlannedMoves<'_, '_>,
    style: Style,
) -> io::Result<()> {
    for (page, new) in tree.pages.iter().zip(&planned.pages) {
        print_changed_links_as_json(alloc, out, page, new, style)?;
    }
    for link in &planned.left {
        let page = printed_path(alloc, planned, style, link.page)?;
        print_left_link_as_json(alloc, out, page.as_str(), link)?;
    }
    for notice in &planned.symlinks {
        let path = notice.path.as_relative_path().as_str();
        let path = printed_path(alloc, planned, style, path)?;
        print_symlink_as_json(alloc, out, path.as_str(), why_noticed(notice))?;
    }
    for symlink in &planned.lost {
        let path = printed_path(alloc, planned, style, symlink.path)?;
        print_symlink_as_json(alloc, out, path.as_str(), why_lost(symlink.loss))?;
    }
    Ok(())
}

// Prints the links of a page that change.
fn print_changed_links_as_json<W: Write>(
    alloc: Global,
    out: &mut W,
    page: &Page,
    new: &PlannedPage,
    style: Style,
) -> io::Result<()> {
    let mut positions = Positions::new(page.text.as_str());
    let path = page_path(page, new, style);
    for edit in &new.edits {
        if let Change::New(text) = &edit.change
            && let Some(place) = positions.of(edit.target)
        {
            print_changed_link_as_json(alloc, out, path, place, text.as_str())?;
        }
    }
    Ok(())
}

// Prints a link that changes: its page, where its target begins, its target and the new one.
fn print_changed_link_as_json<W: Write>(
    alloc: Global,
    out: &mut W,
    page: &str,
    (position, target): (Position, &str),
    new: &str,
) -> io::Result<()> {
    let Position { line, column } = position;
    let (line, column) = (line as u64, column as u64);
    let object = json!(in alloc; {
        "page": page,
        "line": line,
        "column": column,
        "target": target,
        "new": new
    })?;
    let text = object.to_string(alloc)?;
    writeln!(out, "{text}")
}

// Prints a link that no longer leads to its file, or may not.
fn print_left_link_as_json<W: Write>(
    alloc: Global,
    out: &mut W,
    page: &str,
    link: &LeftLink<'_>,
) -> io::Result<()> {
    let (target, why) = (link.target, why_left(link.why));
    let Position { line, column } = link.position;
    let (line, column) = (line as u64, column as u64);
    let object = json!(in alloc; {
        "page": page,
        "line": line,
        "column": column,
        "target": target,
        "why": why
    })?;
    let text = object.to_string(alloc)?;
    writeln!(out, "{text}")
}

// Prints a symbolic link, and why.
fn print_symlink_as_json<W: Write>(
    alloc: Global,
    out: &mut W,
    link: &str,
    why: &str,
) -> io::Result<()> {
    let object = json!(in alloc; { "link": link, "why": why })?;
    let text = object.to_string(alloc)?;
    writeln!(out, "{text}")
}

/// Prints where old paths are written: a line for each place, and for each move that has more places how many more.
pub fn print_mentions<W: Write>(
    out: &mut W,
    root: &str,
    moves: &[Move<'_>],
    mentions: &MentionPlaces,
) -> io::Result<()> {
    for place in &mentions.places {
        print_mention(out, root, place)?;
    }
    for (a, count) in moves.iter().zip(&mentions.counts) {
        print_more(out, a, count.saturating_sub(MOST_PLACES))?;
    }
    Ok(())
}

// Prints a place where an old path is written.
fn print_mention<W: Write>(out: &mut W, root: &str, place: &MentionPlace) -> io::Result<()> {
    let (path, line) = (place.file.as_str(), place.line);
    let (file, old) = (Below { root, path }, Printable(place.old.as_str()));
    writeln!(
        out,
        "{file}:{line}: {old} is written here, and isn't a link that is read"
    )
}

// Prints in how many more places the old paths of a move are written, if there are any.
fn print_more<W: Write>(out: &mut W, a: &Move<'_>, number: usize) -> io::Result<()> {
    if number == 0 {
        return Ok(());
    }
    let old = Printable(a.old.normal().as_relative_path().as_str());
    let places = Counted {
        number,
        word: "more place",
    };
    writeln!(out, "{old}: written in {places}")
}

/// Prints where old paths are written, an object of JSON on each line.
pub fn print_mentions_as_json<W: Write>(
    alloc: Global,
    out: &mut W,
    moves: &[Move<'_>],
    mentions: &MentionPlaces,
) -> io::Result<()> {
    for place in &mentions.places {
        print_mention_as_json(alloc, out, place)?;
    }
    for (a, count) in moves.iter().zip(&mentions.counts) {
        print_more_as_json(alloc, out, a, count.saturating_sub(MOST_PLACES))?;
    }
    Ok(())
}

// Prints a place where an old path is written.
fn print_mention_as_json<W: Write>(
    alloc: Global,
    out: &mut W,
    place: &MentionPlace,
) -> io::Result<()> {
    let (file, old) = (place.file.as_str(), place.old.as_str());
    let line = place.line as u64;
    let object = json!(in alloc; { "file": file, "line": line, "old": old })?;
    let text = object.to_string(alloc)?;
    writeln!(out, "{text}")
}

// Prints in how many more places the old paths of a move are written, if there are any.
fn print_more_as_json<W: Write>(
    alloc: Global,
    out: &mut W,
    a: &Move<'_>,
    number: usize,
) -> io::Result<()> {
    if number == 0 {
        return Ok(());
    }
    let old = a.old.normal().as_relative_path().as_str();
    let more = number as u64;
    let object = json!(in alloc; { "old": old, "more": more })?;
    let text = object.to_string(alloc)?;
    writeln!(out, "{text}")
}

/// Prints how many pages and files a run with `--write` would change.
pub fn print_would<W: Write>(out: &mut W, counts: Counts) -> io::Result<()> {
    let pages = Counted {
        number: counts.pages,
        word: "page",
    };
    if counts.made {
        return writeln!(
            out,
            "{pages} would change. Nothing is written: add --write."
        );
    }
    write!(out, "{pages} would change, ")?;
    print_moved(out, counts)?;
    writeln!(out, " would move. Nothing is written: add --write.")
}

/// Prints how many pages and files a run changed.
pub fn print_did<W: Write>(out: &mut W, counts: Counts) -> io::Result<()> {
    let pages = Counted {
        number: counts.pages,
        word: "page",
    };
    if counts.made {
        return writeln!(out, "{pages} changed.");
    }
    write!(out, "{pages} changed, ")?;
    print_moved(out, counts)?;
    writeln!(out, " moved.")
}

// Prints how many files and directories move.
fn print_moved<W: Write>(out: &mut W, counts: Counts) -> io::Result<()> {
    let files = Counted {
        number: counts.files,
        word: "file",
    };
    let directories = DirectoryCount(counts.directories);
    match (counts.files, counts.directories) {
        (_, 0) => write!(out, "{files}"),
        (0, _) => write!(out, "{directories}"),
        _ => write!(out, "{files} and {directories}"),
    }
}

// A number of directories.
#[derive(Clone, Copy)]
struct DirectoryCount(usize);

impl fmt::Display for DirectoryCount {
    fn fmt<W: fmt::Write>(&self, f: &mut fmt::Formatter<W>) -> fmt::Result {
        let number = self.0;
        if number == 1 {
            write!(f, "{number} directory")
        } else {
            write!(f, "{number} directories")
        }
    }
}

/// Prints how many pages and links a check read.
pub fn print_checked<W: Write>(out: &mut W, checked: &Checked) -> io::Result<()> {
    let pages = Counted {
        number: checked.pages,
        word: "page",
    };
    let links = Counted {
        number: checked.links,
        word: "link",
    };
    let (dead, unknown) = (checked.dead.len(), checked.unknown);
    writeln!(out, "{pages}, {links}: {dead} dead, {unknown} not known.")
}

/// Prints how many pages and links a check read, as an object of JSON on a line.
pub fn print_checked_as_json<W: Write>(
    alloc: Global,
    out: &mut W,
    checked: &Checked,
) -> io::Result<()> {
    let (pages, links) = (checked.pages as u64, checked.links as u64);
    let (dead, unknown) = (checked.dead.len() as u64, checked.unknown as u64);
    let object = json!(in alloc; {
        "pages": pages,
        "links": links,
        "dead": dead,
        "unknown": unknown
    })?;
    let text = object.to_string(alloc)?;
    writeln!(out, "{text}")
}

/// Prints why moves are refused, with OLD as it was written, and the whole NEW.
pub fn print_refused<W: Write, S: Store>(
    errors: &mut W,
    store: &S,
    tree: &Tree,
    moves: &[(&str, &str)],
    why: &WhyRefused,
) -> io::Result<()> {
    match why {
        WhyRefused::RunFault(fault) => {
            let root = Printable(store.root());
            writeln!(errors, "relmove: {root}: {fault}")
        }
        WhyRefused::NoDirectory(number) => print_move_refused(
            errors,
            moves,
            *number,
            "a path ends in a slash, and what moves is no directory",
        ),
        WhyRefused::DotDirectory(number) => print_move_refused(
            errors,
            moves,
            *number,
            "a path is in a directory whose name begins with a dot; such directories aren't read",
        ),
        WhyRefused::ReservedName(number) => print_move_refused(
            errors,
            moves,
            *number,
            "a name of the new path begins with .relmove in another case",
        ),
        WhyRefused::NotArrived(number) => {
            print_not_there(errors, store, tree, moves, (*number, Side::New))
        }
        WhyRefused::IntoDirectory(number) => print_move_refused(
            errors,
            moves,
            *number,
            "the new path is a directory, and a file of this name is in it: give the whole new path",
        ),
        WhyRefused::NotLeft(number) => {
            print_move_refused(errors, moves, *number, "something is at the old path")
        }
        WhyRefused::Plan(Refusal::NotThere(number)) => {
            print_not_there(errors, store, tree, moves, (*number, Side::Old))
        }
        WhyRefused::Plan(refusal) => print_refusal(errors, moves, refusal),
    }
}

// A path of a move.
#[derive(Clone, Copy)]
enum Side {
    // The old one.
    Old,
    // The new one.
    New,
}

// Prints that nothing is at a path of a move, and, if the path begins with the root's, the path that was likely meant.
fn print_not_there<W: Write, S: Store>(
    errors: &mut W,
    store: &S,
    tree: &Tree,
    moves: &[(&str, &str)],
    (number, side): (usize, Side),
) -> io::Result<()> {
    let (old, new) = move_at(moves, number);
    let (path, words) = match side {
        Side::Old => (old, "nothing is at the old path"),
        Side::New => (new, "nothing is at the new path"),
    };
    let Some(meant) = path_without_root(store.alloc(), tree, store.root(), path)? else {
        return print_move_refused(errors, moves, number, words);
    };
    let (old, new) = (Printable(old), Printable(new));
    let (root, meant) = (Printable(store.root()), Printable(meant.as_str()));
    writeln!(
        errors,
        "relmove: {old} to {new}: {words}; paths begin at {root}: {meant}?"
    )
}

// The part of a path after the root's path, if the path begins with it, and an entry is there.
fn path_without_root(
    alloc: Global,
    tree: &Tree,
    root: &str,
    path: &str,
) -> Result<Option<String>, AllocError> {
    let root = RelativePath::new(root).normalize(alloc)?;
    let path = RelativePath::new(path).normalize(alloc)?;
    match path
        .as_relative_path()
        .strip_prefix(root.as_relative_path())
    {
        Ok(rest) if tree.entries.contains_key(rest.as_str()) => {
            Ok(Some(String::from_str(alloc, rest.as_str())?))
        }
        _ => Ok(None),
    }
}

// Prints why the plan refuses moves.
fn print_refusal<W: Write>(
    errors: &mut W,
    moves: &[(&str, &str)],
    refusal: &Refusal,
) -> io::Result<()> {
    if let Some((number, words)) = words_of_move(refusal) {
        return print_move_refused(errors, moves, number, words);
    }
    match refusal {
        Refusal::SameOld(first, second) => {
            print_both_refused(errors, moves, *first, *second, "the old paths are the same")
        }
        Refusal::SameNew(first, second) => {
            print_both_refused(errors, moves, *first, *second, "the new paths are the same")
        }
        Refusal::Collision(first, second) => {
            let first = Printable(first.as_relative_path().as_str());
            let second = Printable(second.as_relative_path().as_str());
            writeln!(
                errors,
                "relmove: {first} and {second} would get the same path"
            )
        }
        _ => writeln!(errors, "relmove: memory ran out"),
    }
}

// The move that is refused, and why, if the refusal is of a move alone.
fn words_of_move(refusal: &Refusal) -> Option<(usize, &'static str)> {
    match refusal {
        Refusal::NoFileName(number) => Some((*number, "a path is the root, or ends in ..")),
        Refusal::LeavesRoot(number) => Some((*number, "a path leads above the root")),
        Refusal::IntoItself(number) => {
            Some((*number, "the new path is the old one, or below it"))
        }
        Refusal::NotPlain(number) => Some((
            *number,
            "a name of the new path isn't plain on every platform; --any-name allows it",
        )),
        Refusal::ReservedName(number) => {
            Some((
                *number,
                "a name of the old or the new path begins with .relmove",
            ))
        }
        _ => words_in_tree(refusal),
    }
}

// The move that is refused, and why, if the refusal is of a move alone and of what is in the tree.
fn words_in_tree(refusal: &Refusal) -> Option<(usize, &'static str)> {
    match refusal {
        Refusal::ForeignName(number) => {
            Some((
                *number,
                "what moves holds a name that isn't UTF-8, or a directory that can't be read",
            ))
        }
        Refusal::Taken(number) => Some((*number, "something is at the new path")),
        Refusal::BelowFile(number) => Some((
            *number,
            "the new path is below a file or a symbolic link",
        )),
        Refusal::BelowUnread(number) => Some((
            *number,
            "after the moves the new path is in a directory that isn't read",
        )),
        _ => None,
    }
}

// Prints why a move is refused.
fn print_move_refused<W: Write>(
    errors: &mut W,
    moves: &[(&str, &str)],
    number: usize,
    words: &str,
) -> io::Result<()> {
    let (old, new) = move_at(moves, number);
    let (old, new) = (Printable(old), Printable(new));
    writeln!(errors, "relmove: {old} to {new}: {words}")
}

// Prints why two moves are refused.
fn print_both_refused<W: Write>(
    errors: &mut W,
    moves: &[(&str, &str)],
    first: usize,
    second: usize,
    words: &str,
) -> io::Result<()> {
    let (old, new) = move_at(moves, first);
    let (other_old, other_new) = move_at(moves, second);
    let (old, new) = (Printable(old), Printable(new));
    let (other_old, other_new) = (Printable(other_old), Printable(other_new));
    writeln!(
        errors,
        "relmove: {old} to {new}, and {other_old} to {other_new}: {words}"
    )
}

// The move of a number.
fn move_at<'a>(moves: &[(&'a str, &'a str)], number: usize) -> (&'a str, &'a str) {
    match moves.get(number) {
        Some((old, new)) => (*old, *new),
        None => ("", ""),
    }
}
