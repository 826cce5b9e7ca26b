//! Searches the text of a file for paths that no longer lead where they led.
use crate::bases::{Addresses, Base, bases_of, directories_of};
use crate::extensions::is_data;
use crate::moved_names::{KnownNames, Names};
use crate::moving_tree::MovingTree;
use crate::names_alone::{PageNames, names_alone};
use crate::places::{MentionPlace, MentionPlaces};
use crate::position::Positions;
use crate::served::Served;
use crate::targets::PageTargets;
use crate::words::{is_taken_for_path, written_at};
use relative_path::{RelativePath, RelativePathBuf};
use relative_path_places::{NormalView, directory};
use relmove_mentions::{FileText, Mention, TextSpan, are_spans_in_order};
use std::alloc::{AllocError, Global};

/// What texts are searched for.
#[derive(Clone, Copy)]
pub struct Search<'a, 'm, 'p> {
    /// The tree, and its moves.
    pub moving: MovingTree<'a, 'm>,
    /// The names of what moves, for files that stay.
    pub moved: &'a Names<'p>,
    /// Those of all entries before the moves, for files that move.
    pub all: &'a KnownNames<'p>,
    /// The pages that get another name.
    pub renamed: &'a PageNames,
    /// The tops before the moves.
    pub tops: &'a [RelativePath<'a>],
    /// The same directories after the moves.
    pub tops_after: &'a [RelativePath<'a>],
    /// The directories of which the site serves the files as they are.
    pub served: &'a Served,
}

impl<'p> Search<'_, '_, 'p> {
    /// Adds the places in the text of a file, apart from what was read. Allocates them.
    pub fn add_text<'t>(
        &self,
        alloc: Global,
        path: &'t str,
        text: &'t str,
        targets: &PageTargets,
        found: &mut MentionPlaces,
    ) -> Result<(), AllocError> {
        let path = RelativePath::new(path);
        let moved = self.moving.moves.path_after(alloc, path)?;
        let file = SearchedFile {
            path,
            new: moved.as_relative_path(),
            text,
        };
        let mut places = Vec::new(alloc);
        self.add_lost(alloc, targets, &mut places)?;
        self.add_mentions(alloc, file, targets, &mut places)?;
        self.add_names_alone(alloc, text, &mut places)?;
        places.sort_by_key(|place| place.start)?;
        self.add_places(alloc, file, &places, found)
    }

    // Adds the old paths to which targets no longer lead.
    fn add_lost(
        &self,
        alloc: Global,
        targets: &PageTargets,
        places: &mut Vec<OldPathAt>,
    ) -> Result<(), AllocError> {
        for target in &targets.lost {
            let old = String::from_str(alloc, target.old.as_str())?;
            places.push(OldPathAt {
                start: target.start,
                old,
                number: target.number,
            })?;
        }
        Ok(())
    }

    // Adds the mentions in a file that aren't right after the moves.
    fn add_mentions(
        &self,
        alloc: Global,
        file: SearchedFile<'_, '_>,
        targets: &PageTargets,
        places: &mut Vec<OldPathAt>,
    ) -> Result<(), AllocError> {
        let addresses = Addresses::of(alloc, self.served, file.path, file.new)?;
        let paths = (file.path, file.new);
        let bases = bases_of(alloc, paths, &addresses, self.tops, self.tops_after)?;
        let directories = directories_of(alloc, &bases)?;
        let names = self.names_for(file);
        let read = targets.read.as_slice();
        let mentions = mentions_in(alloc, names, &directories, self.tops, file.text, read)?;
        for mention in &mentions {
            self.add_mention(alloc, file, &bases, targets, *mention, places)?;
        }
        Ok(())
    }

    // Adds the pages that get another name, where a text has the one that they had alone.
    fn add_names_alone(
        &self,
        alloc: Global,
        text: &str,
        places: &mut Vec<OldPathAt>,
    ) -> Result<(), AllocError> {
        if self.renamed.is_empty() {
            return Ok(());
        }
        for found in &names_alone(alloc, text)? {
            if let Some(page) = self.renamed.page(alloc, found.name)? {
                places.push(OldPathAt {
                    start: found.start,
                    old: String::from_str(alloc, page)?,
                    number: None,
                })?;
            }
        }
        Ok(())
    }

    // The names for which a file is searched.
    fn names_for(&self, file: SearchedFile<'_, '_>) -> &KnownNames<'p> {
        if file.stays() {
            &self.moved.before
        } else {
            self.all
        }
    }

    // Adds a mention, if it is taken for a path and isn't right after the moves.
    fn add_mention(
        &self,
        alloc: Global,
        file: SearchedFile<'_, '_>,
        bases: &[Base<'_>],
        targets: &PageTargets,
        mention: Mention<'p>,
        places: &mut Vec<OldPathAt>,
    ) -> Result<(), AllocError> {
        if !is_taken_for_path(alloc, file.path, file.text, &mention)? {
            return Ok(());
        }
        if let Some(old) = self.lost_path(alloc, file, bases, targets, mention)? {
            places.push(OldPathAt {
                start: mention.span.start,
                old,
                number: None,
            })?;
        }
        Ok(())
    }

    // The path to which a mention no longer leads after the moves, if there is one.
    fn lost_path(
        &self,
        alloc: Global,
        file: SearchedFile<'_, '_>,
        bases: &[Base<'_>],
        targets: &PageTargets,
        mention: Mention<'p>,
    ) -> Result<Option<String>, AllocError> {
        if let Some(place) = self.file_at(alloc, file, mention)? {
            let is_right = self.is_right_file(alloc, file, mention, place.as_relative_path())?;
            return Ok(if is_right {
                None
            } else {
                Some(place.into_string())
            });
        }
        let written = written_at(file.text, mention.span);
        let after = match targets.rewritten_at(mention.span) {
            Some(target) => target.path(),
            None => written,
        };
        match self.lost_from(alloc, file, bases, mention.path, (written, after))? {
            Some(old) => Ok(Some(String::from_str(alloc, old.as_relative_path().as_str())?)),
            None => Ok(None),
        }
    }

    // The file that is there where a mention leads from the directory of its file without another ending. Among values a
    // path can lead from elsewhere too.
    fn file_at(
        &self,
        alloc: Global,
        file: SearchedFile<'_, '_>,
        mention: Mention<'_>,
    ) -> Result<Option<RelativePathBuf>, AllocError> {
        let own = directory(file.path);
        let written = written_at(file.text, mention.span);
        if written.starts_with('/') {
            return Ok(None);
        }
        if is_data(file.path) && directory(mention.path.as_relative_path()) != own {
            return Ok(None);
        }
        let place = own.join_normalized(alloc, RelativePath::new(written))?;
        if self.moving.is_file(place.as_relative_path().as_str()) {
            Ok(Some(place))
        } else {
            Ok(None)
        }
    }

    // Whether a mention that leads to a file from the directory of its own file does so after the moves.
    fn is_right_file(
        &self,
        alloc: Global,
        file: SearchedFile<'_, '_>,
        mention: Mention<'_>,
        place: RelativePath<'_>,
    ) -> Result<bool, AllocError> {
        let written = RelativePath::new(written_at(file.text, mention.span));
        let after = directory(file.new).join_normalized(alloc, written)?;
        let moved = self.moving.moves.path_after(alloc, place)?;
        Ok(after.as_relative_path() == moved.as_relative_path())
    }

    // The path to which a text leads that mentions an old path, if the text that is there after the moves doesn't lead to its new
    // path. A text leads from each directory of its file, since it isn't known which one a reader takes, and else from a top.
    fn lost_from(
        &self,
        alloc: Global,
        file: SearchedFile<'_, '_>,
        bases: &[Base<'_>],
        mentioned: NormalView<'p>,
        (before, after): (&str, &str),
    ) -> Result<Option<NormalView<'p>>, AllocError> {
        let names = self.names_for(file);
        let mut leads = false;
        for base in bases {
            if base.is_top && leads {
                return Ok(None);
            }
            if let Some(old) = path_from(alloc, names, base.before, base.is_top, before)? {
                let new = self.path_after(alloc, file, *base, after)?;
                if !self.is_moved_to(alloc, old, new)? {
                    return Ok(Some(old));
                }
                leads = true;
            }
        }
        Ok(if leads { None } else { Some(mentioned) })
    }

    // The path to which a text leads from a base after the moves: what has moved, or for a file that moves what stays. `None` if
    // it may be either.
    fn path_after(
        &self,
        alloc: Global,
        file: SearchedFile<'_, '_>,
        base: Base<'_>,
        text: &str,
    ) -> Result<Option<NormalView<'p>>, AllocError> {
        let moved = path_from(alloc, &self.moved.after, base.after, base.is_top, text)?;
        if file.stays() {
            return Ok(moved);
        }
        let found = path_from(alloc, self.all, base.after, base.is_top, text)?;
        let stays = found.filter(|path| self.stays(*path));
        Ok(match (moved, stays) {
            (Some(_), Some(_)) => None,
            (Some(path), None) | (None, Some(path)) => Some(path),
            (None, None) => None,
        })
    }

    // Whether what is at a path doesn't move.
    fn stays(&self, path: NormalView<'_>) -> bool {
        let path = path.as_relative_path().as_str();
        self.moving.number_of(path).is_none()
    }

    // Whether what is at a path moves to this one, and keeps its file name. A path with another file name is written anew: not
    // every site takes an `index.md` for its directory that takes a `README.md` for it.
    fn is_moved_to(
        &self,
        alloc: Global,
        old: NormalView<'_>,
        after: Option<NormalView<'_>>,
    ) -> Result<bool, AllocError> {
        let Some(after) = after else {
            return Ok(false);
        };
        let old = old.as_relative_path();
        let moved = self.moving.moves.path_after(alloc, old)?;
        let new = moved.as_relative_path();
        Ok(new == after.as_relative_path() && new.file_name() == old.file_name())
    }

    // Adds places in a file: one for each line and path.
    fn add_places(
        &self,
        alloc: Global,
        file: SearchedFile<'_, '_>,
        places: &[OldPathAt],
        found: &mut MentionPlaces,
    ) -> Result<(), AllocError> {
        let shown = self.moving.shown_path(alloc, file.path.as_str())?;
        let mut positions = Positions::new(file.text);
        let mut last = LinePath {
            line: 0,
            path: "",
            number: None,
        };
        for place in places {
            let at = line_path(place, &mut positions);
            if at != last {
                self.add(alloc, file, shown.as_str(), at, found)?;
                last = at;
            }
        }
        Ok(())
    }

    // Adds a place in a file. What stays, and no longer is where a file that moves says, counts for that file's move, and else
    // for the move that changes what is written.
    fn add(
        &self,
        alloc: Global,
        file: SearchedFile<'_, '_>,
        shown: &str,
        place: LinePath<'_>,
        found: &mut MentionPlaces,
    ) -> Result<(), AllocError> {
        let LinePath { line, path, number } = place;
        let moves = self.moving.number_of(path);
        let file_moves = moves.or_else(|| self.moving.number_of(file.path.as_str()));
        let Some(number) = file_moves.or(number) else {
            return Ok(());
        };
        if found.count(number) {
            found.places.push(MentionPlace {
                file: String::from_str(alloc, shown)?,
                line,
                old: String::from_str(alloc, path)?,
            })?;
        }
        Ok(())
    }
}

// A file that is searched, its path after the moves, and its text.
#[derive(Clone, Copy)]
struct SearchedFile<'a, 'n> {
    path: RelativePath<'a>,
    new: RelativePath<'n>,
    text: &'a str,
}

impl SearchedFile<'_, '_> {
    // Whether the file doesn't move.
    fn stays(&self) -> bool {
        self.new == self.path
    }
}

// An old path, and the offset at which it is written. If neither the path nor the file moves, the move with this number
// changes what is written.
#[derive(Drop)]
struct OldPathAt {
    start: usize,
    old: String,
    number: Option<usize>,
}

// An old path, the line in which it is written, and the move that changes what is written.
#[derive(Clone, Copy, PartialEq, Eq)]
struct LinePath<'a> {
    line: usize,
    path: &'a str,
    number: Option<usize>,
}

// The old path at a place, and its line.
fn line_path<'p>(place: &'p OldPathAt, positions: &mut Positions<'_>) -> LinePath<'p> {
    let line = match positions.at(place.start) {
        Some(position) => position.line,
        None => 0,
    };
    LinePath {
        line,
        path: place.old.as_str(),
        number: place.number,
    }
}

// Where a text has one of these names, apart from what was read. That is in order, since a plan made it.
fn mentions_in<'p, 't>(
    alloc: Global,
    names: &KnownNames<'p>,
    directories: &'t [RelativePath<'t>],
    tops: &'t [RelativePath<'t>],
    text: &'t str,
    read: &'t [TextSpan],
) -> Result<Vec<Mention<'p>>, AllocError> {
    if !are_spans_in_order(read) {
        return Ok(Vec::new(alloc));
    }
    let file = FileText {
        directories,
        tops,
        text: text.as_bytes(),
        read,
    };
    let mut mentions = names.names.mentions(alloc, file)?;
    names.resolve(&mut mentions);
    Ok(mentions)
}

// The path to which a text leads as a whole from a directory of its file, or from a top.
fn path_from<'p, 't>(
    alloc: Global,
    names: &KnownNames<'p>,
    base: RelativePath<'t>,
    is_top: bool,
    text: &'t str,
) -> Result<Option<NormalView<'p>>, AllocError> {
    let bases = [base];
    let found = if is_top {
        mentions_in(alloc, names, &[], &bases, text, &[])?
    } else {
        mentions_in(alloc, names, &bases, &[], text, &[])?
    };
    let whole = TextSpan {
        start: 0,
        end: text.len(),
    };
    let mention = found.iter().find(|mention| mention.span == whole);
    Ok(mention.map(|mention| mention.path))
}
