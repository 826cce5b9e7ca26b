//! The places where old paths are written.
use crate::tree::Unread;
use relative_path_moves::Move;
use std::alloc::{AllocError, Global};

/// How many places are listed for a move.
pub const MOST_PLACES: usize = 10;

/// A line in which an old path is written.
#[derive(Debug, PartialEq, Eq, Drop)]
pub struct MentionPlace {
    /// The path of the file: the one before the moves, unless they were made before the call.
    pub file: String,
    /// The number of the line.
    pub line: usize,
    /// The old path.
    pub old: String,
}

/// The places where old paths are written.
#[derive(Drop)]
pub struct MentionPlaces {
    /// The first places of each move, at most [`MOST_PLACES`]: those in pages, then those in other files.
    pub places: Vec<MentionPlace>,
    /// How many places each move has.
    pub counts: Vec<usize>,
    /// Files that can't be read, or are too long.
    pub unread: Vec<Unread>,
}

impl MentionPlaces {
    /// No places. Allocates a number for each move.
    pub fn new(alloc: Global, moves: &[Move<'_>]) -> Result<MentionPlaces, AllocError> {
        let mut counts = Vec::with_capacity(alloc, moves.len())?;
        for _ in moves {
            counts.push(0)?;
        }
        Ok(MentionPlaces {
            places: Vec::new(alloc),
            counts,
            unread: Vec::new(alloc),
        })
    }

    // Counts a place of a move. Returns whether it is to be listed.
    pub(crate) fn count(&mut self, number: usize) -> bool {
        match self.counts.get_mut(number) {
            Some(count) => {
                *count = count.saturating_add(1);
                *count <= MOST_PLACES
            }
            None => false,
        }
    }

    // Notes a file that isn't read.
    pub(crate) fn leave_out(
        &mut self,
        alloc: Global,
        path: &str,
        why: &str,
    ) -> Result<(), AllocError> {
        self.unread.push(Unread {
            path: String::from_str(alloc, path)?,
            why: String::from_str(alloc, why)?,
        })?;
        Ok(())
    }
}
