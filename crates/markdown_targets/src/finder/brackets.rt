//! The brackets that are open.
use std::alloc::{AllocError, Global};

// What a bracket opens.
#[derive(Clone, Copy, PartialEq, Eq)]
pub(crate) enum Opener {
    Link,
    Image,
}

// An open bracket.
#[derive(Clone, Copy)]
pub(crate) struct Bracket {
    // What it opens.
    pub(crate) opener: Opener,
    // Its offset in the text.
    pub(crate) start: usize,
}

// The open brackets of a block. Below `inactive` the brackets that open links are inactive, since
// a link holds no links.
#[derive(Drop)]
pub(crate) struct Brackets {
    open: Vec<Bracket>,
    inactive: usize,
}

impl Brackets {
    // Returns no open brackets.
    pub(crate) fn new(alloc: Global) -> Brackets {
        Brackets {
            open: Vec::new(alloc),
            inactive: 0,
        }
    }

    // Forgets all brackets, where a block begins.
    pub(crate) fn clear(&mut self) {
        self.open.clear();
        self.inactive = 0;
    }

    // Opens a bracket.
    pub(crate) fn open(&mut self, opener: Opener, start: usize) -> Result<(), AllocError> {
        self.open.push(Bracket { opener, start })?;
        Ok(())
    }

    // Takes the innermost bracket, and returns it if it is active.
    pub(crate) fn close(&mut self) -> Option<Bracket> {
        let bracket = self.open.pop()?;
        let depth = self.open.len();
        let is_active = bracket.opener == Opener::Image || self.inactive <= depth;
        self.inactive = self.inactive.min(depth);
        if is_active { Some(bracket) } else { None }
    }

    // Makes each open bracket of a link inactive, since a link inside was closed.
    pub(crate) fn deactivate(&mut self) {
        self.inactive = self.open.len();
    }
}
