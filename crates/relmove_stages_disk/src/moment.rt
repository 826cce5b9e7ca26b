//! What a disk has at a moment.
ghost use Rattle.std.specs.Prelude.{◌≡◌, ◌↔◌, IfOk, IsTrue, Some};
ghost use Rattle.relmove_stages.specs.States.{journal_of};
ghost use Rattle.relmove_stages_disk.specs.Journals.{said, said_by};

use crate::entry::Entry;
use relmove_journal::{Origin, Stage, Work, journal_text};
use std::alloc::{AllocError, Global};

/// What a journal says.
#[derive(Debug, PartialEq, Eq, Drop)]
pub struct Journal {
    /// How far the run is.
    pub stage: Stage,
    /// Its text, but for where it was written.
    pub text: String,
}

/// What a disk has at a moment.
#[derive(Debug, PartialEq, Eq, Drop)]
pub struct Moment {
    /// What is where.
    pub entries: Vec<Entry>,
    /// What the journal says, if there is one.
    pub journal: Option<Journal>,
}

impl Journal {
    /// The journal of a run that does this work, at a stage. Allocates its text.
    pub fn of(alloc: Global, work: &Work, stage: Stage) -> Result<Journal, AllocError>
        // it is of this work, at this stage
        ensures journal { IfOk result (λ journal. said_by journal ≡ journal_of work.now stage) }
    {
        let nowhere = Origin {
            root: 0,
            file: 0,
            run: 0,
            owner: 0,
            time: 0,
        };
        let text = journal_text(alloc, nowhere, stage, work)?;
        Ok(Journal { stage, text })
    }

    // Copies it.
    pub(crate) fn copy(&self, alloc: Global) -> Result<Journal, AllocError>
        ensures { IfOk result (λ copy. said_by copy ≡ said_by self.now) }
    {
        let text = String::from_str(alloc, self.text.as_str())?;
        Ok(Journal {
            stage: self.stage,
            text,
        })
    }
}

// Copies a journal, if there is one.
pub(crate) fn copy_journal(
    alloc: Global,
    journal: &Option<Journal>,
) -> Result<Option<Journal>, AllocError>
    ensures { IfOk result (λ copy. said copy ≡ said journal.now) }
{
    match journal {
        Some(journal) => Ok(Some(journal.copy(alloc)?)),
        None => Ok(None),
    }
}

// Returns whether two journals say the same.
fn is_same(one: &Journal, other: &Journal) -> bool
    ensures { IsTrue result ↔ (said_by one.now ≡ said_by other.now) }
{
    one.stage == other.stage && one.text.as_str() == other.text.as_str()
}

// Returns whether there is a journal, and it says the same as another.
pub(crate) fn says(one: &Option<Journal>, other: &Journal) -> bool
    ensures { IsTrue result ↔ (said one.now ≡ Some (said_by other.now)) }
{
    match one {
        Some(one) => is_same(one, other),
        None => false,
    }
}
