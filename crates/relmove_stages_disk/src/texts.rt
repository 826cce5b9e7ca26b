//! Whether texts are as the journal says, and so whether a stage can begin or end.
ghost use Rattle.std.specs.Prelude.{◌≡◌, All, IsTrue, false};
ghost use Rattle.relmove_stages.specs.Runs.{CanBegin, CanEnd};
ghost use Rattle.relmove_stages.specs.StageActions.{HasText, place_of};
ghost use Rattle.relmove_stages_disk.specs.Entries.{entries_tree};
ghost use Rattle.relmove_stages_disk.specs.Texts.{IsNewText, IsOldText};

use crate::entries::find_node;
use crate::entry::{Entry, has_text, is_nothing};
use relative_path::RelativePath;
use relmove_journal::{Leftover, Stage, TextFile, Work};

// Returns whether a stage can begin: before things are placed, each new text has to be as it was written.
pub(crate) fn can_begin(entries: &[Entry], work: &Work, stage: Stage) -> bool
    ensures yes { IsTrue result → CanBegin work.now stage (entries_tree entries.now) }
    ensures no { result ≡ false → ¬ CanBegin work.now stage (entries_tree entries.now) }
{
    match stage {
        Stage::Writing => true,
        Stage::Staging => true,
        Stage::Making => true,
        Stage::Placing => has_new_texts(entries, &work.texts),
        Stage::Cleaning => true,
        Stage::Unplacing => true,
        Stage::Unmaking => true,
        Stage::Unstaging => true,
        Stage::Erasing => true,
    }
}

// Returns whether a stage can end: after things got their staging names, each old text has to be as it was read.
pub(crate) fn can_end(entries: &[Entry], work: &Work, stage: Stage) -> bool
    ensures yes { IsTrue result → CanEnd work.now stage (entries_tree entries.now) }
    ensures no { result ≡ false → ¬ CanEnd work.now stage (entries_tree entries.now) }
{
    match stage {
        Stage::Writing => true,
        Stage::Staging => has_old_texts(entries, &work.cleaned),
        Stage::Making => true,
        Stage::Placing => true,
        Stage::Cleaning => true,
        Stage::Unplacing => true,
        Stage::Unmaking => true,
        Stage::Unstaging => true,
        Stage::Erasing => true,
    }
}

// Returns whether each new text is as it was written, if it is there.
fn has_new_texts(entries: &[Entry], texts: &[TextFile]) -> bool
    ensures yes { IsTrue result → All (IsNewText (entries_tree entries.now)) texts.now }
    ensures no { result ≡ false → ¬ All (IsNewText (entries_tree entries.now)) texts.now }
{
    for text in texts {
        if !is_new_text(entries, text) {
            return false;
        }
    }
    true
}

// Returns whether each old text is as it was read.
fn has_old_texts(entries: &[Entry], leftovers: &[Leftover]) -> bool
    ensures yes { IsTrue result → All (IsOldText (entries_tree entries.now)) leftovers.now }
    ensures no { result ≡ false → ¬ All (IsOldText (entries_tree entries.now)) leftovers.now }
{
    for leftover in leftovers {
        if !is_old_text(entries, leftover) {
            return false;
        }
    }
    true
}

// Returns whether a new text is as it was written, if it is there.
fn is_new_text(entries: &[Entry], text: &TextFile) -> bool
    ensures yes { IsTrue result → IsNewText (entries_tree entries.now) text.now }
    ensures no { result ≡ false → ¬ IsNewText (entries_tree entries.now) text.now }
{
    if is_nothing(find_node(entries, RelativePath::new(text.path.as_str()))) {
        return true;
    }
    is_whole(entries, text)
}

// Returns whether what is left over is as it was read, if it is a text.
fn is_old_text(entries: &[Entry], leftover: &Leftover) -> bool
    ensures yes { IsTrue result → IsOldText (entries_tree entries.now) leftover.now }
    ensures no { result ≡ false → ¬ IsOldText (entries_tree entries.now) leftover.now }
{
    match leftover {
        Leftover::Text(text) => is_whole(entries, text),
        Leftover::Directory(_) => true,
    }
}

// Returns whether a text is there, and has its digest.
fn is_whole(entries: &[Entry], text: &TextFile) -> bool
    ensures yes { IsTrue result → HasText (place_of text.now.path) text.now.digest (entries_tree entries.now) }
    ensures no { result ≡ false → ¬ HasText (place_of text.now.path) text.now.digest (entries_tree entries.now) }
{
    has_text(
        find_node(entries, RelativePath::new(text.path.as_str())),
        &text.digest,
    )
}
