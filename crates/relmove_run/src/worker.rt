//! Does the work of a run, from any stage on. Each action asks first whether it is done.
ghost use Rattle.std.specs.Prelude.{[]};
ghost use Rattle.relmove_stages.specs.States.{unknown};
ghost use Rattle.relmove_stages.proofs.ForCallers.{not_clean};

use crate::disk::{
    Above, PageChange, RunFile, Written, are_names_of_one_file, carry, copy_of, digest_at,
    digest_of_found, find, find_to_remove, is_there, make_directory, need_run_directory,
    remove_directory, remove_file, unmake_directory, write_text,
};
use crate::machine::{carry_out_stages, finish_stages, turn_stages_back};
use crate::near::look_near;
use crate::run_files::{
    RunFiles, make_run_directory, need_untaken, put_first, put_next, remove_all, take_directory,
};
use crate::synced::{remove_left_names, sync_stage};
use relmove_actions::Rename;
use relmove_journal::{Leftover, Stage, TextDigest, TextFile, Work};
use relmove_stages::{Action, Executor, Halt, Initiator};
use relmove_store::{Found, FoundKind, Remark, RunFault, Store};
use std::alloc::AllocError;
use std::io::ErrorKind;

// A run under way.
#[derive(Drop)]
pub(crate) struct Worker<S: Drop> {
    store: S,
    files: RunFiles,
    stage: Stage,
    // The files of the first new texts, which the run may have made.
    written: Vec<Written>,
    // Whether a loss of power may have kept both names of a file that was renamed.
    may_have_both_names: bool,
    // The directories above paths.
    above: Above,
    remarks: Vec<Remark>,
}

impl<S: Store + Drop> Worker<S> {
    // A run that begins.
    pub(crate) fn new(store: S, files: RunFiles) -> Worker<S> {
        let (written, remarks) = (Vec::new(store.alloc()), Vec::new(store.alloc()));
        let above = Above::new(store.alloc());
        Worker {
            store,
            files,
            stage: Stage::Writing,
            written,
            may_have_both_names: false,
            above,
            remarks,
        }
    }

    // A run whose journal says that it is at this stage. Allocates a list as long as that of its texts.
    pub(crate) fn at(
        store: S,
        files: RunFiles,
        work: &Work,
        stage: Stage,
    ) -> Result<Worker<S>, AllocError> {
        let mut written = Vec::with_capacity(store.alloc(), work.texts.len())?;
        for _ in &work.texts {
            written.push(Written::UNKNOWN)?;
        }
        let remarks = Vec::new(store.alloc());
        let mut above = Above::new(store.alloc());
        if let Some(inode) = files.directory() {
            above.set_run_directory(inode);
        }
        Ok(Worker {
            store,
            files,
            stage,
            written,
            may_have_both_names: true,
            above,
            remarks,
        })
    }

    // The files below the root.
    pub(crate) fn store(&mut self) -> &mut S {
        &mut self.store
    }

    // Whether the root may have the run's journal. If it hasn't, the run has changed nothing.
    pub(crate) fn may_have_journal(&self) -> bool {
        self.files.may_have_journal()
    }

    // How far the run is.
    pub(crate) fn stage(&self) -> Stage {
        self.stage
    }

    // What the run has to say at its end.
    pub(crate) fn into_remarks(self) -> Vec<Remark> {
        self.remarks
    }

    // Makes the run's own directory, and puts the first journal in its place.
    fn begin(&mut self, work: &Work) -> Result<(), RunFault> {
        let inode = make_run_directory(&mut self.store, &mut self.files)?;
        self.above.set_run_directory(inode);
        put_first(&mut self.store, &mut self.files, work)
    }

    // Fails if a directory above the root, or one of these below it, has another journal of the user whose run this is. Notes
    // those of other users.
    fn look_near(&mut self, directories: &[&str]) -> Result<(), RunFault> {
        let user = self.files.owner();
        look_near(&mut self.store, directories, user, &mut self.remarks)
    }

    // Takes the directory of a run that stopped.
    pub(crate) fn take_directory(&mut self) -> Result<(), RunFault> {
        take_directory(&mut self.store, &mut self.above, &mut self.files)
    }

    // Writes a new text.
    fn write_text(&mut self, change: &PageChange) -> Result<(), RunFault> {
        let mut written = Written::NONE;
        let outcome = write_text(&mut self.store, &mut self.above, change, &mut written);
        self.written.push(written)?;
        outcome
    }

    // Does what is left of the run's stage and of those after it, and ends the run. At the stages `writing` and `erasing`
    // this needs no room on the disk.
    pub(crate) fn finish(&mut self, work: &Work) -> Result<(), RunFault> {
        let stage = self.stage;
        finish_stages(self, work, stage)
    }

    // Takes the run back, and returns `true`, or returns `false` if it is too late.
    pub(crate) fn turn_back(&mut self, work: &Work) -> Result<bool, RunFault> {
        let stage = self.stage;
        turn_stages_back(self, work, stage)
    }

    // Removes the names that a loss of power kept of what has its staging name.
    fn remove_left_names(&mut self, work: &Work, stage: Stage) -> Result<(), RunFault> {
        if self.may_have_both_names {
            remove_left_names(&mut self.store, &mut self.above, work, stage)?;
        }
        Ok(())
    }
}

impl<S: Store + Drop> Executor for Worker<S> {
    type Fault = RunFault;

    // Of real files nothing is known.
    ghost state = { λ _. unknown };

    ghost leaves_now = { λ _ clean. not_clean clean };

    ghost counts_now = { λ _ _ clean _. not_clean clean };

    ghost only_now = { λ _ _ left. left };

    // Asks for the run's own directory, and for the new texts before they are placed.
    fn prepare(&mut self, work: &Work, stage: Stage) -> Result<(), RunFault> {
        if needs_run_directory(stage) {
            need_run_directory(&mut self.store, &self.above)?;
        }
        if stage == Stage::Placing {
            need_new_texts(&mut self.store, work)?;
        }
        Ok(())
    }

    // Does an action, unless it is done.
    fn act(&mut self, work: &Work, action: Action<'_>) -> Result<(), RunFault> {
        act(
            &mut self.store,
            &mut self.above,
            work,
            &self.written,
            action,
            &mut self.remarks,
        )
    }

    // Removes names that a loss of power kept, and compares the old texts when they have their staging names.
    fn complete(&mut self, work: &Work, stage: Stage) -> Result<(), RunFault> {
        match stage {
            Stage::Staging => {
                self.remove_left_names(work, stage)?;
                need_old_texts(&mut self.store, work)
            }
            Stage::Unplacing => self.remove_left_names(work, stage),
            _ => Ok(()),
        }
    }

    // Ends a stage, and puts the journal of the next one in its place. The run is at that stage if the call returns
    // `Ok`. Otherwise the journal may say either stage.
    fn enter(&mut self, work: &Work, stage: Stage) -> Result<(), RunFault> {
        need_untaken(&mut self.store, &self.files)?;
        sync_stage(&mut self.store, work, self.stage)?;
        put_next(&mut self.store, &mut self.files, stage, work)?;
        self.stage = stage;
        Ok(())
    }

    // Removes the run's own files.
    fn end(&mut self, work: &Work) -> Result<(), RunFault> {
        sync_stage(&mut self.store, work, self.stage)?;
        remove_all(&mut self.store, &mut self.files, &mut self.remarks)
    }
}

// A run that begins.
#[derive(Drop)]
pub(crate) struct NewRun<'a, S: Drop> {
    worker: Worker<S>,
    // What the new texts are, and which pages they change.
    changes: &'a [PageChange],
    // The directories below the root in which other runs may have journals.
    directories: &'a [&'a str],
}

impl<'a, S: Store + Drop> NewRun<'a, S> {
    // A run that does this.
    pub(crate) fn new(
        worker: Worker<S>,
        changes: &'a [PageChange],
        directories: &'a [&'a str],
    ) -> NewRun<'a, S> {
        NewRun {
            worker,
            changes,
            directories,
        }
    }

    // Carries the run out.
    pub(crate) fn carry_out(&mut self, work: &Work) -> Result<(), Halt<RunFault>> {
        carry_out_stages(self, work)
    }

    // The run, after it began.
    pub(crate) fn into_worker(self) -> Worker<S> {
        self.worker
    }
}

impl<S: Store + Drop> Executor for NewRun<'_, S> {
    type Fault = RunFault;

    // Of real files nothing is known.
    ghost state = { λ _. unknown };

    ghost leaves_now = { λ _ clean. not_clean clean };

    ghost counts_now = { λ _ _ clean _. not_clean clean };

    ghost only_now = { λ _ _ left. left };

    fn prepare(&mut self, work: &Work, stage: Stage) -> Result<(), RunFault> {
        self.worker.prepare(work, stage)
    }

    fn act(&mut self, work: &Work, action: Action<'_>) -> Result<(), RunFault> {
        self.worker.act(work, action)
    }

    fn complete(&mut self, work: &Work, stage: Stage) -> Result<(), RunFault> {
        self.worker.complete(work, stage)
    }

    fn enter(&mut self, work: &Work, stage: Stage) -> Result<(), RunFault> {
        self.worker.enter(work, stage)
    }

    fn end(&mut self, work: &Work) -> Result<(), RunFault> {
        self.worker.end(work)
    }
}

impl<S: Store + Drop> Initiator for NewRun<'_, S> {
    ghost texts = { λ _. [] };

    // Puts the first journal in its place. Of two runs that begin at once, in a directory and in one above it, at least one
    // sees the other's journal.
    fn begin(&mut self, work: &Work) -> Result<(), RunFault> {
        self.worker.begin(work)?;
        self.worker.look_near(self.directories)
    }

    // Writes a new text.
    fn write(&mut self, number: usize, _text: &TextFile) -> Result<(), RunFault> {
        match self.changes.get(number) {
            Some(change) => self.worker.write_text(change),
            None => Ok(()),
        }
    }
}

// Fails if what has the staging name of a new text isn't this text.
fn need_new_texts<S: Store>(store: &mut S, work: &Work) -> Result<(), RunFault> {
    for text in &work.texts {
        let path = text.path.as_str();
        if let Some(found) = find(store, path)?
            && digest_of_found(store, path, &found)? != Some(text.digest)
        {
            return Err(RunFault::OtherText(copy_of(store, path)?));
        }
    }
    Ok(())
}

// Fails if the text of a page that changes isn't the one that was read.
fn need_old_texts<S: Store>(store: &mut S, work: &Work) -> Result<(), RunFault> {
    for leftover in &work.cleaned {
        if let Leftover::Text(file) = leftover
            && digest_at(store, file.path.as_str())? != Some(file.digest)
        {
            let page = old_path(&work.staged, file.path.as_str());
            return Err(RunFault::Changed(copy_of(store, page)?));
        }
    }
    Ok(())
}

// Whether something may have a staging name during a stage. At the others the run's own directory may be gone already.
fn needs_run_directory(stage: Stage) -> bool {
    match stage {
        Stage::Staging | Stage::Making | Stage::Placing => true,
        Stage::Unplacing | Stage::Unmaking | Stage::Unstaging => true,
        Stage::Writing | Stage::Cleaning | Stage::Erasing => false,
    }
}

// The path from which a staging name came.
fn old_path<'a>(staged: &'a [Rename], name: &'a str) -> &'a str {
    match staged.iter().find(|rename| rename.to.as_str() == name) {
        Some(rename) => rename.from.as_str(),
        None => name,
    }
}

// Does an action, unless that is done.
fn act<S: Store>(
    store: &mut S,
    above: &mut Above,
    work: &Work,
    written: &[Written],
    action: Action<'_>,
    remarks: &mut Vec<Remark>,
) -> Result<(), RunFault> {
    match action {
        Action::Carry(rename) => carry(store, above, rename.from.as_str(), rename.to.as_str()),
        Action::Unplace(rename) => unplace(store, above, rename, remarks),
        Action::Unstage(rename) => unstage(store, above, work, rename, remarks),
        Action::Make(path) => make_directory(store, above, path),
        Action::Unmake(path) => unmake_directory(store, above, path),
        Action::RemoveText(text) => remove_text(store, above, text, remarks),
        Action::RemovePart(number, text) => match written.get(number) {
            Some(written) => remove_part(store, above, text, *written, remarks),
            None => Ok(()),
        },
        Action::RemoveEmptied(path) => remove_emptied(store, above, path, remarks),
    }
}

// Gives what is at its new path its staging name again, unless something has that name. If something else is at the new path
// then, this is noted: the journal doesn't say which of the two is the run's.
fn unplace<S: Store>(
    store: &mut S,
    above: &mut Above,
    rename: &Rename,
    remarks: &mut Vec<Remark>,
) -> Result<(), RunFault> {
    let (from, to) = (rename.from.as_str(), rename.to.as_str());
    let Some(found) = find(store, from)? else {
        return carry_back(store, above, rename, remarks);
    };
    if let Some(other) = find(store, to)?
        && !are_names_of_one_file(&found, &other)
    {
        let (from, to) = (copy_of(store, from)?, copy_of(store, to)?);
        remarks.push(Remark::AtBoth { from, to })?;
    }
    Ok(())
}

// Takes back a rename, unless that is done. Notes what is at neither path.
fn carry_back<S: Store>(
    store: &mut S,
    above: &mut Above,
    rename: &Rename,
    remarks: &mut Vec<Remark>,
) -> Result<(), RunFault> {
    let (from, to) = (rename.from.as_str(), rename.to.as_str());
    if is_there(store, to)? {
        return carry(store, above, to, from);
    }
    if !is_there(store, from)? {
        need_run_directory(store, above)?;
        let (from, to) = (copy_of(store, from)?, copy_of(store, to)?);
        remarks.push(Remark::Gone { from, to })?;
    }
    Ok(())
}

// Takes what has its staging name back to its old path. If a text of the run is at its old path already, what has its
// staging name isn't the run's: it stays, and this is noted.
fn unstage<S: Store>(
    store: &mut S,
    above: &mut Above,
    work: &Work,
    rename: &Rename,
    remarks: &mut Vec<Remark>,
) -> Result<(), RunFault> {
    let back = carry_back(store, above, rename, remarks);
    if let Err(RunFault::Both { .. }) = &back
        && is_back(store, work, rename)?
    {
        return Ok(remarks.push(Remark::Kept(copy_of(store, rename.to.as_str())?))?);
    }
    back
}

// Whether a text of the run is at the old path of a rename.
fn is_back<S: Store>(store: &mut S, work: &Work, rename: &Rename) -> Result<bool, RunFault> {
    match digest_of(work, rename) {
        Some(digest) => Ok(digest_at(store, rename.from.as_str())? == Some(digest)),
        None => Ok(false),
    }
}

// The digest of what a rename gives a staging name, if the journal has it: of the old text of a page.
fn digest_of(work: &Work, rename: &Rename) -> Option<TextDigest> {
    for leftover in &work.cleaned {
        if let Leftover::Text(text) = leftover
            && text.path == rename.to
        {
            return Some(text.digest);
        }
    }
    None
}

// Removes a text of the run, unless it has changed: then it stays, and this is noted.
fn remove_text<S: Store>(
    store: &mut S,
    above: &mut Above,
    text: &TextFile,
    remarks: &mut Vec<Remark>,
) -> Result<(), RunFault> {
    let path = text.path.as_str();
    let Some(found) = find_to_remove(store, path)? else {
        return Ok(());
    };
    if digest_of_found(store, path, &found)? == Some(text.digest) {
        return remove_file(store, above, path);
    }
    Ok(remarks.push(Remark::Kept(copy_of(store, path)?))?)
}

// Removes a text that the run wrote, maybe in part. Anything else there stays, and this is noted. A part is told by its
// place and its length, and a whole text by its digest.
fn remove_part<S: Store>(
    store: &mut S,
    above: &mut Above,
    text: &TextFile,
    written: Written,
    remarks: &mut Vec<Remark>,
) -> Result<(), RunFault> {
    if written.file == RunFile::None {
        return Ok(());
    }
    let path = text.path.as_str();
    let Some(found) = find_to_remove(store, path)? else {
        return Ok(());
    };
    if may_be_part(store, text, written, &found) {
        return remove_file(store, above, path);
    }
    remove_text(store, above, text, remarks)
}

// Whether what is found may be a part of a text that the run wrote. A file that a killed run made is whole only if it has
// its permissions: before, it can't be read.
fn may_be_part<S: Store>(store: &mut S, text: &TextFile, written: Written, found: &Found) -> bool {
    let is_run_file = match written.file {
        RunFile::Unknown => found.kind == FoundKind::File,
        file => file.is(found),
    };
    let length = text.digest.length;
    is_run_file
        && !written.is_whole
        && (found.length < length || found.length == length && !can_read(store, text.path.as_str()))
}

// Whether the system lets the program read a file.
fn can_read<S: Store>(store: &mut S, path: &str) -> bool {
    match store.read(path) {
        Err(error) => error.kind() != ErrorKind::PermissionDenied,
        Ok(_) => true,
    }
}

// Removes a directory that the run emptied. If it can't be removed, it stays, and this is noted, unless something is in it.
fn remove_emptied<S: Store>(
    store: &mut S,
    above: &mut Above,
    path: &str,
    remarks: &mut Vec<Remark>,
) -> Result<(), RunFault> {
    match remove_directory(store, above, path) {
        Ok(()) => Ok(()),
        Err(RunFault::OutOfMemory) => Err(RunFault::OutOfMemory),
        // A call may report a failure after it removed the directory, and another one than that it isn't empty.
        Err(why) => match is_there(store, path) {
            Ok(false) => Ok(()),
            _ if has_names(store, path) => Ok(()),
            _ => Ok(remarks.push(Remark::Stays(why))?),
        },
    }
}

// Whether something is in a directory, as far as it can be listed.
fn has_names<S: Store>(store: &mut S, path: &str) -> bool {
    match store.list(path) {
        Ok(names) => names.has_other || !names.texts.is_empty(),
        Err(_) => false,
    }
}
