//! A disk in memory.
ghost use Rattle.std.specs.Prelude.{◌≡◌, ◌≢◌, ◌++◌, option_map, ◌∷◌, ◌⊎◌, ◌↔◌, [], IfErr, IsTrue, None, OnOk, Some, false, length};
ghost use Rattle.relmove_trees.specs.FileTrees.{CanTake, names_of};
ghost use Rattle.relmove_trees.specs.TreeActions.{Acts, Write};
ghost use Rattle.relmove_journal.specs.declared.work.Stage.TheVariants.{Writing};
ghost use Rattle.relmove_stages.specs.Runs.{CanBegin, CanEnd};
ghost use Rattle.relmove_stages.specs.Stages.{ComesTo};
ghost use Rattle.relmove_stages.specs.States as states;
ghost use Rattle.relmove_stages.specs.States.{Disk, journal_of};
ghost use Rattle.relmove_stages.specs.StageActions.{IsText, MayWrite, action_of, place_of};
ghost use Rattle.relmove_stages_disk.specs.Acting.{HasActed, HasWritten};
ghost use Rattle.relmove_stages_disk.specs.Entries.{entries_tree, node_at};
ghost use Rattle.relmove_stages_disk.specs.Journals.{said};
ghost use Rattle.relmove_stages_disk.specs.Disks.{GoesOn, WritesOn, bytes_of, count_up, counts_now, disk_of, faults_after, leaves_now, only_now, state_of, texts_of};
ghost use Rattle.relmove_stages_disk.specs.declared.fault.Fault.TheVariants.{Failed, Refused};

use crate::actions::entries_after;
use crate::entries::{can_take, copies_of, find_node, with_file};
use crate::entry::{Entry, Node, is_text};
use crate::fault::{Failing, Failure, Fault};
use crate::moment::{Journal, Moment, copy_journal, says};
use crate::texts::{can_begin, can_end};
use relative_path::RelativePath;
use relmove_journal::{Stage, TextFile, Work};
use relmove_stages::{Action, Executor, Initiator, next_stage};
use std::alloc::Global;
use std::mem;

/// A disk in memory, with the tree of a run and its journal. It keeps what it had at each moment. What an
/// action did isn't safe at once: a loss of power leaves what the disk had at some moment since a call of `enter` or `end` began.
#[derive(Drop)]
pub struct MemoryDisk {
    alloc: Global,
    now: Moment,
    // What it had, the first first.
    past: Vec<Moment>,
    // How many of these moments are safe, so that a loss of power doesn't leave them.
    durable: usize,
    failure: Option<Failure>,
    // The new texts that it writes.
    texts: Vec<Vec<u8>>,
    // How many calls have failed.
    faults: u64,
    // The work and the stage for which it was last asked whether the stage can begin, if it can.
    prepared: Option<Journal>,
    // The work and the stage for which it was asked since the last action whether the stage can end, if it can.
    completed: Option<Journal>,
}

impl MemoryDisk {
    /// A disk with these entries and this journal. No call fails but for want of memory. Allocates nothing.
    pub fn new(alloc: Global, entries: Vec<Entry>, journal: Option<Journal>) -> MemoryDisk
        // the disk has the tree of the entries, and this journal
        ensures disk { (state_of result).disk ≡ record { journal = said journal; tree = entries_tree entries.items } }
        // it is clean
        ensures clean { IsTrue (state_of result).is_clean }
        // a crash leaves nothing else
        ensures crash { (c : Disk) → (state_of result).may_leave c → c ≡ (state_of result).disk }
    {
        MemoryDisk {
            alloc,
            now: Moment { entries, journal },
            past: Vec::new(alloc),
            durable: 0,
            failure: None,
            texts: Vec::new(alloc),
            faults: 0,
            prepared: None,
            completed: None,
        }
    }

    /// Has one of the next calls fail, or none.
    pub fn fail(&mut self, failure: Option<Failure>)
        // the disk stays
        ensures same { (state_of self.new).disk ≡ (state_of self.old).disk }
        // it stays clean
        ensures clean { (state_of self.new).is_clean ≡ (state_of self.old).is_clean }
        // a crash leaves what it might have left before
        ensures crash { (c : Disk) → (state_of self.new).may_leave c → (state_of self.old).may_leave c }
    {
        self.failure = failure;
    }

    /// Has it write these new texts.
    pub fn set_texts(&mut self, texts: Vec<Vec<u8>>)
        // the disk stays
        ensures same { (state_of self.new).disk ≡ (state_of self.old).disk }
        // it stays clean
        ensures clean { (state_of self.new).is_clean ≡ (state_of self.old).is_clean }
        // a crash leaves what it might have left before
        ensures crash { (c : Disk) → (state_of self.new).may_leave c → (state_of self.old).may_leave c }
        // it writes these texts
        ensures texts { texts_of self.new ≡ bytes_of texts.items }
    {
        self.texts = texts;
    }

    /// What is at a path.
    pub fn node_at(&self, path: &str) -> Option<&Node>
        // what the tree has at the names of the path
        ensures node { node_at result ≡ (state_of self.entry.now).disk.tree (names_of path.entry.now) }
    {
        find_node(&self.now.entries, RelativePath::new(path))
    }

    /// The entries, in no order.
    pub fn entries(&self) -> &[Entry]
        // the tree is that of the entries
        ensures tree { entries_tree result.now ≡ (state_of self.entry.now).disk.tree }
    {
        &self.now.entries
    }

    /// Returns whether its failures still count. Fewer than 2^64 - 1 do.
    pub fn is_clean(&self) -> bool
        // whether anything is known of the disk
        ensures clean { result ≡ (state_of self.entry.now).is_clean }
    {
        self.faults < u64::MAX
    }

    /// The stage that the journal says.
    pub fn journal(&self) -> Option<Stage>
        // the stage that the journal says
        ensures journal { result ≡ option_map (λ journal. journal.stage) (state_of self.entry.now).disk.journal }
    {
        match &self.now.journal {
            Some(journal) => Some(journal.stage),
            None => None,
        }
    }
}

// Returns whether and how this call is to fail, and counts it.
fn next_failure(failure: &mut Option<Failure>) -> Option<Failing> {
    let Some(next) = *failure else {
        return None;
    };
    if next.calls == 0 {
        *failure = failure_after(next);
        return Some(next.failing);
    }
    *failure = Some(Failure {
        calls: next.calls - 1,
        failing: next.failing,
        is_kill: next.is_kill,
    });
    None
}

// The failure of the calls after one that failed.
fn failure_after(failure: Failure) -> Option<Failure> {
    if failure.is_kill {
        return Some(Failure {
            calls: 0,
            failing: Failing::Before,
            is_kill: true,
        });
    }
    None
}

// Puts what is there next in the place of what is there, which it keeps, and returns whether there was memory for that.
fn put(now: &mut Moment, past: &mut Vec<Moment>, next: Moment) -> bool
    ensures next { IsTrue result → now.new ≡ next }
    ensures past { IsTrue result → past.new.items ≡ past.old.items ++ now.old ∷ [] }
    ensures stays { result ≡ false → now.new ≡ now.old }
    ensures past_stays { result ≡ false → past.new.items ≡ past.old.items }
{
    let last = mem::replace(now, next);
    match past.push(last) {
        Ok(()) => true,
        Err(failed) => {
            *now = failed.value;
            false
        }
    }
}

// Returns whether a run at the first stage comes to another one: it is the same, or a later one on the same way.
fn comes_to(first: Stage, stage: Stage) -> bool
    ensures { IsTrue result ↔ ComesTo first stage }
{
    let mut at = first;
    while at != stage {
        let Some(next) = next_stage(at) else {
            return false;
        };
        at = next;
    }
    true
}

// Returns whether it is known that the journal's stage can end, if there is a journal.
fn is_end_known(completed: &Option<Journal>, journal: &Option<Journal>) -> bool
    ensures { IsTrue result ↔ ((there : states.Journal) → said journal.now ≡ Some there → said completed.now ≡ Some there) }
{
    match journal {
        Some(journal) => says(completed, journal),
        None => true,
    }
}

// Returns whether it is known that the journal's stage can end, if it comes to this one.
fn can_come_to(completed: &Option<Journal>, journal: &Option<Journal>, next: Stage) -> bool
    ensures { IsTrue result ↔ ((there : states.Journal) → said journal.now ≡ Some there → ComesTo there.stage next
        → said completed.now ≡ Some there) }
{
    match journal {
        Some(journal) => !comes_to(journal.stage, next) || says(completed, journal),
        None => true,
    }
}

// Returns whether the journal's stage was asked for.
fn is_asked(prepared: &Option<Journal>, journal: &Option<Journal>) -> bool
    ensures { IsTrue result ↔ (said prepared.now ≡ said journal.now) }
{
    match journal {
        Some(journal) => says(prepared, journal),
        None => prepared.is_none(),
    }
}

// Does an action, if the journal's stage was asked for.
fn try_act(
    alloc: Global,
    now: &mut Moment,
    past: &mut Vec<Moment>,
    asked: bool,
    action: Action<'_>,
    failing: Option<Failing>,
) -> Result<(), Fault>
    ensures acted { HasActed asked (action_of action.entry) (disk_of now.old).tree (disk_of now.new).tree result }
    ensures journal { said now.new.journal ≡ said now.old.journal }
    ensures moments { GoesOn now.old past.old.items now.new past.new.items }
{
    if fails_before(failing) {
        return Err(Fault::Failed);
    }
    if !asked {
        return Err(Fault::Refused);
    }
    let entries = match entries_after(alloc, &now.entries, action) {
        Ok(entries) => entries,
        Err(fault) => return Err(fault),
    };
    let Ok(journal) = copy_journal(alloc, &now.journal) else {
        return Err(Fault::OutOfMemory);
    };
    if !put(now, past, Moment { entries, journal }) {
        return Err(Fault::OutOfMemory);
    }
    fails_after(failing)
}

// Writes a new text, if it can be written.
fn try_write(
    alloc: Global,
    now: &mut Moment,
    past: &mut Vec<Moment>,
    texts: &[Vec<u8>],
    number: usize,
    text: &TextFile,
    failing: Option<Failing>,
) -> Result<(), Fault>
    ensures written { HasWritten (bytes_of texts.now) number text.now (disk_of now.old).tree (disk_of now.new).tree result }
    ensures journal { said now.new.journal ≡ said now.old.journal }
    ensures moments { WritesOn text.now now.old past.old.items now.new past.new.items }
{
    if fails_before(failing) {
        return Err(Fault::Failed);
    }
    if number >= texts.len() {
        return Err(Fault::Refused);
    }
    let bytes = texts[number].as_slice();
    if !is_text(bytes, &text.digest) {
        return Err(Fault::Refused);
    }
    if !can_take(&now.entries, RelativePath::new(text.path.as_str())) {
        return Err(Fault::Refused);
    }
    write_bytes(alloc, now, past, text, bytes, failing)
}

// Writes the first half of a text, and then all of it.
fn write_bytes(
    alloc: Global,
    now: &mut Moment,
    past: &mut Vec<Moment>,
    text: &TextFile,
    bytes: &[u8],
    failing: Option<Failing>,
) -> Result<(), Fault>
    requires whole { IsText text.now.digest bytes.now }
    requires takes { CanTake (disk_of now.old).tree (place_of text.now.path) }
    ensures written { OnOk result (Acts (Write (place_of text.now.path) bytes.now) (disk_of now.old).tree (disk_of now.new).tree) }
    ensures outcome { MayWrite (place_of text.now.path) text.now.digest (disk_of now.old).tree (disk_of now.new).tree }
    ensures journal { said now.new.journal ≡ said now.old.journal }
    ensures moments { WritesOn text.now now.old past.old.items now.new past.new.items }
    ensures not_refused { IfErr result (λ fault. fault ≡ Refused → ⊥) }
{
    let path = RelativePath::new(text.path.as_str());
    let Ok(part) = with_file(alloc, &now.entries, path, &bytes[..bytes.len() / 2]) else {
        return Err(Fault::OutOfMemory);
    };
    let Ok(whole) = with_file(alloc, &now.entries, path, bytes) else {
        return Err(Fault::OutOfMemory);
    };
    let Ok(journal) = copy_journal(alloc, &now.journal) else {
        return Err(Fault::OutOfMemory);
    };
    let Ok(same_journal) = copy_journal(alloc, &now.journal) else {
        return Err(Fault::OutOfMemory);
    };
    if !put(
        now,
        past,
        Moment {
            entries: part,
            journal,
        },
    ) {
        return Err(Fault::OutOfMemory);
    }
    if fails_midway(failing) {
        return Err(Fault::Failed);
    }
    if !put(
        now,
        past,
        Moment {
            entries: whole,
            journal: same_journal,
        },
    ) {
        return Err(Fault::OutOfMemory);
    }
    fails_after(failing)
}

// Returns whether the call is to fail before it does anything.
fn fails_before(failing: Option<Failing>) -> bool {
    matches!(failing, Some(Failing::Before))
}

// Returns whether the call is to fail in the middle.
fn fails_midway(failing: Option<Failing>) -> bool {
    matches!(failing, Some(Failing::Midway))
}

// Fails if the call is to fail after it did all, or in the middle.
fn fails_after(failing: Option<Failing>) -> Result<(), Fault>
    ensures { IfErr result (λ fault. fault ≡ Failed) }
{
    if failing.is_some() {
        return Err(Fault::Failed);
    }
    Ok(())
}

// Puts another journal in the place of the one before, or takes it away, after all that was done is safe, if that is allowed.
fn try_put_journal(
    alloc: Global,
    now: &mut Moment,
    past: &mut Vec<Moment>,
    durable: &mut usize,
    journal: Option<Journal>,
    allowed: bool,
    failing: Option<Failing>,
) -> Result<(), Fault>
    ensures put { OnOk result (now.new.journal ≡ journal) }
    ensures allowed { OnOk result (IsTrue allowed) }
    ensures outcome { (now.new.journal ≡ now.old.journal) ⊎ (now.new.journal ≡ journal) }
    ensures tree { (disk_of now.new).tree ≡ (disk_of now.old).tree }
    ensures moments { GoesOn now.old past.old.items now.new past.new.items }
    ensures durable { (durable.new ≡ durable.old) ⊎ (durable.new ≡ length past.old.items) }
    ensures synced { OnOk result (durable.new ≡ length past.old.items) }
    ensures refused { IfErr result (λ fault. fault ≡ Refused → ¬ IsTrue allowed) }
{
    if fails_before(failing) {
        return Err(Fault::Failed);
    }
    if !allowed {
        return Err(Fault::Refused);
    }
    let Ok(entries) = copies_of(alloc, &now.entries) else {
        return Err(Fault::OutOfMemory);
    };
    *durable = past.len();
    if !put(now, past, Moment { entries, journal }) {
        return Err(Fault::OutOfMemory);
    }
    fails_after(failing)
}

// Puts the journal of a stage in the place of the one before, if that is allowed.
fn try_enter(
    alloc: Global,
    now: &mut Moment,
    past: &mut Vec<Moment>,
    durable: &mut usize,
    work: &Work,
    stage: Stage,
    allowed: bool,
    failing: Option<Failing>,
) -> Result<(), Fault>
    ensures put { OnOk result (said now.new.journal ≡ Some (journal_of work.now stage)) }
    ensures allowed { OnOk result (IsTrue allowed) }
    ensures outcome { (said now.new.journal ≡ said now.old.journal) ⊎ (said now.new.journal ≡ Some (journal_of work.now stage)) }
    ensures tree { (disk_of now.new).tree ≡ (disk_of now.old).tree }
    ensures moments { GoesOn now.old past.old.items now.new past.new.items }
    ensures durable { (durable.new ≡ durable.old) ⊎ (durable.new ≡ length past.old.items) }
    ensures synced { OnOk result (durable.new ≡ length past.old.items) }
    ensures refused { IfErr result (λ fault. fault ≡ Refused → ¬ IsTrue allowed) }
{
    let Ok(journal) = Journal::of(alloc, work, stage) else {
        return Err(Fault::OutOfMemory);
    };
    try_put_journal(alloc, now, past, durable, Some(journal), allowed, failing)
}

// Puts the first journal, if none is there, and notes that its stage can end: nothing is written yet.
fn try_begin(
    alloc: Global,
    now: &mut Moment,
    past: &mut Vec<Moment>,
    durable: &mut usize,
    completed: &mut Option<Journal>,
    work: &Work,
    failing: Option<Failing>,
) -> Result<(), Fault>
    ensures put { OnOk result (said now.new.journal ≡ Some (journal_of work.now Writing)) }
    ensures outcome { (said now.new.journal ≡ said now.old.journal)
        ⊎ ((said now.old.journal ≡ None) × (said now.new.journal ≡ Some (journal_of work.now Writing))) }
    ensures free { OnOk result (said now.old.journal ≡ None) }
    ensures known { said now.old.journal ≡ None → (there : states.Journal) → said now.new.journal ≡ Some there
        → said completed.new ≡ Some there }
    ensures tree { (disk_of now.new).tree ≡ (disk_of now.old).tree }
    ensures moments { GoesOn now.old past.old.items now.new past.new.items }
    ensures durable { (durable.new ≡ durable.old) ⊎ (durable.new ≡ length past.old.items) }
    ensures synced { OnOk result (durable.new ≡ length past.old.items) }
    ensures refused { IfErr result (λ fault. fault ≡ Refused → said now.old.journal ≢ None) }
{
    if now.journal.is_some() {
        return Err(Fault::Refused);
    }
    let Ok(journal) = Journal::of(alloc, work, Stage::Writing) else {
        return Err(Fault::OutOfMemory);
    };
    *completed = Some(journal);
    try_enter(
        alloc,
        now,
        past,
        durable,
        work,
        Stage::Writing,
        true,
        failing,
    )
}

// Notes the stage. Fails if the call is to fail, or if the stage can't begin.
fn try_prepare(
    alloc: Global,
    entries: &[Entry],
    prepared: &mut Option<Journal>,
    work: &Work,
    stage: Stage,
    failing: Option<Failing>,
) -> Result<(), Fault>
    ensures asked { OnOk result (said prepared.new ≡ Some (journal_of work.now stage)) }
    ensures can { OnOk result (CanBegin work.now stage (entries_tree entries.now)) }
    ensures refused { IfErr result (λ fault. fault ≡ Refused → ¬ CanBegin work.now stage (entries_tree entries.now)) }
{
    if failing.is_some() {
        return Err(Fault::Failed);
    }
    if !can_begin(entries, work, stage) {
        return Err(Fault::Refused);
    }
    let Ok(journal) = Journal::of(alloc, work, stage) else {
        return Err(Fault::OutOfMemory);
    };
    *prepared = Some(journal);
    Ok(())
}

// Notes the stage. Fails if the call is to fail, or if it wasn't asked whether the stage can begin, or if it can't end.
fn try_complete(
    alloc: Global,
    entries: &[Entry],
    prepared: &Option<Journal>,
    completed: &mut Option<Journal>,
    work: &Work,
    stage: Stage,
    failing: Option<Failing>,
) -> Result<(), Fault>
    ensures prepared { OnOk result (said prepared.now ≡ Some (journal_of work.now stage)) }
    ensures asked { OnOk result (said completed.new ≡ Some (journal_of work.now stage)) }
    ensures can { OnOk result (CanEnd work.now stage (entries_tree entries.now)) }
    ensures refused { IfErr result (λ fault. fault ≡ Refused → said prepared.now ≡ Some (journal_of work.now stage)
        → ¬ CanEnd work.now stage (entries_tree entries.now)) }
{
    if failing.is_some() {
        return Err(Fault::Failed);
    }
    let Ok(journal) = Journal::of(alloc, work, stage) else {
        return Err(Fault::OutOfMemory);
    };
    if !says(prepared, &journal) {
        return Err(Fault::Refused);
    }
    if !can_end(entries, work, stage) {
        return Err(Fault::Refused);
    }
    *completed = Some(journal);
    Ok(())
}

// Counts a failure, up to 2^64 - 1.
fn count_one(faults: &mut u64)
    ensures { faults.new ≡ count_up faults.old }
{
    if *faults < u64::MAX {
        *faults += 1;
    }
}

// Counts a failure. A refusal is none.
fn count(faults: &mut u64, fault: Fault)
    ensures { faults.new ≡ faults_after fault faults.old }
{
    match fault {
        Fault::Failed => count_one(faults),
        Fault::OutOfMemory => count_one(faults),
        Fault::Refused => {}
    }
}

// Counts the failure of a call.
fn counted(faults: &mut u64, outcome: Result<(), Fault>) -> Result<(), Fault>
    ensures outcome { result ≡ outcome }
    ensures ok { OnOk result (faults.new ≡ faults.old) }
    ensures err { IfErr result (λ fault. faults.new ≡ faults_after fault faults.old) }
{
    match outcome {
        Ok(()) => Ok(()),
        Err(fault) => {
            count(faults, fault);
            Err(fault)
        }
    }
}

impl Executor for MemoryDisk {
    type Fault = Fault;

    // what the disk has, what a crash may leave, and how many calls have failed
    ghost state = { state_of };

    fn prepare(&mut self, work: &Work, stage: Stage) -> Result<(), Fault> {
        let failing = next_failure(&mut self.failure);
        let outcome = try_prepare(
            self.alloc,
            &self.now.entries,
            &mut self.prepared,
            work,
            stage,
            failing,
        );
        counted(&mut self.faults, outcome)
    }

    fn act(&mut self, _work: &Work, action: Action<'_>) -> Result<(), Fault> {
        let failing = next_failure(&mut self.failure);
        let asked = is_asked(&self.prepared, &self.now.journal);
        self.completed = None;
        let outcome = try_act(
            self.alloc,
            &mut self.now,
            &mut self.past,
            asked,
            action,
            failing,
        );
        counted(&mut self.faults, outcome)
    }

    fn complete(&mut self, work: &Work, stage: Stage) -> Result<(), Fault> {
        let failing = next_failure(&mut self.failure);
        let outcome = try_complete(
            self.alloc,
            &self.now.entries,
            &self.prepared,
            &mut self.completed,
            work,
            stage,
            failing,
        );
        counted(&mut self.faults, outcome)
    }

    fn enter(&mut self, work: &Work, stage: Stage) -> Result<(), Fault> {
        let failing = next_failure(&mut self.failure);
        let allowed = can_come_to(&self.completed, &self.now.journal, stage);
        let outcome = try_enter(
            self.alloc,
            &mut self.now,
            &mut self.past,
            &mut self.durable,
            work,
            stage,
            allowed,
            failing,
        );
        counted(&mut self.faults, outcome)
    }

    fn end(&mut self, _work: &Work) -> Result<(), Fault> {
        let failing = next_failure(&mut self.failure);
        let allowed = is_end_known(&self.completed, &self.now.journal);
        let outcome = try_put_journal(
            self.alloc,
            &mut self.now,
            &mut self.past,
            &mut self.durable,
            None,
            allowed,
            failing,
        );
        counted(&mut self.faults, outcome)
    }

    // a crash may leave what is there
    ghost leaves_now = { leaves_now };

    // what is there might be left since this moment, and since each before
    ghost counts_now = { counts_now };

    // since this moment there is no other
    ghost only_now = { only_now };
}

impl Initiator for MemoryDisk {
    // the new texts that it writes
    ghost texts = { texts_of };

    fn begin(&mut self, work: &Work) -> Result<(), Fault> {
        let failing = next_failure(&mut self.failure);
        let outcome = try_begin(
            self.alloc,
            &mut self.now,
            &mut self.past,
            &mut self.durable,
            &mut self.completed,
            work,
            failing,
        );
        counted(&mut self.faults, outcome)
    }

    fn write(&mut self, number: usize, text: &TextFile) -> Result<(), Fault> {
        let failing = next_failure(&mut self.failure);
        self.completed = None;
        let outcome = try_write(
            self.alloc,
            &mut self.now,
            &mut self.past,
            &self.texts,
            number,
            text,
            failing,
        );
        counted(&mut self.faults, outcome)
    }
}
