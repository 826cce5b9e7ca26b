//! Which moves are refused.
ghost use Rattle.std.specs.Prelude.{◌≡◌, ◌≢◌, ◌<◌, ℕ, All, List, Option, None, IsSome, OnOk, IfOk, IfErr, MatchBool, length, slice_index_or};
ghost use Rattle.std.specs.List.{list_any};
ghost use Rattle.relative_path.specs.Components.{step_of};
ghost use Rattle.relative_path.specs.Steps.{Step, components};
ghost use Rattle.relative_path.specs.Walk.{IsSame, place_of};
ghost use Rattle.relative_path.specs.Naming.{last_name};
ghost use Rattle.relative_path.specs.RelativePath.{path_components, path_text};
ghost use Rattle.relative_path_files.specs.Names.{IfName, IsPlainName};
ghost use Rattle.relative_path_moves.specs.Moves.{AreApart, Move, written_moves};
ghost use Rattle.relative_path_places.specs.PlaceIndex.{Indexes};
ghost use Rattle.relative_path_places.specs.Views.{view_components};
ghost use Rattle.relmove_checks.specs.Moves.{EachMove, HasFinePaths, HasNames, IsPlaced, StaysOutside, is_reserved_step, move_of};
ghost use Rattle.relmove_checks.specs.Trees.{
  AreForeignPaths,
  AreInOrder,
  HasAbove,
  HasAt,
  IndexesAfter,
  IsBelowNo,
  IsFree,
  IsOldFine,
  IsTaken,
  entry_paths,
  is_barrier,
};
ghost use Rattle.relmove_checks.specs.Trees as trees;
ghost use Rattle.relmove_checks.specs.Refusals.{IsAboveRefusal, IsNewRefusal, IsOfFirst, IsOldRefusal, IsPathRefusal, refusal_below};
ghost use Rattle.relmove_checks.specs.declared.entry.Entry.{Entry};
ghost use Rattle.relmove_checks.specs.declared.name_rule.NameRule.{NameRule};
ghost use Rattle.relmove_checks.specs.declared.name_rule.NameRule.TheVariants.{Plain};

use crate::above::directory_above;
use crate::entry::{Entry, Kind};
use crate::foreign::has_path_below;
use crate::name_rule::NameRule;
use crate::refusal::Refusal;
use relative_path::{Component, RelativePath};
use relative_path_files::has_plain_names;
use relative_path_moves::TreeMoves;
use relative_path_places::{NormalView, PlaceIndex, WrittenPath};
use relmove_actions::RESERVED;
use std::alloc::Global;

// Fails at the first move whose paths, by themselves, are refused.
pub(crate) fn check_paths(
    moves: &[relative_path_moves::Move<'_>],
    rule: NameRule,
) -> Result<(), Refusal>
    ensures fine { OnOk result (EachMove (HasFinePaths rule) (written_moves moves.now)) }
    ensures refused { IfErr result
        (IsOfFirst (HasFinePaths rule) (IsPathRefusal rule) (written_moves moves.now)) }
{
    for (number, a) in moves.iter().enumerate() {
        check_move(number, &a.old, &a.new, rule)?;
    }
    Ok(())
}

// Fails if the paths of a move, by themselves, are refused.
fn check_move(
    number: usize,
    old: &WrittenPath<'_>,
    new: &WrittenPath<'_>,
    rule: NameRule,
) -> Result<(), Refusal>
    ensures fine { OnOk result
        (HasFinePaths rule (move_of (path_components old.now) (path_components new.now))) }
    ensures refused { IfErr result (IsPathRefusal rule number
        (move_of (path_components old.now) (path_components new.now))) }
{
    let from = old.written();
    let to = new.written();
    check_placed(number, from, to)?;
    check_outside(number, old, new)?;
    check_names(number, from, to, rule)
}

// Fails if a path of a move has no file name, or leads above the root.
fn check_placed(number: usize, old: RelativePath<'_>, new: RelativePath<'_>) -> Result<(), Refusal>
    ensures fine { OnOk result
        (IsPlaced (move_of (path_components old.entry) (path_components new.entry))) }
    ensures refused { IfErr result (λ refusal. (rule : NameRule) → IsPathRefusal rule number
        (move_of (path_components old.entry) (path_components new.entry)) refusal) }
{
    if lacks_file_name(old) {
        return Err(Refusal::NoFileName(number));
    }
    if lacks_file_name(new) {
        return Err(Refusal::NoFileName(number));
    }
    if leaves_root(old) {
        return Err(Refusal::LeavesRoot(number));
    }
    if leaves_root(new) {
        return Err(Refusal::LeavesRoot(number));
    }
    Ok(())
}

fn lacks_file_name(path: RelativePath<'_>) -> bool
    ensures { MatchBool result (last_name (path_components path.entry) ≡ None)
        (last_name (path_components path.entry) ≢ None) }
{
    path.file_name().is_none()
}

// Returns whether a path leads above the root.
fn leaves_root(path: RelativePath<'_>) -> bool
    ensures { MatchBool result (place_of (path_components path.entry) ≡ None)
        (IsSome (place_of (path_components path.entry))) }
{
    path.climb() > 0
}

// Fails if the new path is the old one, or below it.
fn check_outside(number: usize, old: &WrittenPath<'_>, new: &WrittenPath<'_>) -> Result<(), Refusal>
    ensures fine { OnOk result
        (StaysOutside (move_of (path_components old.now) (path_components new.now))) }
    ensures refused { IfErr result (λ refusal. (rule : NameRule)
        → IsPlaced (move_of (path_components old.now) (path_components new.now))
        → IsPathRefusal rule number
        (move_of (path_components old.now) (path_components new.now)) refusal) }
{
    let (old, new) = (old.normal(), new.normal());
    if new.as_relative_path().starts_with(old.as_relative_path()) {
        return Err(Refusal::IntoItself(number));
    }
    Ok(())
}

// Fails if the new path has a name that isn't plain on every platform, or a path has one of a run's own.
fn check_names(
    number: usize,
    old: RelativePath<'_>,
    new: RelativePath<'_>,
    rule: NameRule,
) -> Result<(), Refusal>
    ensures fine { OnOk result (IsPlaced (move_of (path_components old.entry) (path_components new.entry))
        → StaysOutside (move_of (path_components old.entry) (path_components new.entry))
        → HasFinePaths rule (move_of (path_components old.entry) (path_components new.entry))) }
    ensures refused { IfErr result (λ refusal.
        IsPlaced (move_of (path_components old.entry) (path_components new.entry))
        → StaysOutside (move_of (path_components old.entry) (path_components new.entry))
        → IsPathRefusal rule number
        (move_of (path_components old.entry) (path_components new.entry)) refusal) }
{
    if !may_be_named(new, rule) {
        return Err(Refusal::NotPlain(number));
    }
    if has_reserved_name(old) {
        return Err(Refusal::ReservedName(number));
    }
    if has_reserved_name(new) {
        return Err(Refusal::ReservedName(number));
    }
    Ok(())
}

// Returns whether the names of a path are plain on every platform, or any name is allowed.
fn may_be_named(path: RelativePath<'_>, rule: NameRule) -> bool
    ensures { MatchBool result (HasNames rule (path_components path.entry))
        ((rule ≡ Plain) × (¬ All (IfName IsPlainName) (path_components path.entry))) }
{
    match rule {
        NameRule::Any => true,
        NameRule::Plain => has_plain_names(path),
    }
}

/// Returns whether a path has a name that begins as those of a run's own files: with `.relmove`. Allocates nothing.
///
/// ```
/// assert!(rt; has_reserved_name(RelativePath::new("docs/.relmove-1")));
/// assert!(rt; !has_reserved_name(RelativePath::new("docs/relmove")));
/// ```
pub fn has_reserved_name(path: RelativePath<'_>) -> bool
    // whether a component is such a name
    ensures reserved { result ≡ list_any is_reserved_step (path_components path.entry) }
{
    for component in path.components() {
        if is_reserved_step(component) {
            return true;
        }
    }
    false
}

// Returns whether a component is a name that begins as those of a run's own files.
fn is_reserved_step(component: Component<'_>) -> bool
    ensures { result ≡ is_reserved_step (step_of component.entry) }
{
    match component {
        Component::Normal(name) => name.starts_with(RESERVED),
        Component::CurDir | Component::ParentDir => false,
    }
}

// Fails at the first move whose old path isn't there, or whose entries have a name that isn't UTF-8.
pub(crate) fn check_olds(
    foreign: &[RelativePath<'_>],
    index: &PlaceIndex,
    moves: &[relative_path_moves::Move<'_>],
) -> Result<(), Refusal>
    requires { AreInOrder foreign.now }
    ensures fine { OnOk result ((entries : List Entry) → Indexes (entry_paths entries) index.now
        → AreForeignPaths entries foreign.now
        → EachMove (λ move. IsOldFine entries move.old) (written_moves moves.now)) }
    ensures refused { IfErr result (λ refusal. (entries : List Entry) → Indexes (entry_paths entries) index.now
        → AreForeignPaths entries foreign.now
        → IsOfFirst (λ move. IsOldFine entries move.old) (IsOldRefusal entries) (written_moves moves.now) refusal) }
{
    for (number, a) in moves.iter().enumerate() {
        check_old(foreign, index, number, &a.old)?;
    }
    Ok(())
}

// Fails if nothing is at the old path of a move, or an entry there has a name that isn't UTF-8.
fn check_old(
    foreign: &[RelativePath<'_>],
    index: &PlaceIndex,
    number: usize,
    old: &WrittenPath<'_>,
) -> Result<(), Refusal>
    requires { AreInOrder foreign.now }
    ensures fine { OnOk result ((entries : List Entry) → Indexes (entry_paths entries) index.now
        → AreForeignPaths entries foreign.now → IsOldFine entries (path_components old.now)) }
    ensures refused { IfErr result (λ refusal. (entries : List Entry) (new : List Step)
        → Indexes (entry_paths entries) index.now → AreForeignPaths entries foreign.now
        → IsOldRefusal entries number (move_of (path_components old.now) new) refusal) }
{
    let old = old.normal();
    if index.get(old).is_none() {
        return Err(Refusal::NotThere(number));
    }
    if has_path_below(foreign, old.as_relative_path()) {
        return Err(Refusal::ForeignName(number));
    }
    Ok(())
}

// Fails at the first move to whose new path an entry is, and stays.
pub(crate) fn check_news(
    alloc: Global,
    entries: &[Entry<'_>],
    index: &PlaceIndex,
    table: &TreeMoves<'_>,
    moves: &[relative_path_moves::Move<'_>],
) -> Result<(), Refusal>
    requires { Indexes (entry_paths entries.now) index.now }
    ensures fine { OnOk result (EachMove (λ move. IsFree table.now entries.now move.new) (written_moves moves.now)) }
    ensures refused { IfErr result (IsOfFirst (λ move. IsFree table.now entries.now move.new)
        (IsNewRefusal table.now entries.now) (written_moves moves.now)) }
{
    for (number, a) in moves.iter().enumerate() {
        check_new(alloc, entries, index, table, number, &a.new)?;
    }
    Ok(())
}

// Fails if an entry is at the new path of a move, and is there after the moves too.
fn check_new(
    alloc: Global,
    entries: &[Entry<'_>],
    index: &PlaceIndex,
    table: &TreeMoves<'_>,
    number: usize,
    new: &WrittenPath<'_>,
) -> Result<(), Refusal>
    requires { Indexes (entry_paths entries.now) index.now }
    ensures fine { OnOk result (IsFree table.now entries.now (path_components new.now)) }
    ensures refused { IfErr result (λ refusal. (old : List Step)
        → IsNewRefusal table.now entries.now number (move_of old (path_components new.now)) refusal) }
{
    let place = new.normal();
    if index.get(place).is_none() {
        return Ok(());
    }
    let after = table.normal_after(alloc, place.view())?;
    if after == *place {
        return Err(Refusal::Taken(number));
    }
    Ok(())
}

// What no new path may be below, after the moves.
#[derive(Clone, Copy)]
pub(crate) enum Barrier {
    // Files and symbolic links.
    Files,
    // Directories that aren't read.
    UnreadDirectories,
}

// Fails at the first move whose new path is below such a barrier.
pub(crate) fn check_above(
    entries: &[Entry<'_>],
    after: &PlaceIndex,
    moves: &[relative_path_moves::Move<'_>],
    barrier: Barrier,
) -> Result<(), Refusal>
    ensures fine { OnOk result ((tree : List Move) → IndexesAfter tree entries.now after.now
        → EachMove (λ move. IsBelowNo (is_barrier barrier) tree entries.now move.new) (written_moves moves.now)) }
    ensures refused { IfErr result (λ refusal. (tree : List Move) → IndexesAfter tree entries.now after.now
        → IsOfFirst (λ move. IsBelowNo (is_barrier barrier) tree entries.now move.new)
        (IsAboveRefusal barrier tree entries.now) (written_moves moves.now) refusal) }
{
    for (number, a) in moves.iter().enumerate() {
        check_place(entries, after, number, &a.new, barrier)?;
    }
    Ok(())
}

// Fails if the new path of a move is below such a barrier.
fn check_place(
    entries: &[Entry<'_>],
    after: &PlaceIndex,
    number: usize,
    new: &WrittenPath<'_>,
    barrier: Barrier,
) -> Result<(), Refusal>
    ensures fine { OnOk result ((tree : List Move) → IndexesAfter tree entries.now after.now
        → IsBelowNo (is_barrier barrier) tree entries.now (path_components new.now)) }
    ensures refused { IfErr result (λ refusal. (old : List Step) (tree : List Move)
        → IndexesAfter tree entries.now after.now
        → IsAboveRefusal barrier tree entries.now number (move_of old (path_components new.now)) refusal) }
{
    let place = new.normal();
    if is_below_barrier(entries, after, place.view(), barrier) {
        return Err(refusal_below(number, barrier));
    }
    Ok(())
}

// Returns the refusal of a move whose new path is below such a barrier.
fn refusal_below(number: usize, barrier: Barrier) -> Refusal
    ensures { result ≡ refusal_below barrier number }
{
    match barrier {
        Barrier::Files => Refusal::BelowFile(number),
        Barrier::UnreadDirectories => Refusal::BelowUnread(number),
    }
}

// Returns whether such a barrier is, after the moves, above a path.
fn is_below_barrier(
    entries: &[Entry<'_>],
    after: &PlaceIndex,
    path: NormalView<'_>,
    barrier: Barrier,
) -> bool
    ensures { (tree : List Move) → IndexesAfter tree entries.now after.now
        → MatchBool result (HasAbove (is_barrier barrier) tree entries.now (view_components path.entry))
        (¬ HasAbove (is_barrier barrier) tree entries.now (view_components path.entry)) }
{
    let mut left = path;
    while let Some(directory) = directory_above(left) {
        if has_barrier_at(entries, after, directory, barrier) {
            return true;
        }
        left = directory;
    }
    false
}

// Returns whether such a barrier is, after the moves, where a path leads.
fn has_barrier_at(
    entries: &[Entry<'_>],
    after: &PlaceIndex,
    path: NormalView<'_>,
    barrier: Barrier,
) -> bool
    ensures { (tree : List Move) → IndexesAfter tree entries.now after.now
        → MatchBool result (HasAt (is_barrier barrier) tree entries.now (view_components path.entry))
        (¬ HasAt (is_barrier barrier) tree entries.now (view_components path.entry)) }
{
    match after.get_view(path) {
        Some(number) => is_barrier_at(entries, number, barrier),
        None => false,
    }
}

// Returns whether an entry, given by its number, is such a barrier.
fn is_barrier_at(entries: &[Entry<'_>], number: usize, barrier: Barrier) -> bool
    ensures { (none : Entry) → number < length entries.now
        → result ≡ is_barrier barrier (slice_index_or entries.now number none).kind }
{
    match entries.get(number) {
        Some(entry) => is_barrier(entry.kind, barrier),
        None => false,
    }
}

// Returns whether an entry is such a barrier.
fn is_barrier(kind: Kind<'_>, barrier: Barrier) -> bool
    ensures { result ≡ trees.is_barrier barrier kind.entry }
{
    match barrier {
        Barrier::Files => is_file(kind),
        Barrier::UnreadDirectories => is_unread(kind),
    }
}

// Returns whether an entry is a file or a symbolic link.
fn is_file(kind: Kind<'_>) -> bool
    ensures { result ≡ trees.is_file kind.entry }
{
    match kind {
        Kind::Directory { .. } => false,
        Kind::File => true,
        Kind::Symlink { .. } => true,
    }
}

// Returns whether an entry is a directory that isn't read.
fn is_unread(kind: Kind<'_>) -> bool
    ensures { result ≡ trees.is_unread kind.entry }
{
    match kind {
        Kind::Directory { is_read, .. } => !is_read,
        Kind::File => false,
        Kind::Symlink { .. } => false,
    }
}
