//! A whole call of the program: its arguments, what it does, what it prints, its status.
use relative_path_links::SiteRoot;
use relmove_actions::Actions;
use relmove_arguments::{Effect, Task, moves_of_list, task_of};
use relmove_findings::{Moving, PlannedMoves, WhyRefused};
use relmove_folder::{
    Checked, LinkOptions, MentionPlaces, Page, PagesAs, PlannedPage, SearchOptions, Tree, Unread,
    check_links, has_reserved_name, mentions_of, read_tree, site_root_at, targets_of,
};
use relmove_moved::{MadeMoves, StoreBefore, keep_dead_targets};
use relmove_moving::{NewKind, moving_of, need_writable, parts_of, whole_moves};
use relmove_plan::{NameRule, Plan};
use relmove_report::report::{
    HELP, USAGE, print_changes, print_dead_link, print_dead_link_as_json, print_end, print_failure,
    print_remarks, print_remarks_as_json, remarks_of,
};
use relmove_report::summary::{
    Counts, Style, counts_of, print_checked, print_checked_as_json, print_did, print_mentions,
    print_mentions_as_json, print_moving, print_moving_as_json, print_refused, print_would,
};
use relmove_run::{
    Direction, Ended, Locked, Machine, PageText, Printable, Remark, RunFault, StoppedRun, Store,
    SystemCall, Trust, at, carry_out, directory_of, fault_of, need_no_journal_below,
    need_no_journal_near, need_no_run_files, need_possible, need_rest, resume, undo,
};
use std::alloc::{AllocError, Global};
use std::io::{self, Read, Write};

/// How a call ended.
#[derive(Clone, Copy, Debug, PartialEq, Eq)]
pub enum Status {
    /// All is done, and every link is kept.
    Kept,
    /// A link is left that would lead elsewhere, or a link is dead, or a run ended and left something to look at.
    LinksLeft,
    /// Nothing is changed.
    Refused,
    /// The call stopped in the middle.
    Stopped,
}

impl Status {
    /// The exit status of the process.
    pub fn code(self) -> u8 {
        match self {
            Status::Kept => 0,
            Status::LinksLeft => 1,
            Status::Refused => 2,
            Status::Stopped => 3,
        }
    }
}

const VERSION: &str = "relmove 0.2.0\n";

/// Does what a call with these arguments asks for. The name of the program isn't among the arguments. The input is read
/// only if `--moves -` is there.
pub fn answer<R: Machine, I: Read, O: Write, E: Write>(
    runtime: &R,
    words: &[&str],
    input: &mut I,
    out: &mut O,
    errors: &mut E,
) -> Status {
    match task_of(runtime.alloc(), words) {
        Ok(command) => obey(runtime, command, input, out, errors),
        Err(wrong) => {
            // If standard error fails, there is nowhere to report it.
            let _ = write!(errors, "relmove: {wrong}\n{USAGE}");
            Status::Refused
        }
    }
}

// Does what a command asks for.
fn obey<R: Machine, I: Read, O: Write, E: Write>(
    runtime: &R,
    command: Task<'_>,
    input: &mut I,
    out: &mut O,
    errors: &mut E,
) -> Status {
    match command {
        Task::Help => {
            let outcome = write!(out, "{USAGE}{HELP}");
            print_status(outcome, Status::Kept, out)
        }
        Task::Version => {
            let outcome = write!(out, "{VERSION}");
            print_status(outcome, Status::Kept, out)
        }
        Task::Check {
            root,
            excluded,
            fragments,
            pages_as,
            site_root,
            json,
            verbose,
        } => {
            let options = CheckOptions {
                excluded: &excluded,
                fragments,
                pages_as,
                site_root,
                json,
                verbose,
            };
            check(runtime, root, options, out, errors)
        }
        Task::End {
            root,
            direction,
            effect,
        } => end_run(runtime, root, (direction, effect), out, errors),
        Task::Move {
            root,
            moves,
            list,
            made,
            into,
            excluded,
            site_root,
            pages_as,
            write,
            json,
            verbose,
            quiet_mentions,
            rule,
        } => {
            let options = MoveOptions {
                kind: new_kind(into, made),
                made,
                excluded: &excluded,
                site_root,
                pages_as,
                write,
                json,
                verbose,
                quiet_mentions,
                rule,
            };
            move_below(runtime, root, (&moves, list), options, input, out, errors)
        }
    }
}

// What each NEW is. Where the files have moved already, a directory NEW may be OLD itself.
fn new_kind(into: bool, made: bool) -> NewKind {
    match (into, made) {
        (true, _) => NewKind::Directory,
        (false, true) => NewKind::Whole,
        (false, false) => NewKind::AsFound,
    }
}

// The options of a call that checks links.
#[derive(Clone, Copy)]
struct CheckOptions<'a> {
    excluded: &'a [&'a str],
    fragments: bool,
    pages_as: Option<PagesAs>,
    site_root: Option<&'a str>,
    json: bool,
    verbose: bool,
}

// The options of a call that moves files.
#[derive(Clone, Copy)]
struct MoveOptions<'a> {
    kind: NewKind,
    made: bool,
    excluded: &'a [&'a str],
    site_root: Option<&'a str>,
    pages_as: Option<PagesAs>,
    write: bool,
    json: bool,
    verbose: bool,
    quiet_mentions: bool,
    rule: NameRule,
}

impl MoveOptions<'_> {
    // How the plan is printed.
    fn style(&self) -> Style {
        Style {
            verbose: self.verbose,
            made: self.made,
        }
    }
}

// Moves files below a root, or prints what would change. The words of the call have the moves, or a file has them.
fn move_below<'m, R: Machine, I: Read, O: Write, E: Write>(
    runtime: &R,
    root: &str,
    (moves, list): (&[(&'m str, &'m str)], Option<&str>),
    options: MoveOptions<'_>,
    input: &mut I,
    out: &mut O,
    errors: &mut E,
) -> Status {
    let moved = match list {
        None => move_all(runtime, root, moves, options, out, errors),
        Some(file) => move_listed(runtime, root, file, options, input, out, errors),
    };
    match moved {
        Ok(status) | Err(CallEnd::Status(status)) => status,
        Err(CallEnd::RunFault(fault)) => refuse(root, &fault, errors),
    }
}

// Moves files, or prints what would change.
fn move_all<'m, R: Machine, O: Write, E: Write>(
    runtime: &R,
    root: &str,
    moves: &[(&'m str, &'m str)],
    options: MoveOptions<'_>,
    out: &mut O,
    errors: &mut E,
) -> Result<Status, CallEnd> {
    if options.write {
        move_and_write(runtime, root, moves, options, out, errors)
    } else {
        move_and_print(runtime, root, moves, options, out, errors)
    }
}

// The name of the list on standard input.
const STANDARD_INPUT: &str = "-";

// Moves files, or prints what would change, by a list of moves.
fn move_listed<R: Machine, I: Read, O: Write, E: Write>(
    runtime: &R,
    root: &str,
    file: &str,
    options: MoveOptions<'_>,
    input: &mut I,
    out: &mut O,
    errors: &mut E,
) -> Result<Status, CallEnd> {
    let alloc = runtime.alloc();
    let name = if file == STANDARD_INPUT {
        "standard input"
    } else {
        file
    };
    let bytes = at(
        alloc,
        SystemCall::Read,
        name,
        bytes_of_list(runtime, file, input),
    )?;
    let Ok(text) = String::from_utf8(bytes) else {
        let name = Printable(name);
        let _ = writeln!(errors, "relmove: {name}: it isn't UTF-8");
        return Err(CallEnd::Status(Status::Refused));
    };
    match moves_of_list(alloc, text.as_str()) {
        Ok(listed) => {
            let moves = texts_of(alloc, &listed)?;
            move_all(runtime, root, &moves, options, out, errors)
        }
        Err(wrong) => {
            let name = Printable(name);
            let _ = writeln!(errors, "relmove: {name}: {wrong}");
            Err(CallEnd::Status(Status::Refused))
        }
    }
}

// The bytes of a list of moves.
fn bytes_of_list<R: Machine, I: Read>(
    runtime: &R,
    file: &str,
    input: &mut I,
) -> io::Result<Vec<u8>> {
    if file == STANDARD_INPUT {
        let mut bytes = Vec::new(runtime.alloc());
        input.read_to_end(&mut bytes)?;
        return Ok(bytes);
    }
    let mut store = runtime.store_at(file)?;
    store.read("")
}

// The paths of moves, as texts.
fn texts_of<'a>(
    alloc: Global,
    moves: &'a [(String, String)],
) -> Result<Vec<(&'a str, &'a str)>, AllocError> {
    let mut texts = Vec::with_capacity(alloc, moves.len())?;
    for (old, new) in moves {
        texts.push((old.as_str(), new.as_str()))?;
    }
    Ok(texts)
}

// Why a call ends before its end.
#[derive(Drop)]
enum CallEnd {
    // A fault, of which nothing is printed yet.
    RunFault(RunFault),
    // The reason is printed, and this is the call's status.
    Status(Status),
}

impl From<RunFault> for CallEnd {
    fn from(fault: RunFault) -> CallEnd {
        CallEnd::RunFault(fault)
    }
}

impl From<AllocError> for CallEnd {
    fn from(_: AllocError) -> CallEnd {
        CallEnd::RunFault(RunFault::OutOfMemory)
    }
}

// Prints what moves would change.
fn move_and_print<'m, R: Machine, O: Write, E: Write>(
    runtime: &R,
    root: &str,
    moves: &[(&'m str, &'m str)],
    options: MoveOptions<'_>,
    out: &mut O,
    errors: &mut E,
) -> Result<Status, CallEnd> {
    let alloc = runtime.alloc();
    let mut store = runtime.store_at(root)?;
    let mut near = need_rest(&mut store)?;
    let tree = read_whole(&mut store, options.excluded, &mut near, errors)?;
    let whole = whole_moves(alloc, &tree, moves, options.kind)?;
    let moves = texts_of(alloc, &whole)?;
    let made = made_moves(&store, &tree, &moves, options, errors)?;
    let tree = tree_before(alloc, tree, &made)?;
    let (mut planned, actions) = plan_any(&mut store, &tree, &moves, &made, options, errors)?;
    let possible = need_run(&mut store, &tree, actions);
    let (counts, status) = report_any(
        &mut store,
        &tree,
        &moves,
        &made,
        &mut planned,
        options,
        out,
        errors,
    )?;
    possible?;
    let outcome = print_rest(alloc, root, &near, counts, options, out);
    let status = if near.is_empty() {
        status
    } else {
        status_without_fault(&near)
    };
    Ok(print_status(outcome, status, out))
}

// Fails if a run of these actions can't do them, as far as that can be asked before it. The actions, with the new texts of pages,
// are gone then.
fn need_run<S: Store>(store: &mut S, tree: &Tree, actions: Actions) -> Result<(), RunFault> {
    need_writable(store, tree, &actions)?;
    need_possible(store, &actions)
}

// Prints the journals of other users near, and in words how much a run would change.
fn print_rest<O: Write>(
    alloc: Global,
    root: &str,
    near: &[Remark],
    counts: Counts,
    options: MoveOptions<'_>,
    out: &mut O,
) -> io::Result<()> {
    if options.json {
        return print_remarks_as_json(alloc, out, near);
    }
    print_remarks(out, root, near)?;
    print_would(out, counts)
}

// Moves files.
fn move_and_write<'m, R: Machine, O: Write, E: Write>(
    runtime: &R,
    root: &str,
    moves: &[(&'m str, &'m str)],
    options: MoveOptions<'_>,
    out: &mut O,
    errors: &mut E,
) -> Result<Status, CallEnd> {
    let alloc = runtime.alloc();
    let mut locked = lock(runtime, root)?;
    need_no_run_files(locked.store())?;
    // The run names these at its end.
    let mut near = need_no_journal_near(locked.store(), &[])?;
    let tree = read_whole(locked.store(), options.excluded, &mut near, errors)?;
    let whole = whole_moves(alloc, &tree, moves, options.kind)?;
    let moves = texts_of(alloc, &whole)?;
    let made = made_moves(locked.store(), &tree, &moves, options, errors)?;
    let tree = tree_before(alloc, tree, &made)?;
    let (mut planned, actions) = plan_any(locked.store(), &tree, &moves, &made, options, errors)?;
    let done = report_any(
        locked.store(),
        &tree,
        &moves,
        &made,
        &mut planned,
        options,
        out,
        errors,
    )?;
    need_writable(locked.store(), &tree, &actions)?;
    let pages = pages_of(planned);
    let Tree {
        pages: read,
        directories,
        ..
    } = tree;
    let read = if options.made {
        at_new_paths(alloc, read, &pages)?
    } else {
        read
    };
    let texts = old_texts(alloc, &read, &pages)?;
    let directories = directories_of(alloc, &directories)?;
    let ended = if is_nothing(&actions) {
        Ended::Done(near)
    } else {
        carry_out(locked, actions, &texts, &directories)
    };
    Ok(print_run(alloc, root, &ended, done, options, out, errors))
}

// The pages after moves.
fn pages_of(planned: PlannedMoves<'_, '_>) -> Vec<PlannedPage> {
    planned.pages
}

// Pages that were read, with their paths after moves.
fn at_new_paths(
    alloc: Global,
    mut read: Vec<Page>,
    pages: &[PlannedPage],
) -> Result<Vec<Page>, AllocError> {
    let mut number = 0usize;
    for page in read.iter_mut() {
        if let Some(new) = pages.get(number) {
            page.path = String::from_str(alloc, new.path.as_relative_path().as_str())?;
        }
        number = number.saturating_add(1);
    }
    Ok(read)
}

// Whether a run has nothing to do.
fn is_nothing(actions: &Actions) -> bool {
    actions.staged.is_empty()
}

// Returns the moves that were made before the call, if they were.
fn made_moves<'m, S: Store, E: Write>(
    store: &S,
    tree: &Tree,
    moves: &[(&'m str, &'m str)],
    options: MoveOptions<'_>,
    errors: &mut E,
) -> Result<Option<MadeMoves<'m>>, CallEnd> {
    if !options.made {
        return Ok(None);
    }
    match MadeMoves::of(store.alloc(), tree, moves) {
        Ok(made) => Ok(Some(made)),
        Err(why) => Err(refuse_moves(store, tree, moves, &why, errors)),
    }
}

// The tree before the moves.
fn tree_before(
    alloc: Global,
    tree: Tree,
    made: &Option<MadeMoves<'_>>,
) -> Result<Tree, AllocError> {
    match made {
        Some(made) => made.tree_before(alloc, tree),
        None => Ok(tree),
    }
}

// Prints why moves are refused, and returns the end of the call.
fn refuse_moves<S: Store, E: Write>(
    store: &S,
    tree: &Tree,
    moves: &[(&str, &str)],
    why: &WhyRefused,
    errors: &mut E,
) -> CallEnd {
    let _ = print_refused(errors, store, tree, moves, why);
    CallEnd::Status(Status::Refused)
}

// Plans moves, also those that were made before the call.
fn plan_any<'a, 'm, S: Store, E: Write>(
    store: &mut S,
    tree: &'a Tree,
    moves: &[(&'m str, &'m str)],
    made: &Option<MadeMoves<'m>>,
    options: MoveOptions<'_>,
    errors: &mut E,
) -> Result<(PlannedMoves<'a, 'm>, Actions), CallEnd> {
    match made {
        Some(made) => {
            let mut before = StoreBefore::new(store, made);
            plan(&mut before, tree, moves, Some(made), options, errors)
        }
        None => plan(store, tree, moves, None, options, errors),
    }
}

// What moves do, with other actions.
fn with_actions<'a, 'm>(moving: Moving<'a, 'm>, actions: Actions) -> Moving<'a, 'm> {
    let Moving {
        plan,
        left,
        lost,
        shown,
    } = moving;
    let Plan {
        moves,
        pages,
        symlinks,
        ..
    } = plan;
    Moving {
        plan: Plan {
            moves,
            pages,
            symlinks,
            actions,
        },
        left,
        lost,
        shown,
    }
}

// Plans moves. Returns what they do, and the actions of their run.
fn plan<'a, 'm, S: Store, E: Write>(
    store: &mut S,
    tree: &'a Tree,
    moves: &[(&'m str, &'m str)],
    made: Option<&MadeMoves<'m>>,
    options: MoveOptions<'_>,
    errors: &mut E,
) -> Result<(PlannedMoves<'a, 'm>, Actions), CallEnd> {
    let root = need_site_root(store, tree, options.site_root, errors)?;
    let moving = match moving_of(store, tree, &root, options.pages_as, moves, options.rule) {
        Ok(moving) => moving,
        Err(why) => return Err(refuse_moves(store, tree, moves, &why, errors)),
    };
    let moving = match made {
        Some(made) => moving_now(store, tree, moves, made, moving, errors)?,
        None => moving,
    };
    Ok(parts_of(store.alloc(), moving)?)
}

// What moves do that were made before the call: dead targets stay, and of the actions only the new texts of pages are left.
fn moving_now<'a, 'm, S: Store, E: Write>(
    store: &mut S,
    tree: &Tree,
    moves: &[(&str, &str)],
    made: &MadeMoves<'_>,
    mut moving: Moving<'a, 'm>,
    errors: &mut E,
) -> Result<Moving<'a, 'm>, CallEnd> {
    keep_dead(store, tree, &mut moving)?;
    match made.actions_now(store.alloc(), tree, &moving.plan.pages) {
        Ok(actions) => Ok(with_actions(moving, actions)),
        Err(refusal) => {
            let why = WhyRefused::Plan(refusal);
            Err(refuse_moves(store, tree, moves, &why, errors))
        }
    }
}

// Keeps the dead targets of the pages of a plan.
fn keep_dead<S: Store>(
    store: &mut S,
    tree: &Tree,
    moving: &mut Moving<'_, '_>,
) -> Result<(), RunFault> {
    keep_dead_targets(store, tree, &moving.shown, &mut moving.plan.pages)
}

// The root of the site, by its path from the root. Fails if no directory is there.
fn need_site_root<S: Store, E: Write>(
    store: &S,
    tree: &Tree,
    path: Option<&str>,
    errors: &mut E,
) -> Result<SiteRoot, CallEnd> {
    match site_root_at(store.alloc(), tree, path)? {
        Some(root) => Ok(root),
        None => {
            let (root, path) = (Printable(store.root()), Printable(path.unwrap_or("")));
            let _ = writeln!(
                errors,
                "relmove: {root}: {path} after --site-root is no directory"
            );
            Err(CallEnd::Status(Status::Refused))
        }
    }
}

// Prints what moves do, also those that were made before the call. Returns what is counted of it, and the status of a run that
// does all of it.
fn report_any<'m, S: Store, O: Write, E: Write>(
    store: &mut S,
    tree: &Tree,
    moves: &[(&'m str, &'m str)],
    made: &Option<MadeMoves<'m>>,
    planned: &mut PlannedMoves<'_, 'm>,
    options: MoveOptions<'_>,
    out: &mut O,
    errors: &mut E,
) -> Result<(Counts, Status), CallEnd> {
    match made {
        Some(made) => {
            let mut before = StoreBefore::new(store, made);
            report(&mut before, tree, moves, planned, options, out, errors)
        }
        None => report(store, tree, moves, planned, options, out, errors),
    }
}

// Prints what moves do. Returns what is counted of it, and the status of a run that does all of it.
fn report<S: Store, O: Write, E: Write>(
    store: &mut S,
    tree: &Tree,
    moves: &[(&str, &str)],
    planned: &mut PlannedMoves<'_, '_>,
    options: MoveOptions<'_>,
    out: &mut O,
    errors: &mut E,
) -> Result<(Counts, Status), CallEnd> {
    let counts = counts_of(store.alloc(), tree, moves, planned, options.made)?;
    let mentions = asked_mentions(store, tree, planned, options)?;
    print_unread_files(&mentions.unread, errors);
    if print_plan(store, tree, planned, &mentions, options, out).is_err() {
        return Err(CallEnd::Status(Status::Refused));
    }
    Ok((counts, status_of_moving(tree, moves, planned, &mentions)))
}

// Finds where the old paths of moves are written, if the call asks for it. Of the targets only those with a new text are left
// then.
fn asked_mentions<S: Store>(
    store: &mut S,
    tree: &Tree,
    planned: &mut PlannedMoves<'_, '_>,
    options: MoveOptions<'_>,
) -> Result<MentionPlaces, RunFault> {
    let alloc = store.alloc();
    if options.quiet_mentions {
        return Ok(MentionPlaces::new(alloc, planned.moves.moves())?);
    }
    let options = SearchOptions {
        excluded: options.excluded,
        made: options.made,
        shown: &planned.shown,
        site_root: options.site_root,
        pages_as: options.pages_as,
    };
    let targets = targets_of(alloc, tree, &planned.moves, &planned.pages, options)?;
    forget_kept_targets(alloc, &mut planned.pages)?;
    mentions_of(store, tree, &planned.moves, &targets, options)
}

// Forgets the targets of pages that stay.
fn forget_kept_targets(alloc: Global, pages: &mut [PlannedPage]) -> Result<(), AllocError> {
    for page in pages.iter_mut() {
        page.forget_kept_targets(alloc)?;
    }
    Ok(())
}

// The directories below the root that were read, as texts.
fn directories_of(alloc: Global, read: &[String]) -> Result<Vec<&str>, AllocError> {
    let mut directories = Vec::with_capacity(alloc, read.len())?;
    for directory in read {
        directories.push(directory.as_str())?;
    }
    Ok(directories)
}

// The pages that change, with their texts before.
fn old_texts<'a>(
    alloc: Global,
    read: &'a [Page],
    pages: &[PlannedPage],
) -> Result<Vec<PageText<'a>>, AllocError> {
    let mut texts = Vec::new(alloc);
    for (page, new) in read.iter().zip(pages) {
        if new.is_changed {
            texts.push(PageText {
                path: page.path.as_str(),
                text: page.text.as_str(),
                file: page.file,
            })?;
        }
    }
    Ok(texts)
}

// Prints why a call is refused.
fn refuse<E: Write>(root: &str, fault: &RunFault, errors: &mut E) -> Status {
    let root = Printable(root);
    let _ = writeln!(errors, "relmove: {root}: {fault}");
    Status::Refused
}

// The status of a run that does all of the plan. A page whose links aren't read may have one that is left.
fn status_of_moving(
    tree: &Tree,
    moves: &[(&str, &str)],
    planned: &PlannedMoves<'_, '_>,
    mentions: &MentionPlaces,
) -> Status {
    let keeps_symlinks = planned.symlinks.is_empty() && planned.lost.is_empty();
    let reads_links = moves.is_empty() || tree.not_text.is_empty() && tree.with_base.is_empty();
    let keeps_links = mentions.places.is_empty() && !planned.left.iter().any(|link| link.leads);
    if keeps_symlinks && reads_links && keeps_links {
        Status::Kept
    } else {
        Status::LinksLeft
    }
}

// Prints what moves do.
fn print_plan<S: Store, O: Write>(
    store: &S,
    tree: &Tree,
    planned: &PlannedMoves<'_, '_>,
    mentions: &MentionPlaces,
    options: MoveOptions<'_>,
    out: &mut O,
) -> io::Result<()> {
    let moves = planned.moves.moves();
    if options.json {
        print_moving_as_json(store.alloc(), out, tree, planned, options.style())?;
        print_mentions_as_json(store.alloc(), out, moves, mentions)?;
    } else {
        print_moving(out, store, tree, planned, options.style())?;
        print_mentions(out, store.root(), moves, mentions)?;
    }
    out.flush()
}

// Prints how a run ended: how many files it moved, if it did all of its plan. Returns the status of the call.
fn print_run<O: Write, E: Write>(
    alloc: Global,
    root: &str,
    ended: &Ended,
    (counts, status): (Counts, Status),
    options: MoveOptions<'_>,
    out: &mut O,
    errors: &mut E,
) -> Status {
    if options.json {
        return end_in_json(alloc, ended, root, status, out, errors);
    }
    if !is_done_whole(ended) {
        return end(ended, root, out, errors);
    }
    // The work is done, whether this is printed or not.
    let _ = print_did(out, counts);
    let _ = out.flush();
    status
}

// Prints in JSON what a run left, and in words on standard error why it failed. Returns the status of the call.
fn end_in_json<O: Write, E: Write>(
    alloc: Global,
    ended: &Ended,
    root: &str,
    status: Status,
    out: &mut O,
    errors: &mut E,
) -> Status {
    // The work is done or not, whether this is printed or not.
    let _ = print_remarks_as_json(alloc, out, remarks_of(ended));
    let _ = out.flush();
    let _ = print_failure(errors, root, ended);
    if is_done_whole(ended) {
        status
    } else {
        status_of(ended)
    }
}

// Whether a run did all of its plan, and has nothing to say.
fn is_done_whole(ended: &Ended) -> bool {
    match ended {
        Ended::Done(remarks) => remarks.is_empty(),
        _ => false,
    }
}

// The tree below a root. Fails if a directory in it has a journal of the root's owner: a name of relmove's own there is its
// run's. Adds the journals of other users in it to those that are near.
fn read_whole<S: Store, E: Write>(
    store: &mut S,
    excluded: &[&str],
    near: &mut Vec<Remark>,
    errors: &mut E,
) -> Result<Tree, RunFault> {
    let alloc = store.alloc();
    let tree = read_tree(store, excluded)?;
    for remark in need_no_journal_below(store, &directories_of(alloc, &tree.directories)?)? {
        near.push(remark)?;
    }
    print_unread(store.root(), &tree, near, errors);
    Ok(tree)
}

// Whether what is at a path is in a directory that has one of these journals.
fn is_beside_journal(journals: &[Remark], path: &str) -> bool {
    let directory = directory_of(path);
    journals.iter().any(|remark| match remark {
        Remark::Near { path, .. } => directory_of(path.as_str()) == directory,
        _ => false,
    })
}

// The status of a call that only prints: this one, unless that failed.
fn print_status<O: Write>(outcome: io::Result<()>, status: Status, out: &mut O) -> Status {
    if outcome.is_err() || out.flush().is_err() {
        return Status::Refused;
    }
    status
}

// Prints the dead links.
fn check<R: Machine, O: Write, E: Write>(
    runtime: &R,
    root: &str,
    options: CheckOptions<'_>,
    out: &mut O,
    errors: &mut E,
) -> Status {
    match find_dead_links(runtime, root, options, errors) {
        Ok(checked) => {
            let outcome = print_links(runtime.alloc(), root, options, &checked, out);
            print_status(outcome, status_of_links(&checked), out)
        }
        Err(CallEnd::Status(status)) => status,
        Err(CallEnd::RunFault(fault)) => refuse(root, &fault, errors),
    }
}

// The status of a check of these links.
fn status_of_links(checked: &Checked) -> Status {
    if checked.dead.is_empty() {
        Status::Kept
    } else {
        Status::LinksLeft
    }
}

// Checks the links below a root.
fn find_dead_links<R: Machine, E: Write>(
    runtime: &R,
    root: &str,
    options: CheckOptions<'_>,
    errors: &mut E,
) -> Result<Checked, CallEnd> {
    let mut store = runtime.store_at(root)?;
    let mut near = need_rest(&mut store)?;
    let tree = read_whole(&mut store, options.excluded, &mut near, errors)?;
    let _ = print_remarks(errors, root, &near);
    let site_root = need_site_root(&store, &tree, options.site_root, errors)?;
    let options = LinkOptions {
        root: &site_root,
        pages_as: options.pages_as,
        fragments: options.fragments,
    };
    Ok(check_links(&mut store, &tree, options)?)
}

// Prints what isn't read, and what has a name of relmove's own beside none of these journals.
fn print_unread<E: Write>(root: &str, tree: &Tree, journals: &[Remark], errors: &mut E) {
    for path in &tree.not_text {
        let path = Printable(path.as_str());
        let _ = writeln!(errors, "relmove: {path} isn't UTF-8, and isn't read");
    }
    for path in &tree.with_base {
        let path = Printable(path.as_str());
        let _ = writeln!(
            errors,
            "relmove: {path} has a <base href>, and its links aren't read"
        );
    }
    print_unread_files(&tree.unread, errors);
    for path in &tree.unreadable_names {
        let path = if path.is_empty() { root } else { path.as_str() };
        let path = Printable(path);
        let _ = writeln!(
            errors,
            "relmove: a name in the directory {path} can't be read, or isn't UTF-8"
        );
    }
    for path in tree.entries.keys() {
        if has_reserved_name(path.as_str()) && !is_beside_journal(journals, path.as_str()) {
            let path = Printable(path.as_str());
            let _ = writeln!(
                errors,
                "relmove: {path} has a name of relmove's own, and there is no run to which it belongs"
            );
        }
    }
}

// Prints the files that aren't read, and why.
fn print_unread_files<E: Write>(files: &[Unread], errors: &mut E) {
    for unread in files {
        let (path, why) = (Printable(unread.path.as_str()), unread.why.as_str());
        let _ = writeln!(errors, "relmove: {path} isn't read: {why}");
    }
}

// Prints dead links, and how much was read, if the call asks for it.
fn print_links<O: Write>(
    alloc: Global,
    root: &str,
    options: CheckOptions<'_>,
    checked: &Checked,
    out: &mut O,
) -> io::Result<()> {
    for link in &checked.dead {
        if options.json {
            print_dead_link_as_json(alloc, out, link)?;
        } else {
            print_dead_link(out, root, link)?;
        }
    }
    match (options.verbose, options.json) {
        (false, _) => Ok(()),
        (true, false) => print_checked(out, checked),
        (true, true) => print_checked_as_json(alloc, out, checked),
    }
}

// Ends a run that stopped.
fn end_run<R: Machine, O: Write, E: Write>(
    runtime: &R,
    root: &str,
    (direction, effect): (Direction, Option<Effect>),
    out: &mut O,
    errors: &mut E,
) -> Status {
    let ended = match effect {
        None => end_of_this_folder(runtime, root, direction),
        Some(effect) => match end_of_any_folder(runtime, root, direction, effect, out) {
            Ok(Some(ended)) => Ok(ended),
            Ok(None) => return print_status(Ok(()), Status::Kept, out),
            Err(fault) => Err(fault),
        },
    };
    match &ended {
        Ok(ended) => end(ended, root, out, errors),
        Err(fault) => refuse(root, fault, errors),
    }
}

// Ends a run that stopped, if its journal was written in this folder.
fn end_of_this_folder<R: Machine>(
    runtime: &R,
    root: &str,
    direction: Direction,
) -> Result<Ended, RunFault> {
    let locked = lock(runtime, root)?;
    Ok(match direction {
        Direction::Resume => resume(locked, Trust::ThisFolder),
        Direction::Undo => undo(locked, Trust::ThisFolder),
    })
}

// Prints the changes that the end of a run makes, wherever its journal was written, and makes them, if the call is to.
fn end_of_any_folder<R: Machine, O: Write>(
    runtime: &R,
    root: &str,
    direction: Direction,
    effect: Effect,
    out: &mut O,
) -> Result<Option<Ended>, RunFault> {
    let mut locked = lock(runtime, root)?;
    let run = StoppedRun::read(&mut locked, Trust::AnyFolder)?;
    let changes = run.changes(runtime.alloc(), direction)?;
    // A call that can't print them must not make them.
    if let Err(error) = print_changes(out, root, &changes) {
        return Err(fault_of(runtime.alloc(), SystemCall::Write, "the output", &error));
    }
    match effect {
        Effect::Print => Ok(None),
        Effect::Write => Ok(Some(run.end(locked, direction))),
    }
}

// Takes the lock of a root.
fn lock<R: Machine>(runtime: &R, root: &str) -> Result<Locked<R::Store>, RunFault> {
    Locked::new(runtime.store_at(root)?)
}

// Prints how a run ended.
fn end<O: Write, E: Write>(ended: &Ended, root: &str, out: &mut O, errors: &mut E) -> Status {
    // The work is done or not, whether this is printed or not.
    let _ = if has_fault(ended) {
        print_end(errors, root, ended)
    } else {
        print_end(out, root, ended)
    };
    let _ = out.flush();
    status_of(ended)
}

// Whether a run didn't end as it was to.
fn has_fault(ended: &Ended) -> bool {
    match ended {
        Ended::Done(_) => false,
        Ended::TakenBack { cause, .. } => cause.is_some(),
        Ended::Refused(_) => true,
        Ended::Stopped { .. } => true,
    }
}

// The status of a run.
fn status_of(ended: &Ended) -> Status {
    match ended {
        Ended::Done(remarks) => status_without_fault(remarks),
        Ended::TakenBack {
            cause: Some(_),
            remarks,
        } if remarks.is_empty() => Status::Refused,
        Ended::TakenBack { remarks, .. } => status_without_fault(remarks),
        Ended::Refused(_) => Status::Refused,
        Ended::Stopped { .. } => Status::Stopped,
    }
}

// The status of a run that ended, with these remarks.
fn status_without_fault(remarks: &[Remark]) -> Status {
    if remarks.is_empty() {
        Status::Kept
    } else {
        Status::LinksLeft
    }
}
