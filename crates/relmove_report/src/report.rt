//! What a call prints.
use relmove_folder::{DeadLink, Position, WhyDead};
use relmove_run::{Change, Ended, Printable, Remark, RunFault, Stage};
use serde_json::json;
use std::alloc::{AllocError, Global};
use std::io::{self, Write};

/// The usage of the program.
pub const USAGE: &str =
    "usage: relmove [--write] [--json] [--verbose] [--any-name] [--moved] [--quiet-mentions] [--exclude PATH]... [--site-root DIR] [--pages-as FORM] ROOT OLD NEW [OLD NEW]...
       relmove [--write] [--json] [--verbose] [--any-name] [--moved] [--quiet-mentions] [--exclude PATH]... [--site-root DIR] [--pages-as FORM] --into DIR ROOT OLD...
       relmove [--write] [--json] [--verbose] [--any-name] [--moved] [--quiet-mentions] [--exclude PATH]... [--site-root DIR] [--pages-as FORM] --moves FILE ROOT
       relmove --check [--fragments] [--json] [--verbose] [--exclude PATH]... [--site-root DIR] [--pages-as FORM] ROOT
       relmove --resume [--trust-journal [--write]] ROOT
       relmove --undo [--trust-journal [--write]] ROOT
       relmove --help | --version
";

/// The help of the program, after its usage.
pub const HELP: &str = "
Moves files and directories below the directory ROOT, and changes the relative links of the pages below ROOT, so that
each such link still leads to the file to which it led. OLD and NEW are paths below ROOT. If NEW is a directory that is
there and doesn't move itself, OLD moves into it, and so does a file if NEW ends in a slash. Else NEW is the whole new
path. Nothing that is there is replaced. Missing directories are made. Without --write nothing is changed, and the
output says what would be changed.

  --write     move the files, and write the pages; a page that changes loses its access control list and its extended
              attributes: relmove --write docs old.md new.md
  --json      print an object of JSON on each line: relmove --json --check docs
  --verbose   print each old and new target, and with --check how much was read: relmove --check --verbose docs
  --any-name  allow a NEW that isn't a plain name on every platform: relmove --any-name docs old.md aux.md
  --into DIR  move each OLD into DIR, a path below ROOT, or . for ROOT: relmove --into img docs a.png guide/b.png
  --moved     only change the pages, since the files have moved already: relmove --moved --write docs old.md new.md
  --moves FILE
              take OLD, a tab and NEW from each line of FILE, or of standard input if FILE is -, or a rename as git says it:
              git -C docs diff --relative -M --name-status HEAD | relmove --moved --moves - --write docs
  --exclude PATH
              read no page at or below PATH, a path below ROOT: relmove --exclude api --check docs
  --site-root DIR
              read links that begin with one slash too, from DIR, a directory below ROOT, or . for ROOT:
              relmove --site-root content site content/a.md content/guide/a.md
  --quiet-mentions
              don't print where an old path is written in code, in other files or in links that aren't read:
              relmove --quiet-mentions docs old.md new.md
  --check     print each relative link of a page that leads above ROOT, or to a path below ROOT where nothing is:
              relmove --check docs
  --fragments with --check: print a link to a page too whose fragment no heading and no element of HTML has as its name:
              relmove --check --fragments docs
  --pages-as FORM
              a link to a.html (html), a/ (dir) or a (bare), where nothing is, leads to the page a.md, since the site shows
              it so: relmove --pages-as html docs a.md b.md
  --resume    end a run that stopped: the run goes on, or, if it was going back, it goes back: relmove --resume docs
  --undo      take back a run that stopped before everything was at its new path: relmove --undo docs
  --trust-journal
              with --resume or --undo: believe a journal that was written in another folder, of which ROOT is a copy;
              print what it asks for, and do it only with --write: relmove --undo --trust-journal copy
  --          the words after it are paths, also if they begin with -: relmove docs -- -old.md new.md

Pages are the files below ROOT whose names end in .md or .markdown, in any case, and that are UTF-8. Pages with a name
in their path that begins with a dot, other than .github, are neither read nor changed. Links are those of Markdown,
and the attributes href and src of HTML in a page. The links of a page with a <base href> aren't read. A link that
begins with a slash is read with --site-root alone: it leads from DIR, which has one path before and after the moves,
and begins with a slash again. Other files aren't changed. Where a page, or a file whose name ends in .html, .mdx, .rst,
.adoc, .txt, .yml, .yaml, .toml or .json, has the path of what moves and no link that is read, a line says so. Fragments
are checked only with --fragments. Symbolic links aren't followed.

A directory that a run leaves empty is removed, and a link of a page that leads to it is printed. A run with --write
first locks ROOT and writes the file ROOT/.relmove, its journal. The run gives all that moves and all pages that change
names in its own directory, ROOT/.relmove-run, and then their new paths. At its end the run removes both. If a run stops
in the middle, also by a loss of power, --resume or --undo ends this run, and no file is lost. One thing isn't safe:
another program that puts a file at a path while relmove renames a file to it. A text that somebody changes during the
run is kept, and printed.

Exit status: 0 if all is done, 1 if a link is left that led to a file, or may have, or if a page isn't UTF-8 or has a
<base href>, or if an old path is written outside the links that are read, or if a symbolic link moves or leads to what
moves, or if a run left something to look at, such as a text that was changed during the run (with --check: if a link is
dead), 2 if the call was wrong or failed and nothing was changed, 3 if a run stopped in the middle.
";

/// Prints a dead link: page, line, column, target and why it is dead.
pub fn print_dead_link<W: Write>(out: &mut W, root: &str, link: &DeadLink) -> io::Result<()> {
    let DeadLink {
        page,
        position,
        target,
        why,
    } = link;
    let Position { line, column } = *position;
    let separator = if root.is_empty() || root.ends_with('/') {
        ""
    } else {
        "/"
    };
    let words = why.words();
    let (root, page) = (Printable(root), Printable(page.as_str()));
    let target = Printable(target.as_str());
    write!(
        out,
        "{root}{separator}{page}:{line}:{column}: {target}: {words}"
    )?;
    if let WhyDead::Missing { page: Some(page) } = why {
        let page = Printable(page.as_str());
        write!(out, ", but {page} is")?;
    }
    writeln!(out)
}

/// Prints a dead link as an object of JSON on a line.
pub fn print_dead_link_as_json<W: Write>(
    alloc: Global,
    out: &mut W,
    link: &DeadLink,
) -> io::Result<()> {
    let page = link.page.as_str();
    let target = link.target.as_str();
    let with_page = words_with_page(alloc, &link.why)?;
    let why = match &with_page {
        Some(words) => words.as_str(),
        None => link.why.words(),
    };
    let Position { line, column } = link.position;
    let (line, column) = (line as u64, column as u64);
    let object = json!(in alloc; {
        "page": page,
        "line": line,
        "column": column,
        "target": target,
        "why": why
    })?;
    let text = object.to_string(alloc)?;
    writeln!(out, "{text}")
}

// Why a link is dead, in words, if a page is there that it may mean.
fn words_with_page(alloc: Global, why: &WhyDead) -> Result<Option<String>, AllocError> {
    let WhyDead::Missing { page: Some(page) } = why else {
        return Ok(None);
    };
    let words = why.words();
    Ok(Some(format!(in alloc; "{words}, but {page} is")?))
}

/// Prints the changes that the end of a run makes.
pub fn print_changes<W: Write>(out: &mut W, root: &str, changes: &[Change]) -> io::Result<()> {
    let root = Printable(root);
    for change in changes {
        writeln!(out, "{root}: {change}")?;
    }
    out.flush()
}

/// What a run left.
pub fn remarks_of(ended: &Ended) -> &[Remark] {
    match ended {
        Ended::Done(remarks) => remarks,
        Ended::TakenBack { remarks, .. } => remarks,
        Ended::Stopped { remarks, .. } => remarks,
        Ended::Refused(_) => &[],
    }
}

/// Prints why a run didn't end as it was to, without what it left.
pub fn print_failure<W: Write>(out: &mut W, root: &str, ended: &Ended) -> io::Result<()> {
    match ended {
        Ended::Done(_) => Ok(()),
        Ended::TakenBack { cause, remarks } => {
            if let Some(cause) = cause {
                print_fault(out, root, cause)?;
            }
            if remarks.is_empty() {
                return Ok(());
            }
            print_state_before(out, root, remarks)
        }
        Ended::Refused(fault) => print_fault(out, root, fault),
        Ended::Stopped {
            stage,
            fault,
            has_journal,
            ..
        } => {
            print_fault(out, root, fault)?;
            print_stopped(out, root, *stage, *has_journal)
        }
    }
}

/// Prints how a run ended.
pub fn print_end<W: Write>(out: &mut W, root: &str, ended: &Ended) -> io::Result<()> {
    match ended {
        Ended::Done(remarks) => {
            print_remarks(out, root, remarks)?;
            let root = Printable(root);
            writeln!(out, "{root}: everything is at its new path")
        }
        Ended::TakenBack {
            cause: None,
            remarks,
        } => print_taken_back(out, root, remarks),
        Ended::TakenBack {
            cause: Some(cause),
            remarks,
        } => {
            print_fault(out, root, cause)?;
            if remarks.is_empty() {
                return Ok(());
            }
            print_taken_back(out, root, remarks)
        }
        Ended::Refused(fault) => print_fault(out, root, fault),
        Ended::Stopped {
            stage,
            fault,
            has_journal,
            remarks,
        } => {
            print_fault(out, root, fault)?;
            print_remarks(out, root, remarks)?;
            print_stopped(out, root, *stage, *has_journal)
        }
    }
}

// Prints why a run failed.
fn print_fault<W: Write>(out: &mut W, root: &str, fault: &RunFault) -> io::Result<()> {
    let root = Printable(root);
    writeln!(out, "relmove: {root}: {fault}")
}

// Prints what a run that was taken back left.
fn print_taken_back<W: Write>(out: &mut W, root: &str, remarks: &[Remark]) -> io::Result<()> {
    print_remarks(out, root, remarks)?;
    print_state_before(out, root, remarks)
}

// Prints how everything is after a run that was taken back.
fn print_state_before<W: Write>(out: &mut W, root: &str, remarks: &[Remark]) -> io::Result<()> {
    let root = Printable(root);
    let state = state_before(remarks);
    writeln!(out, "{root}: the run was taken back, {state}")
}

// Prints what is known of a run that stopped, and whose journal says this stage, if it was read.
fn print_stopped<W: Write>(
    out: &mut W,
    root: &str,
    stage: Stage,
    has_journal: bool,
) -> io::Result<()> {
    let root = Printable(root);
    if !has_journal {
        return writeln!(
            out,
            "relmove: stopped in the middle, and the journal .relmove in {root} can't be read: it isn't known where everything is. Call relmove with --resume and {root} to end the run."
        );
    }
    let (state, commands) = (state_at(stage), commands_at(stage));
    writeln!(
        out,
        "relmove: stopped in the middle: {state}. Call relmove with {commands} and {root}."
    )?;
    writeln!(
        out,
        "relmove: the journal .relmove in {root} has the old paths, the names in .relmove-run and the new paths."
    )
}

/// Prints what a run left, or what another one left near.
pub fn print_remarks<W: Write>(out: &mut W, root: &str, remarks: &[Remark]) -> io::Result<()> {
    let root = Printable(root);
    for remark in remarks {
        writeln!(out, "{root}: {remark}")?;
    }
    Ok(())
}

/// Prints what a run left, an object of JSON on each line.
pub fn print_remarks_as_json<W: Write>(
    alloc: Global,
    out: &mut W,
    remarks: &[Remark],
) -> io::Result<()> {
    for remark in remarks {
        let words = remark.to_string(alloc)?;
        let words = words.as_str();
        let object = json!(in alloc; { "remark": words })?;
        let text = object.to_string(alloc)?;
        writeln!(out, "{text}")?;
    }
    Ok(())
}

// How everything is after a run that was taken back.
fn state_before(remarks: &[Remark]) -> &'static str {
    if remarks.is_empty() {
        "everything is as before"
    } else {
        "and all else is as before"
    }
}

// Where everything is if a run stopped at a stage.
fn state_at(stage: Stage) -> &'static str {
    match stage {
        Stage::Writing => "everything is at its old path",
        Stage::Staging => "some files are in .relmove-run",
        Stage::Making => "all that moves is in .relmove-run",
        Stage::Placing => "some files are at their new paths",
        Stage::Cleaning => "everything is at its new path, and what is left over was being removed",
        Stage::Unplacing | Stage::Unmaking | Stage::Unstaging => {
            "everything was going back to its old path"
        }
        Stage::Erasing => "everything is at its old path, and what is left over was being removed",
    }
}

// The commands that go on after a run stopped at a stage.
fn commands_at(stage: Stage) -> &'static str {
    match stage {
        Stage::Staging | Stage::Making | Stage::Placing =>
            "--resume to go on, or with --undo to go back,",
        Stage::Cleaning => "--resume",
        _ => "--undo",
    }
}
