//! Journals that no run writes are none, though their last line has the right digest.
use crate::tests::same;
use relmove_journal::{JournalError, TextDigest, journal_of};
use std::alloc::{AllocError, Global};
use std::test::Fail;

// Lines that a run may write, in one list.
const HEAD: &str =
    "relmove journal 3\nroot\t1\nfile\t2\nrun\t3\nowner\t4\ntime\t5\nstage\tstaging\n";

// Two digits for each byte.
fn push_hexadecimal(text: &mut String, bytes: &[u8]) -> Result<(), AllocError> {
    let digits = "0123456789abcdef";
    for byte in bytes {
        for digit in [byte >> 4, byte & 15] {
            let at = digit as usize;
            text.push_str(digits.get(at..at.saturating_add(1)).unwrap_or(""))?;
        }
    }
    Ok(())
}

// The journal of these lines, with its last line.
fn journal(alloc: Global, head: &str, lines: &str) -> Result<String, AllocError> {
    let mut text = String::from_str(alloc, head)?;
    text.push_str(lines)?;
    let digest = TextDigest::of(text.as_bytes());
    text.push_str("end\t")?;
    text.push_str(digest.length.to_string(alloc)?.as_str())?;
    text.push('\t')?;
    push_hexadecimal(&mut text, &digest.sha256)?;
    text.push('\n')?;
    Ok(text)
}

// Whether these lines are those of a journal.
fn is_journal(alloc: Global, head: &str, lines: &str) -> Result<bool, Fail> {
    let text = journal(alloc, head, lines)?;
    match journal_of(alloc, text.as_str()) {
        Ok(_) => Ok(true),
        Err(JournalError::NotAJournal) => Ok(false),
        Err(other) => Err(Fail::new(format_args!("{other:?}"))),
    }
}

// Whether each row is a journal, or none is.
fn are_journals(
    alloc: Global,
    rows: &[(&'static str, &'static str)],
    expected: bool,
) -> Result<(), Fail> {
    for (case, lines) in rows {
        same(case, &is_journal(alloc, HEAD, lines)?, &expected)?;
    }
    Ok(())
}

const FINE: [(&str, &str); 9] = [
    ("nothing to do", ""),
    (
        "a move",
        "staged\ta\t.relmove-run/1\nplaced\t.relmove-run/1\tb/c\n",
    ),
    (
        "a page",
        "text\t.relmove-run/9\t0\te3b0c44298fc1c149afbf4c8996fb92427ae41e4649b934ca495991b7852b855\nstaged\td/a\t.relmove-run/2\nplaced\t.relmove-run/9\td/a\nremoved\t.relmove-run/2\t0\te3b0c44298fc1c149afbf4c8996fb92427ae41e4649b934ca495991b7852b855\n",
    ),
    (
        "two pages",
        "text\t.relmove-run/8\t0\te3b0c44298fc1c149afbf4c8996fb92427ae41e4649b934ca495991b7852b855\ntext\t.relmove-run/9\t0\te3b0c44298fc1c149afbf4c8996fb92427ae41e4649b934ca495991b7852b855\nstaged\ta\t.relmove-run/1\nstaged\tb\t.relmove-run/3\nplaced\t.relmove-run/8\ta\nplaced\t.relmove-run/9\tb\nremoved\t.relmove-run/1\t0\te3b0c44298fc1c149afbf4c8996fb92427ae41e4649b934ca495991b7852b855\nremoved\t.relmove-run/3\t0\te3b0c44298fc1c149afbf4c8996fb92427ae41e4649b934ca495991b7852b855\n",
    ),
    ("a directory", "made\ta/b\n"),
    (
        "a directory with a dot that is read",
        "staged\t.github/a\t.relmove-run/1\nplaced\t.relmove-run/1\td/.github/b\n",
    ),
    (
        "a directory below a staging name",
        "made\t.relmove-run/1/b\n",
    ),
    (
        "a name with a dot",
        "staged\t.a\t.relmove-run/1\nplaced\t.relmove-run/1\tb/.c\n",
    ),
    ("an emptied directory", "emptied\ta/b\n"),
];

#[test]
fn reads_what_a_run_writes(rt: HostRuntime) -> Result<(), Fail> {
    are_journals(rt.alloc(), &FINE, true)
}

const BAD_STAGED: [(&str, &str); 15] = [
    (
        "from above",
        "staged\t../a\t.relmove-run/1\nplaced\t.relmove-run/1\tb\n",
    ),
    (
        "from the top",
        "staged\t/a\t.relmove-run/1\nplaced\t.relmove-run/1\tb\n",
    ),
    (
        "from the root",
        "staged\t\t.relmove-run/1\nplaced\t.relmove-run/1\tb\n",
    ),
    (
        "from a dot",
        "staged\t.\t.relmove-run/1\nplaced\t.relmove-run/1\tb\n",
    ),
    (
        "through a dot",
        "staged\t./a\t.relmove-run/1\nplaced\t.relmove-run/1\tb\n",
    ),
    (
        "from a reserved name",
        "staged\t.relmove\t.relmove-run/1\nplaced\t.relmove-run/1\tb\n",
    ),
    (
        "from a directory with a dot",
        "staged\t.git/a\t.relmove-run/1\nplaced\t.relmove-run/1\tb\n",
    ),
    (
        "to another name",
        "staged\ta\t.relmove-run/x\nplaced\t.relmove-run/x\tb\n",
    ),
    (
        "to no number",
        "staged\ta\t.relmove-run/\nplaced\t.relmove-run/\tb\n",
    ),
    (
        "to the run's directory",
        "staged\ta\t.relmove-run\nplaced\t.relmove-run\tb\n",
    ),
    (
        "to a name of another directory",
        "staged\ta\td/.relmove-run/1\nplaced\td/.relmove-run/1\tb\n",
    ),
    (
        "to a name in a directory there",
        "staged\ta\t.relmove-run/1/2\nplaced\t.relmove-run/1/2\tb\n",
    ),
    (
        "to a name of another version",
        "staged\ta\t.relmove-1\nplaced\t.relmove-1\tb\n",
    ),
    (
        "a NUL",
        "staged\ta\0\t.relmove-run/1\nplaced\t.relmove-run/1\tb\n",
    ),
    (
        "what is staged",
        "staged\t.relmove-run/9\t.relmove-run/1\nplaced\t.relmove-run/1\tb\n",
    ),
];

#[test]
fn reads_no_other_staging(rt: HostRuntime) -> Result<(), Fail> {
    are_journals(rt.alloc(), &BAD_STAGED, false)
}

const BAD_PLACED: [(&str, &str); 9] = [
    (
        "above",
        "staged\ta\t.relmove-run/1\nplaced\t.relmove-run/1\t../b\n",
    ),
    (
        "in the middle above",
        "staged\ta\t.relmove-run/1\nplaced\t.relmove-run/1\tc/../b\n",
    ),
    (
        "at the top",
        "staged\ta\t.relmove-run/1\nplaced\t.relmove-run/1\t/b\n",
    ),
    (
        "to a reserved name",
        "staged\ta\t.relmove-run/1\nplaced\t.relmove-run/1\t.relmove-journal\n",
    ),
    (
        "to a hook",
        "staged\ta\t.relmove-run/1\nplaced\t.relmove-run/1\t.git/hooks/b\n",
    ),
    (
        "from another name",
        "staged\ta\t.relmove-run/1\nplaced\tb\tc\n",
    ),
    (
        "what wasn't staged",
        "staged\ta\t.relmove-run/1\nplaced\t.relmove-run/2\tb\n",
    ),
    (
        "twice",
        "staged\ta\t.relmove-run/1\nplaced\t.relmove-run/1\tb\nplaced\t.relmove-run/1\tc\n",
    ),
    ("never", "staged\ta\t.relmove-run/1\n"),
];

#[test]
fn reads_no_other_placing(rt: HostRuntime) -> Result<(), Fail> {
    are_journals(rt.alloc(), &BAD_PLACED, false)
}

const BAD_REST: [(&str, &str); 12] = [
    (
        "staged twice",
        "staged\ta\t.relmove-run/1\nstaged\tb\t.relmove-run/1\nplaced\t.relmove-run/1\tc\nplaced\t.relmove-run/1\td\n",
    ),
    ("made above", "made\t../a\n"),
    ("made with a dot", "made\t.git/a\n"),
    ("made at a staging name", "made\t.relmove-run/1\n"),
    ("made in the run's directory", "made\t.relmove-run/a\n"),
    ("made above a staging name", "made\t.relmove-run/1/../a\n"),
    ("emptied above", "emptied\t..\n"),
    ("emptied with a dot", "emptied\t.git\n"),
    ("emptied at a staging name", "emptied\t.relmove-run/1\n"),
    (
        "removed elsewhere",
        "staged\ta\t.relmove-run/1\nremoved\ta\t0\te3b0c44298fc1c149afbf4c8996fb92427ae41e4649b934ca495991b7852b855\n",
    ),
    (
        "a text with another name",
        "text\td/a\t0\te3b0c44298fc1c149afbf4c8996fb92427ae41e4649b934ca495991b7852b855\nplaced\td/a\tb\n",
    ),
    (
        "a text that isn't placed",
        "text\t.relmove-run/9\t0\te3b0c44298fc1c149afbf4c8996fb92427ae41e4649b934ca495991b7852b855\n",
    ),
];

#[test]
fn reads_no_other_work(rt: HostRuntime) -> Result<(), Fail> {
    are_journals(rt.alloc(), &BAD_REST, false)
}

const BAD_REMOVED: [(&str, &str); 6] = [
    (
        "a new text is removed, and a page is placed",
        "text\t.relmove-run/9\t0\te3b0c44298fc1c149afbf4c8996fb92427ae41e4649b934ca495991b7852b855\nstaged\ta\t.relmove-run/1\nplaced\t.relmove-run/1\tb\nremoved\t.relmove-run/9\t0\te3b0c44298fc1c149afbf4c8996fb92427ae41e4649b934ca495991b7852b855\n",
    ),
    (
        "a new text has the name of a page",
        "text\t.relmove-run/1\t0\te3b0c44298fc1c149afbf4c8996fb92427ae41e4649b934ca495991b7852b855\nstaged\ta\t.relmove-run/1\nplaced\t.relmove-run/1\ta\nremoved\t.relmove-run/1\t0\te3b0c44298fc1c149afbf4c8996fb92427ae41e4649b934ca495991b7852b855\n",
    ),
    (
        "a new text is placed twice",
        "text\t.relmove-run/9\t0\te3b0c44298fc1c149afbf4c8996fb92427ae41e4649b934ca495991b7852b855\nstaged\ta\t.relmove-run/1\nplaced\t.relmove-run/9\ta\nplaced\t.relmove-run/9\tb\nremoved\t.relmove-run/1\t0\te3b0c44298fc1c149afbf4c8996fb92427ae41e4649b934ca495991b7852b855\n",
    ),
    (
        "a text is removed, and no new text comes",
        "staged\ta\t.relmove-run/1\nremoved\t.relmove-run/1\t0\te3b0c44298fc1c149afbf4c8996fb92427ae41e4649b934ca495991b7852b855\n",
    ),
    (
        "a new text comes, and no text is removed",
        "text\t.relmove-run/9\t0\te3b0c44298fc1c149afbf4c8996fb92427ae41e4649b934ca495991b7852b855\nplaced\t.relmove-run/9\td/a\n",
    ),
    (
        "two texts are removed, and one new text comes",
        "text\t.relmove-run/9\t0\te3b0c44298fc1c149afbf4c8996fb92427ae41e4649b934ca495991b7852b855\nstaged\td/a\t.relmove-run/2\nstaged\tb\t.relmove-run/3\nplaced\t.relmove-run/9\td/a\nremoved\t.relmove-run/2\t0\te3b0c44298fc1c149afbf4c8996fb92427ae41e4649b934ca495991b7852b855\nremoved\t.relmove-run/3\t0\te3b0c44298fc1c149afbf4c8996fb92427ae41e4649b934ca495991b7852b855\n",
    ),
];

#[test]
fn reads_no_other_removal(rt: HostRuntime) -> Result<(), Fail> {
    are_journals(rt.alloc(), &BAD_REMOVED, false)
}

const BAD_LINES: [(&str, &str); 8] = [
    ("out of order", "emptied\ta\nmade\tb\n"),
    ("another word", "unlinked\ta\n"),
    ("one path", "staged\ta\n"),
    ("a raw tab", "made\ta\tb\n"),
    ("half an escape", "made\ta\\\n"),
    ("another escape", "made\ta\\x\n"),
    ("no word", "\n"),
    (
        "a digest in capitals",
        "removed\t.relmove-run/1\t0\tE3B0C44298FC1C149AFBF4C8996FB92427AE41E4649B934CA495991B7852B855\n",
    ),
];

#[test]
fn reads_no_other_lines(rt: HostRuntime) -> Result<(), Fail> {
    are_journals(rt.alloc(), &BAD_LINES, false)
}

const BAD_HEADS: [(&str, &str); 7] = [
    (
        "no head",
        "root\t1\nfile\t2\nrun\t3\nowner\t4\ntime\t5\nstage\tstaging\n",
    ),
    (
        "another version",
        "relmove journal 4\nroot\t1\nfile\t2\nrun\t3\nowner\t4\ntime\t5\nstage\tstaging\n",
    ),
    (
        "no root",
        "relmove journal 3\nfile\t2\nrun\t3\nowner\t4\ntime\t5\nstage\tstaging\n",
    ),
    (
        "no directory of the run",
        "relmove journal 3\nroot\t1\nfile\t2\nowner\t4\ntime\t5\nstage\tstaging\n",
    ),
    (
        "no stage",
        "relmove journal 3\nroot\t1\nfile\t2\nrun\t3\nowner\t4\ntime\t5\n",
    ),
    (
        "another stage",
        "relmove journal 3\nroot\t1\nfile\t2\nrun\t3\nowner\t4\ntime\t5\nstage\tparting\n",
    ),
    (
        "a number with a zero",
        "relmove journal 3\nroot\t01\nfile\t2\nrun\t3\nowner\t4\ntime\t5\nstage\tstaging\n",
    ),
];

#[test]
fn reads_no_other_head(rt: HostRuntime) -> Result<(), Fail> {
    for (case, head) in &BAD_HEADS {
        same(case, &is_journal(rt.alloc(), head, "made\ta\n")?, &false)?;
    }
    Ok(())
}
