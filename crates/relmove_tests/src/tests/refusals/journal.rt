//! The text of a journal, and its reading.
use super::marks::{begin, end};
use crate::tests::same;
use relmove_actions::Rename;
use relmove_journal::{
    JournalError, Leftover, Origin, Stage, TextDigest, TextFile, Work, is_of_run, journal_of,
    journal_text,
};
use std::alloc::{AllocError, Global};
use std::test::Fail;

// The last line has the length and the SHA-256 of the lines before it, and the digests are those of `b` and `a`.
const TEXT: &str =
    "relmove journal 3\nroot\t7\nfile\t8\nrun\t9\nowner\t10\ntime\t11\nstage\tstaging\ntext\t.relmove-run/2\t1\t3e23e8160039594a33894f6564e1b1348bbd7a0088d42c4acb73eeaed59c009d\nstaged\ta.md\t.relmove-run/1\nplaced\t.relmove-run/2\tb.md\nremoved\t.relmove-run/1\t1\tca978112ca1bbdcafac231b39a23dc4da786eff8147c4e72b9807785afee48bb\nend\t300\t8068f0b277409f563ccd0cfe34b9706cdfffc6b75d49a49d51660210468722ff\n";

const ORIGIN: Origin = Origin {
    root: 7,
    file: 8,
    run: 9,
    owner: 10,
    time: 11,
};

// A rename.
fn rename(alloc: Global, from: &str, to: &str) -> Result<Rename, AllocError> {
    Ok(Rename {
        from: String::from_str(alloc, from)?,
        to: String::from_str(alloc, to)?,
    })
}

// A text in a file.
fn text_file(alloc: Global, path: &str, text: &[u8]) -> Result<TextFile, AllocError> {
    Ok(TextFile {
        path: String::from_str(alloc, path)?,
        digest: TextDigest::of(text),
    })
}

// The work of this journal.
fn work(alloc: Global) -> Result<Work, AllocError> {
    Ok(Work {
        texts: vec![in alloc; text_file(alloc, ".relmove-run/2", b"b")?]?,
        staged: vec![in alloc; rename(alloc, "a.md", ".relmove-run/1")?]?,
        made: Vec::new(alloc),
        placed: vec![in alloc; rename(alloc, ".relmove-run/2", "b.md")?]?,
        cleaned: vec![in alloc; Leftover::Text(text_file(alloc, ".relmove-run/1", b"a")?)]?,
    })
}

// Requests: 18 8 36 8 8 72 8 8 8 64 144 288 8 64 576 8 64 8 16 32 64 128 = 1
#[test]
fn the_text_of_a_journal(rt: HostRuntime) -> Result<(), Fail> {
    let work = work(rt.alloc())?;
    begin(rt.alloc());
    let answer = journal_text(rt.alloc(), ORIGIN, Stage::Staging, &work);
    end(rt.alloc(), answer.is_err())?;
    match answer {
        Ok(text) => same("a journal", &text.as_str(), &TEXT),
        Err(_) => Ok(()),
    }
}

// Requests: 8 16 256 8 8 16 192 8 16 8 192 8 16 288 18 8 36 8 8 72 8 8 8 64 144 288 8 64 576 8 64 8 16 32 64 128
// 16 16 64 16 64 64 16 64 64 16 16 = 10
#[test]
fn the_journal_of_a_text(rt: HostRuntime) -> Result<(), Fail> {
    let expected = work(rt.alloc())?;
    begin(rt.alloc());
    let answer = journal_of(rt.alloc(), TEXT);
    let is_refused = matches!(&answer, Err(JournalError::OutOfMemory));
    end(rt.alloc(), is_refused)?;
    let is_read = match &answer {
        Ok(journal) => journal.work == expected,
        Err(_) => is_refused,
    };
    same("the work", &is_read, &true)
}

// Requests: 16 16 64 16 64 64 16 64 64 16 16 = 0
#[test]
fn whether_work_is_a_run_s(rt: HostRuntime) -> Result<(), Fail> {
    let work = work(rt.alloc())?;
    begin(rt.alloc());
    let answer = is_of_run(rt.alloc(), &work);
    end(rt.alloc(), answer.is_err())?;
    match answer {
        Ok(is_of_run) => same("the work", &is_of_run, &true),
        Err(_) => Ok(()),
    }
}
