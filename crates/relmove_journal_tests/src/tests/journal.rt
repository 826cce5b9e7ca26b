//! What is read from a journal is what was written, and what no run wrote is no journal.
use crate::tests::same;
use relmove_actions::Rename;
use relmove_journal::{
    JournalError, Leftover, Origin, Stage, TextDigest, TextFile, Work, journal_of, journal_text,
};
use std::alloc::{AllocError, Global};
use std::test::Fail;

const ORIGIN: Origin = Origin {
    root: u64::MAX,
    file: 7,
    run: 8,
    owner: 9,
    time: 10,
};

// The digest of the text `abc`, as `sha256sum` prints it.
const ABC: TextDigest = TextDigest {
    length: 3,
    sha256: [
        0xba, 0x78, 0x16, 0xbf, 0x8f, 0x01, 0xcf, 0xea, 0x41, 0x41, 0x40, 0xde, 0x5d, 0xae, 0x22,
        0x23, 0xb0, 0x03, 0x61, 0xa3, 0x96, 0x17, 0x7a, 0x9c, 0xb4, 0x10, 0xff, 0x61, 0xf2, 0x00,
        0x15, 0xad,
    ],
};

// The digest of the empty text.
const EMPTY: TextDigest = TextDigest {
    length: 0,
    sha256: [
        0xe3, 0xb0, 0xc4, 0x42, 0x98, 0xfc, 0x1c, 0x14, 0x9a, 0xfb, 0xf4, 0xc8, 0x99, 0x6f, 0xb9,
        0x24, 0x27, 0xae, 0x41, 0xe4, 0x64, 0x9b, 0x93, 0x4c, 0xa4, 0x95, 0x99, 0x1b, 0x78, 0x52,
        0xb8, 0x55,
    ],
};

// A rename.
fn rename(alloc: Global, from: &str, to: &str) -> Result<Rename, AllocError> {
    Ok(Rename {
        from: String::from_str(alloc, from)?,
        to: String::from_str(alloc, to)?,
    })
}

// A text in a file.
fn text_file(alloc: Global, path: &str, digest: TextDigest) -> Result<TextFile, AllocError> {
    Ok(TextFile {
        path: String::from_str(alloc, path)?,
        digest,
    })
}

// What is removed at the end of the run.
fn leftovers(alloc: Global) -> Result<Vec<Leftover>, AllocError> {
    let mut cleaned = Vec::new(alloc);
    cleaned.push(Leftover::Text(text_file(alloc, ".relmove-run/3", EMPTY)?))?;
    cleaned.push(Leftover::Directory(String::from_str(alloc, "end")?))?;
    cleaned.push(Leftover::Directory(String::from_str(alloc, " /b")?))?;
    Ok(cleaned)
}

// Work with each kind of step, and paths with all that is escaped.
fn work(alloc: Global) -> Result<Work, AllocError> {
    let mut work = Work::new(alloc);
    work.texts.push(text_file(alloc, ".relmove-run/9", ABC)?)?;
    work.staged
        .push(rename(alloc, "a\tb\nc\\", ".relmove-run/1")?)?;
    work.staged
        .push(rename(alloc, "d/é\\n", ".relmove-run/3")?)?;
    work.made.push(String::from_str(alloc, "x\r")?)?;
    work.placed
        .push(rename(alloc, ".relmove-run/1", "\\t/\\\\n")?)?;
    work.placed
        .push(rename(alloc, ".relmove-run/9", "d/é\\n")?)?;
    work.cleaned = leftovers(alloc)?;
    Ok(work)
}

const LINES: &str =
    "relmove journal 3\nroot\t18446744073709551615\nfile\t7\nrun\t8\nowner\t9\ntime\t10\nstage\tplacing\ntext\t.relmove-run/9\t3\tba7816bf8f01cfea414140de5dae2223b00361a396177a9cb410ff61f20015ad\nstaged\ta\\tb\\nc\\\\\t.relmove-run/1\nstaged\td/é\\\\n\t.relmove-run/3\nmade\tx\r\nplaced\t.relmove-run/1\t\\\\t/\\\\\\\\n\nplaced\t.relmove-run/9\td/é\\\\n\nremoved\t.relmove-run/3\t0\te3b0c44298fc1c149afbf4c8996fb92427ae41e4649b934ca495991b7852b855\nemptied\tend\nemptied\t /b\n";

// The digest is what `sha256sum` prints of the lines before.
const END: &str = "end\t420\t3a55198636a12f6576acb373338275463999e11109d7388b2d35a6fe4a33989a\n";

// The journal of the work.
fn pinned_journal(alloc: Global) -> Result<String, AllocError> {
    let mut text = String::from_str(alloc, LINES)?;
    text.push_str(END)?;
    Ok(text)
}

#[test]
fn writes_a_journal(rt: HostRuntime) -> Result<(), Fail> {
    let text = journal_text(rt.alloc(), ORIGIN, Stage::Placing, &work(rt.alloc())?)?;
    same(
        "a journal",
        &text.as_str(),
        &pinned_journal(rt.alloc())?.as_str(),
    )
}

const STAGES: [Stage; 9] = [
    Stage::Writing,
    Stage::Staging,
    Stage::Making,
    Stage::Placing,
    Stage::Cleaning,
    Stage::Unplacing,
    Stage::Unmaking,
    Stage::Unstaging,
    Stage::Erasing,
];

// Whether a journal of a stage reads back.
fn reads_back(alloc: Global, stage: Stage) -> Result<(), Fail> {
    let work = work(alloc)?;
    let text = journal_text(alloc, ORIGIN, stage, &work)?;
    let journal = journal_of(alloc, text.as_str())?;
    same("an origin", &journal.origin, &ORIGIN)?;
    same("a stage", &journal.stage, &stage)?;
    same("the work", &journal.work, &work)
}

#[test]
fn reads_what_it_wrote(rt: HostRuntime) -> Result<(), Fail> {
    for stage in &STAGES {
        reads_back(rt.alloc(), *stage)?;
    }
    Ok(())
}

// Whether a text is no journal.
fn is_none(alloc: Global, case: &str, text: &str) -> Result<(), Fail> {
    let read = journal_of(alloc, text);
    same(
        case,
        &matches!(&read, Err(JournalError::NotAJournal)),
        &true,
    )
}

#[test]
fn reads_no_journal_that_is_cut_off(rt: HostRuntime) -> Result<(), Fail> {
    let text = pinned_journal(rt.alloc())?;
    for end in 0..text.len() {
        if let Some(cut) = text.as_str().get(..end) {
            is_none(rt.alloc(), "a journal that is cut off", cut)?;
        }
    }
    Ok(())
}

// Whether a journal with another byte is none.
fn is_none_with(alloc: Global, index: usize, byte: u8) -> Result<(), Fail> {
    let mut bytes = pinned_journal(alloc)?.into_bytes();
    if let Some(changed) = bytes.get_mut(index) {
        *changed = byte;
    }
    let Ok(text) = String::from_utf8(bytes) else {
        return Ok(());
    };
    let text = text.as_str();
    let is_older = text.starts_with("relmove journal 1") || text.starts_with("relmove journal 2");
    if is_older || text == pinned_journal(alloc)?.as_str() {
        return Ok(());
    }
    is_none(alloc, "a journal with another byte", text)
}

#[test]
fn reads_no_journal_with_another_byte(rt: HostRuntime) -> Result<(), Fail> {
    for index in 0..pinned_journal(rt.alloc())?.len() {
        for byte in [b'0', b'a', b'A', b'\t', b'\n', b'\\', b'\0'] {
            is_none_with(rt.alloc(), index, byte)?;
        }
    }
    Ok(())
}

#[test]
fn tells_a_journal_of_an_older_version(rt: HostRuntime) -> Result<(), Fail> {
    for text in [
        "relmove journal 1\nstage\tparting\nend\n",
        "relmove journal 2\nroot\t1\nfile\t2\nstage\tstaging\n",
    ] {
        let read = journal_of(rt.alloc(), text);
        same(text, &matches!(&read, Err(JournalError::OldJournal)), &true)?;
    }
    Ok(())
}
