//! What a terminal obeys, or what isn't seen, is printed by its number.
use crate::tests::same;
use relmove_run::{Change, Printable, Remark, RunFault, SystemCall};
use std::alloc::{AllocError, Global};
use std::test::Fail;

// Whether a text is printed so.
fn prints(alloc: Global, text: &str, printed: &str) -> Result<(), Fail> {
    same(
        printed,
        &Printable(text).to_string(alloc)?.as_str(),
        &printed,
    )
}

const BY_NUMBER: [(&str, &str); 12] = [
    ("a\u{1b}[2Jb", "a\\u{1b}[2Jb"),
    ("\n\r\t", "\\u{a}\\u{d}\\u{9}"),
    ("\u{7f}\u{9b}", "\\u{7f}\\u{9b}"),
    ("\u{ad}", "\\u{ad}"),
    ("\u{61c}", "\\u{61c}"),
    ("\u{200b}", "\\u{200b}"),
    ("\u{200e}\u{200f}", "\\u{200e}\\u{200f}"),
    ("\u{2028}\u{202e}", "\\u{2028}\\u{202e}"),
    ("\u{2066}\u{2069}", "\\u{2066}\\u{2069}"),
    ("\u{feff}", "\\u{feff}"),
    ("\u{e0000}\u{e007f}", "\\u{e0000}\\u{e007f}"),
    ("\u{e9}\u{1b}\u{1d11e}", "\u{e9}\\u{1b}\u{1d11e}"),
];

#[test]
fn prints_what_changes_the_text_by_its_number(rt: HostRuntime) -> Result<(), Fail> {
    for (text, printed) in &BY_NUMBER {
        prints(rt.alloc(), text, printed)?;
    }
    Ok(())
}

const AS_IT_IS: [&str; 4] = [
    "docs/a b.md",
    "\u{a0}\u{ac}\u{ae}\u{e9}\u{61b}\u{61d}",
    "\u{200a}\u{200c}\u{200d}\u{2010}\u{2027}\u{202f}\u{2065}\u{206a}",
    "\u{fefe}\u{ff00}\u{dffff}\u{e0080}",
];

#[test]
fn prints_other_characters_as_they_are(rt: HostRuntime) -> Result<(), Fail> {
    for text in &AS_IT_IS {
        prints(rt.alloc(), text, text)?;
    }
    Ok(())
}

// A path with a character that a terminal obeys.
fn path(alloc: Global) -> Result<String, AllocError> {
    String::from_str(alloc, "a\u{1b}")
}

// Another one.
fn other_path(alloc: Global) -> Result<String, AllocError> {
    String::from_str(alloc, "b\u{7}")
}

const CALLS: [(SystemCall, &str); 14] = [
    (SystemCall::Ask, "can't look up a\\u{1b}: why"),
    (SystemCall::Lock, "can't lock a\\u{1b}: why"),
    (SystemCall::List, "can't list a\\u{1b}: why"),
    (SystemCall::Read, "can't read a\\u{1b}: why"),
    (SystemCall::ReadSymlink, "can't read a\\u{1b}: why"),
    (SystemCall::Create, "can't make a\\u{1b}: why"),
    (SystemCall::Write, "can't write a\\u{1b}: why"),
    (SystemCall::Sync, "can't sync a\\u{1b}: why"),
    (
        SystemCall::SetPermissions,
        "can't set the permissions of a\\u{1b}: why",
    ),
    (SystemCall::Rename, "can't rename a\\u{1b}: why"),
    (SystemCall::HardLink, "can't link a\\u{1b}: why"),
    (SystemCall::MakeDirectory, "can't make a\\u{1b}: why"),
    (SystemCall::RemoveFile, "can't remove a\\u{1b}: why"),
    (SystemCall::RemoveDirectory, "can't remove a\\u{1b}: why"),
];

// Whether a call that failed at a path is named so.
fn names_call(alloc: Global, call: SystemCall, path: String, words: &str) -> Result<(), Fail> {
    let why = String::from_str(alloc, "why")?;
    let fault = RunFault::System { call, path, why };
    same("a call", &fault.to_string(alloc)?.as_str(), &words)
}

#[test]
fn names_each_call(rt: HostRuntime) -> Result<(), Fail> {
    let alloc = rt.alloc();
    for (call, words) in &CALLS {
        names_call(alloc, *call, path(alloc)?, words)?;
    }
    names_call(
        alloc,
        SystemCall::Lock,
        String::new(alloc),
        "can't lock ROOT: why",
    )
}

// A fault of each kind that has a path.
fn fault_at(alloc: Global, kind: usize) -> Result<RunFault, AllocError> {
    let path = path(alloc)?;
    Ok(match kind {
        0 => RunFault::Missing(path),
        1 => RunFault::OtherText(path),
        2 => RunFault::NotADirectory(path),
        3 => RunFault::TooLong(path),
        4 => RunFault::OtherDevice(path),
        5 => RunFault::Changed(path),
        6 => RunFault::JournalNear(path),
        7 => RunFault::ReservedName(path),
        8 => RunFault::Exchanged(path),
        _ => RunFault::LeftOver(path),
    })
}

const WITH_PATH: [&str; 10] = [
    "a\\u{1b} isn't there",
    "a\\u{1b} isn't the text that the run wrote: another program changed it, or put it there",
    "a\\u{1b} is no directory: a symbolic link or a file is there",
    "a\\u{1b} is too long, or a name in it is",
    "a\\u{1b} is on another file system than ROOT",
    "a\\u{1b} was changed while the run worked, so the run was taken back",
    "a\\u{1b} is the journal of a run that didn't end. If it was your run, end it first. If the folder came from elsewhere, the journal may have come with it: then remove it",
    "a\\u{1b} has a name of relmove's own, and relmove didn't leave it: remove or rename it",
    "a\\u{1b} isn't the directory that the run made: another program removed or exchanged it",
    "a\\u{1b} was left by a run that was killed: call relmove --undo ROOT to remove it",
];

#[test]
fn names_the_path_of_a_fault(rt: HostRuntime) -> Result<(), Fail> {
    for (kind, words) in WITH_PATH.iter().enumerate() {
        let fault = fault_at(rt.alloc(), kind)?;
        same("a fault", &fault.to_string(rt.alloc())?.as_str(), words)?;
    }
    Ok(())
}

// A fault of each kind that has no path and that no other test prints.
fn fault_alone(kind: usize) -> RunFault {
    match kind {
        0 => RunFault::OutOfMemory,
        1 => RunFault::AtWork,
        2 => RunFault::LinkedJournal,
        3 => RunFault::OthersJournal(7),
        _ => RunFault::NotAPlan,
    }
}

const ALONE: [&str; 5] = [
    "memory ran out",
    "another call of relmove is at work here",
    "the journal .relmove has another name too, as cp -al and some backups give to a file. Add --trust-journal to see what it asks for",
    "the journal .relmove is of a run of another user, of the number 7: only this user ends it, or root with --trust-journal",
    "the steps aren't those of a plan",
];

#[test]
fn says_a_fault_without_a_path(rt: HostRuntime) -> Result<(), Fail> {
    for (kind, words) in ALONE.iter().enumerate() {
        same(
            "a fault",
            &fault_alone(kind).to_string(rt.alloc())?.as_str(),
            words,
        )?;
    }
    Ok(())
}

#[test]
fn prints_both_paths_of_a_fault(rt: HostRuntime) -> Result<(), Fail> {
    let alloc = rt.alloc();
    let (from, to) = (path(alloc)?, other_path(alloc)?);
    let text = RunFault::Both { from, to }.to_string(alloc)?;
    let words =
        "can't rename a\\u{1b} to b\\u{7}: something is at both paths. Rename or remove the one that isn't the run's";
    same("both", &text.as_str(), &words)
}

// A remark of each kind that has paths of its own.
fn remark_at(alloc: Global, kind: usize) -> Result<Remark, AllocError> {
    let from = path(alloc)?;
    Ok(match kind {
        0 => Remark::Kept(from),
        1 => {
            let to = other_path(alloc)?;
            Remark::AtBoth { from, to }
        }
        2 => Remark::Near {
            path: from,
            owner: 7,
        },
        3 => Remark::Away(from),
        _ => {
            let to = other_path(alloc)?;
            Remark::Gone { from, to }
        }
    })
}

const REMARKS: [&str; 5] = [
    "a\\u{1b} is kept: another program changed it, or put it there",
    "something was at a\\u{1b} and at b\\u{7}: the first went back to the old path, and the second is kept",
    "a\\u{1b} is the journal of a run that didn't end, of the user of the number 7",
    "a\\u{1b} isn't there: another program moved or removed it, with what was in it",
    "neither a\\u{1b} nor b\\u{7} is there: another program removed it",
];

#[test]
fn prints_the_paths_of_remarks(rt: HostRuntime) -> Result<(), Fail> {
    for (kind, words) in REMARKS.iter().enumerate() {
        let remark = remark_at(rt.alloc(), kind)?;
        same("a remark", &remark.to_string(rt.alloc())?.as_str(), words)?;
    }
    Ok(())
}

#[test]
fn prints_the_paths_of_changes(rt: HostRuntime) -> Result<(), Fail> {
    let alloc = rt.alloc();
    let (from, to) = (path(alloc)?, other_path(alloc)?);
    let text = Change::Rename { from, to }.to_string(alloc)?;
    same("a rename", &text.as_str(), &"rename a\\u{1b} to b\\u{7}")?;
    let text = Change::RemoveFile(path(alloc)?).to_string(alloc)?;
    same("a removal", &text.as_str(), &"remove a\\u{1b}")
}
