//! The journal: what a run does, and how far it is, as a text.
//!
//! Each line is a word and fields, with tabs between them. In a path a backslash, a tab and a line feed are written
//! `\\`, `\t` and `\n`. A digest is a length and a SHA-256 in hexadecimal. The last line has the digest of all lines
//! before it. The tabs are wide here, and the digests short.
//!
//! ```text
//! relmove journal 3
//! root     1835021
//! file     1835044
//! run      1835043
//! owner    1000
//! time     1764249923123456789
//! stage    staging
//! text     .relmove-run/2  120  5c8e
//! staged   docs/a.md       .relmove-run/1
//! made     new
//! placed   .relmove-run/2  new/b.md
//! removed  .relmove-run/1  118  9f03
//! emptied  docs
//! end      221  3a41
//! ```
ghost use Rattle.std.specs.Prelude.{◌≡◌, ◌≢◌, ◌↔◌, ℕ, ◌<◌, ◌^◌, List, [], ◌∷◌, ◌++◌, All, IfOk, IsOkAnd, IsTrue, Ok, OnOk, Some, codes, length, map, string_bytes};
ghost use Rattle.std.specs.Fmt.{decimal};
ghost use Rattle.std.specs.List.{flat_map};
ghost use Rattle.std.specs.Str.{IsUtf8};
ghost use Rattle.hex.specs.Hex.{IsBytes, encode_lower};
ghost use Rattle.relmove_journal.specs.declared.journal.Origin.{Origin};
ghost use Rattle.relmove_journal.specs.declared.text_digest.TextDigest.{TextDigest};
ghost use Rattle.relmove_journal.specs.declared.work.Stage.{Stage};
ghost use Rattle.relmove_journal.specs.declared.work.Work.{Work};
ghost use Rattle.relmove_journal.specs.Journals.{CanBegin, digest_fields, directory_line, end_line, escaped, escaped_character, field_bytes, head_lines, journal_bytes, leftover_line, line_bytes, rename_line, stage_name, text_line, work_bytes};
ghost use Rattle.relmove_journal.specs.Reading.LeftoverParts.{Emptied, Removed};
ghost use Rattle.relmove_journal.specs.Reading.{GivenMemory, IsDigest, IsLine, IsRenameParts, IsTextOfRun, IsTextParts, IsWorkLine, Line, Says, WorkLine, content_of, fields_text, leftover_parts, line_fields, line_text, line_word, parts_of, rename_fields, rename_parts, text_fields, text_parts, with_line, with_work_line, work_fields, work_word};
ghost use Rattle.relmove_journal.specs.Shape.{IsOfRun};

use crate::error::JournalError;
use crate::shape::is_of_run;
use crate::text_digest::TextDigest;
use crate::work::{Leftover, Stage, TextFile, Work};
use hex::FromHex;
use relmove_actions::Rename;
use std::alloc::{AllocError, Global};

impl Stage {
    // The stage's name.
    fn name(self) -> &'static str
        ensures { result.now ≡ stage_name self }
    {
        match self {
            Stage::Writing => "writing",
            Stage::Staging => "staging",
            Stage::Making => "making",
            Stage::Placing => "placing",
            Stage::Cleaning => "cleaning",
            Stage::Unplacing => "unplacing",
            Stage::Unmaking => "unmaking",
            Stage::Unstaging => "unstaging",
            Stage::Erasing => "erasing",
        }
    }

    // The stage of this name.
    fn of_name(name: &str) -> Option<Stage>
        ensures { (stage : Stage) → name.now ≡ stage_name stage → result ≡ Some stage }
    {
        match name {
            "writing" => Some(Stage::Writing),
            "staging" => Some(Stage::Staging),
            "making" => Some(Stage::Making),
            "placing" => Some(Stage::Placing),
            "cleaning" => Some(Stage::Cleaning),
            "unplacing" => Some(Stage::Unplacing),
            "unmaking" => Some(Stage::Unmaking),
            "unstaging" => Some(Stage::Unstaging),
            "erasing" => Some(Stage::Erasing),
            _ => None,
        }
    }
}

/// Where a journal was written. A copy of a folder has other numbers.
#[derive(Clone, Copy, Debug, PartialEq, Eq)]
pub struct Origin {
    /// The inode of the root.
    pub root: u64,
    /// The inode of the journal's own file.
    pub file: u64,
    /// The inode of the run's own directory.
    pub run: u64,
    /// The user who owns the journal's own file.
    pub owner: u64,
    /// When the journal's own file was made, in nanoseconds since 1970, or 0 if the system doesn't know that. No archive and
    /// no copy can set it.
    pub time: u64,
}

/// What a journal says.
#[derive(Debug, PartialEq, Eq, Drop)]
pub struct Journal {
    /// Where it was written.
    pub origin: Origin,
    /// How far the run is.
    pub stage: Stage,
    /// What the run does.
    pub work: Work,
}

const HEAD: &str = "relmove journal 3\n";

// What journals of older versions begin with.
const FIRST_HEAD: &str = "relmove journal 1\n";

const SECOND_HEAD: &str = "relmove journal 2\n";

const END: &str = "end";

/// How many bytes the first line of a journal has.
pub const HEAD_LENGTH: u64 = 18;

/// Whether bytes may be the beginning of a journal.
pub fn begins_as_journal(bytes: &[u8]) -> bool
    // whether the bytes and the first line of a journal begin alike, as far as the shorter one goes
    ensures can_begin { IsTrue result ↔ CanBegin bytes.now }
{
    bytes.starts_with(HEAD.as_bytes()) || HEAD.as_bytes().starts_with(bytes)
}

/// Returns the text of a journal.
///
/// Allocates it, and each number and digest in it.
pub fn journal_text(
    alloc: Global,
    origin: Origin,
    stage: Stage,
    work: &Work,
) -> Result<String, AllocError>
    // the text that `journal_bytes` defines
    ensures text { IfOk result (λ text. string_bytes text ≡ journal_bytes origin stage work.now) }
{
    let mut text = String::from_str(alloc, HEAD)?;
    push_head(alloc, &mut text, origin, stage)?;
    push_work(alloc, &mut text, work)?;
    let end = end_of(alloc, text.as_str())?;
    text.push_str(end.as_str())?;
    Ok(text)
}

// Adds the lines that say where the journal is, and how far the run is.
fn push_head(
    alloc: Global,
    text: &mut String,
    origin: Origin,
    stage: Stage,
) -> Result<(), AllocError>
    ensures { OnOk result (string_bytes text.new ≡ string_bytes text.old ++ head_lines origin stage) }
{
    push_number(alloc, text, "root", origin.root)?;
    push_number(alloc, text, "file", origin.file)?;
    push_number(alloc, text, "run", origin.run)?;
    push_number(alloc, text, "owner", origin.owner)?;
    push_number(alloc, text, "time", origin.time)?;
    push_field(text, "stage", stage.name())?;
    Ok(())
}

// Adds the lines that say what the run does.
fn push_work(alloc: Global, text: &mut String, work: &Work) -> Result<(), AllocError>
    ensures { OnOk result (string_bytes text.new ≡ string_bytes text.old ++ work_bytes work.now) }
{
    push_texts(alloc, text, &work.texts)?;
    push_renames(text, "staged", &work.staged)?;
    push_made(text, &work.made)?;
    push_renames(text, "placed", &work.placed)?;
    push_cleaned(alloc, text, &work.cleaned)?;
    Ok(())
}

// Adds a line with a number.
fn push_number(alloc: Global, text: &mut String, word: &str, number: u64) -> Result<(), AllocError>
    ensures { OnOk result (string_bytes text.new ≡ string_bytes text.old ++ line_bytes word.now (decimal number ∷ [])) }
{
    let digits = number.to_string(alloc)?;
    push_field(text, word, digits.as_str())
}

// Adds a line with one field.
fn push_field(text: &mut String, word: &str, field: &str) -> Result<(), AllocError>
    ensures { OnOk result (string_bytes text.new ≡ string_bytes text.old ++ line_bytes word.now (field.now ∷ [])) }
{
    push_line(text, word, &[field])
}

// Adds a line for each new text.
fn push_texts(alloc: Global, text: &mut String, files: &[TextFile]) -> Result<(), AllocError>
    ensures { OnOk result (string_bytes text.new ≡ string_bytes text.old ++ flat_map (text_line (codes "text")) files.now) }
{
    for file in files {
        push_text_file(alloc, text, "text", file)?;
    }
    Ok(())
}

// Adds a line for each rename.
fn push_renames(text: &mut String, word: &str, renames: &[Rename]) -> Result<(), AllocError>
    ensures { OnOk result (string_bytes text.new ≡ string_bytes text.old ++ flat_map (rename_line word.now) renames.now) }
{
    for rename in renames {
        push_line(text, word, &[rename.from.as_str(), rename.to.as_str()])?;
    }
    Ok(())
}

// Adds a line for each directory that is made.
fn push_made(text: &mut String, paths: &[String]) -> Result<(), AllocError>
    ensures { OnOk result (string_bytes text.new ≡ string_bytes text.old ++ flat_map (λ path. directory_line (codes "made") (string_bytes path)) paths.now) }
{
    for path in paths {
        push_field(text, "made", path.as_str())?;
    }
    Ok(())
}

// Adds a line for each thing that is removed at the end.
fn push_cleaned(alloc: Global, text: &mut String, leftovers: &[Leftover]) -> Result<(), AllocError>
    ensures { OnOk result (string_bytes text.new ≡ string_bytes text.old ++ flat_map leftover_line leftovers.now) }
{
    for leftover in leftovers {
        push_leftover(alloc, text, leftover)?;
    }
    Ok(())
}

// Adds a line for what is removed at the end.
fn push_leftover(alloc: Global, text: &mut String, leftover: &Leftover) -> Result<(), AllocError>
    ensures { OnOk result (string_bytes text.new ≡ string_bytes text.old ++ leftover_line leftover.now) }
{
    match leftover {
        Leftover::Text(file) => push_text_file(alloc, text, "removed", file),
        Leftover::Directory(path) => push_field(text, "emptied", path.as_str()),
    }
}

// Adds a line for a text in a file.
fn push_text_file(
    alloc: Global,
    text: &mut String,
    word: &str,
    file: &TextFile,
) -> Result<(), AllocError>
    ensures { OnOk result (string_bytes text.new ≡ string_bytes text.old ++ text_line word.now file.now) }
{
    let length = file.digest.length.to_string(alloc)?;
    let sha256 = hex::encode(alloc, file.digest.sha256)?;
    push_line(
        text,
        word,
        &[file.path.as_str(), length.as_str(), sha256.as_str()],
    )
}

// The last line: the digest of all lines before it.
fn end_of(alloc: Global, lines: &str) -> Result<String, AllocError>
    ensures { IfOk result (λ line. string_bytes line ≡ end_line lines.now) }
{
    let digest = TextDigest::of(lines.as_bytes());
    let length = digest.length.to_string(alloc)?;
    let sha256 = hex::encode(alloc, digest.sha256)?;
    let mut line = String::new(alloc);
    push_line(&mut line, END, &[length.as_str(), sha256.as_str()])?;
    Ok(line)
}

// Adds a line.
fn push_line(text: &mut String, word: &str, fields: &[&str]) -> Result<(), AllocError>
    ensures { OnOk result (string_bytes text.new
        ≡ string_bytes text.old ++ line_bytes word.now (map (λ field. field.now) fields.now)) }
{
    text.push_str(word)?;
    push_fields(text, fields)?;
    text.push('\n')?;
    Ok(())
}

// Adds fields, with a tab before each.
fn push_fields(text: &mut String, fields: &[&str]) -> Result<(), AllocError>
    ensures { OnOk result (string_bytes text.new
        ≡ string_bytes text.old ++ flat_map field_bytes (map (λ field. field.now) fields.now)) }
{
    for field in fields {
        push_one_field(text, field)?;
    }
    Ok(())
}

// Adds a field, with a tab before it.
fn push_one_field(text: &mut String, field: &str) -> Result<(), AllocError>
    ensures { OnOk result (string_bytes text.new ≡ string_bytes text.old ++ field_bytes field.now) }
{
    text.push('\t')?;
    push_escaped(text, field)
}

// Adds a field. Backslashes, tabs and line feeds are escaped.
fn push_escaped(text: &mut String, field: &str) -> Result<(), AllocError>
    ensures { OnOk result (string_bytes text.new ≡ string_bytes text.old ++ escaped field.now) }
{
    for character in field.chars() {
        push_character(text, character)?;
    }
    Ok(())
}

// Adds a character of a field.
fn push_character(text: &mut String, character: char) -> Result<(), AllocError>
    ensures { OnOk result (string_bytes text.new ≡ string_bytes text.old ++ escaped_character character) }
{
    match character {
        '\\' => text.push_str("\\\\"),
        '\t' => text.push_str("\\t"),
        '\n' => text.push_str("\\n"),
        other => text.push(other),
    }
}

/// Reads a journal: the one of which [`journal_text`] writes this text. Each text that is written of a run is read, if
/// there is memory. Otherwise fails with [`JournalError::OldJournal`] if the text begins as a journal of an older version, and
/// with [`JournalError::NotAJournal`] if it doesn't.
///
/// Allocates the journal, and its text once more.
pub fn journal_of(alloc: Global, text: &str) -> Result<Journal, JournalError>
    // the journal's work is one that a run can have
    ensures of_run { IfOk result (λ journal. IsOfRun journal.work) }
    // the text is exactly that of the journal
    ensures text { IfOk result (λ journal.
        text.now ≡ journal_bytes journal.origin journal.stage journal.work) }
    // a text written of a run is read as its journal, given memory
    ensures read { (origin : Origin) (stage : Stage) (work : Work) → IsTextOfRun text.now origin stage work
        → GivenMemory result (λ journal. Says journal origin stage work) }
{
    if text.starts_with(FIRST_HEAD) || text.starts_with(SECOND_HEAD) {
        return Err(JournalError::OldJournal);
    }
    let journal = read_lines(alloc, text)?;
    if !is_from_run(alloc, &journal, text)? {
        return Err(JournalError::NotAJournal);
    }
    Ok(journal)
}

// Whether a run writes this text of a journal. Only this tells whether the lines are in order, and whether the last one
// has their digest.
fn is_from_run(alloc: Global, journal: &Journal, text: &str) -> Result<bool, AllocError>
    ensures of_run { IfOk result (λ yes. IsTrue yes → IsOfRun journal.now.work) }
    ensures text { IfOk result (λ yes. IsTrue yes
        → text.now ≡ journal_bytes journal.now.origin journal.now.stage journal.now.work) }
    ensures read { (origin : Origin) (stage : Stage) (work : Work) → IsTextOfRun text.now origin stage work
        → Says journal.now origin stage work → IfOk result (λ yes. IsTrue yes) }
{
    if !is_text_of(alloc, journal, text)? {
        return Ok(false);
    }
    is_of_run(alloc, &journal.work)
}

// Whether a text is the one that is written of a journal.
fn is_text_of(alloc: Global, journal: &Journal, text: &str) -> Result<bool, AllocError>
    ensures { IfOk result (λ yes. IsTrue yes
        ↔ (text.now ≡ journal_bytes journal.now.origin journal.now.stage journal.now.work)) }
{
    let written = journal_text(alloc, journal.origin, journal.stage, &journal.work)?;
    Ok(written.as_str() == text)
}

// What the lines of a text say, in whatever order they are. The first line isn't read.
fn read_lines(alloc: Global, text: &str) -> Result<Journal, JournalError>
    ensures { (origin : Origin) (stage : Stage) (work : Work) → IsTextOfRun text.now origin stage work
        → GivenMemory result (λ journal. Says journal origin stage work) }
{
    let mut journal = Journal {
        origin: Origin {
            root: 0,
            file: 0,
            run: 0,
            owner: 0,
            time: 0,
        },
        stage: Stage::Writing,
        work: Work::new(alloc),
    };
    let Some((_, mut left)) = text.split_once('\n') else {
        return Err(JournalError::NotAJournal);
    };
    while let Some((line, rest)) = left.split_once('\n') {
        read_line(alloc, &mut journal, line)?;
        left = rest;
    }
    Ok(journal)
}

// Adds what a line says to a journal. A line without a tab says nothing.
fn read_line(alloc: Global, journal: &mut Journal, line: &str) -> Result<(), JournalError>
    ensures { (said : Line) → IsLine said → line.now ≡ line_text said
        → GivenMemory result (λ _. content_of journal.new ≡ with_line (content_of journal.old) said) }
{
    match line.split_once('\t') {
        Some((word, fields)) => read_fields(alloc, journal, word, fields),
        None => Ok(()),
    }
}

// Adds what the word and the fields of a line say to a journal.
fn read_fields(
    alloc: Global,
    journal: &mut Journal,
    word: &str,
    fields: &str,
) -> Result<(), JournalError>
    ensures { (said : Line) → IsLine said → word.now ≡ line_word said → fields.now ≡ fields_text (line_fields said)
        → GivenMemory result (λ _. content_of journal.new ≡ with_line (content_of journal.old) said) }
{
    match word {
        "root" => set_number(&mut journal.origin.root, fields),
        "file" => set_number(&mut journal.origin.file, fields),
        "run" => set_number(&mut journal.origin.run, fields),
        "owner" => set_number(&mut journal.origin.owner, fields),
        "time" => set_number(&mut journal.origin.time, fields),
        "stage" => set_stage(&mut journal.stage, fields),
        END => Ok(()),
        _ => read_action(alloc, &mut journal.work, word, fields),
    }
}

// Sets a number to that of a field.
fn set_number(number: &mut u64, field: &str) -> Result<(), JournalError>
    ensures { (n : ℕ) → n < 2 ^ 64 → field.now ≡ decimal n → GivenMemory result (λ _. number.new ≡ n) }
{
    *number = number_of(field)?;
    Ok(())
}

// Sets a stage to that of a field.
fn set_stage(stage: &mut Stage, field: &str) -> Result<(), JournalError>
    ensures { (said : Stage) → field.now ≡ stage_name said → GivenMemory result (λ _. stage.new ≡ said) }
{
    *stage = Stage::of_name(field).ok_or(JournalError::NotAJournal)?;
    Ok(())
}

// Adds what a line says to the work of a run.
fn read_action(alloc: Global, work: &mut Work, word: &str, fields: &str) -> Result<(), JournalError>
    ensures { (said : WorkLine) → IsWorkLine said → word.now ≡ work_word said → fields.now ≡ fields_text (work_fields said)
        → GivenMemory result (λ _. parts_of work.new ≡ with_work_line (parts_of work.old) said) }
{
    match word {
        "text" => add_text(alloc, &mut work.texts, fields),
        "staged" => add_rename(alloc, &mut work.staged, fields),
        "made" => add_directory(alloc, &mut work.made, fields),
        "placed" => add_rename(alloc, &mut work.placed, fields),
        "removed" => add_removed(alloc, &mut work.cleaned, fields),
        "emptied" => add_emptied(alloc, &mut work.cleaned, fields),
        _ => Err(JournalError::NotAJournal),
    }
}

// Adds the text of three fields.
fn add_text(alloc: Global, texts: &mut Vec<TextFile>, fields: &str) -> Result<(), JournalError>
    ensures { (text : List ℕ × TextDigest) → IsTextParts text → fields.now ≡ fields_text (text_fields text)
        → GivenMemory result (λ _. map text_parts texts.new.items ≡ map text_parts texts.old.items ++ text ∷ []) }
{
    texts.push(text_file_of(alloc, fields)?)?;
    Ok(())
}

// Adds the rename of two fields.
fn add_rename(alloc: Global, renames: &mut Vec<Rename>, fields: &str) -> Result<(), JournalError>
    ensures { (rename : List ℕ × List ℕ) → IsRenameParts rename → fields.now ≡ fields_text (rename_fields rename)
        → GivenMemory result (λ _. map rename_parts renames.new.items ≡ map rename_parts renames.old.items ++ rename ∷ []) }
{
    renames.push(rename_of(alloc, fields)?)?;
    Ok(())
}

// Adds the path of a field.
fn add_directory(alloc: Global, paths: &mut Vec<String>, field: &str) -> Result<(), JournalError>
    ensures { (path : List ℕ) → IsUtf8 path → field.now ≡ escaped path
        → GivenMemory result (λ _. map string_bytes paths.new.items ≡ map string_bytes paths.old.items ++ path ∷ []) }
{
    paths.push(path_of(alloc, field)?)?;
    Ok(())
}

// Adds the text of three fields to what is removed.
fn add_removed(
    alloc: Global,
    leftovers: &mut Vec<Leftover>,
    fields: &str,
) -> Result<(), JournalError>
    ensures { (text : List ℕ × TextDigest) → IsTextParts text → fields.now ≡ fields_text (text_fields text)
        → GivenMemory result (λ _. map leftover_parts leftovers.new.items
        ≡ map leftover_parts leftovers.old.items ++ Removed text ∷ []) }
{
    leftovers.push(Leftover::Text(text_file_of(alloc, fields)?))?;
    Ok(())
}

// Adds the directory of a field to what is removed.
fn add_emptied(
    alloc: Global,
    leftovers: &mut Vec<Leftover>,
    field: &str,
) -> Result<(), JournalError>
    ensures { (path : List ℕ) → IsUtf8 path → field.now ≡ escaped path
        → GivenMemory result (λ _. map leftover_parts leftovers.new.items
        ≡ map leftover_parts leftovers.old.items ++ Emptied path ∷ []) }
{
    leftovers.push(Leftover::Directory(path_of(alloc, field)?))?;
    Ok(())
}

// The number of a field.
fn number_of(field: &str) -> Result<u64, JournalError>
    ensures { (n : ℕ) → n < 2 ^ 64 → field.now ≡ decimal n → result ≡ Ok n }
{
    match field.parse::<u64>() {
        Ok(number) => Ok(number),
        Err(_) => Err(JournalError::NotAJournal),
    }
}

// The SHA-256 of a field.
fn sha256_of(field: &str) -> Result<[u8; 32], JournalError>
    ensures { (bytes : List ℕ) → length bytes ≡ 32 → IsBytes bytes → field.now ≡ encode_lower bytes → result ≡ Ok bytes }
{
    match <[u8; 32] as FromHex>::from_hex(field) {
        Ok(bytes) => Ok(bytes),
        Err(_) => Err(JournalError::NotAJournal),
    }
}

// The two parts of fields at the first tab.
fn cut_at_tab(fields: &str) -> Result<(&str, &str), JournalError>
    ensures { (front back : List ℕ) → All (λ b. b ≢ 9) front → fields.now ≡ front ++ 9 ∷ back
        → IsOkAnd result (λ parts. (parts.0.now ≡ front) × (parts.1.now ≡ back)) }
{
    fields.split_once('\t').ok_or(JournalError::NotAJournal)
}

// The rename of two fields.
fn rename_of(alloc: Global, fields: &str) -> Result<Rename, JournalError>
    ensures { (rename : List ℕ × List ℕ) → IsRenameParts rename → fields.now ≡ fields_text (rename_fields rename)
        → GivenMemory result (λ r. rename_parts r ≡ rename) }
{
    let (from, to) = cut_at_tab(fields)?;
    Ok(Rename {
        from: path_of(alloc, from)?,
        to: path_of(alloc, to)?,
    })
}

// The text in a file of three fields.
fn text_file_of(alloc: Global, fields: &str) -> Result<TextFile, JournalError>
    ensures { (text : List ℕ × TextDigest) → IsTextParts text → fields.now ≡ fields_text (text_fields text)
        → GivenMemory result (λ file. text_parts file ≡ text) }
{
    let (path, digest) = cut_at_tab(fields)?;
    Ok(TextFile {
        path: path_of(alloc, path)?,
        digest: text_digest_of(digest)?,
    })
}

// The digest of two fields.
fn text_digest_of(fields: &str) -> Result<TextDigest, JournalError>
    ensures { (digest : TextDigest) → IsDigest digest → fields.now ≡ fields_text (digest_fields digest) → result ≡ Ok digest }
{
    let (length, sha256) = cut_at_tab(fields)?;
    Ok(TextDigest {
        length: number_of(length)?,
        sha256: sha256_of(sha256)?,
    })
}

// The path of a field: it without its escapes.
fn path_of(alloc: Global, field: &str) -> Result<String, JournalError>
    ensures { (path : List ℕ) → IsUtf8 path → field.now ≡ escaped path → GivenMemory result (λ p. string_bytes p ≡ path) }
{
    let mut path = String::new(alloc);
    let mut is_escaped = false;
    for character in field.chars() {
        if is_escaped {
            path.push(unescape(character)?)?;
            is_escaped = false;
        } else if character == '\\' {
            is_escaped = true;
        } else {
            path.push(character)?;
        }
    }
    if is_escaped {
        return Err(JournalError::NotAJournal);
    }
    Ok(path)
}

// The character that a backslash and this one stand for.
fn unescape(character: char) -> Result<char, JournalError>
    ensures backslash { character ≡ 92 → result ≡ Ok 92 }
    ensures tab { character ≡ 116 → result ≡ Ok 9 }
    ensures line_feed { character ≡ 110 → result ≡ Ok 10 }
{
    match character {
        '\\' => Ok('\\'),
        't' => Ok('\t'),
        'n' => Ok('\n'),
        _ => Err(JournalError::NotAJournal),
    }
}
