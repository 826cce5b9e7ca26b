//! What the arguments of a call mean.
use relmove_folder::PagesAs;
use relmove_plan::NameRule;
use relmove_run::{Direction, Printable};
use std::alloc::{AllocError, AllocFailed, Global};
use std::error::Error;
use std::fmt;

/// What a call asks for. Paths are as they were written.
#[derive(Debug, PartialEq, Eq, Drop)]
pub enum Task<'a> {
    /// `--help`
    Help,
    /// `--version`
    Version,
    /// `--check ROOT`
    Check {
        /// The root.
        root: &'a str,
        /// The paths after each `--exclude`.
        excluded: Vec<&'a str>,
        /// `--fragments`
        fragments: bool,
        /// The form after `--pages-as`.
        pages_as: Option<PagesAs>,
        /// The path after `--site-root`.
        site_root: Option<&'a str>,
        /// `--json`
        json: bool,
        /// `--verbose`
        verbose: bool,
    },
    /// `--resume ROOT` or `--undo ROOT`
    End {
        /// The root.
        root: &'a str,
        /// The direction in which the run is ended.
        direction: Direction,
        /// `--trust-journal`, and whether `--write` is there too.
        effect: Option<Effect>,
    },
    /// `ROOT OLD NEW [OLD NEW]...`, or `--into DIR ROOT OLD...`, or `--moves FILE ROOT`
    Move {
        /// The root.
        root: &'a str,
        /// Each OLD with its NEW, or with DIR. There is at least one, unless a file has them.
        moves: Vec<(&'a str, &'a str)>,
        /// The file with the moves: `--moves`.
        list: Option<&'a str>,
        /// Whether the moves were made before the call: `--moved`.
        made: bool,
        /// Whether each OLD moves into a directory: `--into`.
        into: bool,
        /// The paths after each `--exclude`.
        excluded: Vec<&'a str>,
        /// The path after `--site-root`.
        site_root: Option<&'a str>,
        /// The form after `--pages-as`.
        pages_as: Option<PagesAs>,
        /// `--write`
        write: bool,
        /// `--json`
        json: bool,
        /// `--verbose`
        verbose: bool,
        /// `--quiet-mentions`
        quiet_mentions: bool,
        /// [`NameRule::Any`] with `--any-name`.
        rule: NameRule,
    },
}

/// What a call does with the changes that a journal asks for.
#[derive(Clone, Copy, Debug, PartialEq, Eq)]
pub enum Effect {
    /// It prints them.
    Print,
    /// It prints them and makes them: `--write`.
    Write,
}

/// What is wrong with a call.
#[derive(Clone, Copy, Debug, PartialEq, Eq)]
pub enum WrongCall<'a> {
    /// An allocation failed.
    OutOfMemory,
    /// There is no such option.
    UnknownOption(&'a str),
    /// Two of `--check`, `--resume` and `--undo`.
    TwoCommands,
    /// The option isn't one of this command's.
    OptionOfAnother(&'static str),
    /// The word after this option is missing.
    NoValue(&'a str),
    /// This word after `--pages-as` is no form.
    NoForm(&'a str),
    /// An option that can be there once is there twice.
    OptionTwice(&'static str),
    /// There is no ROOT.
    NoRoot,
    /// ROOT is empty.
    EmptyRoot,
    /// There is no OLD.
    NoMove,
    /// There is no OLD after `--into DIR ROOT`.
    NoOld,
    /// An OLD has no NEW.
    NoNew(&'a str),
    /// A word after the ROOT of `--check`, `--resume`, `--undo` or `--moves`.
    AfterRoot(&'a str),
}

impl fmt::Display for WrongCall<'_> {
    fn fmt<W: fmt::Write>(&self, f: &mut fmt::Formatter<W>) -> fmt::Result {
        match self {
            WrongCall::OutOfMemory => f.write_str("memory ran out"),
            WrongCall::UnknownOption(option) => {
                let option = Printable(option);
                write!(f, "there is no option {option}")
            }
            WrongCall::TwoCommands => {
                f.write_str("--check, --resume and --undo can't be together in a call")
            }
            WrongCall::OptionOfAnother(option) => {
                write!(f, "{option} isn't an option of this command")
            }
            WrongCall::NoValue(option) => write!(f, "a word is missing after {option}"),
            WrongCall::NoForm(word) => {
                let word = Printable(word);
                write!(f, "--pages-as takes html, dir or bare, not {word}")
            }
            WrongCall::OptionTwice(option) => write!(f, "{option} is there twice"),
            WrongCall::NoRoot => f.write_str("ROOT is missing"),
            WrongCall::EmptyRoot => { f.write_str("ROOT is empty: the current directory is .") }
            WrongCall::NoMove => f.write_str("OLD and NEW are missing"),
            WrongCall::NoOld => f.write_str("OLD is missing"),
            WrongCall::NoNew(old) => {
                let old = Printable(old);
                write!(f, "NEW is missing after {old}")
            }
            WrongCall::AfterRoot(word) => {
                let word = Printable(word);
                write!(f, "{word} after ROOT is too much")
            }
        }
    }
}

impl Error for WrongCall<'_> {}

impl From<AllocError> for WrongCall<'_> {
    fn from(_: AllocError) -> Self {
        WrongCall::OutOfMemory
    }
}

impl<T: Drop> From<AllocFailed<T>> for WrongCall<'_> {
    fn from(_: AllocFailed<T>) -> Self {
        WrongCall::OutOfMemory
    }
}

const OPTIONS: [&str; 18] = [
    "--help",
    "--version",
    "--check",
    "--fragments",
    "--resume",
    "--undo",
    "--write",
    "--json",
    "--any-name",
    "--into",
    "--exclude",
    "--site-root",
    "--pages-as",
    "--moved",
    "--moves",
    "--verbose",
    "--quiet-mentions",
    "--trust-journal",
];

// The options with a word after them.
const WITH_VALUE: [&str; 5] = [
    "--into",
    "--exclude",
    "--site-root",
    "--pages-as",
    "--moves",
];

/// Returns what a call with these arguments asks for, or what is wrong with the call. The name of the program isn't
/// among the arguments.
///
/// A word that begins with `-` is an option, wherever it is, unless a word `--` is before it. The word after `--into`,
/// `--exclude`, `--site-root`, `--pages-as` or `--moves` is the option's. Allocates lists of the words.
pub fn task_of<'a>(alloc: Global, words: &[&'a str]) -> Result<Task<'a>, WrongCall<'a>> {
    let words = Words::of(alloc, words)?;
    if let Some(option) = unknown_option(&words.options) {
        return Err(WrongCall::UnknownOption(option));
    }
    if words.has("--help") {
        return Ok(Task::Help);
    }
    if words.has("--version") {
        return Ok(Task::Version);
    }
    if let Some(option) = words.open {
        return Err(WrongCall::NoValue(option));
    }
    let commands = [
        words.has("--check"),
        words.has("--resume"),
        words.has("--undo"),
    ];
    match commands {
        [false, false, false] => move_of(alloc, &words),
        [true, false, false] => check_of(alloc, &words),
        [false, true, false] => end_of(Direction::Resume, &words),
        [false, false, true] => end_of(Direction::Undo, &words),
        _ => Err(WrongCall::TwoCommands),
    }
}

// The words of a call, in their order.
#[derive(Drop)]
struct Words<'a> {
    // The options.
    options: Vec<&'a str>,
    // The options with a word after them, each with this word.
    values: Vec<(&'a str, &'a str)>,
    // The words that are no options.
    operands: Vec<&'a str>,
    // The option whose word is missing.
    open: Option<&'a str>,
}

impl<'a> Words<'a> {
    // The words of a call.
    fn of(alloc: Global, words: &[&'a str]) -> Result<Words<'a>, AllocError> {
        let (before, after) = cut_at_end(words);
        let mut sorted = Words {
            options: Vec::new(alloc),
            values: Vec::new(alloc),
            operands: Vec::new(alloc),
            open: None,
        };
        for word in before {
            sorted.add(word)?;
        }
        sorted.operands.extend_from_slice(after)?;
        Ok(sorted)
    }

    // Adds a word that is before `--`.
    fn add(&mut self, word: &'a str) -> Result<(), AllocError> {
        if let Some(option) = self.open.take() {
            self.values.push((option, word))?;
        } else if word.starts_with('-') {
            self.options.push(word)?;
            self.open = value_option(word);
        } else {
            self.operands.push(word)?;
        }
        Ok(())
    }

    // Whether an option is there.
    fn has(&self, option: &str) -> bool {
        has(&self.options, option)
    }

    // The word after an option that can be there once.
    fn value(&self, option: &'static str) -> Result<Option<&'a str>, WrongCall<'a>> {
        let mut found = None;
        for (other, value) in &self.values {
            if *other == option {
                if found.is_some() {
                    return Err(WrongCall::OptionTwice(option));
                }
                found = Some(*value);
            }
        }
        Ok(found)
    }

    // The words after an option, in their order.
    fn values(&self, alloc: Global, option: &str) -> Result<Vec<&'a str>, AllocError> {
        let mut found = Vec::new(alloc);
        for (other, value) in &self.values {
            if *other == option {
                found.push(*value)?;
            }
        }
        Ok(found)
    }

    // Fails if an option is there.
    fn need_none(&self, option: &'static str) -> Result<(), WrongCall<'a>> {
        if self.has(option) {
            return Err(WrongCall::OptionOfAnother(option));
        }
        Ok(())
    }

    // The root, if no word is after it.
    fn only_root(&self) -> Result<&'a str, WrongCall<'a>> {
        match self.operands.as_slice() {
            [] => Err(WrongCall::NoRoot),
            [root] => {
                need_root(root)?;
                Ok(root)
            }
            [_, word, ..] => Err(WrongCall::AfterRoot(word)),
        }
    }
}

// A word, if it is an option with a word after it.
fn value_option(word: &str) -> Option<&str> {
    if has(&WITH_VALUE, word) {
        Some(word)
    } else {
        None
    }
}

// The words before the first `--`, and the words after it.
fn cut_at_end<'a, 'b>(words: &'b [&'a str]) -> (&'b [&'a str], &'b [&'a str]) {
    match words.iter().position(|word| *word == "--") {
        Some(at) => (&words[..at], &words[at + 1..]),
        None => words.split_at(words.len()),
    }
}

// The first option that there isn't.
fn unknown_option<'a>(options: &[&'a str]) -> Option<&'a str> {
    for option in options {
        if !has(&OPTIONS, option) {
            return Some(option);
        }
    }
    None
}

// Whether a word is among the words.
fn has(words: &[&str], word: &str) -> bool {
    words.iter().any(|other| *other == word)
}

// The call that moves files.
fn move_of<'a>(alloc: Global, words: &Words<'a>) -> Result<Task<'a>, WrongCall<'a>> {
    words.need_none("--fragments")?;
    words.need_none("--trust-journal")?;
    let Some((root, paths)) = words.operands.split_first() else {
        return Err(WrongCall::NoRoot);
    };
    need_root(root)?;
    let list = words.value("--moves")?;
    let directory = words.value("--into")?;
    Ok(Task::Move {
        root,
        moves: written_moves(alloc, paths, list, directory)?,
        list,
        made: words.has("--moved"),
        into: directory.is_some(),
        excluded: words.values(alloc, "--exclude")?,
        site_root: words.value("--site-root")?,
        pages_as: pages_as_of(words)?,
        write: words.has("--write"),
        json: words.has("--json"),
        verbose: words.has("--verbose"),
        quiet_mentions: words.has("--quiet-mentions"),
        rule: rule_of(words),
    })
}

// The moves that the words of a call have. A file has them, or a directory is all NEW, or each OLD has its NEW.
fn written_moves<'a>(
    alloc: Global,
    paths: &[&'a str],
    list: Option<&'a str>,
    directory: Option<&'a str>,
) -> Result<Vec<(&'a str, &'a str)>, WrongCall<'a>> {
    match (list, directory) {
        (None, None) => pairs_of(alloc, paths),
        (None, Some(directory)) => pairs_into(alloc, paths, directory),
        (Some(_), Some(_)) => Err(WrongCall::OptionOfAnother("--into")),
        (Some(_), None) => match paths {
            [] => Ok(Vec::new(alloc)),
            [word, ..] => Err(WrongCall::AfterRoot(word)),
        },
    }
}

// Which names each NEW may have.
fn rule_of(words: &Words<'_>) -> NameRule {
    if words.has("--any-name") {
        NameRule::Any
    } else {
        NameRule::Plain
    }
}

// Each OLD with its NEW.
fn pairs_of<'a>(
    alloc: Global,
    paths: &[&'a str],
) -> Result<Vec<(&'a str, &'a str)>, WrongCall<'a>> {
    if paths.is_empty() {
        return Err(WrongCall::NoMove);
    }
    let mut pairs = Vec::new(alloc);
    for pair in paths.chunks(2) {
        match pair {
            [old, new] => pairs.push((*old, *new))?,
            [old] => return Err(WrongCall::NoNew(old)),
            _ => {}
        }
    }
    Ok(pairs)
}

// Each OLD with the directory into which it moves.
fn pairs_into<'a>(
    alloc: Global,
    olds: &[&'a str],
    directory: &'a str,
) -> Result<Vec<(&'a str, &'a str)>, WrongCall<'a>> {
    if olds.is_empty() {
        return Err(WrongCall::NoOld);
    }
    let mut pairs = Vec::with_capacity(alloc, olds.len())?;
    for old in olds {
        pairs.push((*old, directory))?;
    }
    Ok(pairs)
}

// The call that checks links.
fn check_of<'a>(alloc: Global, words: &Words<'a>) -> Result<Task<'a>, WrongCall<'a>> {
    words.need_none("--write")?;
    words.need_none("--any-name")?;
    words.need_none("--into")?;
    words.need_none("--moved")?;
    words.need_none("--moves")?;
    words.need_none("--quiet-mentions")?;
    words.need_none("--trust-journal")?;
    Ok(Task::Check {
        root: words.only_root()?,
        excluded: words.values(alloc, "--exclude")?,
        fragments: words.has("--fragments"),
        pages_as: pages_as_of(words)?,
        site_root: words.value("--site-root")?,
        json: words.has("--json"),
        verbose: words.has("--verbose"),
    })
}

// The form in which a site shows its pages.
fn pages_as_of<'a>(words: &Words<'a>) -> Result<Option<PagesAs>, WrongCall<'a>> {
    let Some(word) = words.value("--pages-as")? else {
        return Ok(None);
    };
    match PagesAs::named(word) {
        Some(form) => Ok(Some(form)),
        None => Err(WrongCall::NoForm(word)),
    }
}

// The call that ends a run.
fn end_of<'a>(direction: Direction, words: &Words<'a>) -> Result<Task<'a>, WrongCall<'a>> {
    words.need_none("--fragments")?;
    words.need_none("--pages-as")?;
    words.need_none("--any-name")?;
    words.need_none("--into")?;
    words.need_none("--exclude")?;
    words.need_none("--site-root")?;
    words.need_none("--moved")?;
    words.need_none("--moves")?;
    words.need_none("--quiet-mentions")?;
    words.need_none("--verbose")?;
    words.need_none("--json")?;
    if !words.has("--trust-journal") {
        words.need_none("--write")?;
    }
    Ok(Task::End {
        root: words.only_root()?,
        direction,
        effect: effect_of(words),
    })
}

// Whether a call trusts the journal, and whether it writes then.
fn effect_of(words: &Words<'_>) -> Option<Effect> {
    match (words.has("--trust-journal"), words.has("--write")) {
        (false, _) => None,
        (true, false) => Some(Effect::Print),
        (true, true) => Some(Effect::Write),
    }
}

// Fails if the root is empty.
fn need_root<'a>(root: &str) -> Result<(), WrongCall<'a>> {
    if root.is_empty() {
        return Err(WrongCall::EmptyRoot);
    }
    Ok(())
}
