//! The commands, and the answer to each.
ghost use Rattle.std.specs.Prelude.{◌≡◌, ◌≢◌, ◌++◌, length, map, string_bytes, IfSome, OnOk};
ghost use Rattle.relpath_lib.specs.Command.{
  Answers,
  AnswersCommand,
  AnswersArguments,
  AnswersNormalize,
  AnswersJoin,
  AnswersRelative,
  AnswersTryRelative,
  AnswersRelativeTo,
  AnswersMove,
  Adds,
  command_named,
  arity_of,
  path_answer,
  words_answer,
};
ghost use Rattle.relative_path.specs.Error.{relative_to_kind, relative_to_words};
ghost use Rattle.relative_path.specs.declared.error.RelativeToErrorKind.TheVariants as RelativeToErrorKind;
ghost use Rattle.relative_path_moves.specs.MoveError.{refusal_text};

use crate::lines::{MAX_FIELDS, split_fields};
use crate::mover::{MoveError, moved};
use relative_path::{RelativePath, RelativePathBuf, RelativeToError, RelativeToErrorKind, unix};
use std::alloc::{AllocError, Global};
use std::fmt::{self, Write};

// What the first field of a line asks for.
#[derive(Clone, Copy)]
enum Command {
    Normalize,
    Join,
    Relative,
    TryRelative,
    RelativeTo,
    Move,
}

impl Command {
    // Returns the command that a first field names.
    fn named(name: &str) -> Option<Command>
        ensures { result ≡ command_named name.now }
    {
        match name {
            "normalize" => Some(Command::Normalize),
            "join" => Some(Command::Join),
            "relative" => Some(Command::Relative),
            "try_relative" => Some(Command::TryRelative),
            "relative_to" => Some(Command::RelativeTo),
            "move" => Some(Command::Move),
            _ => None,
        }
    }

    // Returns how many arguments the command takes.
    fn arity(self) -> usize
        ensures { result ≡ arity_of self }
    {
        match self {
            Command::Normalize => 1,
            Command::Join => 2,
            Command::Relative => 2,
            Command::TryRelative => 2,
            Command::RelativeTo => 2,
            Command::Move => 3,
        }
    }
}

/// Adds the answer to a line to the output. The first field of the line is the command.
pub fn answer_line(alloc: Global, line: &str, output: &mut String) -> Result<(), AllocError>
    ensures { OnOk result (Adds (Answers line.now) (string_bytes output.old) (string_bytes output.new)) }
{
    let mut room = [""; MAX_FIELDS];
    let fields = split_fields(line, &mut room);
    answer_command(alloc, fields[0], &fields[1..], output)
}

// Adds the answer to a command, given by its name, with these arguments.
fn answer_command(
    alloc: Global,
    name: &str,
    arguments: &[&str],
    output: &mut String,
) -> Result<(), AllocError>
    ensures { OnOk result (Adds (AnswersCommand name.now (map (λ field. field.now) arguments.now))
        (string_bytes output.old) (string_bytes output.new)) }
{
    let Some(command) = Command::named(name) else {
        return add_words(output, "unknown command");
    };
    if arguments.len() != command.arity() {
        return add_words(output, "wrong number of fields");
    }
    answer_arguments(alloc, command, arguments, output)
}

// Adds the answer to a command with as many arguments as it takes. The commands but `normalize` are out of line, so that
// no other line pays for them.
#[inline(always)]
fn answer_arguments(
    alloc: Global,
    command: Command,
    arguments: &[&str],
    output: &mut String,
) -> Result<(), AllocError>
    requires { length arguments.now ≡ arity_of command }
    ensures { OnOk result
        (Adds (AnswersArguments command (map (λ field. field.now) arguments.now))
        (string_bytes output.old) (string_bytes output.new)) }
{
    match (command, arguments) {
        (Command::Normalize, [path]) => answer_normalize(alloc, path, output),
        (Command::Join, [path, more]) => answer_join(alloc, path, more, output),
        (Command::Relative, [from, to]) => answer_relative(alloc, from, to, output),
        (Command::TryRelative, [from, to]) => answer_try_relative(alloc, from, to, output),
        (Command::RelativeTo, [path, root]) => answer_relative_to(alloc, path, root, output),
        (Command::Move, [old, new, reference]) => answer_move(alloc, old, new, reference, output),
        _ => unreachable!(),
    }
}

fn answer_normalize(alloc: Global, path: &str, output: &mut String) -> Result<(), AllocError>
    ensures { OnOk result
        (Adds (AnswersNormalize path.now) (string_bytes output.old) (string_bytes output.new)) }
{
    add_path(output, &RelativePath::new(path).normalize(alloc)?)
}

#[inline(never)]
fn answer_join(alloc: Global, path: &str, more: &str, output: &mut String) -> Result<(), AllocError>
    ensures { OnOk result
        (Adds (AnswersJoin path.now more.now) (string_bytes output.old) (string_bytes output.new)) }
{
    let joined = RelativePath::new(path).join(alloc, RelativePath::new(more))?;
    add_path(output, &joined)
}

#[inline(never)]
fn answer_relative(
    alloc: Global,
    from: &str,
    to: &str,
    output: &mut String,
) -> Result<(), AllocError>
    ensures { OnOk result
        (Adds (AnswersRelative from.now to.now) (string_bytes output.old) (string_bytes output.new)) }
{
    let way = RelativePath::new(from).relative(alloc, RelativePath::new(to))?;
    add_path(output, &way)
}

#[inline(never)]
fn answer_try_relative(
    alloc: Global,
    from: &str,
    to: &str,
    output: &mut String,
) -> Result<(), AllocError>
    ensures { OnOk result
        (Adds (AnswersTryRelative from.now to.now) (string_bytes output.old) (string_bytes output.new)) }
{
    match RelativePath::new(from).try_relative(alloc, RelativePath::new(to))? {
        Some(way) => add_path(output, &way),
        None => add_words(output, "no path"),
    }
}

#[inline(never)]
fn answer_relative_to(
    alloc: Global,
    path: &str,
    root: &str,
    output: &mut String,
) -> Result<(), AllocError>
    ensures { OnOk result
        (Adds (AnswersRelativeTo path.now root.now) (string_bytes output.old) (string_bytes output.new)) }
{
    match unix::relative_to(alloc, path, root) {
        Ok(way) => add_path(output, &way),
        Err(error) => add_error(error, output),
    }
}

#[inline(never)]
fn answer_move(
    alloc: Global,
    old: &str,
    new: &str,
    reference: &str,
    output: &mut String,
) -> Result<(), AllocError>
    ensures { OnOk result (Adds (AnswersMove old.now new.now reference.now)
        (string_bytes output.old) (string_bytes output.new)) }
{
    let moves = [(RelativePath::new(old), RelativePath::new(new))];
    match moved(alloc, &moves, 0, RelativePath::new(reference)) {
        Ok(way) => add_path(output, &way),
        Err(error) => add_move_error(error, output),
    }
}

// Adds the answer that says why there is no relative path. Fails if the error is a failed allocation.
fn add_error(error: RelativeToError, output: &mut String) -> Result<(), AllocError>
    ensures { OnOk result ((relative_to_kind error ≢ RelativeToErrorKind.OutOfMemory)
        × (string_bytes output.new
        ≡ string_bytes output.old ++ words_answer (relative_to_words (relative_to_kind error)))) }
{
    match error.kind() {
        RelativeToErrorKind::OutOfMemory => Err(AllocError),
        _ => add_printed(output, &error),
    }
}

// Adds the answer that says why a reference has no new path. Fails if the error is a failed allocation.
fn add_move_error(error: MoveError, output: &mut String) -> Result<(), AllocError>
    ensures { OnOk result ((error ≢ MoveError.OutOfMemory)
        × (string_bytes output.new ≡ string_bytes output.old ++ words_answer (refusal_text error))) }
{
    match error {
        MoveError::OutOfMemory => Err(AllocError),
        _ => add_printed(output, &error),
    }
}

// Adds the answer `! ` and what a value prints.
fn add_printed<T: fmt::Display>(output: &mut String, words: &T) -> Result<(), AllocError>
    ensures { OnOk result (IfSome (T.output words.now) (λ words.
        string_bytes output.new ≡ string_bytes output.old ++ words_answer words)) }
{
    write!(output, "! {words}")
}

// Adds the answer `= ` and a path.
fn add_path(output: &mut String, path: &RelativePathBuf) -> Result<(), AllocError>
    ensures { OnOk result
        (string_bytes output.new ≡ string_bytes output.old ++ path_answer path.now.text) }
{
    output.push_str("= ")?;
    output.push_str(path.as_relative_path().as_str())
}

// Adds the answer `! ` and words.
fn add_words(output: &mut String, words: &str) -> Result<(), AllocError>
    ensures { OnOk result
        (string_bytes output.new ≡ string_bytes output.old ++ words_answer words.now) }
{
    output.push_str("! ")?;
    output.push_str(words)
}
