//! The answer to each line.

use crate::call::Call;
use crate::refusal::NoAnswer;
use relative_path::{Component, PathExt, RelativePath, RelativePathBuf};
use std::alloc::{AllocError, Global};
use std::path::Path;

/// Makes the call that a line names, and returns the fields of the answer, joined by tabs.
///
/// The calls are in five groups. Each is a `match` that passes other names on to the next group, since one
/// `match` of all thirty-four took a quarter of the crate's proof.
pub fn answer(alloc: Global, line: &str) -> Result<String, NoAnswer> {
    let call = Call::parse(alloc, line)?;
    match call.command {
        "components" => components(alloc, &call),
        "components_back" => components_back(alloc, &call),
        "walk" => walk(alloc, &call),
        "iter" => iter(alloc, &call),
        "eq" => eq(alloc, &call),
        "cmp" => cmp(alloc, &call),
        "display" => display(alloc, &call),
        "debug" => debug(alloc, &call),
        "width" => width(alloc, &call),
        _ => answer_of_platform_paths(alloc, &call),
    }
}

// The calls from and to platform paths, or one of those below.
fn answer_of_platform_paths(alloc: Global, call: &Call<'_>) -> Result<String, NoAnswer> {
    match call.command {
        "from_path" => from_path(alloc, call),
        "from_path_owned" => from_path_owned(alloc, call),
        "to_path" => to_path(alloc, call),
        "to_logical_path" => to_logical_path(alloc, call),
        "relative_to" => relative_to(alloc, call),
        _ => answer_of_parts(alloc, call),
    }
}

// The calls that give parts of a path or tell how it begins and ends, or one of those below.
fn answer_of_parts(alloc: Global, call: &Call<'_>) -> Result<String, NoAnswer> {
    match call.command {
        "parent" => parent(alloc, call),
        "file_name" => file_name(alloc, call),
        "file_stem" => file_stem(alloc, call),
        "extension" => extension(alloc, call),
        "strip_prefix" => strip_prefix(alloc, call),
        "starts_with" => starts_with(alloc, call),
        "ends_with" => ends_with(alloc, call),
        "is_normalized" => is_normalized(alloc, call),
        _ => answer_of_new_paths(alloc, call),
    }
}

// The calls that make a path of others, or one of those below.
fn answer_of_new_paths(alloc: Global, call: &Call<'_>) -> Result<String, NoAnswer> {
    match call.command {
        "join" => join(alloc, call),
        "with_file_name" => with_file_name(alloc, call),
        "with_extension" => with_extension(alloc, call),
        "join_normalized" => join_normalized(alloc, call),
        "normalize" => normalize(alloc, call),
        "relative" => relative(alloc, call),
        _ => answer_of_edits(alloc, call),
    }
}

// The calls that change a buffer.
fn answer_of_edits(alloc: Global, call: &Call<'_>) -> Result<String, NoAnswer> {
    match call.command {
        "push" => push(alloc, call),
        "pop" => pop(alloc, call),
        "set_file_name" => set_file_name(alloc, call),
        "set_extension" => set_extension(alloc, call),
        "extend" => extend(alloc, call),
        "from_paths" => from_paths(alloc, call),
        _ => Err(NoAnswer::UnknownCommand),
    }
}

fn components(alloc: Global, call: &Call<'_>) -> Result<String, NoAnswer> {
    let path = call.one()?;
    let components: Vec<Component<'_>> = RelativePath::new(path).components().collect(alloc)?;
    list(alloc, &components)
}

fn components_back(alloc: Global, call: &Call<'_>) -> Result<String, NoAnswer> {
    let path = call.one()?;
    let components: Vec<Component<'_>> = RelativePath::new(path).components().rev().collect(alloc)?;
    list(alloc, &components)
}

// After each step, `F` from the front or `B` from the back: the component, and the text that is left.
fn walk(alloc: Global, call: &Call<'_>) -> Result<String, NoAnswer> {
    let (path, steps) = call.two()?;
    let mut components = RelativePath::new(path).components();
    let mut shown = Vec::new(alloc);
    for step in steps.chars() {
        let taken = match step {
            'F' => components.next(),
            'B' => components.next_back(),
            _ => return Err(NoAnswer::UnknownStep),
        };
        shown.push(match taken {
            Some(component) => show(alloc, component)?,
            None => "none".to_string(alloc)?,
        })?;
        shown.push(components.as_relative_path().as_str().to_string(alloc)?)?;
    }
    Ok(shown.join(alloc, "\t")?)
}

fn iter(alloc: Global, call: &Call<'_>) -> Result<String, NoAnswer> {
    let path = call.one()?;
    let texts: Vec<&str> = RelativePath::new(path).iter().collect(alloc)?;
    Ok(texts.join(alloc, "\t")?)
}

fn eq(alloc: Global, call: &Call<'_>) -> Result<String, NoAnswer> {
    let (path, other) = call.two()?;
    let equal = RelativePath::new(path) == RelativePath::new(other);
    Ok(equal.to_string(alloc)?)
}

fn cmp(alloc: Global, call: &Call<'_>) -> Result<String, NoAnswer> {
    let (path, other) = call.two()?;
    let order = RelativePath::new(path).cmp(&RelativePath::new(other));
    Ok(format!(in alloc; "{order:?}")?)
}

fn display(alloc: Global, call: &Call<'_>) -> Result<String, NoAnswer> {
    let path = call.one()?;
    Ok(RelativePath::new(path).to_string(alloc)?)
}

fn debug(alloc: Global, call: &Call<'_>) -> Result<String, NoAnswer> {
    let path = call.one()?;
    let path = RelativePath::new(path);
    Ok(format!(in alloc; "{path:?}")?)
}

fn width(alloc: Global, call: &Call<'_>) -> Result<String, NoAnswer> {
    let (path, width) = call.two()?;
    let path = RelativePath::new(path);
    let width: usize = width.parse().map_err(|_| NoAnswer::NotAWidth)?;
    Ok(format!(in alloc; "{path:width$}")?)
}

fn from_path(alloc: Global, call: &Call<'_>) -> Result<String, NoAnswer> {
    let path = call.one()?;
    Ok(RelativePath::from_path(Path::new(path))?.to_string(alloc)?)
}

fn from_path_owned(alloc: Global, call: &Call<'_>) -> Result<String, NoAnswer> {
    let path = call.one()?;
    text_of(alloc, &RelativePathBuf::from_path(alloc, Path::new(path))?)
}

fn to_path(alloc: Global, call: &Call<'_>) -> Result<String, NoAnswer> {
    let (path, base) = call.two()?;
    let path = RelativePath::new(path).to_path(alloc, Path::new(base))?;
    Ok(path.into_string())
}

fn to_logical_path(alloc: Global, call: &Call<'_>) -> Result<String, NoAnswer> {
    let (path, base) = call.two()?;
    let path = RelativePath::new(path).to_logical_path(alloc, Path::new(base))?;
    Ok(path.into_string())
}

fn relative_to(alloc: Global, call: &Call<'_>) -> Result<String, NoAnswer> {
    let (path, root) = call.two()?;
    text_of(alloc, &Path::new(path).relative_to(alloc, Path::new(root))?)
}

fn parent(alloc: Global, call: &Call<'_>) -> Result<String, NoAnswer> {
    let path = call.one()?;
    let parent = RelativePath::new(path).parent();
    maybe(alloc, parent.map(|parent| parent.as_str()))
}

fn file_name(alloc: Global, call: &Call<'_>) -> Result<String, NoAnswer> {
    let path = call.one()?;
    maybe(alloc, RelativePath::new(path).file_name())
}

fn file_stem(alloc: Global, call: &Call<'_>) -> Result<String, NoAnswer> {
    let path = call.one()?;
    maybe(alloc, RelativePath::new(path).file_stem())
}

fn extension(alloc: Global, call: &Call<'_>) -> Result<String, NoAnswer> {
    let path = call.one()?;
    maybe(alloc, RelativePath::new(path).extension())
}

fn strip_prefix(alloc: Global, call: &Call<'_>) -> Result<String, NoAnswer> {
    let (path, base) = call.two()?;
    let rest = RelativePath::new(path).strip_prefix(RelativePath::new(base))?;
    Ok(rest.as_str().to_string(alloc)?)
}

fn starts_with(alloc: Global, call: &Call<'_>) -> Result<String, NoAnswer> {
    let (path, base) = call.two()?;
    let starts = RelativePath::new(path).starts_with(RelativePath::new(base));
    Ok(starts.to_string(alloc)?)
}

fn ends_with(alloc: Global, call: &Call<'_>) -> Result<String, NoAnswer> {
    let (path, child) = call.two()?;
    let ends = RelativePath::new(path).ends_with(RelativePath::new(child));
    Ok(ends.to_string(alloc)?)
}

fn is_normalized(alloc: Global, call: &Call<'_>) -> Result<String, NoAnswer> {
    let path = call.one()?;
    let normalized = RelativePath::new(path).is_normalized();
    Ok(normalized.to_string(alloc)?)
}

fn join(alloc: Global, call: &Call<'_>) -> Result<String, NoAnswer> {
    let (path, other) = call.two()?;
    let joined = RelativePath::new(path).join(alloc, RelativePath::new(other))?;
    text_of(alloc, &joined)
}

fn with_file_name(alloc: Global, call: &Call<'_>) -> Result<String, NoAnswer> {
    let (path, name) = call.two()?;
    text_of(alloc, &RelativePath::new(path).with_file_name(alloc, name)?)
}

fn with_extension(alloc: Global, call: &Call<'_>) -> Result<String, NoAnswer> {
    let (path, extension) = call.two()?;
    text_of(
        alloc,
        &RelativePath::new(path).with_extension(alloc, extension)?,
    )
}

fn join_normalized(alloc: Global, call: &Call<'_>) -> Result<String, NoAnswer> {
    let (path, other) = call.two()?;
    let normal = RelativePath::new(path).join_normalized(alloc, RelativePath::new(other))?;
    text_of(alloc, &normal)
}

fn normalize(alloc: Global, call: &Call<'_>) -> Result<String, NoAnswer> {
    let path = call.one()?;
    text_of(alloc, &RelativePath::new(path).normalize(alloc)?)
}

fn relative(alloc: Global, call: &Call<'_>) -> Result<String, NoAnswer> {
    let (from, to) = call.two()?;
    let way = RelativePath::new(from).relative(alloc, RelativePath::new(to))?;
    text_of(alloc, &way)
}

fn push(alloc: Global, call: &Call<'_>) -> Result<String, NoAnswer> {
    let (base, path) = call.two()?;
    let mut buf = RelativePathBuf::from_text(alloc, base)?;
    buf.push(RelativePath::new(path))?;
    text_of(alloc, &buf)
}

fn pop(alloc: Global, call: &Call<'_>) -> Result<String, NoAnswer> {
    let path = call.one()?;
    let mut buf = RelativePathBuf::from_text(alloc, path)?;
    let popped = buf.pop();
    told(alloc, popped, &buf)
}

fn set_file_name(alloc: Global, call: &Call<'_>) -> Result<String, NoAnswer> {
    let (path, name) = call.two()?;
    let mut buf = RelativePathBuf::from_text(alloc, path)?;
    buf.set_file_name(name)?;
    text_of(alloc, &buf)
}

fn set_extension(alloc: Global, call: &Call<'_>) -> Result<String, NoAnswer> {
    let (path, extension) = call.two()?;
    let mut buf = RelativePathBuf::from_text(alloc, path)?;
    let set = buf.set_extension(extension)?;
    told(alloc, set, &buf)
}

fn extend(alloc: Global, call: &Call<'_>) -> Result<String, NoAnswer> {
    let (path, paths) = call.one_and_more()?;
    let mut buf = RelativePathBuf::from_text(alloc, path)?;
    buf.extend(paths.iter().map(|path| RelativePath::new(path)))?;
    text_of(alloc, &buf)
}

fn from_paths(alloc: Global, call: &Call<'_>) -> Result<String, NoAnswer> {
    let paths = call.all().iter().map(|path| RelativePath::new(path));
    text_of(alloc, &RelativePathBuf::from_paths(alloc, paths)?)
}

fn text_of(alloc: Global, buf: &RelativePathBuf) -> Result<String, NoAnswer> {
    Ok(buf.as_relative_path().as_str().to_string(alloc)?)
}

// What an edit returned, and the text then.
fn told(alloc: Global, returned: bool, buf: &RelativePathBuf) -> Result<String, NoAnswer> {
    let text = buf.as_relative_path().as_str();
    Ok(format!(in alloc; "{returned}\t{text}")?)
}

fn maybe(alloc: Global, text: Option<&str>) -> Result<String, NoAnswer> {
    match text {
        Some(text) => Ok(format!(in alloc; "some {text}")?),
        None => Ok("none".to_string(alloc)?),
    }
}

fn list(alloc: Global, components: &[Component<'_>]) -> Result<String, NoAnswer> {
    let shown: Vec<String> = components
        .iter()
        .map(|component| show(alloc, *component))
        .try_collect(alloc)?;
    Ok(shown.join(alloc, "\t")?)
}

fn show(alloc: Global, component: Component<'_>) -> Result<String, AllocError> {
    match component {
        Component::CurDir => "CurDir".to_string(alloc),
        Component::ParentDir => "ParentDir".to_string(alloc),
        Component::Normal(name) => format!(in alloc; "Normal:{name}"),
    }
}
