//! The laws that take memory.
use super::marks::{begin, end, end_answered};
use crate::tests::{same, text_of};
use crate::{
    End, associative, climb_law, extension_law, from_paths_law, join_law, join_normalized_law,
    leads_back, normalize_twice, normalized_law, relative_to_law, same_law, strip_law,
    take_in_turn, triangle, try_law, unit,
};
use relative_path::{Component, RelativePath, RelativePathBuf, RelativeToErrorKind};
use std::alloc::{AllocError, Global};
use std::test::Fail;

fn texts_of(pair: &(RelativePathBuf, RelativePathBuf)) -> (&str, &str) {
    (text_of(&pair.0), text_of(&pair.1))
}

// The mark after a law. It fails where these are not both texts.
fn same_texts(
    alloc: Global,
    answer: Result<(RelativePathBuf, RelativePathBuf), AllocError>,
    expected: (&str, &str),
) -> Result<(), Fail> {
    match answer {
        Ok(pair) => {
            end_answered(alloc);
            same("two texts", texts_of(&pair), expected)
        }
        Err(_) => end(alloc, true),
    }
}

// The same of a join.
fn same_join(
    alloc: Global,
    answer: Result<RelativePathBuf, AllocError>,
    expected: &str,
) -> Result<(), Fail> {
    match answer {
        Ok(buf) => {
            end_answered(alloc);
            same("a join", text_of(&buf), expected)
        }
        Err(_) => end(alloc, true),
    }
}

fn three_texts_of(
    bufs: &(RelativePathBuf, RelativePathBuf, RelativePathBuf),
) -> (&str, &str, &str) {
    (text_of(&bufs.0), text_of(&bufs.1), text_of(&bufs.2))
}

// The same of three texts.
fn same_three(
    alloc: Global,
    answer: Result<(RelativePathBuf, RelativePathBuf, RelativePathBuf), AllocError>,
    expected: (&str, &str, &str),
) -> Result<(), Fail> {
    match answer {
        Ok(bufs) => {
            end_answered(alloc);
            same("three texts", three_texts_of(&bufs), expected)
        }
        Err(_) => end(alloc, true),
    }
}

// Requests: 4 = 1
#[test]
fn join_law_of_two(rt: HostRuntime) -> Result<(), Fail> {
    let [path, other] = ["a/", "//b"].map(RelativePath::new);
    begin(rt.alloc());
    same_join(rt.alloc(), join_law(rt.alloc(), path, other), "a//b")
}

// Requests: 8 8 = 2
#[test]
fn from_paths_law_of_four(rt: HostRuntime) -> Result<(), Fail> {
    let paths = ["a", "/b", "", "c"].map(RelativePath::new);
    begin(rt.alloc());
    let answer = from_paths_law(rt.alloc(), &paths);
    same_texts(rt.alloc(), answer, ("a/b/c", "a/b/c"))
}

// Requests: 4s 3 8 4s 3 = 2
#[test]
fn join_normalized_law_of_two(rt: HostRuntime) -> Result<(), Fail> {
    let [path, other] = ["x/y", "../z"].map(RelativePath::new);
    begin(rt.alloc());
    let answer = join_normalized_law(rt.alloc(), path, other);
    same_texts(rt.alloc(), answer, ("x/z", "x/z"))
}

// Requests: 3s 2 3s 7 2s 4 4s 4 = 2
#[test]
fn associative_of_three(rt: HostRuntime) -> Result<(), Fail> {
    let [a, b, c] = ["a", "../..", "b"].map(RelativePath::new);
    begin(rt.alloc());
    let answer = associative(rt.alloc(), a, b, c);
    same_texts(rt.alloc(), answer, ("../b", "../b"))
}

// Requests: 3s 3 2s 3 2s 3 = 3
#[test]
fn unit_of_one(rt: HostRuntime) -> Result<(), Fail> {
    begin(rt.alloc());
    let answer = unit(rt.alloc(), RelativePath::new("a//b/."));
    same_three(rt.alloc(), answer, ("a/b", "a/b", "a/b"))
}

// Requests: 3s 3 2s 3 = 2
#[test]
fn normalize_twice_of_one(rt: HostRuntime) -> Result<(), Fail> {
    begin(rt.alloc());
    let answer = normalize_twice(rt.alloc(), RelativePath::new("a/./b"));
    same_texts(rt.alloc(), answer, ("a/b", "a/b"))
}

fn normalized_law_of(alloc: Global, text: &str, expected: (bool, &str)) -> Result<(), Fail> {
    begin(alloc);
    let answer = normalized_law(alloc, RelativePath::new(text));
    match answer {
        Ok((is_normal, buf)) => {
            end_answered(alloc);
            same(text, (is_normal, text_of(&buf)), expected)
        }
        Err(_) => end(alloc, true),
    }
}

// Requests: 2s 7 = 1, 3s 7 = 1, = 0
#[test]
fn normalized_law_of_one(rt: HostRuntime) -> Result<(), Fail> {
    normalized_law_of(rt.alloc(), "foo//bar", (true, "foo/bar"))?;
    normalized_law_of(rt.alloc(), "foo/./bar", (false, "foo/bar"))?;
    normalized_law_of(rt.alloc(), "", (true, ""))
}

// Requests: 4s 4 = 1
#[test]
fn climb_law_of_one(rt: HostRuntime) -> Result<(), Fail> {
    begin(rt.alloc());
    let answer = climb_law(rt.alloc(), RelativePath::new("a/../../b"));
    match answer {
        Ok((climb, buf)) => {
            end_answered(rt.alloc());
            same("a climb", (climb, text_of(&buf)), (1, "../b"))
        }
        Err(_) => end(rt.alloc(), true),
    }
}

fn same_law_of(
    alloc: Global,
    path: &str,
    other: &str,
    expected: (&str, &str, Option<usize>),
) -> Result<(), Fail> {
    begin(alloc);
    let answer = same_law(alloc, RelativePath::new(path), RelativePath::new(other));
    match answer {
        Ok((buf, other_buf, apart)) => {
            end_answered(alloc);
            let found = (text_of(&buf), text_of(&other_buf), apart);
            same(path, found, expected)
        }
        Err(_) => end(alloc, true),
    }
}

// Requests: 2s 3 3s 3 2s 3s = 2, 1s 2 2s 5 1s 2s = 2, = 0
#[test]
fn same_law_of_two(rt: HostRuntime) -> Result<(), Fail> {
    same_law_of(rt.alloc(), "a//b", "a/./b", ("a/b", "a/b", None))?;
    same_law_of(rt.alloc(), "..", "../..", ("..", "../..", Some(1)))?;
    same_law_of(rt.alloc(), "", "", ("", "", None))
}

fn leads_back_of(alloc: Global, from: &str, to: &str, expected: (&str, &str)) -> Result<(), Fail> {
    begin(alloc);
    let answer = leads_back(alloc, RelativePath::new(from), RelativePath::new(to));
    same_texts(alloc, answer, expected)
}

// Requests: 2s 2s 4 4s 3 2s 3 = 2, 1s 1s 1s 2 1s 1 = 2, = 0
#[test]
fn leads_back_to_a_target(rt: HostRuntime) -> Result<(), Fail> {
    leads_back_of(rt.alloc(), "a/b", "a/c", ("a/c", "a/c"))?;
    leads_back_of(rt.alloc(), "..", "a", ("..", "a"))?;
    leads_back_of(rt.alloc(), "", "", ("", ""))
}

fn try_law_of(
    alloc: Global,
    from: &str,
    to: &str,
    expected: Option<(&str, &str)>,
) -> Result<(), Fail> {
    begin(alloc);
    let answer = try_law(alloc, RelativePath::new(from), RelativePath::new(to));
    match answer {
        Ok(found) => {
            end_answered(alloc);
            same(from, found.as_ref().map(texts_of), expected)
        }
        Err(_) => end(alloc, true),
    }
}

// Requests: 2s 2s 4 4s 3 = 2, 1s 1s = 0, 1s 2s 1s 1 = 1, = 0
#[test]
fn try_law_to_a_target(rt: HostRuntime) -> Result<(), Fail> {
    try_law_of(rt.alloc(), "a/b", "a/c", Some(("../c", "a/c")))?;
    try_law_of(rt.alloc(), "..", "a", None)?;
    try_law_of(rt.alloc(), "a", "a/.", Some(("", "a")))?;
    try_law_of(rt.alloc(), "", "", Some(("", "")))
}

// Requests: 2s 1s 7 2s 1s 2 1s 1s 4 = 3
#[test]
fn triangle_of_three(rt: HostRuntime) -> Result<(), Fail> {
    let [a, b, c] = ["a/b", "a", "c"].map(RelativePath::new);
    begin(rt.alloc());
    let answer = triangle(rt.alloc(), a, b, c);
    same_three(rt.alloc(), answer, ("../../c", "..", "../c"))
}

// Requests: 8 = 1
#[test]
fn strip_law_of_a_base(rt: HostRuntime) -> Result<(), Fail> {
    let [path, base] = ["//foo/bar/", "foo"].map(RelativePath::new);
    begin(rt.alloc());
    let answer = strip_law(rt.alloc(), path, base);
    match answer {
        Ok(Some((rest, buf))) => {
            end_answered(rt.alloc());
            let found = (rest.as_str(), text_of(&buf));
            same("a rest", found, ("bar/", "foo/bar/"))
        }
        Ok(None) => Err(Fail::new("a rest")),
        Err(_) => end(rt.alloc(), true),
    }
}

// Requests: 3 8 = 1
#[test]
fn extension_law_of_a_file(rt: HostRuntime) -> Result<(), Fail> {
    begin(rt.alloc());
    let answer = extension_law(rt.alloc(), RelativePath::new("..."), "x");
    match answer {
        Ok(found) => {
            end_answered(rt.alloc());
            same("a file", found.as_ref().map(text_of), Some("...x"))
        }
        Err(_) => end(rt.alloc(), true),
    }
}

// The mark after a law that failed with this kind of error. It fails where it isn't lack of memory.
fn end_out_of_memory(alloc: Global, kind: RelativeToErrorKind) -> Result<(), Fail> {
    end(alloc, true)?;
    same("a way", kind, RelativeToErrorKind::OutOfMemory)
}

// Requests: 10 = 1
#[test]
fn relative_to_law_of_texts(rt: HostRuntime) -> Result<(), Fail> {
    begin(rt.alloc());
    let answer = relative_to_law(rt.alloc(), "foo/bar", "./x");
    match answer {
        Ok(buf) => {
            end_answered(rt.alloc());
            same("a way", text_of(&buf), "../foo/bar")
        }
        Err(error) => end_out_of_memory(rt.alloc(), error.kind()),
    }
}

// Requests: = 0, = 0, = 0, = 0
#[test]
fn laws_of_two_texts_of_empty_paths(rt: HostRuntime) -> Result<(), Fail> {
    let alloc = rt.alloc();
    let empty = RelativePath::new("");
    begin(alloc);
    same_texts(alloc, from_paths_law(alloc, &[empty, empty]), ("", ""))?;
    begin(alloc);
    same_texts(alloc, join_normalized_law(alloc, empty, empty), ("", ""))?;
    begin(alloc);
    same_texts(alloc, associative(alloc, empty, empty, empty), ("", ""))?;
    begin(alloc);
    same_texts(alloc, normalize_twice(alloc, empty), ("", ""))
}

// Requests: = 0, = 0
#[test]
fn laws_of_three_texts_of_empty_paths(rt: HostRuntime) -> Result<(), Fail> {
    let alloc = rt.alloc();
    let empty = RelativePath::new("");
    begin(alloc);
    same_three(alloc, unit(alloc, empty), ("", "", ""))?;
    begin(alloc);
    same_three(alloc, triangle(alloc, empty, empty, empty), ("", "", ""))
}

// The mark after a law of empty paths, whose result no test compares here.
fn end_alone<T: Drop, E: Drop>(alloc: Global, answer: Result<T, E>) -> Result<(), Fail> {
    end(alloc, answer.is_err())
}

// Requests: = 0, = 0, = 0, = 0, = 0, = 0
#[test]
fn other_laws_of_empty_paths(rt: HostRuntime) -> Result<(), Fail> {
    let alloc = rt.alloc();
    let empty = RelativePath::new("");
    begin(alloc);
    end_alone(alloc, join_law(alloc, empty, empty))?;
    begin(alloc);
    end_alone(alloc, climb_law(alloc, empty))?;
    begin(alloc);
    end_alone(alloc, strip_law(alloc, empty, empty))?;
    begin(alloc);
    end_alone(alloc, extension_law(alloc, empty, "x"))?;
    begin(alloc);
    end_alone(alloc, relative_to_law(alloc, "", ""))?;
    begin(alloc);
    end_alone(alloc, take_in_turn(alloc, empty, &[]))
}

const ENDS: [End; 3] = [End::Back, End::Front, End::Front];

const TAKEN: [Option<Component<'static>>; 3] = [
    Some(Component::Normal("y")),
    Some(Component::Normal("x")),
    Some(Component::CurDir),
];

// Requests: 128 = 1
#[test]
fn take_in_turn_from_a_path(rt: HostRuntime) -> Result<(), Fail> {
    begin(rt.alloc());
    let answer = take_in_turn(rt.alloc(), RelativePath::new("/x//./y/"), &ENDS);
    match answer {
        Ok(taken) => {
            end_answered(rt.alloc());
            same("components", taken.components.as_slice(), TAKEN.as_slice())
        }
        Err(_) => end(rt.alloc(), true),
    }
}
