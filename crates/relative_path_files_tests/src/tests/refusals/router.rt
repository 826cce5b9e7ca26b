//! The router of static files.
use super::long_text;
use super::marks::{begin, end, end_answered};
use crate::tests::same;
use relative_path::RelativePath;
use relative_path_files::{
    RequestError, ResolvedRequest, place_from_top, resolve_request, resolve_request_on_unix,
};
use std::alloc::Global;
use std::test::Fail;

// What a request names, or why it is refused.
type Answer = Result<ResolvedRequest, RequestError>;

// The mark after a call. Fails if no allocation failed and the result is another.
fn end_with(
    alloc: Global,
    answer: Answer,
    expected: Result<&str, RequestError>,
) -> Result<(), Fail> {
    match answer {
        Ok(found) => {
            end_answered(alloc);
            same("a path", Ok(found.path.as_str()), expected)
        }
        Err(RequestError::OutOfMemory) => end(alloc, true),
        Err(error) => {
            end_answered(alloc);
            same("an error", Err(error), expected)
        }
    }
}

fn resolves(
    alloc: Global,
    request: &str,
    expected: Result<&str, RequestError>,
) -> Result<(), Fail> {
    resolves_below(alloc, "/srv/www", request, expected)
}

fn resolves_below(
    alloc: Global,
    root: &str,
    request: &str,
    expected: Result<&str, RequestError>,
) -> Result<(), Fail> {
    begin(alloc);
    let answer = resolve_request(alloc, root, request);
    end_with(alloc, answer, expected)
}

// Requests: 14 14 = 1, 1048576 1048585 = 1
#[test]
fn a_file(rt: HostRuntime) -> Result<(), Fail> {
    resolves(rt.alloc(), "/css//../a.css", Ok("/srv/www/a.css"))?;
    let long = long_text(rt.alloc())?;
    let file = format!(in rt.alloc(); "/srv/www/{long}")?;
    resolves(rt.alloc(), long.as_str(), Ok(file.as_str()))
}

// Requests: = 0, 3 = 0
#[test]
fn a_refused_request(rt: HostRuntime) -> Result<(), Fail> {
    resolves(rt.alloc(), "/../secrets", Err(RequestError::ClimbsAbove))?;
    resolves(rt.alloc(), r"a\b", Err(RequestError::NotPlain))
}

// Requests: 8 = 1, = 0, 1 1 = 1
#[test]
fn an_empty_request(rt: HostRuntime) -> Result<(), Fail> {
    resolves(rt.alloc(), "", Ok("/srv/www"))?;
    resolves_below(rt.alloc(), "", "", Ok(""))?;
    resolves_below(rt.alloc(), "", "a", Ok("a"))
}

// Requests: 15 15 = 1, = 0
#[test]
fn a_request_on_unix(rt: HostRuntime) -> Result<(), Fail> {
    begin(rt.alloc());
    let answer = resolve_request_on_unix(rt.alloc(), "/srv/www", "/css//../a?.css");
    end_with(rt.alloc(), answer, Ok("/srv/www/a?.css"))?;
    begin(rt.alloc());
    let answer = resolve_request_on_unix(rt.alloc(), "/srv/www", "..");
    end_with(rt.alloc(), answer, Err(RequestError::ClimbsAbove))
}

fn places(alloc: Global, path: &str, expected: Option<&str>) -> Result<(), Fail> {
    begin(alloc);
    let answer = place_from_top(alloc, RelativePath::new(path));
    match answer {
        Ok(place) => {
            end_answered(alloc);
            let found = place
                .as_ref()
                .map(|place| place.as_relative_path().as_str());
            same(path, found, expected)
        }
        Err(_) => end(alloc, true),
    }
}

// Requests: 7 = 1, = 0, = 0
#[test]
fn a_place(rt: HostRuntime) -> Result<(), Fail> {
    places(rt.alloc(), "/a/../b", Some("b"))?;
    places(rt.alloc(), "a/../..", None)?;
    places(rt.alloc(), "", Some(""))
}
