use super::{prints, same};
use relative_path_files::{
    RequestError, ResolvedRequest, resolve_request, resolve_request_on_unix,
};
use std::alloc::Global;
use std::test::Fail;

// Requests that end in a name, and the files that they name below `site/public`.
const FILES: [(&str, &str); 18] = [
    ("/index.html", "site/public/index.html"),
    ("//x", "site/public/x"),
    ("/css//./site.css", "site/public/css/site.css"),
    ("/a/../b/c.png", "site/public/b/c.png"),
    ("/%2e%2e/secrets", "site/public/%2e%2e/secrets"),
    ("/a\\b/../c", "site/public/c"),
    ("/a?b/../aux/../x", "site/public/x"),
    ("/.hidden/.a", "site/public/.hidden/.a"),
    ("/com10/COMX", "site/public/com10/COMX"),
    (
        "/console/auxiliary.txt",
        "site/public/console/auxiliary.txt",
    ),
    ("/my nul/a.con", "site/public/my nul/a.con"),
    ("/aux cable.png", "site/public/aux cable.png"),
    ("/auxx .txt", "site/public/auxx .txt"),
    ("/a aux.txt", "site/public/a aux.txt"),
    ("/com¹0", "site/public/com¹0"),
    ("/conin", "site/public/conin"),
    ("/a b/PROGRA~1", "site/public/a b/PROGRA~1"),
    ("/über/日本.html", "site/public/über/日本.html"),
];

// Requests that mean a directory, and the directories that they name below `site/public`.
const DIRECTORIES: [(&str, &str); 9] = [
    ("", "site/public"),
    ("/", "site/public"),
    ("/.", "site/public"),
    ("/a/b/../..", "site/public"),
    ("/a:b/../aux/..", "site/public"),
    ("/a/", "site/public/a"),
    ("/a/.", "site/public/a"),
    ("/a/./", "site/public/a"),
    ("/a/b/..", "site/public/a"),
];

// Fails if this is another path than is expected, or doesn't mean a directory although it should, or the other
// way round.
fn is_path(
    request: &str,
    found: &ResolvedRequest,
    path: &str,
    is_directory: bool,
) -> Result<(), Fail> {
    same(
        request,
        (found.path.as_str(), found.is_directory),
        (path, is_directory),
    )
}

// Fails if the request names something else below this root on Unix.
fn names_on_unix(
    alloc: Global,
    root: &str,
    request: &str,
    path: &str,
    is_directory: bool,
) -> Result<(), Fail> {
    let found = resolve_request_on_unix(alloc, root, request)?;
    is_path(request, &found, path, is_directory)
}

// Fails if the request names something else below this root, on every platform or on Unix.
fn names(
    alloc: Global,
    root: &str,
    request: &str,
    path: &str,
    is_directory: bool,
) -> Result<(), Fail> {
    let found = resolve_request(alloc, root, request)?;
    is_path(request, &found, path, is_directory)?;
    names_on_unix(alloc, root, request, path, is_directory)
}

// Fails if the request isn't refused with this error.
fn refuses(alloc: Global, request: &str, error: RequestError) -> Result<(), Fail> {
    let found = resolve_request(alloc, "/srv/www", request).err();
    same(request, found, Some(error))
}

#[test]
fn names_what_is_below_the_root(rt: HostRuntime) -> Result<(), Fail> {
    for (request, file) in &FILES {
        names(rt.alloc(), "site/public", request, file, false)?;
    }
    for (request, directory) in &DIRECTORIES {
        names(rt.alloc(), "site/public", request, directory, true)?;
    }
    Ok(())
}

// Roots, requests, and the files that these name.
const ROOTS: [(&str, &str, &str); 11] = [
    ("/srv/www", "/a/b", "/srv/www/a/b"),
    ("/srv/www/", "/a/b", "/srv/www/a/b"),
    ("/", "/a/b", "/a/b"),
    ("/", "//server/share/x", "/server/share/x"),
    ("//", "a", "//a"),
    ("", "/a/b", "a/b"),
    (".", "/a", "./a"),
    ("../public//.", "/a", "../public//./a"),
    ("C:\\www", "/a", "C:\\www/a"),
    ("C:", "/a", "C:/a"),
    ("\\\\?\\C:\\www", "/a", "\\\\?\\C:\\www/a"),
];

#[test]
fn leaves_the_root_as_it_is(rt: HostRuntime) -> Result<(), Fail> {
    for (root, request, file) in &ROOTS {
        names(rt.alloc(), root, request, file, false)?;
    }
    names(rt.alloc(), "/srv/www/", "/", "/srv/www/", true)?;
    names(rt.alloc(), "/", "", "/", true)?;
    names(rt.alloc(), "", "/", "", true)
}

// Fails if the request isn't refused with this error on Unix.
fn refuses_on_unix(alloc: Global, request: &str, error: RequestError) -> Result<(), Fail> {
    let found = resolve_request_on_unix(alloc, "/srv/www", request).err();
    same(request, found, Some(error))
}

// Requests that climb above the top.
const CLIMBS: [&str; 7] = [
    "..",
    "/../secrets",
    "/../public/index.html",
    "/a/../../x",
    "//..//..//etc/passwd",
    "/a/b/../../../x/../../public/a",
    "/../aux",
];

#[test]
fn refuses_what_climbs(rt: HostRuntime) -> Result<(), Fail> {
    for request in &CLIMBS {
        refuses(rt.alloc(), request, RequestError::ClimbsAbove)?;
        refuses_on_unix(rt.alloc(), request, RequestError::ClimbsAbove)?;
    }
    Ok(())
}

// Requests with a name that isn't plain.
const NOT_PLAIN: [&str; 12] = [
    "/..\\..\\x",
    "/a\\..\\..\\x",
    "/a.html\0.png",
    "/C:/Windows/win.ini",
    "/index.html::$DATA",
    "/index.html?x=1",
    "/index.php.",
    "/.../x",
    "/a /b/",
    "/con.tar.gz/..a",
    "/x/..namedfork/rsrc",
    "/x/../aux",
];

#[test]
fn refuses_a_name_that_is_not_plain(rt: HostRuntime) -> Result<(), Fail> {
    for request in &NOT_PLAIN {
        refuses(rt.alloc(), request, RequestError::NotPlain)?;
    }
    Ok(())
}

// Requests with names that aren't plain, and the files that they name on Unix.
const ON_UNIX: [(&str, &str); 6] = [
    ("/index.html?x=1", "/srv/www/index.html?x=1"),
    ("/a:b", "/srv/www/a:b"),
    ("/..\\..\\x", "/srv/www/..\\..\\x"),
    ("/aux.txt", "/srv/www/aux.txt"),
    ("/...", "/srv/www/..."),
    ("/a\0b", "/srv/www/a\0b"),
];

#[test]
fn refuses_no_name_on_unix(rt: HostRuntime) -> Result<(), Fail> {
    for (request, file) in &ON_UNIX {
        names_on_unix(rt.alloc(), "/srv/www", request, file, false)?;
    }
    Ok(())
}

// Errors, and what they print.
const WORDS: [(RequestError, &str); 3] = [
    (
        RequestError::ClimbsAbove,
        "the request climbs above the top",
    ),
    (
        RequestError::NotPlain,
        "the request has a name that isn't plain",
    ),
    (RequestError::OutOfMemory, "out of memory"),
];

#[test]
fn errors_print_their_words(rt: HostRuntime) -> Result<(), Fail> {
    for (error, words) in &WORDS {
        prints(rt.alloc(), error, words)?;
    }
    Ok(())
}

#[test]
fn refuses_a_very_long_climb(rt: HostRuntime) -> Result<(), Fail> {
    let climbs = "../".repeat(rt.alloc(), 100_000)?;
    refuses(rt.alloc(), &climbs, RequestError::ClimbsAbove)
}

#[test]
fn names_a_very_long_path(rt: HostRuntime) -> Result<(), Fail> {
    let path = "/a".repeat(rt.alloc(), 100_000)?;
    let file = format!(in rt.alloc(); "/srv/www{path}")?;
    names(rt.alloc(), "/srv/www", &path, &file, false)
}
