//! A router of static files: from the path of a request to a file below a root.
ghost use Rattle.std.specs.Prelude.{◌≡◌, ◌↔◌, IfErr, IfOk, IsErrOf, None, Some, string_bytes};
ghost use Rattle.relative_path.specs.RelativePath.{path_components, path_text};
ghost use Rattle.relative_path.specs.Steps.{components};
ghost use Rattle.relative_path.specs.Walk.{place_of};
ghost use Rattle.relative_path_files.specs.Router.{added, ends_in_name, means_directory, HasPlainPlace, IsBelowRoot, IsRequestRefused, IsRequestRefusedOnUnix};

use crate::from_top::place_from_top;
use crate::names::has_plain_names;
use relative_path::{Component, RelativePath};
use std::alloc::{AllocError, Global};
use std::error::Error;
use std::fmt;

/// What a request names below a root.
#[derive(Debug, Drop, PartialEq, Eq)]
pub struct ResolvedRequest {
    /// The platform path: the root as it is, and then the names of the place where the request leads from the
    /// top, with single slashes between.
    pub path: String,
    /// Whether the request means a directory: it ends in a slash, in `.` or in `..`, or it is empty. Otherwise
    /// it ends in a name, and the caller sees on the disk whether that is a file.
    pub is_directory: bool,
}

/// Why a request isn't resolved.
///
/// ```
/// let error = RequestError::ClimbsAbove;
/// assert_eq!(rt; error.to_string(alloc)?.as_str(), "the request climbs above the top");
/// ```
#[derive(Clone, Copy, Debug, PartialEq, Eq)]
pub enum RequestError {
    /// The request climbs above the top, even if it comes back.
    ClimbsAbove,
    /// The place where the request leads has a name that isn't plain.
    NotPlain,
    /// An allocation failed.
    OutOfMemory,
}

impl fmt::Display for RequestError {
    ghost use Rattle.relative_path_files.specs.Router.{request_error_text};

    // the words for the error
    ghost output = { λ error. Some (request_error_text error) };

    fn fmt<W: fmt::Write>(&self, f: &mut fmt::Formatter<W>) -> fmt::Result {
        match self {
            RequestError::ClimbsAbove => f.write_str("the request climbs above the top"),
            RequestError::NotPlain => f.write_str("the request has a name that isn't plain"),
            RequestError::OutOfMemory => f.write_str("out of memory"),
        }
    }
}

impl Error for RequestError {}

impl From<AllocError> for RequestError {
    ghost use Rattle.relative_path_files.specs.declared.router.RequestError.TheVariants.{OutOfMemory};

    // a failed allocation becomes `OutOfMemory`
    ghost from_gives = { λ _ error. error ≡ OutOfMemory };

    fn from(_: AllocError) -> RequestError {
        RequestError::OutOfMemory
    }
}

/// Returns the platform path that a request names below `root`: the root as it is, and then the names of the
/// place where the request leads from the top, with single slashes between. Also returns whether the request
/// means a directory.
///
/// Fails with `ClimbsAbove` if the request climbs above the top, even if it comes back. Fails with `NotPlain`
/// if the place has a name that isn't plain: see [`crate::is_plain_name`], which also says what isn't
/// refused.
///
/// Slashes at the start of a request and doubled slashes mean nothing: `//x/` leads where `x` leads. A request
/// such as `/a/`, `/a/.` or `/a/b/..` means a directory. For a request that leads to the top, the path is the
/// root.
///
/// The root may be absolute or relative. The call neither checks nor changes it. After a root that ends in
/// a slash it adds no second slash, and after the empty root the result begins with the first name. On
/// Windows, don't pass a root that is only a drive, such as `C:`: with the slash, the result is at the top of
/// the drive, and not in the drive's current directory. Don't pass a root that begins with `\\?\` either,
/// since Windows doesn't read a slash as a separator after that prefix.
///
/// Before the call, cut off the query at its `?`, decode percent signs once, and reject what isn't UTF-8.
/// Never decode the result: `%2e%2e` is a name here. The call can't see the disk. So the caller decides
/// about symbolic links, about upper and lower case, and about names that begin with a dot.
///
/// Allocates twice: the place, unless the request is empty, and the result. For a request that climbs it
/// doesn't allocate, and for one with a name that isn't plain it allocates once.
///
/// ```
/// let found = resolve_request(alloc, "/srv/www", "/css/./../a.css")?;
/// assert_eq!(rt; (found.path.as_str(), found.is_directory), ("/srv/www/a.css", false));
/// let error = resolve_request(alloc, "/srv/www", "/../secrets").err();
/// assert_eq!(rt; error, Some(RequestError::ClimbsAbove));
/// let error = resolve_request(alloc, "/srv/www", r"/..\..\secrets").err();
/// assert_eq!(rt; error, Some(RequestError::NotPlain));
/// ```
pub fn resolve_request(
    alloc: Global,
    root: &str,
    request: &str,
) -> Result<ResolvedRequest, RequestError>
    // `path` is the root, then the names of where the request leads
    ensures path { IfOk result (λ found.
        IsBelowRoot root.now (components request.now) (string_bytes found.path)) }
    // it succeeds only if the names of where it leads are plain
    ensures plain { IfOk result (λ _. HasPlainPlace (components request.now)) }
    // `is_directory` exactly if the request ends in a slash or not in a name
    ensures directory { IfOk result (λ found. found.is_directory ≡ means_directory request.now) }
    // `NotPlain` only if a name of where it leads isn't plain
    ensures refused { IfErr result (IsRequestRefused (components request.now)) }
    // `ClimbsAbove` exactly if the request climbs above the top
    ensures climbs { IsErrOf result RequestError.ClimbsAbove
        ↔ (place_of (components request.now) ≡ None) }
{
    let request = RelativePath::new(request);
    let place = place_from_top(alloc, request)?.ok_or(RequestError::ClimbsAbove)?;
    let place = place.as_relative_path();
    if !has_plain_names(place) {
        return Err(RequestError::NotPlain);
    }
    let path = path_in_root(alloc, root, place)?;
    let is_directory = means_directory(request);
    Ok(ResolvedRequest { path, is_directory })
}

/// Does what [`resolve_request`] does, but refuses no name. It only asks whether the request climbs above the
/// top, and never fails with `NotPlain`.
///
/// Use it only if Unix alone reads the result, and never Windows: Windows reads `..\..\x` as a path that
/// climbs. A mirror of a site on Unix may have files such as `index.html?x=1`. A name may have a NUL: Rust's
/// `std::fs` fails for such a name, and C cuts it there.
///
/// Allocates twice: the place, unless the request is empty, and the result. For a request that climbs it
/// doesn't allocate.
///
/// ```
/// let found = resolve_request_on_unix(alloc, "/srv/www", "/index.html?x=1")?;
/// assert_eq!(rt; found.path.as_str(), "/srv/www/index.html?x=1");
/// let error = resolve_request_on_unix(alloc, "/srv/www", "/../secrets").err();
/// assert_eq!(rt; error, Some(RequestError::ClimbsAbove));
/// ```
pub fn resolve_request_on_unix(
    alloc: Global,
    root: &str,
    request: &str,
) -> Result<ResolvedRequest, RequestError>
    // `path` is the root, then the names of where the request leads
    ensures path { IfOk result (λ found.
        IsBelowRoot root.now (components request.now) (string_bytes found.path)) }
    // `is_directory` exactly if the request ends in a slash or not in a name
    ensures directory { IfOk result (λ found. found.is_directory ≡ means_directory request.now) }
    // the error is never `NotPlain`
    ensures refused { IfErr result (IsRequestRefusedOnUnix (components request.now)) }
    // `ClimbsAbove` exactly if the request climbs above the top
    ensures climbs { IsErrOf result RequestError.ClimbsAbove
        ↔ (place_of (components request.now) ≡ None) }
{
    let request = RelativePath::new(request);
    let place = place_from_top(alloc, request)?.ok_or(RequestError::ClimbsAbove)?;
    let path = path_in_root(alloc, root, place.as_relative_path())?;
    let is_directory = means_directory(request);
    Ok(ResolvedRequest { path, is_directory })
}

// Returns the root, and after it the path, unless the path is empty.
fn path_in_root(alloc: Global, root: &str, path: RelativePath<'_>) -> Result<String, AllocError>
    ensures { IfOk result (λ text. string_bytes text ≡ added root.now (path_text path.entry)) }
{
    if path.as_str().is_empty() {
        return root.to_string(alloc);
    }
    Ok(RelativePath::new(root).join(alloc, path)?.into_string())
}

// Returns whether a request ends in a slash, or its last component isn't a name, or it has no component.
fn means_directory(request: RelativePath<'_>) -> bool
    ensures { result ≡ means_directory (path_text request.entry) }
{
    request.as_str().ends_with('/') || !ends_in_name(request)
}

// Returns whether the last component of a path is a name.
fn ends_in_name(path: RelativePath<'_>) -> bool
    ensures { result ≡ ends_in_name (path_components path.entry) }
{
    matches!(path.components().next_back(), Some(Component::Normal(_)))
}
