//! A manifest in JSON: a directory, and files below it.
ghost use Rattle.std.specs.Prelude.{◌≡◌, ◌≢◌, ◌↔◌, map, option_and_then, IfErr, IfOk, IsErrOf, IsTrue, None, Some};
ghost use Rattle.std.specs.List.{All};
ghost use Rattle.std.specs.Option.{option_map};
ghost use Rattle.relative_path.specs.RelativePath.{path_components, path_text};
ghost use Rattle.serde_json.specs.View.{view};
ghost use Rattle.relative_path_files.specs.Names.{IfName, IsPlainName};
ghost use Rattle.relative_path_manifest.specs.Manifest.{accepted, base_member, entries_of, entry_of, entry_text, file_text, AreFiles, HasOtherBase, IsAnyName, IsEntryRefused, IsFileOf, IsRefusedFor, OfManifest, IsRefusedManifest};

use relative_path::{RelativePath, RelativePathBuf};
use relative_path_files::{has_plain_names, place_from_top};
use relative_path_shared::view_value;
use serde_json::Value;
use std::alloc::{AllocError, AllocFailed, Global};
use std::error::Error;
use std::fmt;

/// Why a manifest isn't accepted. Its entries are numbered from 0: `files[3]` is the fourth.
///
/// ```
/// let error = ManifestError::ClimbsAbove(3);
/// assert_eq!(rt; error.to_string(alloc)?.as_str(), "files[3] climbs above the base");
/// ```
#[derive(Clone, Copy, Debug, PartialEq, Eq)]
pub enum ManifestError {
    /// The member `base`, which names the directory, is missing or isn't a string.
    NoBase,
    /// There is a directory, but the member `files` is missing or isn't a list.
    NoFiles,
    /// This entry, the first that isn't accepted, isn't a string.
    NotAString(usize),
    /// This entry, the first that isn't accepted, climbs above the directory.
    ClimbsAbove(usize),
    /// This entry, the first that isn't accepted, leads to the directory itself, which isn't a file.
    LeadsToBase(usize),
    /// This entry, the first that isn't accepted, has a name that isn't plain.
    NotPlain(usize),
    /// There are a directory and a list, but `base` has a name that isn't plain.
    BaseNotPlain,
    /// An allocation failed.
    OutOfMemory,
}

impl ManifestError {
    /// Returns the number of the entry that isn't accepted, or `None` if the error isn't about an entry.
    ///
    /// ```
    /// assert_eq!(rt; ManifestError::NotPlain(3).entry(), Some(3));
    /// assert_eq!(rt; ManifestError::NoBase.entry(), None);
    /// ```
    pub fn entry(self) -> Option<usize>
        // the number of the error's entry, or `None`
        ensures number { result ≡ entry_of self }
    {
        match self {
            ManifestError::NotAString(k)
            | ManifestError::ClimbsAbove(k)
            | ManifestError::LeadsToBase(k)
            | ManifestError::NotPlain(k) => Some(k),
            ManifestError::NoBase
            | ManifestError::NoFiles
            | ManifestError::BaseNotPlain
            | ManifestError::OutOfMemory => None,
        }
    }

    /// Returns the text of the entry that isn't accepted, as the manifest has it. Returns `None` if the error
    /// isn't about an entry, or if the entry isn't a string. Pass the manifest for which the error was
    /// returned. Allocates nothing.
    ///
    /// The text comes from the manifest, so a log should print it with `{:?}`: it may have a line break.
    ///
    /// ```
    /// let manifest = json!(in alloc; {"base": "a", "files": ["b", "../c"]})?;
    /// if let Err(error) = manifest_files(alloc, &manifest) {
    ///     assert_eq!(rt; error.entry_text(&manifest), Some("../c"));
    /// }
    /// ```
    pub fn entry_text(self, manifest: &Value) -> Option<&str>
        // the text of the error's entry, or `None`
        ensures text { option_map (λ text. text.now) result
            ≡ option_and_then (entry_text (view manifest.now)) (entry_of self) }
    {
        let entry = manifest.get("files")?.get(self.entry()?)?;
        entry.as_str()
    }
}

impl fmt::Display for ManifestError {
    ghost use Rattle.relative_path_manifest.specs.Manifest.{manifest_error_text};

    // the words for the error
    ghost output = { λ refusal. Some (manifest_error_text refusal) };

    fn fmt<W: fmt::Write>(&self, f: &mut fmt::Formatter<W>) -> fmt::Result {
        match self {
            ManifestError::NoBase => f.write_str("no base directory"),
            ManifestError::NoFiles => f.write_str("no list of files"),
            ManifestError::NotAString(k) => write!(f, "files[{k}] isn't a string"),
            ManifestError::ClimbsAbove(k) => write!(f, "files[{k}] climbs above the base"),
            ManifestError::LeadsToBase(k) => write!(f, "files[{k}] leads to the base"),
            ManifestError::NotPlain(k) => write!(f, "files[{k}] has a name that isn't plain"),
            ManifestError::BaseNotPlain => f.write_str("the base has a name that isn't plain"),
            ManifestError::OutOfMemory => f.write_str("out of memory"),
        }
    }
}

impl Error for ManifestError {}

impl From<AllocError> for ManifestError {
    ghost use Rattle.relative_path_manifest.specs.declared.manifest.ManifestError.TheVariants.{OutOfMemory};

    // a failed allocation becomes `OutOfMemory`
    ghost from_gives = { λ _ refusal. refusal ≡ OutOfMemory };

    fn from(_: AllocError) -> ManifestError {
        ManifestError::OutOfMemory
    }
}

impl<T: Drop> From<AllocFailed<T>> for ManifestError {
    ghost use Rattle.relative_path_manifest.specs.declared.manifest.ManifestError.TheVariants.{OutOfMemory};

    // a failed allocation becomes `OutOfMemory`
    ghost from_gives = { λ _ refusal. refusal ≡ OutOfMemory };

    fn from(_: AllocFailed<T>) -> ManifestError {
        ManifestError::OutOfMemory
    }
}

// Which names the reader accepts.
#[derive(Clone, Copy)]
enum NameRule {
    Plain,
    Any,
}

impl NameRule {
    // Returns whether the reader accepts each name among a path's components.
    fn accepts(self, path: RelativePath<'_>) -> bool
        ensures { IsTrue result ↔ All (IfName (accepted self)) (path_components path.entry) }
    {
        match self {
            NameRule::Plain => has_plain_names(path),
            NameRule::Any => true,
        }
    }
}

/// Returns the path of a manifest's directory, its member `base`, as it is written. Returns `None` if this
/// member is missing or isn't a string. Allocates nothing.
///
/// A caller that doesn't trust the manifest refuses a base that climbs, by one line:
/// `manifest_base(&manifest).is_some_and(|base| base.climb() > 0)`.
///
/// ```
/// let manifest = json!(in alloc; {"base": "../assets", "files": []})?;
/// assert!(rt; manifest_base(&manifest).is_some_and(|base| base.climb() > 0));
/// ```
pub fn manifest_base(manifest: &Value) -> Option<RelativePath<'_>>
    // the text of the member `base`, or `None`
    ensures base { option_map path_text result ≡ base_member (view manifest.now) }
{
    let base = manifest.get("base").and_then(Value::as_str);
    base.map(RelativePath::new)
}

/// Returns the files of a manifest. Each is the normal path of the manifest's directory, its member
/// `base`, and an entry of its member `files`.
///
/// The call fails at the first entry that isn't a string, climbs above the directory, leads to the
/// directory itself, or has a name that isn't plain, as `is_plain_name` of `relative_path_files` says. So
/// each file is below the directory, and has only names that `resolve_request` resolves. An entry that leaves
/// the directory and comes back climbs above it too.
///
/// The names of `base` have to be plain too. But `base` may climb, as `../../etc` does, and then each file
/// begins with `..`. So a caller that doesn't trust the manifest refuses that: see [`manifest_base`]. Leading
/// slashes mean nothing: `/etc` is `etc`.
///
/// Two entries may name the same file: see [`manifest_clash`](crate::manifest_clash). A file may be a
/// directory on the disk. If a member occurs twice in the JSON text, `serde_json` keeps the last. The call
/// ignores other members.
///
/// Allocates at most three times for each entry, and the list as it grows. For an entry that climbs it
/// doesn't allocate.
///
/// ```
/// let manifest = json!(in alloc; {"base": "assets", "files": ["img/x.png", "./css/../js/a.js"]})?;
/// let files = manifest_files(alloc, &manifest)?;
/// assert_eq!(rt; files[0].as_relative_path().as_str(), "assets/img/x.png");
/// assert_eq!(rt; files[1].as_relative_path().as_str(), "assets/js/a.js");
/// ```
pub fn manifest_files(
    alloc: Global,
    manifest: &Value,
) -> Result<Vec<RelativePathBuf>, ManifestError>
    // each entry's normal path, which leads below `base` by plain names
    ensures files { IfOk result
        (λ files. OfManifest (view manifest.now) (AreFiles IsPlainName (map file_text files.items))) }
    // numbered errors give the first entry without a file, and why
    ensures refused { IfErr result (IsRefusedManifest IsPlainName (view manifest.now)) }
    // `NoBase` exactly if the member `base` isn't a string
    ensures no_base { IsErrOf result ManifestError.NoBase ↔ (base_member (view manifest.now) ≡ None) }
    // `NoFiles` exactly if `base` is a string and `files` isn't a list
    ensures no_files { IsErrOf result ManifestError.NoFiles
        ↔ (base_member (view manifest.now) ≢ None) × (entries_of (view manifest.now) ≡ None) }
    // `BaseNotPlain` exactly if both are there and a name of `base` isn't plain
    ensures base_not_plain { IsErrOf result ManifestError.BaseNotPlain
        ↔ OfManifest (view manifest.now) (HasOtherBase IsPlainName) }
{
    read_files(alloc, manifest, NameRule::Plain)
}

/// Does what [`manifest_files`] does, but accepts every name, in `base` too. So it never fails with
/// `NotPlain` or `BaseNotPlain`.
///
/// Use it only if Unix alone reads the files, and never Windows: see `resolve_request_on_unix` of
/// `relative_path_files`. A name may have a NUL.
///
/// Allocates as `manifest_files` does.
///
/// ```
/// let manifest = json!(in alloc; {"base": "mirror", "files": ["index.html?x=1"]})?;
/// let files = manifest_files_on_unix(alloc, &manifest)?;
/// assert_eq!(rt; files[0].as_relative_path().as_str(), "mirror/index.html?x=1");
/// ```
pub fn manifest_files_on_unix(
    alloc: Global,
    manifest: &Value,
) -> Result<Vec<RelativePathBuf>, ManifestError>
    // each entry's normal path, which leads below `base`
    ensures files { IfOk result
        (λ files. OfManifest (view manifest.now) (AreFiles IsAnyName (map file_text files.items))) }
    // numbered errors give the first entry without a file, and why
    ensures refused { IfErr result (IsRefusedManifest IsAnyName (view manifest.now)) }
    // `NoBase` exactly if the member `base` isn't a string
    ensures no_base { IsErrOf result ManifestError.NoBase ↔ (base_member (view manifest.now) ≡ None) }
    // `NoFiles` exactly if `base` is a string and `files` isn't a list
    ensures no_files { IsErrOf result ManifestError.NoFiles
        ↔ (base_member (view manifest.now) ≢ None) × (entries_of (view manifest.now) ≡ None) }
{
    read_files(alloc, manifest, NameRule::Any)
}

// Returns the files of a manifest whose names this rule accepts.
fn read_files(
    alloc: Global,
    manifest: &Value,
    rule: NameRule,
) -> Result<Vec<RelativePathBuf>, ManifestError>
    ensures files { IfOk result
        (λ files. OfManifest (view manifest.now) (AreFiles (accepted rule) (map file_text files.items))) }
    ensures refused { IfErr result (IsRefusedManifest (accepted rule) (view manifest.now)) }
    ensures no_base { IsErrOf result ManifestError.NoBase ↔ (base_member (view manifest.now) ≡ None) }
    ensures no_files { IsErrOf result ManifestError.NoFiles
        ↔ (base_member (view manifest.now) ≢ None) × (entries_of (view manifest.now) ≡ None) }
    ensures base_not_plain { IsErrOf result ManifestError.BaseNotPlain
        ↔ OfManifest (view manifest.now) (HasOtherBase (accepted rule)) }
{
    let base = manifest_base(manifest).ok_or(ManifestError::NoBase)?;
    let files = manifest.get("files").and_then(Value::as_array);
    let files = files.ok_or(ManifestError::NoFiles)?;
    if !rule.accepts(base) {
        return Err(ManifestError::BaseNotPlain);
    }
    files_below(alloc, base, files, rule)
}

// Returns each of the files as the normal path of the directory and the file.
fn files_below(
    alloc: Global,
    base: RelativePath<'_>,
    files: &[Value],
    rule: NameRule,
) -> Result<Vec<RelativePathBuf>, ManifestError>
    ensures files { IfOk result (λ paths. AreFiles (accepted rule) (map file_text paths.items)
        (path_components base.entry) (map view files.now)) }
    ensures refused { IfErr result (λ refusal.
        IsRefusedFor (accepted rule) refusal (path_components base.entry) (map view files.now)) }
{
    let mut paths = Vec::new(alloc);
    for (k, file) in files.iter().enumerate() {
        paths.push(file_of_entry(alloc, base, file, k, rule)?)?;
    }
    Ok(paths)
}

// Returns file number `k` as the normal path of the directory and the file.
fn file_of_entry(
    alloc: Global,
    base: RelativePath<'_>,
    file: &Value,
    k: usize,
    rule: NameRule,
) -> Result<RelativePathBuf, ManifestError>
    ensures file { IfOk result
        (λ path. IsFileOf (accepted rule) (path_components base.entry) (view file.now) path.text) }
    ensures refused { IfErr result (IsEntryRefused (accepted rule) (view file.now) k) }
{
    let Ok(file) = view_value(file) else {
        return Err(ManifestError::NotAString(k));
    };
    let place = place_from_top(alloc, file)?.ok_or(ManifestError::ClimbsAbove(k))?;
    if place.len() == 0 {
        return Err(ManifestError::LeadsToBase(k));
    }
    if !rule.accepts(place.as_relative_path()) {
        return Err(ManifestError::NotPlain(k));
    }
    Ok(base.join_normalized(alloc, file)?)
}
