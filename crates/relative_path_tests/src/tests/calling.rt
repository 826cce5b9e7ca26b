//! The callers that CALLING.md of `relative_path` shows.
ghost use Rattle.std.specs.Prelude.{◌∷◌, [], ◌≡◌, ◌≤◌, ℕ, codes, map, length, List, Some, IsSome, IsTrue};
ghost use Rattle.std.specs.List.{All};
ghost use Rattle.std.specs.Option.{option_and_then, option_map};
ghost use Rattle.relative_path.specs.Steps.{up, name, components};
ghost use Rattle.relative_path.specs.Walk.{walk, LeadsBelow, StaysBelow};
ghost use Rattle.relative_path.specs.Normalizing.{IsNormal, IsNormalText, climb};
ghost use Rattle.relative_path.specs.Editing.{kept};
ghost use Rattle.relative_path.specs.Naming.{file_name_of, stem_of, extension_of, is_plain_extension, IsBeside};
ghost use Rattle.relative_path.specs.RelativePath.{path_text};
ghost use Rattle.std.specs.Prelude.{◌++◌, ◌↔◌, IfOk, IfSome, IsNone};
ghost use Rattle.relative_path.specs.RelativePath.{path_components};
ghost use Rattle.relative_path.specs.Relating.{IsReachable, IsShortestText};

use relative_path::{RelativePath, RelativePathBuf};
use std::alloc::{AllocError, Global};

/// `link` is written in a page that is in `directory`. The result is the shortest link that leads from
/// `new_directory` to the same target, or `None` exactly if no path leads there.
pub fn carry(
    alloc: Global,
    directory: RelativePath<'_>,
    link: RelativePath<'_>,
    new_directory: RelativePath<'_>,
) -> Result<Option<RelativePathBuf>, AllocError>
    ensures none { IfOk result (λ found. IsNone found ↔ (¬ IsReachable (path_components new_directory.entry)
        (path_components directory.entry ++ path_components link.entry))) }
    ensures shortest { IfOk result (λ found. IfSome found (λ way.
        IsShortestText (path_components new_directory.entry)
        (path_components directory.entry ++ path_components link.entry) way.text)) }
{
    let target = directory.join(alloc, link)?;
    new_directory.try_relative(alloc, target.as_relative_path())
}

/// `link` is written in `page`, and a copy of the page is in the directory `archive`. The result is the
/// link to write in the copy: the shortest path from `archive` to where `link` leads from the page's
/// directory. If no path leads there, the contract says nothing.
pub fn relink(
    alloc: Global,
    page: RelativePath<'_>,
    link: RelativePath<'_>,
    archive: RelativePath<'_>,
) -> Result<RelativePathBuf, AllocError>
    ensures { IfOk result (λ copied. IsReachable (path_components archive.entry)
        ((path_components page.entry ++ up ∷ []) ++ path_components link.entry)
        → IsShortestText (path_components archive.entry)
        ((path_components page.entry ++ up ∷ []) ++ path_components link.entry) copied.text) }
{
    let directory = page.join(alloc, RelativePath::new(".."))?;
    let target = directory.as_relative_path().join(alloc, link)?;
    let copied = archive.relative(alloc, target.as_relative_path())?;
    Ok(copied)
}

/// How many components a path has.
pub fn depth(path: RelativePath<'_>) -> usize
    ensures { result ≡ length (path_components path.entry) }
{
    path.components().count()
}

/// Whether a path stays below its base. If so, there is one list of names, the same for all bases. From each
/// base, the path leads to the base followed by these names.
pub fn stays_below(path: RelativePath<'_>) -> bool
    ensures from_top { IsTrue result ↔ IsSome (walk [] (path_components path.entry)) }
    ensures names { IsTrue result → (names : List (List ℕ)) × LeadsBelow [] names (path_components path.entry) }
{
    path.climb() == 0
}

/// Whether every path of a slice stays below its base.
pub fn all_stay_below(paths: &[RelativePath<'_>]) -> bool
    ensures { IsTrue result ↔ All (λ path. IsSome (walk [] (path_components path))) paths.now }
{
    for path in paths {
        if path.climb() > 0 {
            return false;
        }
    }
    true
}

/// The page that a build makes of a source, below `out_dir`; `None` for a source that can leave its
/// base or has no file name.
pub fn output(
    alloc: Global,
    out_dir: RelativePath<'_>,
    source: RelativePath<'_>,
) -> Result<Option<RelativePathBuf>, AllocError>
    ensures some { IfOk result (λ found. IsSome found ↔ (IsSome (walk [] (path_components source.entry))
        × IsSome (file_name_of (path_text source.entry)))) }
    ensures extension { IfOk result (λ found. IfSome found (λ page.
        option_and_then extension_of (file_name_of page.text) ≡ Some (codes "html"))) }
    ensures stem { IfOk result (λ found. IfSome found (λ page. option_map stem_of (file_name_of page.text)
        ≡ option_map stem_of (file_name_of (path_text source.entry)))) }
    ensures directory { IfOk result (λ found. IfSome found (λ page. kept (components page.text)
        ≡ path_components out_dir.entry ++ kept (path_components source.entry))) }
    ensures below { IfOk result (λ found. IfSome found (λ page.
        StaysBelow (path_components out_dir.entry) (components page.text))) }
{
    if source.climb() > 0 || source.file_name().is_none() {
        return Ok(None);
    }
    let page = source.with_extension(alloc, "html")?;
    let page = out_dir.join(alloc, page.as_relative_path())?;
    Ok(Some(page))
}

/// The page `index.html` beside a page; `None` for a page without a file name.
#[tactic(auto, unfolding(relative_path::proofs::OnLiterals::relative_path_on_literals))]
pub fn index_of(
    alloc: Global,
    page: RelativePath<'_>,
) -> Result<Option<RelativePathBuf>, AllocError>
    ensures some { IfOk result (λ found. IsSome found ↔ IsSome (file_name_of (path_text page.entry))) }
    ensures name { IfOk result (λ found. IfSome found (λ index. file_name_of index.text ≡ Some (codes "index.html"))) }
    ensures beside { IfOk result (λ found. IfSome found (λ index. IsBeside (path_components page.entry) (components index.text))) }
{
    if page.file_name().is_none() {
        return Ok(None);
    }
    let index = page.with_file_name(alloc, "index.html")?;
    Ok(Some(index))
}

/// A link from the page that a build makes of `from` to the page that it makes of `to`; `None` exactly if
/// the build makes no page of `from` or no page of `to`.
pub fn link(
    alloc: Global,
    out_dir: RelativePath<'_>,
    from: RelativePath<'_>,
    to: RelativePath<'_>,
) -> Result<Option<RelativePathBuf>, AllocError>
    ensures some { IfOk result (λ found. IsSome found ↔ ((IsSome (walk [] (path_components from.entry))
        × IsSome (file_name_of (path_text from.entry))) × (IsSome (walk [] (path_components to.entry))
        × IsSome (file_name_of (path_text to.entry))))) }
{
    if output(alloc, out_dir, from)?.is_none() {
        return Ok(None);
    }
    let Some(target) = output(alloc, out_dir, to)? else {
        return Ok(None);
    };
    let Some(directory) = from.parent() else {
        return Ok(None);
    };
    let directory = out_dir.join(alloc, directory)?;
    let way = directory
        .as_relative_path()
        .try_relative(alloc, target.as_relative_path())?;
    Ok(way)
}

/// The file that a build makes of a source, below `out_dir`, in normal form. Clauses on the extension speak
/// of an extension for which `is_plain_extension` returns true.
#[tactic(auto, using(relative_path::proofs::ForCallers::file_names))]
pub fn artifact(
    alloc: Global,
    out_dir: RelativePath<'_>,
    source: RelativePath<'_>,
    extension: &str,
) -> Result<RelativePathBuf, AllocError>
    ensures normal { IfOk result (λ file. IsNormalText file.text) }
    ensures below { IfOk result (λ file. IsTrue (is_plain_extension extension.now)
        → IsSome (walk [] (path_components source.entry))
        → StaysBelow (path_components out_dir.entry) (components file.text)) }
    ensures extension { IfOk result (λ file. IsTrue (is_plain_extension extension.now)
        → IsSome (file_name_of (path_text source.entry))
        → option_and_then extension_of (file_name_of file.text) ≡ Some extension.now) }
    ensures stem { IfOk result (λ file. IsTrue (is_plain_extension extension.now)
        → IsSome (file_name_of (path_text source.entry))
        → option_map stem_of (file_name_of file.text)
        ≡ option_map stem_of (file_name_of (path_text source.entry))) }
{
    let file = source.with_extension(alloc, extension)?;
    out_dir.join_normalized(alloc, file.as_relative_path())
}

/// The normal form of a path. If the path leads from the top to a place other than the top, the result's
/// file name is the place's last name, and the result's parent has the names before it.
pub fn place_of(alloc: Global, path: RelativePath<'_>) -> Result<RelativePathBuf, AllocError>
    ensures file_name { IfOk result (λ normal. (place : List (List ℕ)) (n : List ℕ)
        → walk [] (path_components path.entry) ≡ Some (place ++ n ∷ [])
        → file_name_of normal.text ≡ Some n) }
    ensures directory { IfOk result (λ normal. (place : List (List ℕ)) (n : List ℕ)
        → walk [] (path_components path.entry) ≡ Some (place ++ n ∷ [])
        → kept (components normal.text) ≡ map name place) }
{
    let normal = path.normalize(alloc)?;
    Ok(normal)
}

/// A link from a directory to a target, by `try_relative`. The link is never `None` if the directory
/// stays below its base.
pub fn link_from(
    alloc: Global,
    directory: RelativePath<'_>,
    target: RelativePath<'_>,
) -> Result<Option<RelativePathBuf>, AllocError>
    ensures { IfOk result (λ found. IsSome (walk [] (path_components directory.entry)) → IsSome found) }
{
    let found = directory.try_relative(alloc, target)?;
    Ok(found)
}

/// A link from one directory to another, by `try_relative`. The link is never `None` if both directories
/// are in normal form and the first climbs no higher than the second.
pub fn link_between(
    alloc: Global,
    from: RelativePath<'_>,
    to: RelativePath<'_>,
) -> Result<Option<RelativePathBuf>, AllocError>
    ensures { IfOk result (λ found. IsNormal (path_components from.entry)
        → IsNormal (path_components to.entry)
        → climb (path_components from.entry) ≤ climb (path_components to.entry) → IsSome found) }
{
    let found = from.try_relative(alloc, to)?;
    Ok(found)
}

/// Whether a path is in normal form and doesn't begin with `..`. Such a path stays below its base.
pub fn is_normal_inside(path: RelativePath<'_>) -> bool
    ensures { IsTrue result → IsSome (walk [] (path_components path.entry)) }
{
    path.is_normalized() && !path.starts_with(RelativePath::new(".."))
}

/// What follows a prefix of a path. If the path leads from a base to a place, the prefix leads from this
/// base to a place too, and the rest leads on from there.
pub fn rest_of<'a>(path: RelativePath<'a>, prefix: RelativePath<'_>) -> Option<RelativePath<'a>>
    ensures { IfSome result (λ rest. (base place : List (List ℕ))
        → walk base (path_components path.entry) ≡ Some place
        → (between : List (List ℕ)) × (walk base (path_components prefix.entry) ≡ Some between)
        × (walk between (path_components rest) ≡ Some place)) }
{
    let Ok(rest) = path.strip_prefix(prefix) else {
        return None;
    };
    Some(rest)
}

#[test]
fn carries_a_link(rt: HostRuntime) -> Result<(), std::test::Fail> {
    let [docs, link, archive] = ["docs/guide", "../img/a.png", "archive"].map(RelativePath::new);
    let way = carry(rt.alloc(), docs, link, archive);
    super::may_give("carry", way, Some("../docs/img/a.png"))
}

#[test]
fn links_from_a_copy(rt: HostRuntime) -> Result<(), std::test::Fail> {
    let [page, link, archive] = ["docs/guide.md", "img/a.png", "old/2024"].map(RelativePath::new);
    let copied = relink(rt.alloc(), page, link, archive);
    super::gives("relink", copied, "../../docs/img/a.png")
}

#[test]
fn refuses_what_climbs() -> Result<(), std::test::Fail> {
    let paths = ["img/../docs", "img/../../docs"].map(RelativePath::new);
    let all_stay = (all_stay_below(&paths), all_stay_below(&paths[..1]));
    super::same("all_stay_below", all_stay, (false, true))?;
    super::same("stays_below", paths.map(stays_below), [true, false])?;
    super::same("depth", paths.map(depth), [3, 4])
}

#[test]
fn makes_pages_of_sources(rt: HostRuntime) -> Result<(), std::test::Fail> {
    let [out_dir, source, above] = ["../out", "guide/./a.tar.md", "../b.md"].map(RelativePath::new);
    let page = output(rt.alloc(), out_dir, source);
    super::may_give("output", page, Some("../out/guide/./a.tar.html"))?;
    super::may_give("output above", output(rt.alloc(), out_dir, above), None)?;
    let file = artifact(rt.alloc(), out_dir, source, "o");
    super::gives("artifact", file, "../out/guide/a.tar.o")?;
    let way = link(rt.alloc(), out_dir, source, RelativePath::new("b.md"));
    super::may_give("link", way, Some("../b.html"))
}

#[test]
fn makes_an_index_of_pages(rt: HostRuntime) -> Result<(), std::test::Fail> {
    let [page, no_page] = ["guide/./a.tar.md", "guide/.."].map(RelativePath::new);
    super::may_give(
        "a page",
        index_of(rt.alloc(), page),
        Some("guide/./index.html"),
    )?;
    super::may_give("no page", index_of(rt.alloc(), no_page), None)
}

#[test]
fn finds_links_by_theorems(rt: HostRuntime) -> Result<(), std::test::Fail> {
    let [above, inside] = ["../img", "docs/guide"].map(RelativePath::new);
    let expected = Some("../../../img");
    super::may_give("link_from", link_from(rt.alloc(), inside, above), expected)?;
    super::may_give(
        "link_from above",
        link_from(rt.alloc(), above, inside),
        None,
    )?;
    super::may_give(
        "link_between",
        link_between(rt.alloc(), inside, above),
        expected,
    )?;
    let place = place_of(rt.alloc(), RelativePath::new("docs/../img/a.png"));
    super::gives("place_of", place, "img/a.png")
}

#[test]
fn finds_parts_by_theorems() -> Result<(), std::test::Fail> {
    let [docs, inside, above] = ["docs", "docs/guide", "../img"].map(RelativePath::new);
    let rest = rest_of(inside, docs).map(RelativePath::as_str);
    super::same("rest_of", rest, Some("guide"))?;
    let are_normal = (is_normal_inside(inside), is_normal_inside(above));
    super::same("is_normal_inside", are_normal, (true, false))
}
