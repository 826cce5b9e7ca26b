//! The caller that the page of `relative_path_files` shows.
ghost use Rattle.std.specs.Prelude.{◌≡◌, ◌⊎◌, ◌++◌, ℕ, List, IfOk, codes, string_bytes};
ghost use Rattle.relative_path.specs.Steps.{components};
ghost use Rattle.relative_path_files.specs.Router.{HasPlainPlace, IsBelowRoot};

use relative_path_files::{RequestError, resolve_request};
use std::alloc::Global;
use std::test::Fail;

/// The page that a request names below `root`. If the request means a directory, that is the directory's
/// `index.html`.
pub fn page(alloc: Global, root: &str, request: &str) -> Result<String, RequestError>
    ensures plain { IfOk result (λ _. HasPlainPlace (components request.now)) }
    ensures page { IfOk result (λ page. (path : List ℕ) × IsBelowRoot root.now (components request.now) path
        × ((string_bytes page ≡ path) ⊎ (string_bytes page ≡ path ++ codes "/index.html"))) }
{
    let found = resolve_request(alloc, root, request)?;
    let mut page = found.path;
    if found.is_directory {
        page.push_str("/index.html")?;
    }
    Ok(page)
}

#[test]
fn the_caller_of_the_page(rt: HostRuntime) -> Result<(), Fail> {
    let alloc = rt.alloc();
    let file = page(alloc, "web", "/img/../css/a.css")?;
    assert_eq!(rt; file.as_str(), "web/css/a.css");
    let index = page(alloc, "web", "/guide/")?;
    assert_eq!(rt; index.as_str(), "web/guide/index.html");
    assert_eq!(rt;
        page(alloc, "web", "/aux.css").err(),
        Some(RequestError::NotPlain)
    );
    Ok(())
}
