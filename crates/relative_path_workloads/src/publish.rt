//! What a site generator does with a manifest: it reads the files, looks for names that clash, finds the files of
//! requests, and writes links from page to page.
use crate::digest::Digest;
use crate::draw::Draw;
use crate::refused;
use relative_path::RelativePath;
use relative_path_files::resolve_request;
use relative_path_links::SiteMap;
use relative_path_manifest::{manifest_clash, manifest_files};
use serde_json::{Value, json};
use std::alloc::{AllocError, Global};
use std::io;

// How many files a manifest has at most.
const FILES: usize = 20_000;

// How many links each page has.
const LINKS: usize = 4;

const DIRECTORIES: [&str; 10] = [
    "docs",
    "guide",
    "en/reference",
    "de/handbuch",
    "blog/2024",
    "blog/2025/10",
    "api/v2/types",
    "static/img",
    "assets/css",
    "a/b/c/d/e",
];

const NAMES: [&str; 8] = [
    "index",
    "getting started",
    "overview",
    "café",
    "50%",
    "release-notes",
    "HTTP",
    "x",
];

const ENDS: [&str; 4] = [".html", ".css", ".tar.gz", ""];

// Publishes so many files.
pub(crate) fn publish(
    alloc: Global,
    draw: &mut Draw,
    files: usize,
    digest: &mut Digest,
) -> io::Result<()> {
    for first in (0..files).step_by(FILES) {
        let manifest = manifest(alloc, draw, FILES.min(files.saturating_sub(first)))?;
        let Ok(files) = manifest_files(alloc, &manifest) else {
            return Err(refused());
        };
        if let Some((first, second)) = manifest_clash(alloc, &files)? {
            digest.add_number(first);
            digest.add_number(second);
        }
        let mut paths = Vec::with_capacity(alloc, files.len())?;
        for file in &files {
            paths.push(file.as_relative_path())?;
        }
        find_files(alloc, &paths, digest)?;
        link_pages(alloc, draw, &paths, digest)?;
    }
    Ok(())
}

// Finds the file of each path as that of a request.
fn find_files(alloc: Global, paths: &[RelativePath<'_>], digest: &mut Digest) -> io::Result<()> {
    for path in paths {
        let Ok(found) = resolve_request(alloc, "/srv/www", path.as_str()) else {
            return Err(refused());
        };
        digest.add(found.path.as_str());
    }
    Ok(())
}

// Writes links from each page to others.
fn link_pages(
    alloc: Global,
    draw: &mut Draw,
    paths: &[RelativePath<'_>],
    digest: &mut Digest,
) -> io::Result<()> {
    let Ok(site) = SiteMap::new(alloc, paths) else {
        return Err(refused());
    };
    for from in 0..site.len() {
        for _ in 0..LINKS {
            let to = draw.below(site.len());
            if to < site.len()
                && let Some(href) = site.href(alloc, from, to)?
            {
                digest.add(href.as_str());
            }
        }
    }
    Ok(())
}

// A manifest.
fn manifest(alloc: Global, draw: &mut Draw, count: usize) -> Result<Value, AllocError> {
    let mut files = Vec::with_capacity(alloc, count)?;
    for number in 0..count {
        files.push(Value::String(entry(alloc, draw, number)?))?;
    }
    let files = Value::Array(files);
    json!(in alloc; {"base": "public/site", "files": files})
}

// An entry of a manifest. Those of two numbers differ.
fn entry(alloc: Global, draw: &mut Draw, number: usize) -> Result<String, AllocError> {
    let mut path = String::with_capacity(alloc, 64)?;
    if draw.once_in(8) {
        path.push_str("./")?;
    }
    path.push_str(draw.word(&DIRECTORIES))?;
    path.push_str("/")?;
    if draw.once_in(8) {
        path.push_str("tmp/../")?;
    }
    path.push_str(draw.word(&NAMES))?;
    let end = draw.word(&ENDS);
    let text = format!(in alloc; "-{number}{end}")?;
    path.push_str(text.as_str())?;
    Ok(path)
}
