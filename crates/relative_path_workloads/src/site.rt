//! A site of documentation, as a program that reads a folder has it.
use crate::draw::Draw;
use relmove_lib::{EntryKind, Page, Tree};
use relmove_run::PageFile;
use std::alloc::{AllocError, Global};
use std::collections::BTreeMap;

// The pages are in no file.
const NO_FILE: PageFile = PageFile {
    device: 0,
    inode: 0,
    mode: 0,
    owner: 0,
    group: 0,
};

const SECTIONS: [&str; 12] = [
    "guide",
    "reference",
    "api",
    "tutorials",
    "how-to",
    "internals",
    "releases",
    "examples",
    "design",
    "operations",
    "faq",
    "blog",
];

const TOPICS: [&str; 8] = [
    "install",
    "configuration",
    "networking",
    "storage",
    "security",
    "command-line",
    "plugins",
    "testing",
];

const NAMES: [&str; 10] = [
    "overview",
    "getting-started",
    "options",
    "streams",
    "errors",
    "file-system",
    "http-server",
    "migration",
    "limits",
    "changelog",
];

const IMAGES: [&str; 6] = [
    "diagram",
    "screenshot",
    "architecture",
    "flow",
    "logo",
    "chart",
];

// How many images there are of a name.
const IMAGES_EACH: usize = 4;

// A place in a site: a directory with a slash at its end, how deep it is, and a name in it.
#[derive(Debug, Drop)]
pub(crate) struct Place {
    pub(crate) directory: String,
    pub(crate) depth: usize,
    pub(crate) name: String,
}

impl Place {
    // The path from the top.
    pub(crate) fn path(&self, alloc: Global) -> Result<String, AllocError> {
        let mut path = String::from_str(alloc, self.directory.as_str())?;
        path.push_str(self.name.as_str())?;
        Ok(path)
    }

    // Whether another place is in the same directory.
    fn is_beside(&self, other: &Place) -> bool {
        self.directory.as_str() == other.directory.as_str()
    }
}

// The places of the pages of a site. No two are the same.
pub(crate) fn places(
    alloc: Global,
    draw: &mut Draw,
    count: usize,
) -> Result<Vec<Place>, AllocError> {
    let mut places = Vec::with_capacity(alloc, count)?;
    for number in 0..count {
        places.push(drawn_place(alloc, draw, number)?)?;
    }
    Ok(places)
}

// The place of a page.
fn drawn_place(alloc: Global, draw: &mut Draw, number: usize) -> Result<Place, AllocError> {
    let mut directory = String::new(alloc);
    let depth = draw.below(4);
    for level in 0..depth {
        directory.push_str(match level {
            0 => draw.word(&SECTIONS),
            _ => draw.word(&TOPICS),
        })?;
        directory.push_str("/")?;
    }
    let name = draw.word(&NAMES);
    let name = format!(in alloc; "{name}-{number}.md")?;
    Ok(Place {
        directory,
        depth,
        name,
    })
}

// A tree with these pages and with images, and with the directories above them.
pub(crate) fn tree_of(
    alloc: Global,
    places: &[Place],
    texts: Vec<String>,
) -> Result<Tree, AllocError> {
    let mut tree = Tree {
        entries: BTreeMap::new(alloc),
        pages: Vec::with_capacity(alloc, places.len())?,
        not_text: Vec::new(alloc),
        with_base: Vec::new(alloc),
        unreadable_names: Vec::new(alloc),
        unlisted: Vec::new(alloc),
        directories: Vec::new(alloc),
        unread: Vec::new(alloc),
    };
    for (place, text) in places.iter().zip(texts) {
        let path = place.path(alloc)?;
        add_file(alloc, &mut tree, path.as_str())?;
        tree.pages.push(Page {
            path,
            text,
            file: NO_FILE,
        })?;
    }
    tree.pages.sort_by(|one, other| one.path.cmp(&other.path))?;
    add_images(alloc, &mut tree)?;
    Ok(tree)
}

// Adds the images.
fn add_images(alloc: Global, tree: &mut Tree) -> Result<(), AllocError> {
    for image in &IMAGES {
        for number in 0..IMAGES_EACH {
            let path = format!(in alloc; "img/{image}-{number}.png")?;
            add_file(alloc, tree, path.as_str())?;
        }
    }
    Ok(())
}

// Adds a file, and the directories above it.
fn add_file(alloc: Global, tree: &mut Tree, path: &str) -> Result<(), AllocError> {
    for (end, _) in path.match_indices('/') {
        if let Some(directory) = path.get(..end) {
            let directory = String::from_str(alloc, directory)?;
            tree.entries.insert(directory, EntryKind::Directory)?;
        }
    }
    let path = String::from_str(alloc, path)?;
    tree.entries.insert(path, EntryKind::File)?;
    Ok(())
}

// Adds the target of a link from a page to another.
pub(crate) fn push_page_target(
    text: &mut String,
    draw: &mut Draw,
    from: &Place,
    to: &Place,
) -> Result<(), AllocError> {
    if from.is_beside(to) {
        if draw.once_in(4) {
            text.push_str("./")?;
        }
    } else {
        push_climb(text, from.depth)?;
        text.push_str(to.directory.as_str())?;
    }
    if draw.once_in(250) {
        text.push_str("old-")?;
    }
    text.push_str(to.name.as_str())?;
    push_fragment(text, draw)
}

// Adds the target of an image.
pub(crate) fn push_image_target(
    text: &mut String,
    draw: &mut Draw,
    from: &Place,
) -> Result<(), AllocError> {
    push_climb(text, from.depth)?;
    text.push_str("img/")?;
    text.push_str(draw.word(&IMAGES))?;
    text.push_str("-")?;
    text.push_str(draw.word(&["0", "1", "2", "3"]))?;
    text.push_str(".png")
}

// Adds a fragment, to one target in three.
fn push_fragment(text: &mut String, draw: &mut Draw) -> Result<(), AllocError> {
    if draw.once_in(3) {
        text.push_str("#")?;
        text.push_str(draw.word(&TOPICS))?;
    }
    Ok(())
}

// Adds the way from a directory to the top.
pub(crate) fn push_climb(text: &mut String, depth: usize) -> Result<(), AllocError> {
    for _ in 0..depth {
        text.push_str("../")?;
    }
    Ok(())
}
