//! Files of a manifest that a disk may take for one.
ghost use Rattle.std.specs.Prelude.{map, IfOk};
ghost use Rattle.relative_path_manifest.specs.Clash.{IsClashOf};
ghost use Rattle.relative_path_manifest.specs.Manifest.{file_text};

use relative_path::RelativePathBuf;
use std::alloc::{AllocError, Global};
use std::collections::BTreeMap;

/// Returns the numbers of two files whose texts are equal or differ in ASCII case alone, or `None` if no two
/// files do. The second number is that of the first file that clashes with an earlier one; the first number is
/// that of this earlier file. Files are numbered from 0.
///
/// Pass the files that `manifest_files` returned. Their texts are normal, so two of them are equal exactly if
/// the files are one. On a disk that ignores case, as those of Windows and macOS do, files that differ in case
/// alone are one too.
///
/// The call sees no difference of case past ASCII, no Unicode normal forms, no code points that a disk leaves
/// out, no short names of Windows, and no links. It doesn't see that a file is a directory of another either.
///
/// Allocates for each file: the text in lower case, and an entry of the index.
///
/// ```
/// let manifest = json!(in alloc; {"base": "", "files": ["img/a.png", "b", "img/./A.png"]})?;
/// let files = manifest_files(alloc, &manifest)?;
/// assert_eq!(rt; manifest_clash(alloc, &files)?, Some((0, 2)));
/// ```
pub fn manifest_clash(
    alloc: Global,
    files: &[RelativePathBuf],
) -> Result<Option<(usize, usize)>, AllocError>
    // the first repeat of a file, ignoring ASCII case, with that file, or `None`
    ensures clash { IfOk result (IsClashOf (map file_text files.now)) }
{
    let mut index = BTreeMap::new(alloc);
    for (k, file) in files.iter().enumerate() {
        let text = file.as_relative_path().as_str().to_ascii_lowercase(alloc)?;
        let first = *index.entry(text)?.or_insert(k);
        if first < k {
            return Ok(Some((first, k)));
        }
    }
    Ok(None)
}
