//! The mentions of old paths in a text.
ghost use Rattle.std.specs.Prelude.{◌≡◌, ◌≤◌, ◌<◌, ◌+◌, ◌++◌, ◌==◌, ◌&&◌, ◌||◌, ℕ, List, IfNone, IfOk, IfSome, OnOk, Some, drop, false, length, map, nat_lt, slice_index, if◌then◌else◌, IsTrue};
ghost use Rattle.std.specs.List.{All, AllPairs, Contains, list_all, list_any};
ghost use Rattle.percent_encoding.specs.Percent.{percent_sign};
ghost use Rattle.relative_path.specs.Steps.{is_slash};
ghost use Rattle.relative_path.specs.Unix.{has_root};
ghost use Rattle.relative_path.specs.RelativePath.{path_components, path_text};
ghost use Rattle.relative_path_places.specs.Views.{view_text};
ghost use Rattle.relmove_mentions.specs.Bases.{base_components};
ghost use Rattle.relmove_mentions.specs.Endings.{IsCandidate, ending_of, may_end};
ghost use Rattle.relmove_mentions.specs.Mentions.{AreMentionsBefore, HaveAtMost, HaveOthersFrom, IsMention, spans_of};
ghost use Rattle.relmove_mentions.specs.NameHashes.{hash_of, short_hash, two_hash};
ghost use Rattle.relmove_mentions.specs.OldNames.{Finds, Has, WithOthers, endings_for, may_end_in};
ghost use Rattle.relmove_mentions.specs.Spans.{
  ArePassed,
  ComesBefore,
  FollowFrom,
  IsBounded,
  is_apart,
  is_bounded_after,
  is_bounded_before,
  is_other_byte,
  is_path_byte,
  may_separate,
  others_in,
  span_bytes,
};
ghost use Rattle.relmove_mentions.specs.Written.{
  IsWritten,
  LeadsFrom,
  LeadsFromDirectory,
  LeadsFromTop,
  LeadsToPath,
  StandsFor,
  has_directory,
};
ghost use Rattle.relmove_mentions.specs.declared.bases.Base.{Base};
ghost use Rattle.relmove_mentions.specs.declared.text_span.TextSpan.{TextSpan};

use crate::bases::Base;
use crate::endings::{Ending, with_word};
use crate::file_text::FileText;
use crate::hashes::Hashes;
use crate::name_hashes::{hash_of, last_three_hash, last_two_hash, short_hash, two_hash};
use crate::old_names::OldNames;
use crate::searched_file::{SearchedFile, bases_of};
use crate::text_span::{
    TextSpan, is_apart, is_bounded_after, is_bounded_before, is_path_byte, may_separate,
};
use percent_encoding::percent_decode;
use relative_path::RelativePath;
use relative_path_places::NormalView;
use std::alloc::{AllocError, Global};

/// A place where an old path is written.
#[derive(Clone, Copy)]
pub struct Mention<'p> {
    /// Where it is written.
    pub span: TextSpan,
    /// The old path.
    pub path: NormalView<'p>,
}

impl<'p> OldNames<'p> {
    /// Returns where a file mentions an old path: in the order of the starts, and at one start in the order of the ends.
    ///
    /// A mention is a span of the text that is a [name](OldNames::of) which stands for the path, as it is or
    /// percent-encoded. The name leads from a directory of the file, or from a top. From a top a name without a directory
    /// before it counts only after a slash, and a path that ends in `.` or `..` is no name.
    ///
    /// Right before and after a mention the text ends, or has a byte that isn't an ASCII letter or digit, `%`, `-`,
    /// `.`, `/`, `_` or above 127; after it can also be a full stop, and then such an end. A mention has at most as many
    /// such bytes as its path. What was read has no byte of a mention. An empty span has no byte, so a mention can go
    /// on across it.
    ///
    /// Time is linear in the text. Where a path with such bytes may be written, it grows with the square of their greatest
    /// number. Allocates the list of mentions, and an entry for each directory and each top. For a span with a percent sign it
    /// allocates at most the decoded bytes, and for a span whose last name may end as that of a name does, by the hash of its
    /// end, at most what `join_normalized` does, for each directory and each top twice. Fails only if an allocation fails.
    ///
    /// ```
    /// let paths = [NormalPath::of(alloc, RelativePath::new("my docs/a.md"))?];
    /// let names = OldNames::of(alloc, &[paths[0].view()])?;
    /// let [top, docs] = ["", "my docs"].map(|path| RelativePath::new(path));
    /// let file = FileText { directories: &[top], tops: &[docs], text: b"my%20docs/a.html, /a/", read: &[] };
    /// let mentions = names.mentions(alloc, file)?;
    /// assert_eq!(rt; mentions.len(), 2);
    /// assert_eq!(rt; mentions[1].span, TextSpan { start: 18, end: 21 });
    /// ```
    pub fn mentions(
        &self,
        alloc: Global,
        file: FileText<'_>,
    ) -> Result<Vec<Mention<'p>>, AllocError>
        // what was read is in order, without overlap
        requires read_in_order { FollowFrom 0 file.read.now }
        // each mention is one of its path
        ensures sound { IfOk result (λ mentions. (olds : List (List ℕ)) → Has olds self.now
            → All (λ mention. IsMention olds file.entry mention.span (view_text mention.path)) mentions.items) }
        // each span at which a path is mentioned is that of a mention
        ensures complete { IfOk result (λ mentions. (olds : List (List ℕ)) → Has olds self.now
            → (span : TextSpan) (old : List ℕ) → IsMention olds file.entry span old
            → Contains (spans_of mentions.items) span) }
        // no span comes twice, and they are in order
        ensures in_order { IfOk result (λ mentions. (olds : List (List ℕ)) → Has olds self.now
            → AllPairs ComesBefore (spans_of mentions.items)) }
    {
        let directories = bases_of(alloc, file.directories)?;
        let tops = bases_of(alloc, file.tops)?;
        let searched = SearchedFile {
            file,
            directories: directories.as_slice(),
            tops: tops.as_slice(),
        };
        self.mentions_in(alloc, searched)
    }

    // Does so in a file whose bases are known.
    fn mentions_in(
        &self,
        alloc: Global,
        searched: SearchedFile<'_>,
    ) -> Result<Vec<Mention<'p>>, AllocError>
        requires read_in_order { FollowFrom 0 searched.file.read.now }
        ensures sound { IfOk result (λ mentions. (olds : List (List ℕ)) → Has olds self.now
            → All (λ mention. IsMention olds searched.entry.file mention.span (view_text mention.path)) mentions.items) }
        ensures complete { IfOk result (λ mentions. (olds : List (List ℕ)) → Has olds self.now
            → (span : TextSpan) (old : List ℕ) → IsMention olds searched.entry.file span old
            → Contains (spans_of mentions.items) span) }
        ensures in_order { IfOk result (λ mentions. (olds : List (List ℕ)) → Has olds self.now
            → AllPairs ComesBefore (spans_of mentions.items)) }
    {
        let file = searched.file;
        let alone = self.may_have_alone(searched.directories);
        let mut mentions = Vec::new(alloc);
        let mut passed = 0;
        let mut start = 0;
        let mut wide = self.next_with_others(file.text, start);
        while let Some(end) = self.next_end_in(searched, alone, start) {
            wide = self.with_others_from(file.text, start, wide);
            start = first_start_of(file.text, start, end, wide.start);
            passed = count_passed(file.read, passed, start);
            let span = TextSpan { start, end };
            self.push_between(alloc, searched, passed, span, wide.start, &mut mentions)?;
            start = next_start(file.text, end, file.text.len());
        }
        Ok(mentions)
    }

    // Returns whether a name alone may be mentioned in a file with these directories: whether a name of an old path may be right
    // below one that ends in the last name of one of them.
    fn may_have_alone(&self, directories: &[Base<'_>]) -> bool
        ensures { result ≡ list_any (λ (base : Base). may_end_in self.now base.name) directories.now }
    {
        directories.iter().any(|base| self.may_end_in(base.name))
    }

    // Returns an offset after another, before which no mention ends that begins at the other or later. `None` if there are no such
    // mentions. Where no name alone is mentioned, each has a slash, or is encoded.
    fn next_end_in(&self, searched: SearchedFile<'_>, alone: bool, start: usize) -> Option<usize>
        requires within { start ≤ length searched.file.text.now }
        requires alone { alone ≡ list_any (λ (base : Base). may_end_in self.now base.name) searched.directories.now }
        ensures none { IfNone result ((olds : List (List ℕ)) (span : TextSpan) (old : List ℕ) → Has olds self.now
            → IsMention olds searched.entry.file span old → span.start < start) }
        ensures after { IfSome result (λ end. start < end) }
        ensures within { IfSome result (λ end. end ≤ length searched.entry.file.text.now) }
        ensures first { IfSome result (λ end. (olds : List (List ℕ)) (span : TextSpan) (old : List ℕ) → Has olds self.now
            → IsMention olds searched.entry.file span old → start ≤ span.start → end ≤ span.end) }
    {
        if alone {
            next_end(&self.endings, searched.file.text, start)
        } else {
            next_separator_end(searched.file.text, start)
        }
    }

    // Returns from where to where the next mentions with bytes that aren't path bytes can begin: from no later offset than the
    // first of those that begin at an offset or later.
    fn next_with_others(&self, text: &[u8], start: usize) -> TextSpan
        requires { start ≤ length text.now }
        ensures { (olds : List (List ℕ)) (file : FileText) → Has olds self.now → file.text.now ≡ text.now
            → HaveOthersFrom olds file start result.start }
    {
        if self.most_others() == 0 {
            return nothing_in(text);
        }
        match next_end(&self.endings_with_others, text, start) {
            Some(end) => TextSpan {
                start: first_start(text, start, end, self.most_others()),
                end,
            },
            None => nothing_in(text),
        }
    }

    // Returns the same from an offset on, if this was it from an earlier one.
    fn with_others_from(&self, text: &[u8], start: usize, before: TextSpan) -> TextSpan
        requires within { start ≤ length text.now }
        requires before { (olds : List (List ℕ)) (file : FileText) → Has olds self.now → file.text.now ≡ text.now
            → HaveOthersFrom olds file start before.start }
        ensures { (olds : List (List ℕ)) (file : FileText) → Has olds self.now → file.text.now ≡ text.now
            → HaveOthersFrom olds file start result.start }
    {
        if start < before.end {
            before
        } else {
            self.next_with_others(text, start)
        }
    }

    // Appends the mentions that begin in a span. So many of the spans that were read end before it, and mentions with bytes
    // that aren't path bytes begin at an offset or later.
    fn push_between(
        &self,
        alloc: Global,
        searched: SearchedFile<'_>,
        passed: usize,
        span: TextSpan,
        wide: usize,
        mentions: &mut Vec<Mention<'p>>,
    ) -> Result<(), AllocError>
        requires order { span.start ≤ span.end }
        requires within { span.end ≤ length searched.file.text.now }
        requires in_order { FollowFrom 0 searched.file.read.now }
        requires passed { ArePassed searched.file.read.now passed span.start }
        requires wide { (olds : List (List ℕ)) → Has olds self.now
            → HaveOthersFrom olds searched.file span.start wide }
        ensures { OnOk result ((olds : List (List ℕ)) → Has olds self.now
            → AreMentionsBefore olds searched.entry.file mentions.old.items span.start 0
            → AreMentionsBefore olds searched.entry.file mentions.new.items span.end 0) }
    {
        let mut passed = passed;
        let mut start = span.start;
        while start < span.end {
            passed = count_passed(searched.file.read, passed, start);
            self.push_from(alloc, searched, passed, start, wide, mentions)?;
            start = next_start(searched.file.text, start + 1, span.end);
        }
        Ok(())
    }

    // Appends the mentions that begin at an offset. So many of the spans that were read end before it.
    fn push_from(
        &self,
        alloc: Global,
        searched: SearchedFile<'_>,
        passed: usize,
        start: usize,
        wide: usize,
        mentions: &mut Vec<Mention<'p>>,
    ) -> Result<(), AllocError>
        requires within { start ≤ length searched.file.text.now }
        requires in_order { FollowFrom 0 searched.file.read.now }
        requires passed { ArePassed searched.file.read.now passed start }
        requires wide { (olds : List (List ℕ)) → Has olds self.now → HaveOthersFrom olds searched.file start wide }
        ensures { OnOk result ((olds : List (List ℕ)) → Has olds self.now
            → AreMentionsBefore olds searched.entry.file mentions.old.items start 0
            → AreMentionsBefore olds searched.entry.file mentions.new.items (start + 1) 0) }
    {
        if !is_bounded_before(searched.file.text, start) {
            return Ok(());
        }
        self.push_bounded(alloc, searched, passed, start, wide, mentions)
    }

    // The same, for an offset at which a mention can begin.
    fn push_bounded(
        &self,
        alloc: Global,
        searched: SearchedFile<'_>,
        passed: usize,
        start: usize,
        wide: usize,
        mentions: &mut Vec<Mention<'p>>,
    ) -> Result<(), AllocError>
        requires within { start ≤ length searched.file.text.now }
        requires before { IsTrue (is_bounded_before searched.file.text.now start) }
        requires in_order { FollowFrom 0 searched.file.read.now }
        requires passed { ArePassed searched.file.read.now passed start }
        requires wide { (olds : List (List ℕ)) → Has olds self.now → HaveOthersFrom olds searched.file start wide }
        ensures { OnOk result ((olds : List (List ℕ)) → Has olds self.now
            → AreMentionsBefore olds searched.entry.file mentions.old.items start 0
            → AreMentionsBefore olds searched.entry.file mentions.new.items (start + 1) 0) }
    {
        let text = searched.file.text;
        let most = self.most_at(start, wide);
        let mut left = most;
        let mut ending = Ending::none();
        let mut end = start;
        while end < text.len() {
            let Some(more) = others_left(text[end], left) else {
                return Ok(());
            };
            left = more;
            let word = with_word(ending, text, end);
            ending = word.ending;
            end = word.end;
            let span = TextSpan { start, end };
            self.push_at(alloc, searched, passed, span, most - left, ending, mentions)?;
        }
        Ok(())
    }

    // Returns how many bytes that aren't path bytes a mention can have at most that begins at an offset, if those that have
    // some begin at another offset or later.
    fn most_at(&self, start: usize, wide: usize) -> usize
        ensures { (olds : List (List ℕ)) (file : FileText) → Has olds self.now → HaveOthersFrom olds file start wide
            → HaveAtMost olds file start result }
    {
        if wide <= start { self.most_others() } else { 0 }
    }

    // Appends the mention at a span that ends so, if there is one. So many of its bytes aren't path bytes.
    fn push_at(
        &self,
        alloc: Global,
        searched: SearchedFile<'_>,
        passed: usize,
        span: TextSpan,
        others: usize,
        ending: Ending,
        mentions: &mut Vec<Mention<'p>>,
    ) -> Result<(), AllocError>
        requires order { span.start < span.end }
        requires within { span.end ≤ length searched.file.text.now }
        requires before { IsTrue (is_bounded_before searched.file.text.now span.start) }
        requires ending { ending ≡ ending_of (span_bytes searched.file.text.now span) }
        requires others { others ≡ others_in (span_bytes searched.file.text.now span) }
        requires in_order { FollowFrom 0 searched.file.read.now }
        requires passed { ArePassed searched.file.read.now passed span.start }
        ensures { OnOk result ((olds : List (List ℕ)) → Has olds self.now
            → AreMentionsBefore olds searched.entry.file mentions.old.items span.start span.end
            → AreMentionsBefore olds searched.entry.file mentions.new.items span.start (span.end + 1)) }
    {
        let found = self.find_at(alloc, searched, passed, span, others, ending)?;
        match found {
            Some(path) => {
                mentions.push(Mention { span, path })?;
                Ok(())
            }
            None => Ok(()),
        }
    }

    // Returns an old path that is mentioned at a span that ends so. So many of its bytes aren't path bytes.
    fn find_at(
        &self,
        alloc: Global,
        searched: SearchedFile<'_>,
        passed: usize,
        span: TextSpan,
        others: usize,
        ending: Ending,
    ) -> Result<Option<NormalView<'p>>, AllocError>
        requires order { span.start < span.end }
        requires within { span.end ≤ length searched.file.text.now }
        requires before { IsTrue (is_bounded_before searched.file.text.now span.start) }
        requires ending { ending ≡ ending_of (span_bytes searched.file.text.now span) }
        requires others { others ≡ others_in (span_bytes searched.file.text.now span) }
        requires in_order { FollowFrom 0 searched.file.read.now }
        requires passed { ArePassed searched.file.read.now passed span.start }
        ensures { IfOk result (λ found. (olds : List (List ℕ)) → Has olds self.now
            → Finds olds (IsMention olds searched.entry.file span) found) }
    {
        if !self.may_end_at(searched.file.text, span.end, others, ending) {
            return Ok(None);
        }
        let bytes = &searched.file.text[span.start..span.end];
        if !self.may_write(searched.directories, bytes, others, ending) {
            return Ok(None);
        }
        if !is_unread(searched.file.read, passed, span) {
            return Ok(None);
        }
        self.find(alloc, searched, others, bytes)
    }

    // Returns whether a name of an old path can end at an offset, before which a text ends so, if it has so many bytes that
    // aren't path bytes.
    #[inline]
    fn may_end_at(&self, text: &[u8], end: usize, others: usize, ending: Ending) -> bool
        ensures { result ≡ (is_bounded_after text.now end && may_end (endings_for self.now others) ending) }
    {
        if others == 0 {
            can_end(&self.endings, ending, text, end)
        } else {
            can_end(&self.endings_with_others, ending, text, end)
        }
    }

    // Returns whether bytes that end so may write an old path in a file with these directories. So many of them aren't path
    // bytes. If they are a name alone, it is known what they end in, and most words of a text end here.
    fn may_write(
        &self,
        directories: &[Base<'_>],
        bytes: &[u8],
        others: usize,
        ending: Ending,
    ) -> bool
        ensures { result ≡ (nat_lt 0 others || (ending.encoded || (list_any is_slash bytes.now
            || list_any (λ (base : Base). may_end_in self.now (two_hash base.name (Some ending.hash))) directories.now))) }
    {
        0 < others
            || ending.encoded
            || has_slash(bytes)
            || self.may_have_below(directories, Some(ending.hash))
    }

    // Returns an old path with at least so many bytes that aren't path bytes that bytes write.
    fn find(
        &self,
        alloc: Global,
        searched: SearchedFile<'_>,
        others: usize,
        bytes: &[u8],
    ) -> Result<Option<NormalView<'p>>, AllocError>
        ensures { IfOk result (λ found. (olds : List (List ℕ)) → Has olds self.now
            → Finds olds (WithOthers others (IsWritten olds searched.entry.file bytes.now)) found) }
    {
        if let Some(old) = self.find_text(alloc, searched, others, bytes)? {
            return Ok(Some(old));
        }
        if !has_percent(bytes) {
            return Ok(None);
        }
        let mut text = Vec::new(alloc);
        percent_decode(bytes).append_to(&mut text)?;
        self.find_text(alloc, searched, others, text.as_slice())
    }

    // Returns an old path with at least so many bytes that aren't path bytes for which a text stands.
    fn find_text(
        &self,
        alloc: Global,
        searched: SearchedFile<'_>,
        others: usize,
        text: &[u8],
    ) -> Result<Option<NormalView<'p>>, AllocError>
        ensures { IfOk result (λ found. (olds : List (List ℕ)) → Has olds self.now
            → Finds olds (WithOthers others (StandsFor olds searched.entry.file text.now)) found) }
    {
        if !self.may_stand(searched.directories, text) {
            return Ok(None);
        }
        let Ok(text) = str::from_utf8(text) else {
            return Ok(None);
        };
        let path = RelativePath::new(text);
        let Some(last) = path.file_name() else {
            return Ok(None);
        };
        if !self.may_have_last(last) {
            return Ok(None);
        }
        if !self.may_end_in(last_two_hash(path)) {
            return Ok(None);
        }
        if !self.may_end_in(last_three_hash(path)) {
            return Ok(None);
        }
        if let Some(old) = self.find_from_directory(alloc, searched, others, path)? {
            return Ok(Some(old));
        }
        self.find_from_top(alloc, searched, others, path)
    }

    // Returns whether a text may stand for an old path in a file with these directories: whether it has a slash, or a name of an old
    // path ends in the last name of one of them and then in this name alone.
    fn may_stand(&self, directories: &[Base<'_>], text: &[u8]) -> bool
        ensures { result ≡ (list_any is_slash text.now
            || list_any (λ (base : Base). may_end_in self.now (two_hash base.name (Some (hash_of text.now)))) directories.now) }
    {
        has_slash(text) || self.may_have_below(directories, Some(hash_of(text)))
    }

    // Returns whether a name of an old path may end in the last name of one of these bases, and then in a name with this hash.
    fn may_have_below(&self, bases: &[Base<'_>], name: Option<u64>) -> bool
        ensures { result ≡ list_any (λ (base : Base). may_end_in self.now (two_hash base.name name)) bases.now }
    {
        bases
            .iter()
            .any(|base| self.may_end_in(two_hash(base.name, name)))
    }

    // Returns an old path with at least so many bytes that aren't path bytes to which a path leads from a directory of a file.
    fn find_from_directory(
        &self,
        alloc: Global,
        searched: SearchedFile<'_>,
        others: usize,
        path: RelativePath<'_>,
    ) -> Result<Option<NormalView<'p>>, AllocError>
        ensures { IfOk result (λ found. (olds : List (List ℕ)) → Has olds self.now
            → Finds olds (WithOthers others
            (LeadsFromDirectory olds searched.entry.file (path_text path.entry))) found) }
    {
        if has_root(path) {
            return Ok(None);
        }
        self.find_from(alloc, searched.directories, others, path)
    }

    // Returns such an old path to which a path leads from a top.
    fn find_from_top(
        &self,
        alloc: Global,
        searched: SearchedFile<'_>,
        others: usize,
        path: RelativePath<'_>,
    ) -> Result<Option<NormalView<'p>>, AllocError>
        ensures { IfOk result (λ found. (olds : List (List ℕ)) → Has olds self.now
            → Finds olds (WithOthers others (LeadsFromTop olds searched.entry.file (path_text path.entry))) found) }
    {
        if !has_directory(path) {
            return Ok(None);
        }
        self.find_from(alloc, searched.tops, others, path)
    }

    // Returns such an old path to which a path leads from one of these bases.
    fn find_from(
        &self,
        alloc: Global,
        bases: &[Base<'_>],
        others: usize,
        path: RelativePath<'_>,
    ) -> Result<Option<NormalView<'p>>, AllocError>
        ensures { IfOk result (λ found. (olds : List (List ℕ)) → Has olds self.now
            → Finds olds (WithOthers others
            (LeadsFrom olds (map base_components bases.now) (path_components path.entry))) found) }
    {
        let short = short_hash(path);
        for base in bases {
            if let Some(old) = self.find_below(alloc, *base, others, path, short)? {
                return Ok(Some(old));
            }
        }
        Ok(None)
    }

    // Returns such an old path to which a base and then a path lead. If the path is one name or two, this is their hash.
    fn find_below(
        &self,
        alloc: Global,
        base: Base<'_>,
        others: usize,
        path: RelativePath<'_>,
        short: Option<u64>,
    ) -> Result<Option<NormalView<'p>>, AllocError>
        requires short { short ≡ short_hash (path_components path) }
        ensures { IfOk result (λ found. (olds : List (List ℕ)) → Has olds self.now
            → Finds olds (WithOthers others
            (LeadsToPath olds (base_components base.entry ++ path_components path.entry))) found) }
    {
        if !self.may_end_in(two_hash(base.name, short)) {
            return Ok(None);
        }
        self.find_joined(alloc, base.path, others, path)
    }

    // Returns such an old path to which a directory and then a path lead.
    fn find_joined(
        &self,
        alloc: Global,
        directory: RelativePath<'_>,
        others: usize,
        path: RelativePath<'_>,
    ) -> Result<Option<NormalView<'p>>, AllocError>
        ensures { IfOk result (λ found. (olds : List (List ℕ)) → Has olds self.now
            → Finds olds (WithOthers others
            (LeadsToPath olds (path_components directory.entry ++ path_components path.entry))) found) }
    {
        let place = directory.join_normalized(alloc, path)?;
        Ok(self.get(place.as_relative_path().as_str(), others))
    }
}

// Returns the first offset after another at which a span can end that ends as a name of which the set has the ending. `None`
// if there is no such offset.
fn next_end(endings: &Hashes, text: &[u8], start: usize) -> Option<usize>
    requires { start ≤ length text.now }
    ensures none { IfNone result ((span : TextSpan) → IsCandidate endings.now text.now span → span.start < start) }
    ensures after { IfSome result (λ end. start < end) }
    ensures within { IfSome result (λ end. end ≤ length text.now) }
    ensures first { IfSome result (λ end. (span : TextSpan) → IsCandidate endings.now text.now span
        → start ≤ span.start → end ≤ span.end) }
{
    let mut ending = Ending::none();
    let mut end = start;
    while end < text.len() {
        let word = with_word(ending, text, end);
        ending = word.ending;
        end = word.end;
        if can_end(endings, ending, text, end) {
            return Some(end);
        }
    }
    None
}

// Returns whether a name of which the set has the ending can end at an offset, before which a text ends so.
#[inline]
fn can_end(endings: &Hashes, ending: Ending, text: &[u8], end: usize) -> bool
    ensures { result ≡ (is_bounded_after text.now end && may_end endings.now ending) }
{
    is_bounded_after(text, end) && ending.may_be_of(endings)
}

// Returns the offset after the first byte from another offset on that may separate names. `None` if there is none.
fn next_separator_end(text: &[u8], start: usize) -> Option<usize>
    requires { start ≤ length text.now }
    ensures none { IfNone result ((at : ℕ) → start ≤ at → at < length text.now → may_separate (slice_index text.now at) ≡ false) }
    ensures after { IfSome result (λ end. start < end) }
    ensures within { IfSome result (λ end. end ≤ length text.now) }
    ensures first { IfSome result (λ end. (at : ℕ) → start ≤ at → at + 1 < end → may_separate (slice_index text.now at) ≡ false) }
{
    let mut at = start;
    while at < text.len() {
        if may_separate(text[at]) {
            return Some(at + 1);
        }
        at += 1;
    }
    None
}

// Returns the first offset from another on at which a path can begin, or the end if there is none before it.
fn next_start(text: &[u8], start: usize, end: usize) -> usize
    requires some { 0 < start }
    requires order { start ≤ end }
    requires within { end ≤ length text.now }
    ensures after { start ≤ result }
    ensures before { result ≤ end }
    ensures none { (at : ℕ) → start ≤ at → at < result → is_bounded_before text.now at ≡ false }
{
    let mut next = start;
    while next < end && is_path_byte(text[next - 1]) {
        next += 1;
    }
    next
}

// Returns the first offset from a start on at which a span can begin that ends at an offset or later, and has at most so many
// bytes that aren't path bytes.
fn first_start(text: &[u8], start: usize, end: usize, most: usize) -> usize
    requires order { start ≤ end }
    requires within { end ≤ length text.now }
    ensures after { start ≤ result }
    ensures before { result ≤ end }
    ensures first { (span : TextSpan) → IsBounded text.now span → others_in (span_bytes text.now span) ≤ most
        → start ≤ span.start → end ≤ span.end → result ≤ span.start }
{
    let mut left = most;
    let mut first = end;
    while start < first {
        let Some(more) = others_left(text[first - 1], left) else {
            return first;
        };
        left = more;
        first -= 1;
    }
    first
}

// Returns the first offset from a start on at which a span can begin that ends at an offset or later, if those with bytes that
// aren't path bytes begin at another offset or later.
fn first_start_of(text: &[u8], start: usize, end: usize, wide: usize) -> usize
    requires order { start ≤ end }
    requires within { end ≤ length text.now }
    ensures after { start ≤ result }
    ensures before { result ≤ end }
    ensures first { (span : TextSpan) → IsBounded text.now span
        → (0 < others_in (span_bytes text.now span) → wide ≤ span.start) → start ≤ span.start → end ≤ span.end
        → result ≤ span.start }
{
    let first = first_start(text, start, end, 0);
    if first <= wide {
        first
    } else if start <= wide {
        wide
    } else {
        start
    }
}

// Returns the span after all bytes of a text.
fn nothing_in(text: &[u8]) -> TextSpan
    ensures { result.start ≡ length text.now }
{
    TextSpan {
        start: text.len(),
        end: text.len(),
    }
}

// Returns whether bytes have a percent sign.
fn has_percent(bytes: &[u8]) -> bool
    ensures { result ≡ list_any (λ b. b == percent_sign) bytes.now }
{
    bytes.iter().any(|byte| *byte == b'%')
}

// Returns whether a text has a slash.
fn has_slash(text: &[u8]) -> bool
    ensures { result ≡ list_any is_slash text.now }
{
    text.iter().any(|byte| *byte == b'/')
}

// Returns whether a path begins with a slash.
fn has_root(path: RelativePath<'_>) -> bool
    ensures { result ≡ has_root (path_text path.entry) }
{
    match path.as_str().as_bytes() {
        [] => false,
        [first, ..] => *first == b'/',
    }
}

// Returns whether a path begins with a slash, or has a directory before its name.
fn has_directory(path: RelativePath<'_>) -> bool
    ensures { result ≡ has_directory (path_text path.entry) }
{
    has_root(path) || path.components().count() > 1
}

// Returns how many bytes that aren't path bytes may still come after this byte. `None` if this is one too many.
fn others_left(byte: u8, left: usize) -> Option<usize>
    ensures none { IfNone result ((left ≡ 0) × (is_path_byte byte ≡ false)) }
    ensures some { IfSome result (λ more. (if is_other_byte byte then 1 else 0) + more ≡ left) }
{
    if is_path_byte(byte) {
        Some(left)
    } else {
        left.checked_sub(1)
    }
}

// Returns how many spans at the start end at or before an offset, if so many do.
fn count_passed(spans: &[TextSpan], passed: usize, at: usize) -> usize
    requires { ArePassed spans.now passed at }
    ensures { ArePassed spans.now result at }
{
    let mut count = passed;
    while count < spans.len() && spans[count].end <= at {
        count += 1;
    }
    count
}

// Returns whether a span is apart from the spans after so many, which are in order.
fn is_unread(spans: &[TextSpan], passed: usize, span: TextSpan) -> bool
    requires in_order { FollowFrom 0 spans.now }
    ensures { result ≡ list_all (is_apart span) (drop passed spans.now) }
{
    let mut count = passed;
    while count < spans.len() {
        let other = spans[count];
        if span.end <= other.start {
            return true;
        }
        if !is_apart(span, other) {
            return false;
        }
        count += 1;
    }
    true
}
