//! Spans of a text, or of one of two texts. `normal_form.rt` keeps a table of them.
ghost use Rattle.std.specs.Prelude.{◌≡◌, ◌+◌, ◌<◌, ◌^◌, ◌↔◌, [], IsTrue, MatchOption};
ghost use Rattle.std.specs.List.{All};
ghost use Rattle.relative_path.specs.Spans.{source_text, span_text, spans_len, CutsName, IsFirstRun, IsOrdered, IsRun};

// Which of the two texts.
#[derive(Clone, Copy, PartialEq, Eq)]
pub(crate) enum Source {
    First,
    Second,
}

// The texts that spans are cut out of.
#[derive(Clone, Copy)]
pub(crate) struct Sources<'a> {
    pub(crate) first: &'a str,
    pub(crate) second: &'a str,
}

impl<'a> Sources<'a> {
    // Returns the text of a source.
    pub(crate) fn text(self, source: Source) -> &'a str
        ensures { result.now ≡ source_text self.entry source }
    {
        match source {
            Source::First => self.first,
            Source::Second => self.second,
        }
    }

    // Returns what a span cuts out of its source.
    pub(crate) fn cut(self, span: Span) -> &'a str
        requires { IsRun self span }
        ensures { result.now ≡ span_text self.entry span }
    {
        &self.text(span.source)[span.start..span.end]
    }
}

// A part of one of the texts, on character boundaries.
#[derive(Clone, Copy)]
pub(crate) struct Span {
    pub(crate) source: Source,
    pub(crate) start: usize,
    pub(crate) end: usize,
}

impl Span {
    // Returns whether the other span is in the same source and begins one byte after the end of this span.
    #[inline]
    pub(crate) fn is_followed_by(self, other: Span) -> bool
        ensures { IsTrue result ↔ ((other.source ≡ self.source) × (other.start ≡ self.end + 1)) }
    {
        self.source == other.source && self.end < other.start && other.start - self.end == 1
    }
}

// Joins the first names into one run, as long as each begins one byte after the end of the name before it. Returns the
// run and the rest of the names; `None` if there are no names.
pub(crate) fn first_run(names: &[Span]) -> Option<(Span, &[Span])>
    ensures { (sources : Sources) → All (CutsName sources) names.now → MatchOption result (names.now ≡ [])
        (λ found. IsFirstRun sources names.now found.0 found.1.now) }
{
    let (first, rest) = names.split_first()?;
    let mut run = *first;
    let mut left = rest;
    while let Some((name, rest)) = left.split_first()
        && run.is_followed_by(*name)
    {
        run.end = name.end;
        left = rest;
    }
    Some((run, left))
}

// Counts the bytes of the spans, with a slash after each.
pub(crate) fn spans_len(spans: &[Span]) -> usize
    requires ordered { All IsOrdered spans.now }
    requires bound { spans_len spans.now < 2 ^ 64 }
    ensures { result ≡ spans_len spans.now }
{
    let mut len = 0;
    for span in spans {
        len += span.end - span.start + 1;
    }
    len
}
