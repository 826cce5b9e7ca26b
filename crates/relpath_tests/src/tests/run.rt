//! `run`, over readers and writers that return, take and fail as a test wants it.
use super::same;
use crate::tests::streams::{Sink, Source};
use relpath_lib::run::run;
use relpath_lib::{Fault, Meter};
use std::alloc::{AllocError, Global};
use std::io::{self, ErrorKind, Read};
use std::test::Fail;

// How many bytes an input may have.
const MOST: usize = 65_536;

pub const SIX_LINES: &[u8] =
    b"normalize\ta/.././b/../c/d\nnormalize\t\nnormalize\nfrobnicate\tx\n\nnormalize\t../foo/./bar/../baz.txt";

pub const SIX_ANSWERS: &[u8] =
    b"= c/d\n= \n! wrong number of fields\n! unknown command\n! unknown command\n= ../foo/baz.txt\n";

const MANY_FIELDS: &[u8] = b"normalize\ta\t\t\t\t\t\t\t\n\tnormalize\ta\t\t\t\t\t\t\t\n";

const MANY_FIELDS_ANSWERS: &[u8] = b"! wrong number of fields\n! unknown command\n";

const TWO_PATHS: &[u8] =
    b"join\tfoo\t/bar\njoin\ta\nrelative\ta\ta/.\nrelative\t..\ta\ntry_relative\t..\ta\ntry_relative\ta\ta/.\ntry_relative\ta\n";

const TWO_PATHS_ANSWERS: &[u8] =
    b"= foo/bar\n! wrong number of fields\n= \n= \n! no path\n= \n! wrong number of fields\n";

const ROOTS: &[u8] =
    b"relative_to\tfoo\t/bar\nrelative_to\t.\ta/../..\nrelative_to\t/foo/bar/baz\t/foo/bar/qux\nrelative_to\t.\tfoo\nrelative_to\ta\n";

const ROOTS_ANSWERS: &[u8] =
    b"! paths contain different absolute prefixes\n! path traversal cannot be determined\n= ../baz\n= ../.\n! wrong number of fields\n";

const MOVES: &[u8] =
    b"move\tdocs/a.md\tdocs/sub/b.md\t../img/x.png\nmove\tdocs/a.md\tdocs/sub/b.md\t../docs/./a.md\nmove\ta.md\tb.md\t.\nmove\t..\tb.md\tx\nmove\ta.md\t..\tx\nmove\ta.md\t../b.md\tx.md\nmove\ta.md\tsub/a.md\t../x\nmove\ta.md\tb.md\n";

const MOVES_OF_THE_PAGE: &[u8] =
    b"move\tdocs/a.md\tdocs/sub/b.md\ta.md\nmove\tdocs/a.md\tdocs/sub/b.md\t\nmove\ta.md\t../b.md\t../x\nmove\ta.md\t../b.md\ta.md\n";

const MOVES_OF_THE_PAGE_ANSWERS: &[u8] =
    b"= b.md\n= ..\n! reference climbs above the root\n! reference climbs above the root\n";

const MOVES_ANSWERS: &[u8] =
    b"= ../../img/x.png\n= b.md\n= \n! move 0 lacks a file name\n! move 0 lacks a file name\n! no path\n! reference climbs above the root\n! wrong number of fields\n";

const NOTHING: &[u8] = b"";

const UNKNOWN_COMMAND: &[u8] = b"! unknown command\n";

// A text, and letters `a` after it.
fn with_letters(alloc: Global, text: &str, count: usize) -> Result<String, AllocError> {
    let mut line = text.to_string(alloc)?;
    for _ in 0..count {
        line.push('a')?;
    }
    Ok(line)
}

// Whether `run` over the source ends with this result, after this many reads, and wrote this output.
fn ends<R: Read + Drop>(
    alloc: Global,
    case: &str,
    source: Source<R>,
    expected: (Result<(), Fault>, u64, &[u8]),
) -> Result<(), Fail> {
    let mut reader = Meter::new(source);
    let mut writer = Meter::new(Vec::new(alloc));
    let result = run(alloc, &mut reader, &mut writer);
    let written = writer.into_inner();
    let found = (result, reader.calls(), written.as_slice());
    same(case, &found, &expected)
}

// An input, how many bytes a read gives at most, how many reads are made, and the output.
const ANSWERS: [(&str, &[u8], usize, u64, &[u8]); 8] = [
    ("no bytes", NOTHING, usize::MAX, 1, NOTHING),
    ("six lines", SIX_LINES, usize::MAX, 2, SIX_ANSWERS),
    ("seven bytes a read", SIX_LINES, 7, 15, SIX_ANSWERS),
    (
        "many fields",
        MANY_FIELDS,
        usize::MAX,
        2,
        MANY_FIELDS_ANSWERS,
    ),
    ("roots", ROOTS, usize::MAX, 2, ROOTS_ANSWERS),
    ("moves", MOVES, usize::MAX, 2, MOVES_ANSWERS),
    (
        "moves of the page",
        MOVES_OF_THE_PAGE,
        usize::MAX,
        2,
        MOVES_OF_THE_PAGE_ANSWERS,
    ),
    ("two paths", TWO_PATHS, usize::MAX, 2, TWO_PATHS_ANSWERS),
];

#[test]
fn answers_the_lines_of_an_input(rt: HostRuntime) -> Result<(), Fail> {
    for (case, input, size, reads, output) in &ANSWERS {
        let source = Source::new(*input).in_pieces(*size);
        ends(rt.alloc(), case, source, (Ok(()), *reads, output))?;
    }
    Ok(())
}

#[test]
fn answers_a_line_by_single_bytes(rt: HostRuntime) -> Result<(), Fail> {
    let letters = with_letters(rt.alloc(), "", MOST)?;
    let source = Source::new(letters.as_bytes()).in_pieces(1);
    let expected = (Ok(()), 65_537, UNKNOWN_COMMAND);
    ends(rt.alloc(), "a byte a read", source, expected)
}

#[test]
fn answers_the_longest_path(rt: HostRuntime) -> Result<(), Fail> {
    let longest = with_letters(rt.alloc(), "normalize\t", MOST - 10)?;
    let mut answer = with_letters(rt.alloc(), "= ", MOST - 10)?;
    answer.push('\n')?;
    let source = Source::new(longest.as_bytes());
    let expected = (Ok(()), 5, answer.as_bytes());
    ends(rt.alloc(), "the longest path", source, expected)
}

#[test]
fn tells_a_byte_too_many(rt: HostRuntime) -> Result<(), Fail> {
    let too_long = with_letters(rt.alloc(), "normalize\t", MOST - 9)?;
    let source = Source::new(too_long.as_bytes());
    let expected = (Err(Fault::InputTooLong), 5, NOTHING);
    ends(rt.alloc(), "a byte too many", source, expected)
}

#[test]
fn tells_too_long_before_no_text(rt: HostRuntime) -> Result<(), Fail> {
    let letters = with_letters(rt.alloc(), "", MOST)?;
    let mut bytes = Vec::from_slice(rt.alloc(), b"\xff")?;
    bytes.extend_from_slice(letters.as_bytes())?;
    let source = Source::new(bytes.as_slice());
    let expected = (Err(Fault::InputTooLong), 5, NOTHING);
    ends(rt.alloc(), "too long, no text", source, expected)
}

const NO_TEXTS: [(&str, &[u8]); 2] = [
    ("no text", b"\xff"),
    ("a line, then no text", b"normalize\ta/.././b/../c/d\n\xff"),
];

#[test]
fn tells_what_is_no_text(rt: HostRuntime) -> Result<(), Fail> {
    for (case, input) in &NO_TEXTS {
        let expected = (Err(Fault::NotText), 2, NOTHING);
        ends(rt.alloc(), case, Source::new(*input), expected)?;
    }
    Ok(())
}

#[test]
fn tells_a_failed_read(rt: HostRuntime) -> Result<(), Fail> {
    for (case, number, kind) in [
        ("the first read fails", 1, ErrorKind::Other),
        ("the second is interrupted", 2, ErrorKind::Interrupted),
    ] {
        let pieces = Source::new(SIX_LINES).in_pieces(10);
        let expected = (Err(Fault::Read), number, NOTHING);
        ends(rt.alloc(), case, pieces.failing_at(number, kind), expected)?;
    }
    Ok(())
}

#[test]
fn stops_an_endless_reader(rt: HostRuntime) -> Result<(), Fail> {
    let source = Source::new(io::repeat(b'a')).in_pieces(1);
    let expected = (Err(Fault::InputTooLong), 65_537, NOTHING);
    ends(rt.alloc(), "an endless reader", source, expected)
}

// Whether `run` over the input ends with this result, after this many writes and flushes, and the sink
// took this output.
fn writes(
    alloc: Global,
    case: &str,
    input: &[u8],
    sink: Sink,
    expected: (Result<(), Fault>, u64, u64, &[u8]),
) -> Result<(), Fail> {
    let mut reader = Meter::new(input);
    let mut writer = Meter::new(sink);
    let result = run(alloc, &mut reader, &mut writer);
    let (writes, flushes) = (writer.calls(), writer.flushes());
    let sink = writer.into_inner();
    let found = (result, writes, flushes, sink.taken.as_slice());
    same(case, &found, &expected)
}

#[test]
fn writes_the_whole_output(rt: HostRuntime) -> Result<(), Fail> {
    let sink = Sink::new(rt.alloc()).in_pieces(1);
    let expected = (Ok(()), 87, 1, SIX_ANSWERS);
    writes(rt.alloc(), "short writes", SIX_LINES, sink, expected)
}

#[test]
fn tells_that_nothing_is_taken(rt: HostRuntime) -> Result<(), Fail> {
    let sink = Sink::new(rt.alloc()).full();
    let expected = (Err(Fault::Write), 1, 0, NOTHING);
    writes(rt.alloc(), "nothing is taken", SIX_LINES, sink, expected)
}

#[test]
fn tells_an_interrupted_write(rt: HostRuntime) -> Result<(), Fail> {
    let sink = Sink::new(rt.alloc()).failing_at(1, ErrorKind::Interrupted);
    let expected = (Err(Fault::Write), 1, 0, NOTHING);
    writes(rt.alloc(), "interrupted", SIX_LINES, sink, expected)
}

#[test]
fn tells_a_failed_flush(rt: HostRuntime) -> Result<(), Fail> {
    let sink = Sink::new(rt.alloc()).failing_to_flush(ErrorKind::Other);
    let expected = (Err(Fault::Write), 0, 1, NOTHING);
    writes(rt.alloc(), "the flush fails", NOTHING, sink, expected)
}

#[test]
fn tells_each_failed_write(rt: HostRuntime) -> Result<(), Fail> {
    for number in 1..=87 {
        let mut reader = Meter::new(SIX_LINES);
        let sink = Sink::new(rt.alloc()).in_pieces(1);
        let mut writer = Meter::new(sink.failing_at(number, ErrorKind::Other));
        let result = run(rt.alloc(), &mut reader, &mut writer);
        let counts = (writer.calls(), writer.failures(), writer.flushes());
        same(
            "write",
            &(result, counts),
            &(Err(Fault::Write), (number, 1, 0)),
        )?;
    }
    Ok(())
}

// 32,768 empty lines have answers of 18 bytes each.
#[test]
fn flushes_after_a_long_output(rt: HostRuntime) -> Result<(), Fail> {
    let lines = "\n".repeat(rt.alloc(), 32_768)?;
    let answers = "! unknown command\n".repeat(rt.alloc(), 32_768)?;
    let mut reader = Meter::new(lines.as_bytes());
    let mut writer = Meter::new(Sink::new(rt.alloc()));
    let result = run(rt.alloc(), &mut reader, &mut writer);
    let sink = writer.into_inner();
    let is_whole = sink.taken.as_slice() == answers.as_bytes();
    let calls = (sink.writes, sink.offered, sink.flushes, sink.flushed);
    let found = (result, is_whole, calls);
    same(
        "a long output",
        &found,
        &(Ok(()), true, (1, 589_824, 1, 589_824)),
    )
}
