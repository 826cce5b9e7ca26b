//! Calls that a `Meter` passes on.
use super::same;
use crate::tests::streams::{Sink, Source};
use relpath_lib::Meter;
use std::alloc::{AllocError, Global};
use std::io::{self, ErrorKind};
use std::test::Fail;

// The result of a call, an error by its kind.
fn kind<T>(answer: io::Result<T>) -> Result<T, ErrorKind> {
    answer.map_err(|e| e.kind())
}

// Kinds of errors after which some callers try again.
const KINDS: [ErrorKind; 2] = [ErrorKind::Interrupted, ErrorKind::WouldBlock];

// Whether each of five reads is passed on once; the second fails so.
fn reads_once(failure: ErrorKind) -> Result<(), Fail> {
    let mut buf = [0; 4];
    let source = Source::new(b"abc".as_slice()).in_pieces(2);
    let mut reader = Meter::new(source.failing_at(2, failure));
    let short = (kind(reader.read(&mut buf)), buf);
    let failed = kind(reader.read(&mut buf));
    let last = (kind(reader.read(&mut buf[..3])), buf);
    let ended = (kind(reader.read(&mut buf)), kind(reader.read(&mut [])));
    same(
        "reads",
        &(short, failed, last, ended),
        &(
            (Ok(2), *b"ab\0\0"),
            Err(failure),
            (Ok(1), *b"cb\0\0"),
            (Ok(0), Ok(0)),
        ),
    )?;
    let counts = (reader.calls(), reader.flushes(), reader.failures());
    let source = reader.into_inner();
    let found = (counts, source.reads, source.room);
    same("counts", &found, &((5, 0, 1), 5, 15))
}

#[test]
fn passes_each_read_on_once() -> Result<(), Fail> {
    for failure in KINDS {
        reads_once(failure)?;
    }
    Ok(())
}

// Whether each of four writes and a flush is passed on once; the third write fails so.
fn writes_once(alloc: Global, failure: ErrorKind) -> Result<(), Fail> {
    let sink = Sink::new(alloc).in_pieces(2);
    let mut writer = Meter::new(sink.failing_at(3, failure));
    let answers = [
        kind(writer.write(b"abc")),
        kind(writer.write(b"")),
        kind(writer.write(b"c")),
        kind(writer.write(b"cd")),
    ];
    let flushed = kind(writer.flush());
    let expected = ([Ok(2), Ok(0), Err(failure), Ok(2)], Ok(()));
    same("writes, then a flush", &(answers, flushed), &expected)?;
    let counts = (writer.calls(), writer.flushes(), writer.failures());
    let sink = writer.into_inner();
    let calls = (sink.writes, sink.offered, sink.flushes);
    let found = (counts, calls, sink.taken.as_slice());
    same("counts", &found, &((4, 1, 1), (4, 6, 1), b"abcd"))
}

#[test]
fn passes_each_write_on_once(rt: HostRuntime) -> Result<(), Fail> {
    for failure in KINDS {
        writes_once(rt.alloc(), failure)?;
    }
    Ok(())
}

#[test]
fn counts_a_write_that_takes_nothing_as_a_failure(rt: HostRuntime) -> Result<(), Fail> {
    let mut writer = Meter::new(Sink::new(rt.alloc()).full());
    let answers = [kind(writer.write(b"a")), kind(writer.write(b""))];
    let counts = (writer.calls(), writer.failures());
    let sink = writer.into_inner();
    let found = (answers, counts, sink.writes, sink.offered);
    same("nothing taken", &found, &([Ok(0), Ok(0)], (2, 1), 2, 1))
}

// Whether each of two flushes of this sink is passed on and returns this.
fn flushes_twice(case: &str, sink: Sink, answer: Result<(), ErrorKind>) -> Result<(), Fail> {
    let failures = if answer.is_ok() { 0 } else { 2 };
    let mut writer = Meter::new(sink);
    let answers = [kind(writer.flush()), kind(writer.flush())];
    let counts = (writer.calls(), writer.flushes(), writer.failures());
    let sink = writer.into_inner();
    let found = (answers, counts, sink.writes, sink.flushes);
    same(case, &found, &([answer; 2], (0, 2, failures), 0, 2))
}

#[test]
fn passes_each_flush_on_once(rt: HostRuntime) -> Result<(), Fail> {
    flushes_twice("fine", Sink::new(rt.alloc()), Ok(()))?;
    for (case, kind) in [
        ("interrupted", ErrorKind::Interrupted),
        ("blocking", ErrorKind::WouldBlock),
        ("broken", ErrorKind::BrokenPipe),
    ] {
        let sink = Sink::new(rt.alloc()).failing_to_flush(kind);
        flushes_twice(case, sink, Err(kind))?;
    }
    Ok(())
}

#[test]
fn passes_two_hundred_writes_on(rt: HostRuntime) -> Result<(), Fail> {
    let mut writer = Meter::new(Sink::new(rt.alloc()));
    for number in 0..200 {
        assert!(rt; writer.calls() == number && writer.failures() == 0);
        same("a write", &kind(writer.write(b"a")), &Ok(1))?;
    }
    assert!(rt; writer.flushes() == 0 && writer.failures() == 0);
    let flushed = kind(writer.flush());
    let counts = (writer.calls(), writer.flushes(), writer.failures());
    let sink = writer.into_inner();
    let writes = (sink.writes, sink.offered);
    let found = (flushed, counts, writes, sink.flushes, sink.flushed);
    same("calls", &found, &(Ok(()), (200, 1, 0), (200, 200), 1, 200))
}

// 200,000 bytes, more than an input may have.
fn long_room(alloc: Global) -> Result<Vec<u8>, AllocError> {
    vec![in alloc; 0; 200_000]
}

#[test]
fn passes_a_long_read_on_whole(rt: HostRuntime) -> Result<(), Fail> {
    let mut room = long_room(rt.alloc())?;
    let mut reader = Meter::new(Source::new(io::repeat(b'a')));
    let answer = kind(reader.read(room.as_mut_slice()));
    let source = reader.into_inner();
    let found = (answer, source.reads, source.room);
    same("a long read", &found, &(Ok(200_000), 1, 200_000))
}

#[test]
fn passes_a_long_write_on_whole(rt: HostRuntime) -> Result<(), Fail> {
    let room = long_room(rt.alloc())?;
    let mut writer = Meter::new(Sink::new(rt.alloc()));
    let answer = kind(writer.write(room.as_slice()));
    let sink = writer.into_inner();
    let is_whole = sink.taken.as_slice() == room.as_slice();
    let found = (answer, sink.writes, sink.offered, is_whole);
    same("a long write", &found, &(Ok(200_000), 1, 200_000, true))
}
