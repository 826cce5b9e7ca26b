//! What a fault prints, and how a run that ended so is reported.
use super::same;
use crate::tests::streams::Sink;
use relpath_lib::report::report;
use relpath_lib::{Fault, Meter};
use std::io::ErrorKind;
use std::process::ExitCode;
use std::test::Fail;

const PRINTED: [(Fault, &str); 5] = [
    (Fault::Read, "Read|     Read|Rea|"),
    (Fault::InputTooLong, "InputTooLong|InputTooLong|Inp|"),
    (Fault::NotText, "NotText|  NotText|Not|"),
    (Fault::OutOfMemory, "OutOfMemory|OutOfMemory|Out|"),
    (Fault::Write, "Write|    Write|Wri|"),
];

#[test]
fn prints_the_names_of_faults(rt: HostRuntime) -> Result<(), Fail> {
    for (fault, printed) in &PRINTED {
        let text = format!(in rt.alloc(); "{fault}|{fault:>9}|{fault:.3}|")?;
        same(
            "name, at least nine wide, and cut to three",
            &text.as_str(),
            printed,
        )?;
    }
    Ok(())
}

const REPORTS: [(Result<(), Fault>, ExitCode, &[u8]); 6] = [
    (Ok(()), ExitCode::SUCCESS, b""),
    (Err(Fault::Read), ExitCode::FAILURE, b"relpath: Read\n"),
    (
        Err(Fault::InputTooLong),
        ExitCode::FAILURE,
        b"relpath: InputTooLong\n",
    ),
    (
        Err(Fault::NotText),
        ExitCode::FAILURE,
        b"relpath: NotText\n",
    ),
    (
        Err(Fault::OutOfMemory),
        ExitCode::FAILURE,
        b"relpath: OutOfMemory\n",
    ),
    (Err(Fault::Write), ExitCode::FAILURE, b"relpath: Write\n"),
];

// A byte a write.
#[test]
fn reports_how_a_run_ended(rt: HostRuntime) -> Result<(), Fail> {
    for (ended, status, printed) in &REPORTS {
        let mut errors = Meter::new(Sink::new(rt.alloc()).in_pieces(1));
        let answer = report(*ended, &mut errors);
        let sink = errors.into_inner();
        let found = (*ended, answer, sink.taken.as_slice());
        same("status and line", &found, &(*ended, *status, *printed))?;
    }
    Ok(())
}

// Whether a report to this sink makes one write, prints nothing and fails all the same.
fn prints_nothing(case: &str, sink: Sink) -> Result<(), Fail> {
    let mut errors = Meter::new(sink);
    let status = report(Err(Fault::NotText), &mut errors);
    let found = (status, errors.calls(), errors.into_inner().taken.len());
    same(case, &found, &(ExitCode::FAILURE, 1, 0))
}

#[test]
fn ends_with_the_same_status_where_nothing_can_be_printed(rt: HostRuntime) -> Result<(), Fail> {
    let sink = Sink::new(rt.alloc());
    prints_nothing("failing", sink.failing_at(1, ErrorKind::Interrupted))?;
    prints_nothing("full", Sink::new(rt.alloc()).full())
}

#[test]
fn tells_faults_apart() -> Result<(), Fail> {
    let equal = (
        Fault::Read == Fault::Write,
        Fault::InputTooLong == Fault::NotText,
    );
    same("two faults", &equal, &(false, false))
}
