//! How a call ended.
use crate::work::name_of_stage;
use relmove_run::{Ended, Remark, RunFault, Stage};
use relmove_statements::Fault;
use std::alloc::{AllocError, Global};

/// How a call ended, without its reason and its remarks.
#[derive(Clone, Copy, PartialEq, Eq)]
pub enum End {
    Done,
    TakenBack,
    NoJournal,
    TooLate,
    Refused,
    Stopped(Stage),
}

/// How a call ended, and what it says.
#[derive(Drop)]
pub struct Outcome {
    pub end: End,
    /// How it ended, and why.
    pub words: String,
    /// What is left, in words.
    pub remarks: Vec<String>,
    /// How many of the remarks are of directories that stay.
    pub stays: usize,
    /// Whether the journal was read after a stop.
    pub has_journal: bool,
    /// The lines that a question has for an answer.
    pub answers: Vec<String>,
}

/// How a call ended.
pub fn outcome_of(alloc: Global, ended: &Ended) -> Result<Outcome, Fault> {
    let words = words_of_end(alloc, ended)?;
    let remarks = remarks_of(ended);
    Ok(Outcome {
        end: end_of(ended),
        words,
        remarks: words_of_remarks(alloc, remarks)?,
        stays: count_stays(remarks),
        has_journal: matches!(
            ended,
            Ended::Stopped {
                has_journal: true,
                ..
            }
        ),
        answers: Vec::new(alloc),
    })
}

// How a call ended, without its reason.
fn end_of(ended: &Ended) -> End {
    match ended {
        Ended::Done(_) => End::Done,
        Ended::TakenBack { .. } => End::TakenBack,
        Ended::Refused(RunFault::NoJournal) => End::NoJournal,
        Ended::Refused(RunFault::TooLate) => End::TooLate,
        Ended::Refused(_) => End::Refused,
        Ended::Stopped { stage, .. } => End::Stopped(*stage),
    }
}

// What a call left.
fn remarks_of(ended: &Ended) -> &[Remark] {
    match ended {
        Ended::Done(remarks) => remarks.as_slice(),
        Ended::TakenBack { remarks, .. } => remarks.as_slice(),
        Ended::Stopped { remarks, .. } => remarks.as_slice(),
        Ended::Refused(_) => &[],
    }
}

// How a call ended, and why, in words.
fn words_of_end(alloc: Global, ended: &Ended) -> Result<String, AllocError> {
    match ended {
        Ended::Done(_) => String::from_str(alloc, "done"),
        Ended::TakenBack { cause, .. } => words_of_way_back(alloc, cause.as_ref()),
        Ended::Refused(fault) => format!(in alloc; "refused: {fault}"),
        Ended::Stopped {
            stage,
            fault,
            has_journal,
            ..
        } => words_of_stop(alloc, *stage, *has_journal, fault),
    }
}

// That a run was taken back, and why.
fn words_of_way_back(alloc: Global, cause: Option<&RunFault>) -> Result<String, AllocError> {
    match cause {
        Some(fault) => format!(in alloc; "taken back: {fault}"),
        None => String::from_str(alloc, "taken back"),
    }
}

// That a call stopped, and why.
fn words_of_stop(
    alloc: Global,
    stage: Stage,
    has_journal: bool,
    fault: &RunFault,
) -> Result<String, AllocError> {
    let name = name_of_stage(stage);
    let how = if has_journal { "" } else { " blindly" };
    format!(in alloc; "stopped{how} at {name}: {fault}")
}

// Remarks in words.
fn words_of_remarks(alloc: Global, remarks: &[Remark]) -> Result<Vec<String>, AllocError> {
    let mut words = Vec::with_capacity(alloc, remarks.len())?;
    for remark in remarks {
        words.push(format!(in alloc; "{remark}")?)?;
    }
    Ok(words)
}

// How many remarks are of directories that stay.
fn count_stays(remarks: &[Remark]) -> usize {
    remarks
        .iter()
        .filter(|remark| matches!(remark, Remark::Stays(_)))
        .count()
}
