//! Runs of which each call fails in turn, and runs that go on after a loss of power.
use crate::tests::example::{
    AFTER, ALL_CALLS, BEFORE, CALLS, Place, TEXT, TORN, WRITTEN, entries, has, work,
};
use crate::tests::trial::{Trial, carry_out_trial, finish_trial, turn_trial_back};
use relmove_journal::{Stage, Work};
use relmove_stages::Halt;
use relmove_stages_disk::{Entry, Failing, Failure, Fault, Journal, MemoryDisk};
use std::alloc::Global;
use std::process::Abort;
use std::test::Fail;

fn trial(alloc: Global, work: &Work, places: &[Place], stage: Stage) -> Result<Trial, Fault> {
    let journal = Journal::of(alloc, work, stage)?;
    Ok(Trial {
        disk: MemoryDisk::new(alloc, entries(alloc, places)?, Some(journal)),
    })
}

// A run of which one call failed.
fn stopped(alloc: Global, work: &Work, failure: Failure) -> Result<Trial, Fault> {
    let mut trial = trial(alloc, work, WRITTEN, Stage::Staging)?;
    trial.disk.fail(Some(failure));
    let _ = finish_trial(&mut trial, work, Stage::Staging);
    Ok(trial)
}

// Ends a run that stopped.
fn end(trial: &mut Trial, work: &Work) -> Result<(), Fault> {
    match trial.disk.journal() {
        Some(stage) => finish_trial(trial, work, stage),
        None => Ok(()),
    }
}

fn goes_on(rt: &impl Abort, alloc: Global, work: &Work, failure: Failure) -> Result<(), Fault> {
    let mut trial = stopped(alloc, work, failure)?;
    end(&mut trial, work)?;
    assert!(rt; has(&trial.disk, AFTER), "after {failure:?} the run ends");
    assert_eq!(rt;
        trial.disk.journal(),
        None,
        "after {failure:?} no journal is left"
    );
    Ok(())
}

#[test]
fn carries_out(rt: HostRuntime) -> Result<(), Fail> {
    let work = work(rt.alloc())?;
    let mut trial = trial(rt.alloc(), &work, WRITTEN, Stage::Staging)?;
    finish_trial(&mut trial, &work, Stage::Staging)?;
    assert!(rt; has(&trial.disk, AFTER), "all actions are done");
    Ok(())
}

#[test]
fn goes_on_after_each_call(rt: HostRuntime) -> Result<(), Fail> {
    let work = work(rt.alloc())?;
    for calls in 0..CALLS {
        goes_on(
            &rt,
            rt.alloc(),
            &work,
            Failure {
                calls,
                failing: Failing::Before,
                is_kill: false,
            },
        )?;
        goes_on(
            &rt,
            rt.alloc(),
            &work,
            Failure {
                calls,
                failing: Failing::After,
                is_kill: false,
            },
        )?;
    }
    Ok(())
}

// A run that is to begin.
fn first(alloc: Global, failure: Option<Failure>) -> Result<Trial, Fault> {
    let mut disk = MemoryDisk::new(alloc, entries(alloc, BEFORE)?, None);
    let mut texts = Vec::new(alloc);
    texts.push(TEXT.as_bytes().to_vec(alloc)?)?;
    disk.set_texts(texts);
    disk.fail(failure);
    Ok(Trial { disk })
}

#[test]
fn carries_out_a_whole_run(rt: HostRuntime) -> Result<(), Fail> {
    let work = work(rt.alloc())?;
    let mut trial = first(rt.alloc(), None)?;
    assert!(rt; carry_out_trial(&mut trial, &work).is_ok(), "no call fails");
    assert!(rt; has(&trial.disk, AFTER), "all actions are done");
    assert_eq!(rt; trial.disk.journal(), None, "no journal is left");
    Ok(())
}

// Carries out a run of which one call fails, or all from one on. If it is refused, the tree has to be the one before.
fn begun(rt: &impl Abort, alloc: Global, work: &Work, failure: Failure) -> Result<Trial, Fault> {
    let mut trial = first(alloc, Some(failure))?;
    let outcome = carry_out_trial(&mut trial, work);
    if matches!(&outcome, Err(Halt::Refused(_))) {
        assert!(rt;
            has(&trial.disk, BEFORE),
            "after {failure:?} nothing is changed"
        );
        assert_eq!(rt;
            trial.disk.journal(),
            None,
            "after {failure:?} no journal is left"
        );
    }
    trial.disk.fail(None);
    Ok(trial)
}

// The last call is the one of this number.
#[test]
fn makes_no_more_calls(rt: HostRuntime) -> Result<(), Fail> {
    let work = work(rt.alloc())?;
    let last = Failure {
        calls: ALL_CALLS - 1,
        failing: Failing::Before,
        is_kill: false,
    };
    let mut trial = first(rt.alloc(), Some(last))?;
    assert!(rt;
        matches!(&carry_out_trial(&mut trial, &work), Err(Halt::Stopped(_))),
        "the last call fails"
    );
    let mut trial = first(rt.alloc(), None)?;
    trial.disk.fail(Some(Failure {
        calls: ALL_CALLS,
        failing: Failing::Before,
        is_kill: false,
    }));
    assert!(rt;
        carry_out_trial(&mut trial, &work).is_ok(),
        "no call comes after it"
    );
    Ok(())
}

// Whether a run ended in one of its two trees, and has no journal.
fn has_ended(trial: &Trial) -> bool {
    trial.disk.journal() == None && (has(&trial.disk, BEFORE) || has(&trial.disk, AFTER))
}

fn begins(rt: &impl Abort, alloc: Global, work: &Work, failure: Failure) -> Result<(), Fault> {
    let mut on = begun(rt, alloc, work, failure)?;
    end(&mut on, work)?;
    assert!(rt;
        has_ended(&on),
        "after {failure:?} the run ends in one of its trees"
    );
    let mut back = begun(rt, alloc, work, failure)?;
    take_back(&mut back, work)?;
    assert!(rt;
        has_ended(&back),
        "after {failure:?} the run is taken back, or it ends"
    );
    Ok(())
}

// Has each call of a run fail in turn.
fn begins_after_each_call(
    rt: &impl Abort,
    alloc: Global,
    failing: Failing,
    is_kill: bool,
) -> Result<(), Fault> {
    let work = work(alloc)?;
    for calls in 0..ALL_CALLS {
        begins(
            rt,
            alloc,
            &work,
            Failure {
                calls,
                failing,
                is_kill,
            },
        )?;
    }
    Ok(())
}

#[test]
fn begins_after_a_call_that_did_nothing(rt: HostRuntime) -> Result<(), Fail> {
    begins_after_each_call(&rt, rt.alloc(), Failing::Before, false)?;
    Ok(begins_after_each_call(&rt, rt.alloc(), Failing::Before, true)?)
}

#[test]
fn begins_after_a_call_in_the_middle(rt: HostRuntime) -> Result<(), Fail> {
    begins_after_each_call(&rt, rt.alloc(), Failing::Midway, false)?;
    Ok(begins_after_each_call(&rt, rt.alloc(), Failing::Midway, true)?)
}

#[test]
fn begins_after_a_call_that_did_all(rt: HostRuntime) -> Result<(), Fail> {
    begins_after_each_call(&rt, rt.alloc(), Failing::After, false)?;
    Ok(begins_after_each_call(&rt, rt.alloc(), Failing::After, true)?)
}

// What a run leaves that is killed while it writes the new text.
#[test]
fn leaves_a_part_of_a_text(rt: HostRuntime) -> Result<(), Fail> {
    let work = work(rt.alloc())?;
    let failure = Failure {
        calls: 1,
        failing: Failing::Midway,
        is_kill: true,
    };
    let mut trial = begun(&rt, rt.alloc(), &work, failure)?;
    assert_eq!(rt;
        trial.disk.journal(),
        Some(Stage::Writing),
        "it was writing"
    );
    assert!(rt;
        trial.disk.entries().len() == BEFORE.len() + 1,
        "a part of the text is there"
    );
    end(&mut trial, &work)?;
    assert!(rt; has(&trial.disk, BEFORE), "the part of the text is gone");
    Ok(())
}

// Takes a run back that stopped. If it is too late, ends it. Returns the tree that is to be there then.
fn take_back(trial: &mut Trial, work: &Work) -> Result<&'static [Place], Fault> {
    let Some(stage) = trial.disk.journal() else {
        return Ok(AFTER);
    };
    if turn_trial_back(trial, work, stage)? {
        return Ok(BEFORE);
    }
    end(trial, work)?;
    Ok(AFTER)
}

fn turns_back(rt: &impl Abort, alloc: Global, work: &Work, failure: Failure) -> Result<(), Fault> {
    let mut trial = stopped(alloc, work, failure)?;
    let tree = take_back(&mut trial, work)?;
    assert!(rt;
        has(&trial.disk, tree),
        "after {failure:?} the run is taken back, or it ends"
    );
    assert_eq!(rt;
        trial.disk.journal(),
        None,
        "after {failure:?} no journal is left"
    );
    Ok(())
}

#[test]
fn turns_back_after_each_call(rt: HostRuntime) -> Result<(), Fail> {
    let work = work(rt.alloc())?;
    for calls in 0..CALLS {
        turns_back(
            &rt,
            rt.alloc(),
            &work,
            Failure {
                calls,
                failing: Failing::Before,
                is_kill: false,
            },
        )?;
        turns_back(
            &rt,
            rt.alloc(),
            &work,
            Failure {
                calls,
                failing: Failing::After,
                is_kill: false,
            },
        )?;
    }
    Ok(())
}

#[test]
fn takes_back_what_is_torn(rt: HostRuntime) -> Result<(), Fail> {
    let work = work(rt.alloc())?;
    let mut trial = trial(rt.alloc(), &work, TORN, Stage::Writing)?;
    assert!(rt;
        turn_trial_back(&mut trial, &work, Stage::Writing)?,
        "nothing has moved"
    );
    assert!(rt;
        has(&trial.disk, BEFORE),
        "the part of the new text is gone"
    );
    Ok(())
}
