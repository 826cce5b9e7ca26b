//! A statement of a script.
use crate::call::make_call;
use crate::checks::{
    go_on_if, need_end, need_never, need_private, need_questions, need_remarks, need_rights,
    need_same_disk, need_synced, need_true_origin, need_true_stage,
};
use crate::faults::{before, fail, judge, refuse};
use crate::kept::{ends, need_after, need_before, need_tree, survives};
use crate::scene::{Flow, NOTHING, Scene};
use crate::settings::{put_journal, set};
use relmove_disk::Failing;
use relmove_statements::{
    Definition, Failure, Fault, Line, at, change, lines_named, need_absent, need_nothing,
    need_there, number_of,
};

/// The name of a call.
pub const CALL: &str = "$";

// The name of the statement that the call changes nothing.
const SAME: &str = "same";

/// Does what a statement says. The lines below it say more of some.
pub fn step(
    scene: &mut Scene<'_>,
    line: Line<'_>,
    below: &[Line<'_>],
    definitions: &[Definition<'_, '_>],
) -> Result<Flow, Failure> {
    match line.name {
        CALL => call(scene, line, below),
        "survives" => survives(scene, line),
        "ends" => ends(scene, line),
        "tree" => need_tree_of(scene, line, definitions),
        "anew" => renew(scene),
        "=" => at(line, need_end(scene, line.rest, below)),
        "said" => at(line, need_remarks(scene, below)),
        "journal" => at(line, put_journal(scene, line.rest, definitions)),
        _ => at(line, step_in_words(scene, line.name, line.rest)),
    }
}

// Forgets the disk, and makes the tree of the case.
fn renew(scene: &mut Scene<'_>) -> Result<Flow, Failure> {
    scene.renew()?;
    Ok(Flow::On)
}

// Does what a statement says that other lines say nothing of.
fn step_in_words(scene: &mut Scene<'_>, name: &str, words: &str) -> Result<Flow, Fault> {
    match name {
        "fail" => fail(scene, words),
        "refuse" => refuse(scene, words),
        "before" => before(scene, words),
        "lose-power" => lose_power(scene, words),
        "keep-names" => keep_names(scene, words),
        "if" => go_on_if(scene, words),
        "never" => need_never(scene, words),
        _ => check(scene, name, words),
    }
}

// Compares what a call did with what a statement says, or changes the disk.
fn check(scene: &mut Scene<'_>, name: &str, words: &str) -> Result<Flow, Fault> {
    match name {
        "has" => go_on(need_there(scene.alloc, &scene.disk, words)),
        "lacks" => go_on(need_absent(scene.alloc, &scene.disk, words)),
        SAME => need_same_disk(scene),
        "rights" => need_rights(scene, words),
        "private" => need_private(scene, words),
        "synced" => need_synced(scene, words),
        "asked" => need_questions(scene, words),
        "true" => need_true(scene, words),
        _ => set_up(scene, name, words),
    }
}

// Goes on unless something failed.
fn go_on(outcome: Result<(), Fault>) -> Result<Flow, Fault> {
    outcome?;
    Ok(Flow::On)
}

// Fails unless the journal says what is so.
fn need_true(scene: &Scene<'_>, words: &str) -> Result<Flow, Fault> {
    match words {
        "stage" => need_true_stage(scene),
        "origin" => need_true_origin(scene),
        _ => Err(Fault::Wrong("no journal says this")),
    }
}

// Changes the disk.
fn set_up(scene: &mut Scene<'_>, name: &str, words: &str) -> Result<Flow, Fault> {
    if !set(scene, name, words)? {
        change(scene.alloc, &scene.disk, name, words)?;
    }
    Ok(Flow::On)
}

// Makes a call, in which what was said happens.
fn call(scene: &mut Scene<'_>, line: Line<'_>, below: &[Line<'_>]) -> Result<Flow, Failure> {
    at(line, prepare(scene, below))?;
    let outcome = make_call(scene, line)?;
    scene.last = Some(outcome);
    scene.is_run = line.rest == "run";
    let calls = scene.disk.calls();
    scene.disk.fail_at(0, Failing::Refused);
    let flow = at(line, judge(scene, calls))?;
    scene.armed = NOTHING;
    Ok(flow)
}

// Says which calls of the next call fail.
fn prepare(scene: &mut Scene<'_>, below: &[Line<'_>]) -> Result<(), Fault> {
    let armed = scene.armed;
    scene.disk.fail_at(armed.number, armed.failing);
    scene.disk.refuse_at(armed.refused);
    let is_kill = matches!(armed.failing, Failing::Killed | Failing::DoneAndKilled);
    scene.is_killed = armed.number > 0 && is_kill;
    if is_compared(below) {
        scene.before = scene.disk.listing()?;
    }
    Ok(())
}

// Whether the tree before a call is compared with the one after it.
fn is_compared(below: &[Line<'_>]) -> bool {
    for line in below {
        if line.name == CALL {
            return false;
        }
        if line.name == SAME {
            return true;
        }
    }
    false
}

// Turns the power off and on, with so many changes on the disk, or with each number of them in its turn.
fn lose_power(scene: &mut Scene<'_>, words: &str) -> Result<Flow, Fault> {
    let kept = kept_changes(scene, words)?;
    scene.disk.lose_power(kept)?;
    scene.last = None;
    Ok(Flow::On)
}

// The same, if a file that was renamed has both names then.
fn keep_names(scene: &mut Scene<'_>, words: &str) -> Result<Flow, Fault> {
    let kept = kept_changes(scene, words)?;
    scene.last = None;
    if scene.disk.lose_power_and_keep_names(kept)? {
        return Ok(Flow::On);
    }
    Ok(Flow::Pass)
}

// How many changes are on the disk.
fn kept_changes(scene: &mut Scene<'_>, words: &str) -> Result<usize, Fault> {
    if words != "each" {
        return Ok(number_of(words)? as usize);
    }
    let count = scene.disk.count_unsynced()?.saturating_add(1);
    scene.sweep.choose(scene.alloc, count)
}

// Fails unless the disk has the tree before the moves, the one after them, or the one of a definition.
fn need_tree_of(
    scene: &Scene<'_>,
    line: Line<'_>,
    definitions: &[Definition<'_, '_>],
) -> Result<Flow, Failure> {
    match line.rest {
        "before" => need_before(scene, line)?,
        "after" => need_after(scene, line)?,
        name => match lines_named(name, definitions) {
            Ok(tree) => need_tree(scene, line, tree)?,
            Err(fault) => return at(line, Err(fault)),
        },
    }
    Ok(Flow::On)
}
