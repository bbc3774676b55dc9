// A case: its title and its runs.
use crate::checking::{bad_run, is_swept, swept_badly};
use crate::faults::{failing, fails, sound};
use crate::files::filled;
use crate::lines::{first, is_nothing, number};
use crate::run::{Ended, carried};
use crate::script::Script;
use crate::version::last_version;
use crate::{sweep, verdict};
use sea_disk::{Disk, Fuse, MemDisk};
use std::alloc::{AllocError, Global};

// What comes of a run.
enum Turn {
    // It came out as wanted; the disk, and the version that the replies have told last.
    On(MemDisk, u64),
    // What differed.
    End(String),
}

/// The title of a case, which is its first line.
pub fn title(case: &str) -> &str {
    match case.split_once('\n') {
        Some((title, _)) => title,
        None => case,
    }
}

// What stands behind the first line.
fn below(part: &str) -> &str {
    match part.split_once('\n') {
        Some((_, below)) => below,
        None => "",
    }
}

/// What is told of lines that stand before the first case, if any says something.
pub fn before(alloc: Global, lines: &str) -> Result<Option<String>, AllocError> {
    for line in lines.split('\n') {
        if !is_nothing(line) {
            let told = format!(in alloc; "bad case: before the first one stands: {line}\n")?;
            return Ok(Some(told));
        }
    }
    Ok(None)
}

/// What differs from what a case wants, or what is bad in it.
pub fn differs(alloc: Global, case: &str) -> Result<Option<String>, AllocError> {
    if let Some(what) = bad_case(case) {
        let told = format!(in alloc; "bad case: {what}")?;
        return Ok(Some(told));
    }
    if is_swept(case) {
        return sweep::differs(alloc, below(case));
    }
    runs_differ(alloc, case)
}

// What is bad in a case.
fn bad_case(case: &str) -> Option<&str> {
    if title(case).is_empty() {
        return Some("it has no title");
    }
    if is_empty(below(case)) {
        return Some("it has no line");
    }
    if is_swept(case) {
        if let Some(what) = swept_badly(below(case)) {
            return Some(what);
        }
    }
    bad_part(case)
}

// No line says anything.
fn is_empty(lines: &str) -> bool {
    for line in lines.split('\n') {
        if !is_nothing(line) {
            return false;
        }
    }
    true
}

// What is bad in a run, or in the line that leads to it.
fn bad_part(case: &str) -> Option<&str> {
    let mut is_first = true;
    for part in case.split("\n@then") {
        if !is_first && !is_way(title(part)) {
            return Some("a line @then that is none");
        }
        if let Some(what) = bad_run(below(part)) {
            return Some(what);
        }
        is_first = false;
    }
    None
}

// What stands behind @then says which disk the next run goes on with.
fn is_way(way: &str) -> bool {
    matches!(way, "" | " image 0" | " image 1" | " image 2")
}

// Plays the runs of a case until something differs.
fn runs_differ(alloc: Global, case: &str) -> Result<Option<String>, AllocError> {
    let mut parts = case.split("\n@then");
    let run = below(parts.next().unwrap_or(""));
    let mut next = one_turn(alloc, run, MemDisk::blank(alloc)?, 0)?;
    for part in parts {
        next = match next {
            Turn::On(disk, version) => next_turn(alloc, part, disk, version)?,
            Turn::End(what) => return Ok(Some(what)),
        };
    }
    match next {
        Turn::On(_disk, _) => Ok(None),
        Turn::End(what) => Ok(Some(what)),
    }
}

// Plays a run on what the one before it leaves.
fn next_turn(alloc: Global, part: &str, disk: MemDisk, version: u64) -> Result<Turn, AllocError> {
    let disk = left(title(part), disk)?;
    one_turn(alloc, below(part), disk, version)
}

// The disk that the next run goes on with.
fn left(way: &str, disk: MemDisk) -> Result<MemDisk, AllocError> {
    match way {
        " image 0" => disk.image(0),
        " image 1" => disk.image(1),
        " image 2" => disk.image(2),
        _ => Ok(disk),
    }
}

// Plays a run.
fn one_turn(alloc: Global, run: &str, disk: MemDisk, version: u64) -> Result<Turn, AllocError> {
    let disk = failing(alloc, run, filled(alloc, run, disk)?)?;
    let faults = disk.faults();
    let script = Script::of(alloc, run, version)?;
    let (ended, disk) = stopped(alloc, run, script.lines.as_slice(), disk)?;
    if fails(run) && ended.faults <= faults {
        let what = format!(in alloc; "no call of the disk has failed")?;
        return Ok(Turn::End(what));
    }
    let disk = sound(alloc, disk);
    match verdict::differs(alloc, run, script.wanted.as_slice(), &ended, &disk)? {
        Some(what) => Ok(Turn::End(what)),
        None => Ok(Turn::On(disk, last_version(ended.replies(), version))),
    }
}

// Carries out a run, through a fuse where it has one.
fn stopped(
    alloc: Global,
    run: &str,
    lines: &[u8],
    disk: MemDisk,
) -> Result<(Ended, MemDisk), AllocError> {
    let Some(calls) = first(run, "@stop").and_then(number) else {
        return carried(alloc, run, lines, disk);
    };
    let (ended, fuse) = carried(alloc, run, lines, Fuse::over(disk, calls))?;
    Ok((ended, fuse.into_disk()))
}
