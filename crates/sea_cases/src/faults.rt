// Which calls of the disk fail in a run.
use crate::lines::{behind, has, number};
use crate::run::carried;
use crate::script::Script;
use sea_disk::MemDisk;
use sqlite_items::Items;
use std::alloc::{AllocError, Global};

/// The disk with all calls listed that are to fail in a run.
pub fn failing(alloc: Global, run: &str, disk: MemDisk) -> Result<MemDisk, AllocError> {
    let fails = fails_of(alloc, run, &disk)?;
    let first = disk.calls();
    let mut disk = disk;
    for call in fails.as_slice() {
        disk.fail(first.saturating_add(*call))?;
    }
    Ok(disk)
}

/// The disk with no call listed that is to fail.
pub fn sound(alloc: Global, disk: MemDisk) -> MemDisk {
    let mut disk = disk;
    disk.plan.fails = Items::new(alloc);
    disk
}

/// A call of the disk is to fail in a run.
pub fn fails(run: &str) -> bool {
    has(run, "@call_fails") || has(run, "@fails_here") || has(run, "@stop")
}

// The numbers of the calls that fail, of which the run's first is number 1.
fn fails_of(alloc: Global, run: &str, disk: &MemDisk) -> Result<Vec<u64>, AllocError> {
    let mut fails = Vec::new(alloc);
    let mut script = Script::new(alloc, 0);
    for line in run.split('\n') {
        if let Some(call) = call_of(alloc, run, line, &script, fails.as_slice(), disk)? {
            fails.push(call)?;
        }
        script.read(line)?;
    }
    Ok(fails)
}

// The number of the call that a line lists.
fn call_of(
    alloc: Global,
    run: &str,
    line: &str,
    script: &Script,
    fails: &[u64],
    disk: &MemDisk,
) -> Result<Option<u64>, AllocError> {
    if let Some(rest) = behind(line, "@call_fails") {
        return Ok(number(rest));
    }
    let Some(call) = behind(line, "@fails_here").and_then(number) else {
        return Ok(None);
    };
    let made = calls_made(alloc, run, script.lines.as_slice(), fails, disk)?;
    Ok(Some(made.saturating_add(call)))
}

// How many calls a run over these lines makes, tried on a disk of the same bytes.
fn calls_made(
    alloc: Global,
    run: &str,
    lines: &[u8],
    fails: &[u64],
    disk: &MemDisk,
) -> Result<u64, AllocError> {
    let mut twin = disk.image(1)?;
    for call in fails {
        twin.fail(*call)?;
    }
    let (_ended, twin) = carried(alloc, run, lines, twin)?;
    Ok(twin.calls())
}
