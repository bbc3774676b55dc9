// Sweeps: a script with a fault or a stop at each of many calls.
use crate::checking::span_of;
use crate::lines::{cut, number};
use crate::run::carried;
use crate::script::Script;
use crate::verdict::status_differs;
use crate::version::last_version;
use sea_disk::{Fuse, MemDisk};
use std::alloc::{AllocError, Global};

// What one run of a sweep leaves.
#[derive(Drop)]
struct Left {
    status: u8,
    // The version that was acknowledged last.
    version: u64,
    disk: MemDisk,
}

/// What differs in the sweeps of a case.
pub fn differs(alloc: Global, run: &str) -> Result<Option<String>, AllocError> {
    let script = Script::of(alloc, run, 0)?;
    if let Some(what) = refusal_in(alloc, run, script.lines.as_slice())? {
        return Ok(Some(what));
    }
    for line in run.split('\n') {
        if let Some(what) = line_differs(alloc, run, script.lines.as_slice(), line)? {
            return Ok(Some(what));
        }
    }
    Ok(None)
}

// What is refused where the script is played and nothing fails.
fn refusal_in(alloc: Global, run: &str, lines: &[u8]) -> Result<Option<String>, AllocError> {
    let (ended, _disk) = carried(alloc, run, lines, MemDisk::blank(alloc)?)?;
    for reply in ended.replies().split('\n') {
        if reply.contains("\"error\"") {
            let what = format!(in alloc; "a line is refused where nothing fails: {reply}")?;
            return Ok(Some(what));
        }
    }
    Ok(None)
}

// What differs in the sweep that a line asks for.
fn line_differs(
    alloc: Global,
    run: &str,
    lines: &[u8],
    line: &str,
) -> Result<Option<String>, AllocError> {
    let (name, rest) = cut(line);
    if name == "@faults" {
        return faults_differ(alloc, run, lines, number(rest).unwrap_or(0));
    }
    if name == "@stops" {
        return stops_differ(alloc, run, lines, number(rest).unwrap_or(0));
    }
    if name == "@starts" {
        return starts_differ(alloc, run, lines, span_of(rest).unwrap_or((0, 0, 0)));
    }
    Ok(None)
}

fn faults_differ(
    alloc: Global,
    run: &str,
    lines: &[u8],
    below: u64,
) -> Result<Option<String>, AllocError> {
    let mut status = None;
    for call in 1..below {
        let left = faulted(alloc, run, lines, call)?;
        if let Some(what) = left.lacks(alloc, run, "fault at", call)? {
            return Ok(Some(what));
        }
        status = Some(left.status);
    }
    last_differs(alloc, run, status)
}

fn stops_differ(
    alloc: Global,
    run: &str,
    lines: &[u8],
    below: u64,
) -> Result<Option<String>, AllocError> {
    let mut status = None;
    for calls in 0..below {
        let left = stopped(alloc, run, lines, calls)?;
        if let Some(what) = left.lacks(alloc, run, "stop after", calls)? {
            return Ok(Some(what));
        }
        status = Some(left.status);
    }
    last_differs(alloc, run, status)
}

// What differs from the status that the last run of a sweep has to end with.
fn last_differs(
    alloc: Global,
    run: &str,
    status: Option<u8>,
) -> Result<Option<String>, AllocError> {
    let Some(status) = status else {
        let what = format!(in alloc; "the sweep has no run")?;
        return Ok(Some(what));
    };
    let Some(differs) = status_differs(alloc, run, status)? else {
        return Ok(None);
    };
    let what = format!(in alloc; "the last run of the sweep: {differs}")?;
    Ok(Some(what))
}

// The script with a fault at a call.
fn faulted(alloc: Global, run: &str, lines: &[u8], call: u64) -> Result<Left, AllocError> {
    let mut disk = MemDisk::blank(alloc)?;
    disk.fail(call)?;
    let (ended, disk) = carried(alloc, run, lines, disk)?;
    Ok(Left {
        status: ended.status,
        version: last_version(ended.replies(), 0),
        disk,
    })
}

// The script with a stop after so many calls.
fn stopped(alloc: Global, run: &str, lines: &[u8], calls: u64) -> Result<Left, AllocError> {
    let fuse = Fuse::over(MemDisk::blank(alloc)?, calls);
    let (ended, fuse) = carried(alloc, run, lines, fuse)?;
    Ok(Left {
        status: ended.status,
        version: last_version(ended.replies(), 0),
        disk: fuse.into_disk(),
    })
}

impl Left {
    // What differs where a thing that a stop may leave has neither the last acknowledged version nor the next one.
    fn lacks(
        &self,
        alloc: Global,
        run: &str,
        place: &str,
        call: u64,
    ) -> Result<Option<String>, AllocError> {
        let version = self.version;
        for choice in 0..3 {
            let found = found(alloc, run, self.disk.image(choice)?)?;
            if !is_kept(found, version) {
                let what = format!(in alloc;
                    "{place} {call}, image {choice}: found {found:?}, acknowledged {version}"
                )?;
                return Ok(Some(what));
            }
        }
        Ok(None)
    }
}

fn is_kept(found: Option<u64>, version: u64) -> bool {
    found == Some(version) || found == Some(version.saturating_add(1))
}

// The version that a start finds on a disk, or none where it ends otherwise than well.
fn found(alloc: Global, run: &str, disk: MemDisk) -> Result<Option<u64>, AllocError> {
    let (ended, _disk) = carried(alloc, run, b"reopen\n", disk)?;
    if ended.status != 0 || ended.written.is_empty() {
        return Ok(None);
    }
    Ok(Some(last_version(ended.replies(), 0)))
}

fn starts_differ(
    alloc: Global,
    run: &str,
    lines: &[u8],
    span: (u64, u64, u64),
) -> Result<Option<String>, AllocError> {
    for calls in span.0..span.1 {
        let left = stopped(alloc, run, lines, calls)?;
        if left.status == 0 {
            let what = format!(in alloc; "a stop after {calls} calls is never met")?;
            return Ok(Some(what));
        }
        if let Some(what) = start_differs(alloc, run, &left.disk, calls, span.2)? {
            return Ok(Some(what));
        }
    }
    Ok(None)
}

// What differs where starts are stopped on what a stop leaves.
fn start_differs(
    alloc: Global,
    run: &str,
    disk: &MemDisk,
    stop: u64,
    below: u64,
) -> Result<Option<String>, AllocError> {
    let version = found(alloc, run, disk.image(2)?)?;
    for calls in 0..below {
        let again = found_again(alloc, run, disk, calls)?;
        if version.is_none() || again != version {
            let what = format!(in alloc;
                "stop after {stop}, start stopped after {calls}: found {again:?}, without it {version:?}"
            )?;
            return Ok(Some(what));
        }
    }
    Ok(None)
}

// The version that a start finds where an earlier one was stopped after so many calls.
fn found_again(
    alloc: Global,
    run: &str,
    disk: &MemDisk,
    calls: u64,
) -> Result<Option<u64>, AllocError> {
    let fuse = Fuse::over(disk.image(2)?, calls);
    let (_ended, fuse) = carried(alloc, run, b"reopen\n", fuse)?;
    found(alloc, run, fuse.into_disk().image(2)?)
}
