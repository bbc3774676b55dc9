// What differs from what was wanted.
use crate::files;
use crate::lines::first;
use crate::run::Ended;
use sea_disk::MemDisk;
use sea_drive::Status;
use std::alloc::{AllocError, Global};
use std::str;

/// The exit status of a name.
pub fn status_named(name: &str) -> Option<u8> {
    match name {
        "NoFolder" => Some(1),
        "Done" => Some(Status::Done.code()),
        "Usage" => Some(Status::Usage.code()),
        "SourceFault" => Some(Status::SourceFault.code()),
        "SinkFault" => Some(Status::SinkFault.code()),
        "DiskFault" => Some(Status::DiskFault.code()),
        "Memory" => Some(Status::Memory.code()),
        "NotABase" => Some(Status::NotABase.code()),
        "TooLong" => Some(Status::TooLong.code()),
        _ => None,
    }
}

// The exit status that a run wants.
fn wanted_status(run: &str) -> u8 {
    match first(run, "@ends").and_then(status_named) {
        Some(status) => status,
        None => 0,
    }
}

/// What differs from what a run wants: its status, a reply, or a file.
pub fn differs(
    alloc: Global,
    run: &str,
    wanted: &[u8],
    ended: &Ended,
    disk: &MemDisk,
) -> Result<Option<String>, AllocError> {
    if let Some(what) = status_differs(alloc, run, ended.status)? {
        return Ok(Some(what));
    }
    let wanted = str::from_utf8(wanted).unwrap_or("");
    if let Some(what) = replies_differ(alloc, ended.replies(), wanted)? {
        return Ok(Some(what));
    }
    files::differs(alloc, run, disk)
}

/// What differs from the status that a run wants.
pub fn status_differs(alloc: Global, run: &str, came: u8) -> Result<Option<String>, AllocError> {
    let wanted = wanted_status(run);
    if came == wanted {
        return Ok(None);
    }
    let what = format!(in alloc; "status {came} came, wanted {wanted}")?;
    Ok(Some(what))
}

// The first reply that differs. Both texts end in a line end or are empty, so that their last line stands for no reply.
fn replies_differ(alloc: Global, came: &str, wanted: &str) -> Result<Option<String>, AllocError> {
    let mut rest = wanted.split('\n');
    for (at, reply) in came.split('\n').enumerate() {
        let want = rest.next().unwrap_or("");
        if reply != want {
            let what = reply_differs(alloc, at, reply, want)?;
            return Ok(Some(what));
        }
    }
    Ok(None)
}

fn reply_differs(alloc: Global, at: usize, came: &str, want: &str) -> Result<String, AllocError> {
    let number = at.saturating_add(1);
    let came = or_none(came);
    let want = or_none(want);
    let what = format!(in alloc; "reply {number}: came {came}, wanted {want}")?;
    Ok(what)
}

fn or_none(reply: &str) -> &str {
    if reply.is_empty() { "none" } else { reply }
}
