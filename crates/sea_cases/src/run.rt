// The calls that do what a run asks for.
use crate::lines::has;
use crate::outside::{Outside, words_of};
use sea_disk::{Disk, MemFolders};
use sea_drive::{Ended as ProgramEnded, Word, play, program};
use sea_edge::MemSink;
use std::alloc::{AllocError, Global};
use std::str;

/// How a run ended.
#[derive(Drop)]
pub struct Ended {
    /// Its exit status.
    pub status: u8,
    /// What it has written.
    pub written: Vec<u8>,
    /// How many calls of the disk have failed, those before the run included.
    pub faults: u64,
}

impl Ended {
    /// The replies.
    pub fn replies(&self) -> &str {
        str::from_utf8(self.written.as_slice()).unwrap_or("no text")
    }
}

/// Carries out a run over these lines on a disk, which comes back.
pub fn carried<D: Disk + Drop>(
    alloc: Global,
    run: &str,
    lines: &[u8],
    disk: D,
) -> Result<(Ended, D), AllocError> {
    let outside = Outside::of(alloc, run, lines)?;
    let Some(words) = words_of(alloc, run)? else {
        return Ok(played(alloc, outside, disk));
    };
    if has(run, "@no_folder") {
        let (ended, _none) = commanded::<D>(alloc, words.as_slice(), outside, None, disk.faults());
        return Ok((ended, disk));
    }
    let faults = disk.faults();
    match commanded(alloc, words.as_slice(), outside, Some(disk), faults) {
        (ended, Some(disk)) => Ok((ended, disk)),
        (_, None) => Err(AllocError),
    }
}

// Gives words to the program, where its folder has this disk or none. The disk comes back.
fn commanded<D: Disk + Drop>(
    alloc: Global,
    words: &[Word],
    outside: Outside,
    disk: Option<D>,
    faults: u64,
) -> (Ended, Option<D>) {
    let Outside {
        source,
        sink,
        clock,
        limits: _,
    } = outside;
    let (mut source, mut sink, mut clock) = (source, sink, clock);
    let mut folders = MemFolders { disk };
    let ProgramEnded { code, disk } = program(
        alloc,
        words,
        &mut source,
        &mut sink,
        &mut folders,
        &mut clock,
    );
    let MemFolders { disk: unopened } = folders;
    match disk {
        Some(disk) => (end_of(code, sink, disk.faults()), Some(disk)),
        None => (end_of(code, sink, faults), unopened),
    }
}

// Plays a script.
fn played<D: Disk>(alloc: Global, outside: Outside, disk: D) -> (Ended, D) {
    let Outside {
        source,
        sink,
        clock,
        limits,
    } = outside;
    let (mut source, mut sink, mut clock) = (source, sink, clock);
    let (status, disk) = play(alloc, limits, &mut source, &mut sink, disk, &mut clock);
    (end_of(status.code(), sink, disk.faults()), disk)
}

fn end_of(status: u8, sink: MemSink, faults: u64) -> Ended {
    let MemSink {
        taken,
        plan: _,
        failed: _,
    } = sink;
    Ended {
        status,
        written: taken,
        faults,
    }
}
