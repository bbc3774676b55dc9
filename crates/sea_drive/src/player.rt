// Playing a script.
ghost use Rattle.std.specs.Prelude.{◌≡◌, ◌<◌, ◌≤◌, ◌||◌, ℕ, List, Option, Some, None, is_none, false};
ghost use Rattle.sea_faults.specs.Counts.{IsCaused};
ghost use Rattle.sea_core.specs.Stands.{StandsFor};
ghost use Rattle.sea_operation.specs.declared.base.Plain.{Plain};
ghost use Rattle.sea_core.specs.declared.limits.Limits.{Limits};
ghost use Rattle.sea_lines.specs.Lines.{KeepsTotal, TakesWithin};
ghost use Rattle.sea_lines.specs.Reader.{bytes_read, place_of};
ghost use Rattle.sea_drive.specs.Outcome.{start_outcome as start_outcome_of, is_disk_fault as is_disk_fault_of};
ghost use Rattle.sea_drive.specs.Play.{Ends, Goes, CountsDisk, is_source_fault, is_sink_fault, Writes, WritesPiece, end_status as end_status_of, fault_status as fault_status_of, start_status as start_status_of};
ghost use Rattle.sea_drive.specs.Rounds.{PlaysOn, Rounds, has_source_fault, has_sink_fault, ends_by, CountsRound, ReadsOn};
ghost use Rattle.sea_drive.specs.Setting.{setting, tape};

use crate::line::Played;
use crate::outcome::LineOutcome;
use crate::playing::play_line;
use crate::reply::{line_of, memory_line};
use crate::round::{Player, Round};
use crate::status::Status;
use sea_core::{Core, CoreFault, Limits, StartFault};
use sea_disk::Disk;
use sea_edge::{Clock, Sink, Source};
use sea_lines::{LineReader, ReadFault};
use std::alloc::Global;

/// Plays a script on the base that a disk's files stand for: each line of the source in turn, with one reply line for
/// each line that asks for one. The disk comes back beside the status.
pub fn play<S: Source, K: Sink, D: Disk, C: Clock>(
    alloc: Global,
    limits: Limits,
    source: &mut S,
    sink: &mut K,
    disk: D,
    clock: &mut C,
) -> (Status, D)
    ensures ends { Ends result.0 (setting (C.told clock.old) D.told D.shows D.faults D.failed) limits disk result.1 (tape (S.left source.old) (S.left source.new) (K.taken sink.old) (K.taken sink.new)) }
    ensures source { IsCaused (is_source_fault result.0) (S.faults source.old) (S.faults source.new) }
    ensures sink { IsCaused (is_sink_fault result.0) (K.faults sink.old) (K.faults sink.new) }
    ensures disk { CountsDisk result.0 (D.faults disk) (D.faults result.1) }
    // Only files that stand for no base are no base.
    ensures no_base { D.told → result.0 ≡ Status.NotABase → (base : Plain) → ¬ StandsFor base (D.shows disk).seen }
    // At most 4,294,967,297 bytes are taken.
    ensures within { TakesWithin (S.left source.old) (S.left source.new) }
{
    let Ok(mut reader) = LineReader::new(alloc) else {
        return (Status::Memory, disk);
    };
    let core = match Core::start(alloc, disk, limits) {
        Ok(core) => core,
        Err((fault, disk)) => return (start_status(fault), disk),
    };
    let mut next = Round::On(Player {
        core,
        ran_out_of_memory: false,
        disk_failed: false,
    });
    'rounds: loop {
        match next {
            Round::On(player) => next = play_round(alloc, &mut reader, player, source, sink, clock),
            Round::End(status, disk) => return (status, disk),
        }
    }
}

// Plays the next line, or ends.
fn play_round<S: Source, K: Sink, D: Disk, C: Clock>(
    alloc: Global,
    reader: &mut LineReader,
    player: Player<D>,
    source: &mut S,
    sink: &mut K,
    clock: &mut C,
) -> Round<D>
    ensures rounds { (limits : Limits) (disk : D) (input taken : Option (List ℕ))
        → Goes (setting (C.told clock.old) D.told D.shows D.faults D.failed) limits disk (tape input (S.left source.old) taken (K.taken sink.old)) (place_of reader.old (S.left source.old)) player
        → Rounds (setting (C.told clock.old) D.told D.shows D.faults D.failed) limits disk (tape input (S.left source.new) taken (K.taken sink.new)) (place_of reader.new (S.left source.new)) result }
    ensures disk { (first : ℕ) → IsCaused player.disk_failed first (D.faults player.core.disk) → CountsRound D.faults first result }
    ensures source { IsCaused (has_source_fault result) (S.faults source.old) (S.faults source.new) }
    ensures sink { IsCaused (has_sink_fault result) (K.faults sink.old) (K.faults sink.new) }
    ensures clock { C.told clock.new ≡ C.told clock.old }
    ensures progress { ReadsOn (bytes_read reader.old) (bytes_read reader.new) result }
    ensures counted { KeepsTotal (place_of reader.old (S.left source.old)) (place_of reader.new (S.left source.new)) }
{
    match reader.next_line(alloc, source) {
        Ok(Some(line)) => player.play(alloc, line.as_slice(), sink, clock),
        Ok(None) => {
            let status = end_status(player.ran_out_of_memory, player.disk_failed);
            Round::End(status, player.finish())
        }
        Err(fault) => Round::End(fault_status(fault), player.finish()),
    }
}

// The status of a script whose lines were all played.
fn end_status(ran_out_of_memory: bool, disk_failed: bool) -> Status
    ensures { result ≡ end_status_of ran_out_of_memory disk_failed }
{
    if disk_failed {
        return Status::DiskFault;
    }
    if ran_out_of_memory {
        Status::Memory
    } else {
        Status::Done
    }
}

// The status of a script whose next line can't be read.
fn fault_status(fault: ReadFault) -> Status
    ensures { result ≡ fault_status_of fault }
{
    match fault {
        ReadFault::Memory => Status::Memory,
        ReadFault::Source => Status::SourceFault,
        ReadFault::TooLong => Status::TooLong,
    }
}

/// The status of a refused start.
pub fn start_status(fault: StartFault) -> Status
    ensures { result ≡ start_status_of fault }
{
    match fault {
        StartFault::Memory => Status::Memory,
        StartFault::DiskFault => Status::DiskFault,
        StartFault::NotABase => Status::NotABase,
    }
}

// What comes of a refused reopening.
fn start_outcome(fault: StartFault) -> Option<LineOutcome>
    ensures { result ≡ start_outcome_of fault }
{
    match fault {
        StartFault::Memory => None,
        StartFault::DiskFault => Some(LineOutcome::Refused(CoreFault::DiskFault)),
        StartFault::NotABase => Some(LineOutcome::NotABase),
    }
}

impl<D: Disk> Player<D> {
    // The disk.
    fn finish(self) -> D
        ensures { result ≡ self.core.disk }
    {
        let Player {
            core,
            ran_out_of_memory: _,
            disk_failed: _,
        } = self;
        core.finish()
    }

    // Plays a line, and writes its reply.
    fn play<K: Sink, C: Clock>(
        self,
        alloc: Global,
        line: &[u8],
        sink: &mut K,
        clock: &mut C,
    ) -> Round<D>
        ensures plays { PlaysOn (setting (C.told clock.old) D.told D.shows D.faults D.failed) self line.now result (K.taken sink.old) (K.taken sink.new) }
        ensures disk { (first : ℕ) → IsCaused self.disk_failed first (D.faults self.core.disk) → CountsRound D.faults first result }
        ensures sink { IsCaused (has_sink_fault result) (K.faults sink.old) (K.faults sink.new) }
        ensures source { has_source_fault result ≡ false }
        ensures clock { C.told clock.new ≡ C.told clock.old }
    {
        let Player {
            core,
            ran_out_of_memory,
            disk_failed,
        } = self;
        match play_line(alloc, core, clock, line) {
            Played::On(outcome, core) => {
                let ran_out_of_memory = out_of_memory_by(ran_out_of_memory, &outcome);
                let disk_failed = disk_failed_by(disk_failed, &outcome);
                match write(alloc, sink, &outcome) {
                    None => Round::On(Player {
                        core,
                        ran_out_of_memory,
                        disk_failed,
                    }),
                    Some(status) => Round::End(status, core.finish()),
                }
            }
            Played::Refused(fault, disk) => match write(alloc, sink, &start_outcome(fault)) {
                None => Round::End(start_status(fault), disk),
                Some(status) => Round::End(status, disk),
            },
        }
    }
}

// Some line has run out of memory, this one or one before it.
fn out_of_memory_by(before: bool, outcome: &Option<LineOutcome>) -> bool
    ensures { result ≡ (before || is_none outcome.now) }
{
    before || outcome.is_none()
}

// In some line the disk has failed, in this one or in one before it.
fn disk_failed_by(before: bool, outcome: &Option<LineOutcome>) -> bool
    ensures { result ≡ (before || is_disk_fault_of outcome.now) }
{
    before || is_disk_fault(outcome)
}

// In a line the disk failed.
fn is_disk_fault(outcome: &Option<LineOutcome>) -> bool
    ensures { result ≡ is_disk_fault_of outcome.now }
{
    matches!(outcome, Some(LineOutcome::Refused(CoreFault::DiskFault)))
}

// Writes the reply of a line. Answers the status with which the script ends, or None where it goes on.
fn write<K: Sink>(alloc: Global, sink: &mut K, outcome: &Option<LineOutcome>) -> Option<Status>
    ensures writes { Writes result outcome.now (K.taken sink.old) (K.taken sink.new) }
    ensures sink { IsCaused (ends_by is_sink_fault result) (K.faults sink.old) (K.faults sink.new) }
    ensures source { ends_by is_source_fault result ≡ false }
{
    let Some(outcome) = outcome else {
        return give(sink, memory_line());
    };
    match line_of(alloc, outcome) {
        Ok(line) => give(sink, line.as_slice()),
        Err(_) => Some(Status::Memory),
    }
}

// Gives a piece in one call, unless it is empty.
fn give<K: Sink>(sink: &mut K, piece: &[u8]) -> Option<Status>
    ensures gives { WritesPiece result piece.now (K.taken sink.old) (K.taken sink.new) }
    ensures sink { IsCaused (ends_by is_sink_fault result) (K.faults sink.old) (K.faults sink.new) }
    ensures source { ends_by is_source_fault result ≡ false }
{
    if piece.is_empty() {
        return None;
    }
    match sink.give(piece) {
        Ok(()) => None,
        Err(_) => Some(Status::SinkFault),
    }
}
