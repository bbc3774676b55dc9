// The outside of a run: its source, its sink, its clock and its limits.
ghost use Rattle.std.specs.Prelude.{◌<◌};

use crate::lines::{behind, first, number, signed};
use sea_cell::Text;
use sea_core::Limits;
use sea_drive::Word;
use sea_edge::{FixedClock, MemSink, MemSource};
use sea_moment::nearest;
use std::alloc::{AllocError, Global};

/// What a run reads and writes.
#[derive(Drop)]
pub struct Outside {
    /// What the lines come from.
    pub source: MemSource,
    /// What takes the replies.
    pub sink: MemSink,
    /// The clock.
    pub clock: FixedClock,
    /// The limits of the base.
    pub limits: Limits,
}

impl Outside {
    /// The outside of a run that plays these lines.
    pub fn of(alloc: Global, run: &str, lines: &[u8]) -> Result<Outside, AllocError> {
        let source = source_of(alloc, run, lines)?;
        let sink = MemSink::new(Vec::new(alloc), numbers(alloc, run, "@give_fails")?);
        Ok(Outside {
            source,
            sink,
            clock: clock_of(run),
            limits: limits_of(run),
        })
    }
}

fn source_of(alloc: Global, run: &str, lines: &[u8]) -> Result<MemSource, AllocError> {
    let bytes = Vec::from_slice(alloc, lines)?;
    let fails = numbers(alloc, run, "@take_fails")?;
    Ok(MemSource::new(bytes, pieces_of(run), fails))
}

// The most bytes of one take.
fn pieces_of(run: &str) -> usize
    ensures { 0 < result }
{
    match first(run, "@pieces") {
        Some(text) => (number(text).unwrap_or(1) as usize).max(1),
        None => 1_000,
    }
}

fn clock_of(run: &str) -> FixedClock {
    let minutes = first(run, "@minutes").and_then(signed).unwrap_or(0);
    FixedClock::new(nearest(minutes))
}

fn limits_of(run: &str) -> Limits {
    match first(run, "@limit").and_then(log_bytes) {
        Some(limits) => limits,
        None => Limits::standard(),
    }
}

/// The limits that the words of a limit give.
pub fn log_bytes(text: &str) -> Option<Limits> {
    let log_bytes = number(behind(text, "log_bytes")?)?;
    if log_bytes <= 268_435_456 {
        Some(Limits::standard().with_log_bytes(log_bytes))
    } else {
        None
    }
}

/// The numbers behind all directives of a name.
pub fn numbers(alloc: Global, run: &str, name: &str) -> Result<Vec<u64>, AllocError> {
    let mut found = Vec::new(alloc);
    for line in run.split('\n') {
        if let Some(number) = behind(line, name).and_then(number) {
            found.push(number)?;
        }
    }
    Ok(found)
}

/// The words of the top call, where the run has them.
pub fn words_of(alloc: Global, run: &str) -> Result<Option<Vec<Word>>, AllocError> {
    let Some(text) = first(run, "@words") else {
        return Ok(None);
    };
    let mut words = Vec::new(alloc);
    if text.is_empty() {
        return Ok(Some(words));
    }
    for word in text.split(' ') {
        words.push(Text::copy_of(alloc, word)?)?;
    }
    Ok(Some(words))
}
