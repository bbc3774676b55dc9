// The outside of the system. None of these tells its content.
ghost use Rattle.std.specs.Prelude.{◌≡◌, ◌<◌, ◌≤◌, ◌/◌, pos, length, None, IfOk, OnOk};
ghost use Rattle.std.specs.Io.KnownBytes.{ReadConsumes, Appends};
ghost use Rattle.std.specs.Duration.{as_nanos};
ghost use Rattle.sea_moment.specs.Moment.{last_moment, IsMoment};
ghost use Rattle.sea_faults.specs.Counts.{HasCause, faults_after};
ghost use Rattle.sea_edge.specs.Bytes.{Gives};

use crate::outside::{Clock, Sink, Source};
use sea_faults::{Failed, counted};
use sea_moment::nearest;
use std::io;
use std::io::{Read, Write};
use std::rt::Clock as RuntimeClock;
use std::time::Duration;

/// A source over a reader. One call is one read.
#[derive(Drop)]
pub struct StdSource<R> {
    /// Where the bytes come from.
    pub reader: R,
    /// How many reads failed. The count stands still at `u64::MAX`.
    pub failed: u64,
}

impl<R: Read> StdSource<R> {
    /// A source over a reader, with no fault so far.
    pub fn new(reader: R) -> Self
        ensures { result ≡ record { reader = reader; failed = 0 } }
    {
        StdSource { reader, failed: 0 }
    }
}

impl<R: Read> Source for StdSource<R> {
    ghost left = { λ _. None };

    ghost faults = { λ source. source.failed };

    fn take(&mut self, into: &mut [u8]) -> Result<usize, Failed>
        requires { 0 < length into.old }
        ensures bound { IfOk result (λ count. count ≤ length into.new) }
        ensures cause { HasCause result self.old.failed self.new.failed }
        ensures read { ReadConsumes (R.remaining self.old.reader) (R.remaining self.new.reader) result into.new }
        ensures failed { self.new.failed ≡ faults_after result self.old.failed }
    {
        let Ok(count) = self.reader.read(into) else {
            return Err(counted(&mut self.failed));
        };
        Ok(count)
    }
}

/// A sink over a writer. One call writes a whole piece and flushes it, so that who waits for it at the other end
/// has it.
#[derive(Drop)]
pub struct StdSink<W> {
    /// Where the bytes go to.
    pub writer: W,
    /// How many calls failed, in the write or the flush. The count stands still at `u64::MAX`.
    pub failed: u64,
}

impl<W: Write> StdSink<W> {
    /// A sink over a writer, with no fault so far.
    pub fn new(writer: W) -> Self
        ensures { result ≡ record { writer = writer; failed = 0 } }
    {
        StdSink { writer, failed: 0 }
    }
}

impl<W: Write> Sink for StdSink<W> {
    ghost taken = { λ _. None };

    ghost faults = { λ sink. sink.failed };

    fn give(&mut self, piece: &[u8]) -> Result<(), Failed>
        ensures bytes { Gives None None result piece.now }
        ensures cause { HasCause result self.old.failed self.new.failed }
        ensures written { OnOk result (Appends (W.contents self.old.writer) (W.contents self.new.writer) piece.now) }
        ensures failed { self.new.failed ≡ faults_after result self.old.failed }
    {
        let Ok(()) = write_through(&mut self.writer, piece) else {
            return Err(counted(&mut self.failed));
        };
        Ok(())
    }
}

// Writes a whole piece, and leaves none of it in a buffer.
fn write_through<W: Write>(writer: &mut W, piece: &[u8]) -> io::Result<()>
    ensures { OnOk result (Appends (W.contents writer.old) (W.contents writer.new) piece.now) }
{
    writer.write_all(piece)?;
    writer.flush()?;
    Ok(())
}

/// The system's clock, by way of the runtime.
#[derive_where(Clone, Copy)]
pub struct SystemClock<'a, R> {
    /// What reads the system's clock.
    pub runtime: &'a R,
}

impl<'a, R: RuntimeClock> SystemClock<'a, R> {
    /// The clock of this runtime.
    pub fn new(runtime: &'a R) -> Self
        ensures { result.runtime ≡ runtime.entry }
    {
        SystemClock { runtime }
    }
}

impl<'a, R: RuntimeClock> Clock for SystemClock<'a, R> {
    ghost told = { λ _. None };

    /// The system's whole minutes, or the end of the range that they lie beyond. Where the system's clock can't be
    /// read it is 0, which is 1970-01-01 00:00 UTC.
    fn minutes(&mut self) -> i64 {
        match self.runtime.since_1970() {
            Ok(time) => whole_minutes(time),
            Err(_) => 0,
        }
    }

    fn twin(&self) -> Self
        ensures { result ≡ self.now }
    {
        *self
    }
}

// The whole minutes of a time since 1970, or the last moment where it lies beyond.
fn whole_minutes(time: Duration) -> i64
    ensures moment { IsMoment result }
    ensures within { as_nanos time / 60_000_000_000 ≤ 4_223_371_679 → result ≡ pos (as_nanos time / 60_000_000_000) }
    ensures after { 4_223_371_679 ≤ as_nanos time / 60_000_000_000 → result ≡ last_moment }
{
    nearest((time.as_secs() / 60) as i64)
}
