// The outside in memory. Its bytes are known, and its faults are listed beforehand.
ghost use Rattle.std.specs.Prelude.{◌≡◌, ◌+◌, ◌-◌, ◌<◌, ◌≤◌, ◌++◌, min, length, take, drop, true, false, is_err, Some, IfOk, OnErr, vec_len, if◌then◌else◌};
ghost use Rattle.std.specs.Vec.{vec_capacity};
ghost use Rattle.sea_moment.specs.Moment.{IsMoment};
ghost use Rattle.sea_faults.specs.Counts.{HasCause, faults_after};
ghost use Rattle.sea_faults.specs.Plans.{after_call, is_due};
ghost use Rattle.sea_edge.specs.Bytes.{Takes, Gives};
ghost use Rattle.sea_edge.specs.Memory.{placed};

use crate::outside::{Clock, Sink, Source};
use sea_faults::{Failed, FaultPlan, counted};

/// A source over memory. It gives at most `piece` bytes a call, and fails exactly the calls that are listed.
#[derive(Drop)]
pub struct MemSource {
    /// All that it has to give.
    pub bytes: Vec<u8>,
    /// The most bytes that one call gives.
    pub piece: usize,
    /// How many calls were made, and which fail.
    pub plan: FaultPlan,
    /// How many calls failed. The count stands still at `u64::MAX`.
    pub failed: u64,
    /// How many bytes were given, of those in `bytes` the first.
    pub given: usize,
    pub ghost within: { given ≤ length bytes.items },
    pub ghost moves: { 0 < piece },
}

impl MemSource {
    /// A source that has all of `bytes` left, and has not been called.
    pub fn new(bytes: Vec<u8>, piece: usize, fails: Vec<u64>) -> Self
        requires { 0 < piece }
        ensures bytes { result.bytes ≡ bytes }
        ensures piece { result.piece ≡ piece }
        ensures fails { result.plan.fails ≡ fails.items }
        ensures calls { result.plan.made ≡ 0 }
        ensures failed { result.failed ≡ 0 }
        ensures given { result.given ≡ 0 }
    {
        MemSource {
            bytes,
            piece,
            plan: FaultPlan::of(fails),
            failed: 0,
            given: 0,
        }
    }
}

impl Source for MemSource {
    ghost left = { λ source. Some (drop source.given source.bytes.items) };

    ghost faults = { λ source. source.failed };

    fn take(&mut self, into: &mut [u8]) -> Result<usize, Failed>
        requires { 0 < length into.old }
        ensures bound { IfOk result (λ count. count ≤ length into.new) }
        ensures bytes { Takes (Some (drop self.old.given self.old.bytes.items))
            (Some (drop self.new.given self.new.bytes.items)) result into.new }
        ensures cause { HasCause result self.old.failed self.new.failed }
        ensures fails { is_err result ≡ is_due self.old.plan 0 }
        ensures count { IfOk result (λ count. count
            ≡ min self.old.piece (min (length into.old) (length self.old.bytes.items - self.old.given))) }
        ensures into { into.new
            ≡ take (placed result) (drop self.old.given self.old.bytes.items) ++ drop (placed result) into.old }
        ensures state { (within : _) × (self.new ≡ record self.old {
          plan = after_call self.old.plan;
          failed = faults_after result self.old.failed;
          given = self.old.given + placed result;
          within = within;
        }) }
    {
        if self.plan.next_fails() {
            return Err(counted(&mut self.failed));
        }
        let left = &self.bytes[self.given..];
        let count = place(left, into, self.piece);
        self.given += count;
        Ok(count)
    }
}

// Places as many bytes as both have, and at most `piece`, and answers how many.
fn place(from: &[u8], into: &mut [u8], piece: usize) -> usize
    ensures count { result ≡ min piece (min (length into.old) (length from.now)) }
    ensures placed { into.new ≡ take result from.now ++ drop result into.old }
{
    let count = piece.min(into.len().min(from.len()));
    into[..count].copy_from_slice(&from[..count]);
    count
}

/// A sink in memory. It appends whole pieces, and fails exactly the calls that are listed, and those that find no
/// memory. A call that fails appends nothing.
#[derive(Drop)]
pub struct MemSink {
    /// All that it was given.
    pub taken: Vec<u8>,
    /// How many calls were made, and which fail.
    pub plan: FaultPlan,
    /// How many calls failed. The count stands still at `u64::MAX`.
    pub failed: u64,
}

impl MemSink {
    /// A sink that holds `taken` already, and has not been called.
    pub fn new(taken: Vec<u8>, fails: Vec<u64>) -> Self
        ensures { result ≡ record { taken = taken; plan = record { made = 0; fails = fails.items }; failed = 0 } }
    {
        MemSink {
            taken,
            plan: FaultPlan::of(fails),
            failed: 0,
        }
    }
}

impl Sink for MemSink {
    ghost taken = { λ sink. Some sink.taken.items };

    ghost faults = { λ sink. sink.failed };

    fn give(&mut self, piece: &[u8]) -> Result<(), Failed>
        ensures bytes { Gives (Some self.old.taken.items) (Some self.new.taken.items) result piece.now }
        ensures cause { HasCause result self.old.failed self.new.failed }
        ensures listed { is_due self.old.plan 0 ≡ true → is_err result ≡ true }
        ensures memory { is_due self.old.plan 0 ≡ false
            → OnErr result (vec_capacity self.old.taken < vec_len self.old.taken + length piece.now) }
        ensures whole { self.new.taken.items ≡ (if is_err result then self.old.taken.items
            else self.old.taken.items ++ piece.now) }
        ensures state { self.new ≡ record self.old {
          taken = self.new.taken;
          plan = after_call self.old.plan;
          failed = faults_after result self.old.failed;
        } }
    {
        if self.plan.next_fails() {
            return Err(counted(&mut self.failed));
        }
        let Ok(()) = self.taken.extend_from_slice(piece) else {
            return Err(counted(&mut self.failed));
        };
        Ok(())
    }
}

/// A clock that stands still.
#[derive(Clone, Copy)]
pub struct FixedClock {
    /// Its one answer, in minutes from 1970-01-01 00:00 UTC.
    pub minutes: i64,
    pub ghost moment: { IsMoment minutes },
}

impl FixedClock {
    /// A clock that stands at this minute.
    pub fn new(minutes: i64) -> Self
        requires { IsMoment minutes }
        ensures { result.minutes ≡ minutes }
    {
        FixedClock { minutes }
    }
}

impl Clock for FixedClock {
    ghost told = { λ clock. Some clock.minutes };

    fn minutes(&mut self) -> i64
        ensures moment { IsMoment result }
        ensures answer { result ≡ self.old.minutes }
        ensures same { self.new ≡ self.old }
    {
        self.minutes
    }

    fn twin(&self) -> Self
        ensures { result ≡ self.now }
    {
        *self
    }
}
