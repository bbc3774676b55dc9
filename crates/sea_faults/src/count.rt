// The error of the outside, and how it is counted.
ghost use Rattle.std.specs.Prelude.{◌≡◌, ◌≤◌};
ghost use Rattle.sea_faults.specs.Counts.{one_more};

use thiserror::Error;

/// A call of the outside failed: of a disk, a source or a sink. Its object's count of faults rose in that call.
#[derive(Clone, Copy, Debug, PartialEq, Eq, Error)]
#[error("the outside failed")]
pub struct Failed;

/// Counts one more. The count stands still at `u64::MAX`.
pub fn raise(count: &mut u64)
    ensures raised { count.new ≡ one_more count.old }
    ensures later { count.old ≤ count.new }
{
    *count = count.saturating_add(1);
}

/// Counts one more fault, and gives it. The count stands still at `u64::MAX`.
pub fn counted(faults: &mut u64) -> Failed
    ensures raised { faults.new ≡ one_more faults.old }
    ensures later { faults.old ≤ faults.new }
{
    raise(faults);
    Failed
}

/// How many calls of a disk failed, and how many of them were writing calls. The counts stand still at `u64::MAX`.
#[derive(Drop)]
pub struct Faults {
    /// All calls that failed.
    pub all: u64,
    /// The writing calls that failed.
    pub writes: u64,
}

impl Faults {
    /// No call has failed.
    pub fn none() -> Self
        ensures { result ≡ record { all = 0; writes = 0 } }
    {
        Faults { all: 0, writes: 0 }
    }

    /// Counts a failed call that writes nothing, and gives its fault.
    pub fn read(&mut self) -> Failed
        ensures counted { self.new ≡ record self.old { all = one_more self.old.all } }
        ensures later { self.old.all ≤ self.new.all }
    {
        counted(&mut self.all)
    }

    /// Counts a failed writing call, and gives its fault.
    pub fn write(&mut self) -> Failed
        ensures counted { self.new ≡ record self.old {
          all = one_more self.old.all;
          writes = one_more self.old.writes;
        } }
        ensures later { self.old.all ≤ self.new.all }
        ensures later_writes { self.old.writes ≤ self.new.writes }
    {
        raise(&mut self.writes);
        counted(&mut self.all)
    }
}
