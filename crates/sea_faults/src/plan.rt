// Which calls of the outside in memory are to fail.
ghost use Rattle.std.specs.Prelude.{◌≡◌, ◌++◌, ◌∷◌, [], OnOk, OnErr};
ghost use Rattle.sea_faults.specs.Plans.{AreNext, after_call, is_due, is_listed as is_listed_of};

use crate::count::raise;
use sqlite_items::Items;
use std::alloc::{AllocError, Global};

/// How many calls were made, and which are to fail.
#[derive(Drop)]
pub struct FaultPlan {
    /// How many calls were made. The count stands still at `u64::MAX`.
    pub made: u64,
    /// The numbers of the calls that are to fail. The first call is number 1.
    pub fails: Items<u64>,
}

impl FaultPlan {
    /// No call was made, and none is to fail. It takes no memory.
    pub fn new(alloc: Global) -> Self
        ensures made { result.made ≡ 0 }
        ensures fails { result.fails ≡ [] }
    {
        FaultPlan {
            made: 0,
            fails: Items::new(alloc),
        }
    }

    /// No call was made, and those of these numbers are to fail. The first call is number 1.
    pub fn of(fails: Vec<u64>) -> Self
        ensures made { result.made ≡ 0 }
        ensures fails { result.fails ≡ fails.items }
    {
        FaultPlan {
            made: 0,
            fails: Items::from_vec(fails),
        }
    }

    /// Makes the call of this number fail too. The first call is number 1.
    pub fn fail(&mut self, call: u64) -> Result<(), AllocError>
        ensures ok { OnOk result (self.new ≡ record self.old { fails = self.old.fails ++ call ∷ [] }) }
        ensures err { OnErr result (self.new ≡ self.old) }
    {
        self.fails.push(call)
    }

    /// Counts the next call, and tells whether it is to fail.
    pub fn next_fails(&mut self) -> bool
        ensures due { result ≡ is_due self.old 0 }
        ensures next { AreNext (is_due self.old) (is_due self.new) }
        ensures counted { self.new ≡ after_call self.old }
    {
        raise(&mut self.made);
        is_listed(self.fails.as_slice(), self.made)
    }
}

// Whether the call of this number is one of those listed.
fn is_listed(calls: &[u64], number: u64) -> bool
    ensures { result ≡ is_listed_of calls.now number }
{
    calls.contains(&number)
}
