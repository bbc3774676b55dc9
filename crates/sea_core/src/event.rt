// What may happen to a base.
ghost use Rattle.sea_core.specs.State.{known};
ghost use Rattle.sea_core.specs.Events.{IsTaken, Step};

use crate::base::Core;
use crate::fault::CoreFault;
use crate::feed::Feed;
use sea_disk::Disk;
use sea_operation::Entry;

/// What may happen to a base: one call of its core.
#[derive(Drop)]
pub enum Event {
    /// An entry is applied.
    Edit(Entry),
    /// The entries behind the version `from` are asked for, at most `most` of them.
    Feed { from: u64, most: u32 },
}

/// What comes of an event: the answer of its call.
#[derive(Drop)]
pub enum Outcome {
    /// Of an edit: the new version.
    Edit(Result<u64, CoreFault>),
    /// Of a feed.
    Feed(Result<Feed, CoreFault>),
}

impl<D: Disk> Core<D> {
    /// Makes the call of an event.
    pub fn step(&mut self, event: Event) -> Outcome
        requires { IsTaken event }
        ensures { Step (known D.told D.shows D.faults D.failed) self.old event result self.new }
    {
        match event {
            Event::Edit(entry) => Outcome::Edit(self.edit(entry)),
            Event::Feed { from, most } => Outcome::Feed(self.feed(from, most)),
        }
    }
}
