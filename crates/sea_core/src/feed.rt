// The entries that were accepted since the opening.
ghost use Rattle.std.specs.Prelude.{◌≡◌, ◌+◌, ◌<◌, ◌≤◌, ◌^◌, take, drop, length, IfOk};

use crate::base::{Core, History};
use crate::fault::CoreFault;
use sea_cell::Shared;
use sea_disk::Disk;
use sea_operation::Entry;
use sea_text::copies_of;
use sqlite_items::Items;
use std::alloc::{AllocError, Global};

/// What a feed gives: entries in order, of which the first one made the version `first` and each other the next one, and
/// the present version of the base.
#[derive(Drop)]
pub struct Feed {
    pub first: u64,
    pub entries: History,
    pub version: u64,
    pub ghost within: { first + length entries ≤ 2 ^ 64 },
}

impl<D: Disk> Core<D> {
    ghost use Rattle.sea_core.specs.Feeds.{Fed};

    /// The entries behind the version `from` that were accepted since the opening, at most `most` of them.
    ///
    /// Refuses with FeedGone where `from` lies before the opening, and with FeedAhead where it is above the present
    /// version. It costs by `most`, and touches no disk.
    pub fn feed(&self, from: u64, most: u32) -> Result<Feed, CoreFault>
        ensures { Fed self.now from most result }
    {
        let version = self.base.version;
        let opening = version - self.history.len() as u64;
        if from < opening {
            return Err(CoreFault::FeedGone { opening });
        }
        if version < from {
            return Err(CoreFault::FeedAhead { version });
        }
        let rest = behind(self.history.as_slice(), from - opening);
        let entries = copies(self.alloc, first_of(rest, most))?;
        Ok(Feed {
            first: from + 1,
            entries,
            version,
        })
    }
}

// The entries behind the first `count`.
fn behind(entries: &[Shared<Entry>], count: u64) -> &[Shared<Entry>]
    ensures { result.now ≡ drop count entries.now }
{
    if count > entries.len() as u64 {
        return &[];
    }
    &entries[count as usize..]
}

// The first entries, at most so many.
fn first_of(entries: &[Shared<Entry>], most: u32) -> &[Shared<Entry>]
    ensures { result.now ≡ take most entries.now }
{
    if entries.len() > most as usize {
        return &entries[..most as usize];
    }
    entries
}

// The same entries, shared.
fn copies(alloc: Global, entries: &[Shared<Entry>]) -> Result<History, AllocError>
    ensures { IfOk result (λ all. all ≡ entries.now) }
{
    Ok(Items::from_vec(copies_of(alloc, entries)?))
}
