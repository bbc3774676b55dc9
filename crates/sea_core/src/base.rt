// The core of a base.
ghost use Rattle.std.specs.Prelude.{◌≡◌, ◌++◌, ◌∷◌, [], ℕ, List, Some, IsErrOf, IsUtf8};
ghost use Rattle.sea_operation.specs.declared.operation.Entry.{Entry};
ghost use Rattle.sea_moment.specs.Moment.{IsMoment};
ghost use Rattle.sea_ops.specs.Operations.{op_of};

use crate::addition::add_record;
use crate::fault::CoreFault;
use crate::limits::Limits;
use sea_cell::Shared;
use sea_disk::Disk;
use sea_log::LogFault;
use sea_operation::{Entry, Plain};
use sea_ops::texts_are_forms;
use sqlite_items::Items;
use std::alloc::Global;
use std::marker::Model;
use std::snapshot::Snapshot;

/// Entries in the order in which they were accepted. A copy shares them.
pub type History = Items<Shared<Entry>>;

/// A base that is kept on a disk, seen by contracts as its state.
pub struct Core<D> {
    pub(crate) alloc: Global,
    pub(crate) disk: D,
    // The base after all entries that were acknowledged.
    pub(crate) base: Plain,
    // The base when it was opened; it takes no memory.
    pub(crate) opening: Snapshot<Plain>,
    // The entries that were acknowledged since.
    pub(crate) history: History,
    // The entry in doubt, where there is one.
    pub(crate) doubt: Option<Shared<Entry>>,
    // How many calls of the disk had failed when a writing call failed, where one did. The base then takes no entry.
    pub(crate) failed: Option<u64>,
    pub(crate) limits: Limits,
    // The place of the gate that ends the log.
    pub(crate) end: u64,
}

impl<D> Model for Core<D> {
    ghost use Rattle.std.specs.Prelude.{◌≡◌, ◌≤◌, ◌^◌, Ok};
    ghost use Rattle.sea_operation.specs.Apply.{after};
    ghost use Rattle.sea_core.specs.State.{CoreState};

    ghost Value = { CoreState D };

    ghost view = { λ core. record {
      disk = core.disk;
      content = core.base;
      opening = core.opening.value;
      history = core.history;
      doubt = core.doubt;
      failed = core.failed;
      limits = core.limits;
      log_end = core.end;
    } };

    // What is held is what was opened, after the history; its version is one that a base may have.
    ghost invariant = { λ core. (after core.opening.value core.history ≡ Ok core.base) × (core.base.version ≤ 2 ^ 62) };
}

impl<D: Disk> Core<D> {
    ghost use Rattle.sea_core.specs.Causes.{EditCause};
    ghost use Rattle.sea_core.specs.Edits.{Edited};
    ghost use Rattle.sea_core.specs.Sound.{IsSound, LeavesEdit};

    /// The base after all entries that were acknowledged.
    pub fn content(&self) -> &Plain
        ensures { result.now ≡ self.now.content }
    {
        &self.base
    }

    /// Applies an entry to the base, once its record is safe, and answers the new version. The entry's user is a text of
    /// fewer than 2^32 bytes, and its operation one that some JSON text is.
    ///
    /// Refuses with BaseFailed, then with the operation's first refusal, then with LogFull where the log would have more
    /// bytes than it may, and with DiskFault where a call of the disk failed: then the entry is in doubt, and the base
    /// takes no more until it is started again.
    pub fn edit(&mut self, entry: Entry) -> Result<u64, CoreFault>
        requires moment { IsMoment entry.moment.0 }
        requires user { IsUtf8 entry.user }
        requires form { (text : List ℕ) × (op_of text ≡ Some entry.op) }
        ensures edited { Edited self.old self.new entry result }
        ensures counted { IsErrOf result CoreFault.DiskFault → self.new.failed ≡ Some (D.faults self.new.disk) }
        ensures leaves { D.told → IsSound D.shows self.old → LeavesEdit D.shows self.old self.new entry result }
        ensures faults { EditCause result (D.faults self.old.disk) (D.faults self.new.disk) }
        ensures failed { EditCause result (D.failed self.old.disk) (D.failed self.new.disk) }
    {
        texts_are_forms(); // law
        let (next, payload) = self.prepare(&entry)?;
        // What takes memory comes before the first call of the disk.
        self.history.push(Shared::new(self.alloc, entry)?)?;
        let most = self.limits.log_bytes;
        match add_record(
            self.alloc,
            &mut self.disk,
            self.end,
            payload.as_slice(),
            most,
        ) {
            Ok(place) => {
                let version = next.version;
                self.base = next;
                self.end = place;
                Ok(version)
            }
            Err(LogFault::DiskFault) => {
                put_in_doubt(&mut self.history, &mut self.doubt);
                self.failed = Some(self.disk.faults());
                Err(CoreFault::DiskFault)
            }
            Err(LogFault::LogFull { size }) => {
                drop_last(&mut self.history);
                Err(CoreFault::LogFull { size })
            }
            Err(LogFault::Memory) => {
                drop_last(&mut self.history);
                Err(CoreFault::Memory)
            }
            Err(LogFault::BadLog) => unreachable!(),
        }
    }

    /// The disk.
    pub fn finish(self) -> D
        ensures { result ≡ self.disk }
    {
        let Core {
            alloc: _,
            disk,
            base: _,
            opening: _,
            history: _,
            doubt: _,
            failed: _,
            limits: _,
            end: _,
        } = self;
        disk
    }

    /// The limits that the base was started with.
    pub fn limits(&self) -> Limits
        ensures { result ≡ self.now.limits }
    {
        self.limits
    }
}

// Takes the last entry of a history into doubt.
fn put_in_doubt(history: &mut History, doubt: &mut Option<Shared<Entry>>)
    ensures { (before : List Entry) (entry : Entry) → history.old ≡ before ++ entry ∷ [] → (history.new ≡ before) × (doubt.new ≡ Some entry) }
{
    *doubt = history.pop();
}

// Drops the last entry of a history.
fn drop_last(history: &mut History)
    ensures { (before : List Entry) (entry : Entry) → history.old ≡ before ++ entry ∷ [] → history.new ≡ before }
{
    let _entry = history.pop();
}
