// What files stand for is one base, and each version since the opening has its entry.
ghost use Rattle.std.specs.Prelude.{◌≡◌, ◌+◌, ◌-◌, ℕ, length, min, slice_get, Some, Result, Ok};
ghost use Rattle.sea_disk.specs.Shown.{Files};
ghost use Rattle.sea_operation.specs.declared.base.Plain.{Plain};
ghost use Rattle.sea_operation.specs.declared.operation.Entry.{Entry};
ghost use Rattle.sea_core.specs.declared.fault.CoreFault.{CoreFault};
ghost use Rattle.sea_operation.specs.Apply.{after};
ghost use Rattle.sea_core.specs.declared.feed.Feed.{Feed};
ghost use Rattle.sea_core.specs.Edits.{Edited};
ghost use Rattle.sea_core.specs.Feeds.{Fed, entry_at, IsCounted};
ghost use Rattle.sea_core.specs.Stands.{StandsFor};
ghost use Rattle.sea_core.specs.State.{CoreState};

use sea_disk::Disk;
use sea_log::one_list_at_most;
use sea_record::records_have_one_entry;

/// Five files stand for at most one base.
pub fn one_base_at_most()
    ensures { (files : Files) (one other : Plain) → StandsFor one files → StandsFor other files → one ≡ other }
{
    one_list_at_most();
    records_have_one_entry();
}

/// A core whose content is its opening after its history has an entry for each version since the opening. An accepted entry
/// is that of the version that the edit answers. A feed gives each version behind its own with that version's entry, and so
/// many of them as there are, or as may be.
pub fn each_version_has_its_entry<D: Disk>()
    ensures counted { (core : CoreState D) → after core.opening core.history ≡ Ok core.content → IsCounted core }
    ensures placed { (old new : CoreState D) (entry : Entry) (version : ℕ) → Edited old new entry (Ok version) → IsCounted old → entry_at new version ≡ Some entry }
    ensures given { (core : CoreState D) (from most : ℕ) (feed : Feed) → Fed core from most (Ok feed) → (at : ℕ) (entry : Entry) → slice_get feed.entries at ≡ Some entry → entry_at core (feed.first + at) ≡ Some entry }
    ensures fed { (core : CoreState D) (from most : ℕ) (feed : Feed) → Fed core from most (Ok feed) → IsCounted core → length feed.entries ≡ min most (core.content.version - from) }
{}
