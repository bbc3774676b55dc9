// The trait of disks.
ghost use Rattle.std.specs.Prelude.{◌≡◌, ◌+◌, ◌≤◌, ◌<◌, ◌^◌, ℕ, Bool, true, false, length, take, drop, is_err, IfOk, OnOk, MatchResult};
ghost use Rattle.sea_faults.specs.Counts.{HasCause};
ghost use Rattle.sea_faults.specs.Plans.{AreNext};
ghost use Rattle.sea_disk.specs.Shown.{Shown, IsDisk, IsSettled};
ghost use Rattle.sea_disk.specs.Calls.{overlaid, Torn, Cut, Turns, Rests};

use crate::file::File;
use sea_faults::Failed;

/// A disk of five files, whose unsynced bytes may come out of a stop as anything.
pub trait Disk {
    /// Whether the disk tells its content: a type that something is in, or none.
    ghost told: { Type 0 };

    /// What the disk shows, where it tells its content.
    ghost shows: { Self → Shown };

    /// How many calls have failed.
    ghost faults: { Self → ℕ };

    /// How many writing calls have failed.
    ghost failed: { Self → ℕ };

    /// Which of the calls to come are known to fail, by their places from 0 on.
    ghost due: { Self → ℕ → Bool };

    /// How the disk itself goes on with one call, by whether that failed, beside what it shows.
    ghost steps: { Self → Self → Bool → Type 0 };

    /// How many bytes a file has.
    fn size(&mut self, file: File) -> Result<u64, Failed>
        ensures size { told → IfOk result (λ n. n ≡ length ((shows self.old).seen file)) }
        ensures rests { told → Rests (shows self.old) (shows self.new) }
        ensures faults { HasCause result (faults self.old) (faults self.new) }
        ensures failed { failed self.new ≡ failed self.old }
        ensures fails { due self.old 0 ≡ true → is_err result ≡ true }
        ensures passes { told → due self.old 0 ≡ false → is_err result ≡ false }
        ensures next { AreNext (due self.old) (due self.new) }
        ensures steps { steps self.old self.new (is_err result) };

    /// Reads the bytes from a place on, as many as `into` has.
    fn read(&mut self, file: File, at: u64, into: &mut [u8]) -> Result<(), Failed>
        requires { told → at + length into.old ≤ length ((shows self.old).seen file) }
        ensures read { told → OnOk result (into.new ≡ take (length into.old) (drop at ((shows self.old).seen file))) }
        ensures rests { told → Rests (shows self.old) (shows self.new) }
        ensures faults { HasCause result (faults self.old) (faults self.new) }
        ensures failed { failed self.new ≡ failed self.old }
        ensures fails { due self.old 0 ≡ true → is_err result ≡ true }
        ensures passes { told → due self.old 0 ≡ false → is_err result ≡ false }
        ensures next { AreNext (due self.old) (due self.new) }
        ensures steps { steps self.old self.new (is_err result) };

    /// Writes bytes from a place on. Zeros stand between the old end and that place.
    fn write_at(&mut self, file: File, at: u64, bytes: &[u8]) -> Result<(), Failed>
        ensures written { told → MatchResult result
            (λ _. (shows self.new).seen file ≡ overlaid ((shows self.old).seen file) at bytes.now)
            (λ _. Torn at (length bytes.now) ((shows self.old).seen file) ((shows self.new).seen file)) }
        ensures turns { told → Turns file (Torn at (length bytes.now)) (shows self.old) (shows self.new) }
        ensures faults { HasCause result (faults self.old) (faults self.new) }
        ensures failed { HasCause result (failed self.old) (failed self.new) }
        ensures fails { due self.old 0 ≡ true → is_err result ≡ true }
        ensures keeps { told → due self.old 0 ≡ true → (shows self.new).seen file ≡ (shows self.old).seen file }
        ensures next { AreNext (due self.old) (due self.new) }
        ensures steps { steps self.old self.new (is_err result) };

    /// Cuts a file to a length.
    fn cut(&mut self, file: File, len: u64) -> Result<(), Failed>
        requires { told → len ≤ length ((shows self.old).seen file) }
        ensures cut { told → MatchResult result
            (λ _. (shows self.new).seen file ≡ take len ((shows self.old).seen file))
            (λ _. Cut len ((shows self.old).seen file) ((shows self.new).seen file)) }
        ensures turns { told → Turns file (Cut len) (shows self.old) (shows self.new) }
        ensures faults { HasCause result (faults self.old) (faults self.new) }
        ensures failed { HasCause result (failed self.old) (failed self.new) }
        ensures fails { due self.old 0 ≡ true → is_err result ≡ true }
        ensures keeps { told → due self.old 0 ≡ true → (shows self.new).seen file ≡ (shows self.old).seen file }
        ensures next { AreNext (due self.old) (due self.new) }
        ensures steps { steps self.old self.new (is_err result) };

    /// Makes what was written to a file safe: a stop from here on leaves it as reads give it.
    fn sync(&mut self, file: File) -> Result<(), Failed>
        ensures settled { told → OnOk result (IsSettled (shows self.new) file) }
        ensures seen { told → (shows self.new).seen file ≡ (shows self.old).seen file }
        ensures turns { told → Turns file (λ old new. new ≡ old) (shows self.old) (shows self.new) }
        ensures faults { HasCause result (faults self.old) (faults self.new) }
        ensures failed { HasCause result (failed self.old) (failed self.new) }
        ensures fails { due self.old 0 ≡ true → is_err result ≡ true }
        ensures next { AreNext (due self.old) (due self.new) }
        ensures steps { steps self.old self.new (is_err result) };

    /// The count of all faults, which stands still at 2^64 - 1.
    fn faults(&self) -> u64
        ensures { result ≡ faults self.now };

    /// What holds of every disk.
    ghost sound: { (disk : Self) → IsDisk (shows disk) };
}
