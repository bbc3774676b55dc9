// The traits of the outside: where bytes come from, where they go to, and what time it is.
ghost use Rattle.std.specs.Prelude.{◌≡◌, ◌<◌, ◌≤◌, ℕ, ℤ, List, length, Option, IfOk};
ghost use Rattle.sea_moment.specs.Moment.{IsMoment};
ghost use Rattle.sea_faults.specs.Counts.{HasCause};
ghost use Rattle.sea_edge.specs.Bytes.{Takes, Gives};
ghost use Rattle.sea_edge.specs.Minutes.{Tells};

use sea_faults::Failed;

/// Where bytes come from.
pub trait Source {
    /// The bytes that are left, where the source tells them.
    ghost left: { Self → Option (List ℕ) };

    /// How many takes have failed.
    ghost faults: { Self → ℕ };

    /// Places the next bytes at the front of `into`, and answers how many. Zero is the end of the input.
    fn take(&mut self, into: &mut [u8]) -> Result<usize, Failed>
        requires { 0 < length into.old }
        ensures bound { IfOk result (λ count. count ≤ length into.new) }
        ensures bytes { Takes (left self.old) (left self.new) result into.new }
        ensures cause { HasCause result (faults self.old) (faults self.new) };
}

/// Where bytes go to.
pub trait Sink {
    /// The bytes taken so far, where the sink tells them.
    ghost taken: { Self → Option (List ℕ) };

    /// How many gives have failed.
    ghost faults: { Self → ℕ };

    /// Appends the whole piece. Where it fails, it has appended some front of the piece.
    fn give(&mut self, piece: &[u8]) -> Result<(), Failed>
        ensures bytes { Gives (taken self.old) (taken self.new) result piece.now }
        ensures cause { HasCause result (faults self.old) (faults self.new) };
}

/// A clock of whole minutes from 1970-01-01 00:00 UTC, within the years 1 to 9999. It has no faults.
pub trait Clock {
    /// The one answer of a clock that tells it beforehand.
    ghost told: { Self → Option ℤ };

    /// The minutes now.
    fn minutes(&mut self) -> i64
        ensures moment { IsMoment result }
        ensures answer { Tells (told self.old) result }
        ensures same { told self.new ≡ told self.old };

    /// Another clock of the same told answers.
    fn twin(&self) -> Self
        ensures { told result ≡ told self.now };
}
