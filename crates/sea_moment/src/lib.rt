//! Moments: minutes from 1970-01-01 00:00 UTC within the years 1 to 9999, and their texts.
//!
//! It stands on the calendar of `jiff_core` and the printer of `jiff_fmt`. The contracts that matter to the crates above
//! are those of `is_moment`, whose definition `IsMoment` is the range, and of `moment_of_text` and `text_of_moment`, whose
//! definitions `moment_of` and `moment_text` say which texts are a moment and how one is shown. That the one reads what
//! the other shows is `shown_moments_are_read_again`.
#![tactic(auto)]

ghost use Rattle.std.specs.Prelude.{◌≡◌, ◌↔◌, ◌≤ℤ◌, IsTrue};
ghost use Rattle.sea_moment.specs.Moment.{first_moment, last_moment, IsMoment, is_in_range};

mod dates;

pub use dates::{moment_of_text, shown_moments_are_read_again, text_of_moment};

/// 0001-01-01 00:00, the first moment, in minutes from 1970-01-01 00:00 UTC.
pub const FIRST: i64 = -1_035_593_280;

/// 9999-12-31 23:59, the last moment, in minutes from 1970-01-01 00:00 UTC.
pub const LAST: i64 = 4_223_371_679;

/// Whether this number of minutes lies in the range, both ends included.
pub fn is_moment(minutes: i64) -> bool
    ensures range { IsTrue result ↔ IsMoment minutes }
    ensures test { result ≡ is_in_range minutes }
{
    FIRST <= minutes && minutes <= LAST
}

/// The moment that lies nearest to a number of minutes: the number itself, or the end that it lies beyond.
pub fn nearest(minutes: i64) -> i64
    ensures moment { IsMoment result }
    ensures same { IsMoment minutes → result ≡ minutes }
    ensures before { minutes ≤ℤ first_moment → result ≡ first_moment }
    ensures after { last_moment ≤ℤ minutes → result ≡ last_moment }
{
    minutes.clamp(FIRST, LAST)
}
