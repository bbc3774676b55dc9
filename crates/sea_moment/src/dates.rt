//! Moments as texts, both ways.
ghost use Rattle.std.specs.Prelude.{◌≡◌, ℤ, ◌+◌, ◌<◌, ◌≤◌, ◌++◌, length, Some, IsTrue, IfOk, IfSome, OnOk, string_bytes, option_map};
ghost use Rattle.std.specs.List.{list_all, zip};
ghost use Rattle.jiff_core.specs.Date.{epoch_day};
ghost use Rattle.jiff_fmt.specs.Text.{pad2};
ghost use Rattle.sea_moment.specs.Moment.{IsMoment};
ghost use Rattle.sea_moment.specs.Dates.{IsDayNumber, clock_text, day_in, day_number_of, day_text, has_form_of, is_as_asked, minute_in, minute_of_day, moment_at, moment_of, moment_text, number_in, timed_moment_of};

use crate::nearest;
use jiff_core::civil::Date;
use jiff_fmt::temporal::DateTimePrinter;
use std::alloc::{AllocError, Global};

/// The minutes of a day.
const DAY: i64 = 1_440;

/// The bytes of the longest text, `YYYY-MM-DD HH:MM`.
const LONGEST: usize = 16;

/// The moment that a text says, in minutes from 1970-01-01 00:00 UTC, or None where it says none.
///
/// A text says one as `YYYY-MM-DD`, which is that day's 00:00, or as `YYYY-MM-DD HH:MM` with one space or a `T` between
/// the two: a day that the calendar of ISO 8601 has in the years 1 to 9999, and a time from 00:00 to 23:59
/// (docs/formats.md). It takes no memory.
#[tactic(auto, unfolding(crate::specs::Dates::moment_of))]
pub fn moment_of_text(text: &str) -> Option<i64>
    ensures said { result ≡ moment_of text.now }
    ensures range { IfSome result IsMoment }
{
    let text = text.as_bytes();
    if has_form(text, "0000-00-00") {
        return said_midnight(text);
    }
    if has_form(text, "0000-00-00 00:00") || has_form(text, "0000-00-00T00:00") {
        return said_time(text);
    }
    None
}

/// How a moment is shown, from its minutes from 1970-01-01 00:00 UTC: as `YYYY-MM-DD HH:MM`, and at midnight as
/// `YYYY-MM-DD` (docs/formats.md). A number of minutes beyond the range is shown as the nearer end of it.
///
/// The error says that there was no memory.
#[tactic(auto, unfolding(crate::specs::Dates::moment_text, crate::specs::Dates::nearest_of))]
pub fn text_of_moment(alloc: Global, minutes: i64) -> Result<String, AllocError>
    ensures { IfOk result (λ text. string_bytes text ≡ moment_text minutes) }
{
    let moment = nearest(minutes);
    let mut text = String::with_capacity(alloc, LONGEST)?;
    push_day(&mut text, moment.div_euclid(DAY))?;
    push_clock(&mut text, moment.rem_euclid(DAY) as u32)?;
    Ok(text)
}

/// A moment is what its text says.
pub fn shown_moments_are_read_again()
    ensures { (minutes : ℤ) → IsMoment minutes → moment_of (moment_text minutes) ≡ Some minutes }
{}

// ---- what texts say

#[tactic(auto, unfolding(crate::specs::Dates::has_form_of))]
fn has_form(text: &[u8], pattern: &str) -> bool
    ensures test { result ≡ has_form_of text.now pattern.now }
    ensures len { IsTrue result → length text.now ≡ length pattern.now }
{
    let pattern = pattern.as_bytes();
    text.len() == pattern.len() && all_as_asked(text, pattern)
}

fn all_as_asked(text: &[u8], pattern: &[u8]) -> bool
    ensures { result ≡ list_all (λ pair. is_as_asked pair.0 pair.1) (zip text.now pattern.now) }
{
    text.iter()
        .zip(pattern)
        .all(|(byte, asked)| as_asked(*byte, *asked))
}

fn as_asked(byte: u8, asked: u8) -> bool
    ensures { result ≡ is_as_asked byte asked }
{
    if asked == b'0' {
        byte.is_ascii_digit()
    } else {
        byte == asked
    }
}

fn said_midnight(text: &[u8]) -> Option<i64>
    requires { 10 ≤ length text.now }
    ensures said { result ≡ option_map (λ day. moment_at day 0) (day_in text.now) }
    ensures range { IfSome result IsMoment }
{
    let day = said_day(text)?;
    Some(day * DAY)
}

#[tactic(auto, unfolding(crate::specs::Dates::timed_moment_of))]
fn said_time(text: &[u8]) -> Option<i64>
    requires { 16 ≤ length text.now }
    ensures said { result ≡ timed_moment_of text.now }
    ensures range { IfSome result IsMoment }
{
    let day = said_day(text)?;
    let minute = said_minute(text)?;
    Some(day * DAY + minute as i64)
}

#[tactic(auto, unfolding(crate::specs::Dates::day_in))]
fn said_day(text: &[u8]) -> Option<i64>
    requires { 10 ≤ length text.now }
    ensures said { result ≡ day_in text.now }
    ensures range { IfSome result IsDayNumber }
{
    let year = 100 * number_at(text, 0) + number_at(text, 2);
    day_number(year, number_at(text, 5), number_at(text, 8))
}

#[tactic(auto, unfolding(crate::specs::Dates::minute_in))]
fn said_minute(text: &[u8]) -> Option<u32>
    requires { 16 ≤ length text.now }
    ensures said { result ≡ minute_in text.now }
    ensures range { IfSome result (λ minute. minute < 1_440) }
{
    minute_number(number_at(text, 11), number_at(text, 14))
}

// Two digits as a number. A byte below `0` counts as 0, so that any bytes may be asked for.
#[tactic(auto, unfolding(crate::specs::Dates::number_in))]
fn number_at(text: &[u8], place: usize) -> u32
    requires { place + 1 < length text.now }
    ensures value { result ≡ number_in text.now place }
    ensures bound { result < 2_278 }
{
    let tens = text[place].saturating_sub(b'0') as u32;
    let ones = text[place + 1].saturating_sub(b'0') as u32;
    10 * tens + ones
}

#[tactic(auto, unfolding(crate::specs::Dates::day_number_of, crate::specs::Dates::is_day))]
fn day_number(year: u32, month: u32, day: u32) -> Option<i64>
    ensures value { result ≡ day_number_of year month day }
    ensures range { IfSome result IsDayNumber }
{
    // Up to these the numbers fit the calendar's types; it knows the months' lengths itself.
    if year < 1 || year > 9_999 || month > 12 || day > 31 {
        return None;
    }
    match Date::new(year as i16, month as i8, day as i8) {
        Ok(date) => Some(date.to_unix_epoch_day() as i64),
        Err(_) => None,
    }
}

#[tactic(auto, unfolding(crate::specs::Dates::minute_of_day))]
fn minute_number(hour: u32, minute: u32) -> Option<u32>
    ensures value { result ≡ minute_of_day hour minute }
    ensures range { IfSome result (λ minute. minute < 1_440) }
{
    if hour >= 24 || minute >= 60 {
        return None;
    }
    Some(60 * hour + minute)
}

// ---- how moments are shown

fn push_day(text: &mut String, day: i64) -> Result<(), AllocError>
    requires { IsDayNumber day }
    ensures { OnOk result (string_bytes text.new ≡ string_bytes text.old ++ day_text day) }
{
    let shown = DateTimePrinter::new().date_text(date_of(day));
    text.push_str(shown.as_str())
}

fn date_of(day: i64) -> Date
    requires { IsDayNumber day }
    ensures { epoch_day result ≡ day }
{
    // -9999-01-01 is the day -4,371,587.
    Date::from_days_since_min((day + 4_371_587) as u32)
}

#[tactic(auto, unfolding(crate::specs::Dates::clock_text))]
fn push_clock(text: &mut String, minute: u32) -> Result<(), AllocError>
    requires { minute < 1_440 }
    ensures { OnOk result (string_bytes text.new ≡ string_bytes text.old ++ clock_text minute) }
{
    if minute == 0 {
        return Ok(());
    }
    text.push(' ')?;
    push_number(text, minute / 60)?;
    text.push(':')?;
    push_number(text, minute % 60)?;
    Ok(())
}

fn push_number(text: &mut String, number: u32) -> Result<(), AllocError>
    requires { number < 100 }
    ensures { OnOk result (string_bytes text.new ≡ string_bytes text.old ++ pad2 number) }
{
    text.push(digit(number / 10))?;
    text.push(digit(number % 10))?;
    Ok(())
}

fn digit(number: u32) -> char
    requires { number < 10 }
    ensures { result ≡ 48 + number }
{
    (b'0' + number as u8) as char
}
