// Which lines and runs are bad.
use crate::bytes::is_hexadecimal;
use crate::files::file_named;
use crate::lines::{cut, has, has_two, is_nothing, number, signed};
use crate::outside::log_bytes;
use crate::verdict::status_named;
use sea_moment::is_moment;

// The sweeps.
const SWEEPS: &str = "@faults @stops @starts";

// What a run may have once.
const ONCE: &str = "@ends @stop @words @no_folder @limit @minutes @pieces @reopened";

// What a run that is swept has none of.
const NOT_SWEPT: &str =
    "@want @wants @reopened @words @no_folder @take_fails @give_fails @call_fails @fails_here @stop @file @size @holds";

/// What is bad in a run.
pub fn bad_run(run: &str) -> Option<&str> {
    if let Some(line) = bad_line(run) {
        return Some(line);
    }
    if let Some(name) = standing_twice(run) {
        return Some(name);
    }
    if has(run, "@words") && has(run, "@limit") {
        return Some("@limit beside @words");
    }
    if has(run, "@no_folder") && !has(run, "@words") {
        return Some("@no_folder without @words");
    }
    None
}

// The first line that is none.
fn bad_line(run: &str) -> Option<&str> {
    for line in run.split('\n') {
        if !is_line(line) {
            return Some(line);
        }
    }
    None
}

// The first line of what a run may have once, where it stands twice.
fn standing_twice(run: &str) -> Option<&str> {
    for line in run.split('\n') {
        let (name, _) = cut(line);
        if is_among(name, ONCE) && has_two(run, name) {
            return Some(line);
        }
    }
    None
}

/// A case has a sweep.
pub fn is_swept(case: &str) -> bool {
    for line in case.split('\n').skip(1) {
        if is_among(cut(line).0, SWEEPS) {
            return true;
        }
    }
    false
}

/// The first line that no run has that is swept.
pub fn swept_badly(run: &str) -> Option<&str> {
    if has(run, "@starts") && has(run, "@ends") {
        return Some("@ends beside @starts");
    }
    for line in run.split('\n') {
        if !may_be_swept(line) {
            return Some(line);
        }
    }
    None
}

fn may_be_swept(line: &str) -> bool {
    if line.starts_with("@then") {
        return false;
    }
    if is_nothing(line) || line.starts_with('@') {
        return !is_among(cut(line).0, NOT_SWEPT);
    }
    !line.contains(" -> ")
}

// A name is one of several.
fn is_among(name: &str, names: &str) -> bool {
    for one in names.split(' ') {
        if one == name {
            return true;
        }
    }
    false
}

// A line is one of the language.
fn is_line(line: &str) -> bool {
    if !line.starts_with('@') {
        return line != "case" && !line.ends_with(" -> ");
    }
    let (name, rest) = cut(line);
    is_of_script(name, rest) || is_of_run(name, rest) || is_of_disk(name, rest)
}

// A directive of what is played and wanted.
fn is_of_script(name: &str, rest: &str) -> bool {
    match name {
        "@text" | "@words" => true,
        "@want" => !rest.is_empty(),
        "@reopened" | "@no_folder" => rest.is_empty(),
        "@repeat" | "@wants" => at_least(cut(rest).0, 1) && !cut(rest).1.is_empty(),
        "@ends" => status_named(rest).is_some(),
        _ => false,
    }
}

// A directive of the outside and of single faults.
fn is_of_run(name: &str, rest: &str) -> bool {
    match name {
        "@limit" => log_bytes(rest).is_some(),
        "@minutes" => is_minutes(rest),
        "@stop" => number(rest).is_some(),
        "@pieces" | "@take_fails" | "@give_fails" | "@call_fails" | "@fails_here" => at_least(
            rest, 1,
        ),
        _ => false,
    }
}

// A directive of the files and of sweeps.
fn is_of_disk(name: &str, rest: &str) -> bool {
    match name {
        "@file" => is_put(rest),
        "@size" => is_size(rest),
        "@holds" => is_held(rest),
        "@faults" => at_least(rest, 2),
        "@stops" => at_least(rest, 1),
        "@starts" => span_of(rest).is_some(),
        _ => false,
    }
}

fn at_least(text: &str, least: u64) -> bool {
    match number(text) {
        Some(number) => least <= number,
        None => false,
    }
}

fn is_minutes(text: &str) -> bool {
    match signed(text) {
        Some(minutes) => is_moment(minutes),
        None => false,
    }
}

fn is_put(rest: &str) -> bool {
    let (name, bytes) = cut(rest);
    file_named(name).is_some() && is_hexadecimal(bytes)
}

fn is_size(rest: &str) -> bool {
    let (name, size) = cut(rest);
    file_named(name).is_some() && number(size).is_some()
}

fn is_held(rest: &str) -> bool {
    let (name, rest) = cut(rest);
    let (at, bytes) = cut(rest);
    file_named(name).is_some() && number(at).is_some() && is_hexadecimal(bytes)
}

/// The stops of a sweep of starts, from the first to before the second, and before which number the starts are stopped.
pub fn span_of(rest: &str) -> Option<(u64, u64, u64)> {
    let (span, below) = rest.split_once(' ')?;
    let (from, to) = span.split_once("..")?;
    let (from, to, below) = (number(from)?, number(to)?, number(below)?);
    if from < to && 0 < below {
        Some((from, to, below))
    } else {
        None
    }
}
