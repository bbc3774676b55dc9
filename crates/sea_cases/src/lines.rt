// The lines of a run, and what stands on them.

/// What stands behind a directive's name, where the line is that directive's.
pub fn behind<'a>(line: &'a str, name: &str) -> Option<&'a str> {
    let rest = line.strip_prefix(name)?;
    if rest.is_empty() {
        return Some(rest);
    }
    rest.strip_prefix(' ')
}

/// What stands behind the first directive of a name in a run.
pub fn first<'a>(run: &'a str, name: &str) -> Option<&'a str> {
    for line in run.split('\n') {
        if let Some(rest) = behind(line, name) {
            return Some(rest);
        }
    }
    None
}

/// A run has a directive of a name.
pub fn has(run: &str, name: &str) -> bool {
    first(run, name).is_some()
}

/// A run has two directives of a name.
pub fn has_two(run: &str, name: &str) -> bool {
    let mut found = false;
    for line in run.split('\n') {
        if behind(line, name).is_some() {
            if found {
                return true;
            }
            found = true;
        }
    }
    false
}

/// The first word of a text, and what stands behind the blank after it.
pub fn cut(text: &str) -> (&str, &str) {
    match text.split_once(' ') {
        Some(halves) => halves,
        None => (text, ""),
    }
}

/// The number that a text is, in decimal digits alone.
pub fn number(text: &str) -> Option<u64> {
    let first = text.as_bytes().first()?;
    if !first.is_ascii_digit() {
        return None;
    }
    text.parse::<u64>().ok()
}

/// The whole number that a text is, which may be negative.
pub fn signed(text: &str) -> Option<i64> {
    if text.starts_with('+') {
        return None;
    }
    text.parse::<i64>().ok()
}

/// The line is no directive, and says nothing.
pub fn is_nothing(line: &str) -> bool {
    line.is_empty() || line.starts_with("//")
}
