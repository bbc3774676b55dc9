// All the cases of an input.
ghost use Rattle.std.specs.Prelude.{◌<◌};

use crate::case;
use sea_edge::{Sink, Source, StdSink, StdSource};
use std::alloc::{AllocError, Global};
use std::io::{Read, Write};
use std::str;

/// How the cases ended.
#[derive(Clone, Copy)]
pub enum Ending {
    /// All came out as wanted.
    Ok,
    /// Something differed.
    Differs,
    /// The input can't be read, or is no text.
    Unread,
    /// The output can't be written.
    Unwritten,
}

/// Plays all cases that a reader gives, and writes a line for each.
pub fn play<R: Read + Drop, W: Write + Drop>(
    alloc: Global,
    reader: R,
    writer: W,
) -> Result<Ending, AllocError> {
    let mut source = StdSource::new(reader);
    let mut sink = StdSink::new(writer);
    let Some(input) = input(alloc, &mut source)? else {
        return Ok(Ending::Unread);
    };
    match str::from_utf8(input.as_slice()) {
        Ok(text) => told(alloc, text, &mut sink),
        Err(_) => Ok(Ending::Unread),
    }
}

// All that a source gives, behind a line end, so that each case begins behind one. None where the source fails.
fn input<S: Source>(alloc: Global, source: &mut S) -> Result<Option<Vec<u8>>, AllocError> {
    let mut bytes = Vec::from_slice(alloc, b"\n")?;
    let mut piece = [0; 4_096];
    for _ in 0..u64::MAX {
        let Ok(count) = source.take(&mut piece) else {
            return Ok(None);
        };
        if count == 0 {
            break;
        }
        bytes.extend_from_slice(&piece[..count])?;
    }
    Ok(Some(bytes))
}

// Plays each case of a text, and tells what came of it.
fn told<K: Sink>(alloc: Global, text: &str, sink: &mut K) -> Result<Ending, AllocError> {
    let mut cases = text.split("\ncase ");
    let mut ending = match case::before(alloc, cases.next().unwrap_or(""))? {
        Some(line) => give(sink, line.as_str(), Ending::Differs),
        None => Ending::Ok,
    };
    for case in cases {
        ending = joined(ending, one(alloc, case, sink)?);
    }
    Ok(ending)
}

// Plays a case, and tells what came of it.
fn one<K: Sink>(alloc: Global, case: &str, sink: &mut K) -> Result<Ending, AllocError> {
    let title = case::title(case);
    match case::differs(alloc, case)? {
        None => {
            let line = format!(in alloc; "ok {title}\n")?;
            Ok(give(sink, line.as_str(), Ending::Ok))
        }
        Some(what) => {
            let line = format!(in alloc; "{title}: {what}\n")?;
            Ok(give(sink, line.as_str(), Ending::Differs))
        }
    }
}

// Writes a line.
fn give<K: Sink>(sink: &mut K, line: &str, ending: Ending) -> Ending {
    match sink.give(line.as_bytes()) {
        Ok(()) => ending,
        Err(_) => Ending::Unwritten,
    }
}

// The worse of two endings.
fn joined(one: Ending, other: Ending) -> Ending {
    match (one, other) {
        (Ending::Unwritten, _) | (_, Ending::Unwritten) => Ending::Unwritten,
        (Ending::Ok, Ending::Ok) => Ending::Ok,
        _ => Ending::Differs,
    }
}
