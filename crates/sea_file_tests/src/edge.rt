// Sources and sinks in memory whose calls are to fail; and sources, sinks and clocks over readers, writers and system
// clocks that fail.
ghost use Rattle.std.specs.Prelude.{◌<◌, length};

use sea_edge::{
    Clock, Failed, FixedClock, MemSink, MemSource, Sink, Source, StdSink, StdSource, SystemClock,
};
use std::alloc::{AllocError, Global};
use std::io;
use std::io::{Cursor, ErrorKind, Read, Write};
use std::process::Abort;
use std::rt::Clock as RuntimeClock;
use std::test::Fail;
use std::time::Duration;

// Takes all that a source has, and gives each piece, a failed one once more. Answers how many calls failed.
fn carry<S: Source, K: Sink>(source: &mut S, sink: &mut K, room: &mut [u8]) -> u64
    requires { 0 < length room.old }
{
    let mut faults = 0u64;
    for _ in 0..1_000 {
        let Ok(count) = source.take(room) else {
            faults = faults.saturating_add(1);
            continue;
        };
        if count == 0 {
            break;
        }
        for _ in 0..2 {
            if sink.give(&room[..count]).is_ok() {
                break;
            }
            faults = faults.saturating_add(1);
        }
    }
    faults
}

// Bytes that each differ from those beside them.
fn bytes_of(alloc: Global, count: u32) -> Result<Vec<u8>, AllocError> {
    let mut bytes = Vec::new(alloc);
    for at in 0..count {
        bytes.push((at % 251) as u8)?;
    }
    Ok(bytes)
}

// Carries 257 bytes past a take and a give that fail, the second of each, and stops a test where a byte is lost or doubled,
// or a call more or less is made than one for each piece, one for each fault, and the take that finds the end.
fn carries(rt: &impl Abort, alloc: Global, piece: usize, pieces: u64) -> Result<(), Fail> {
    let all = bytes_of(alloc, 257)?;
    let mut room = [0u8; 120];
    assert!(rt; 0 < piece);
    let mut source = MemSource::new(all.clone()?, piece, vec![in alloc; 2u64]?);
    let mut sink = MemSink::new(Vec::new(alloc), vec![in alloc; 2u64]?);
    assert_eq!(rt;
        carry(&mut source, &mut sink, &mut room),
        2,
        "in pieces of {piece}"
    );
    assert!(rt; sink.taken == all, "in pieces of {piece}");
    let (takes, gives) = (pieces.saturating_add(2), pieces.saturating_add(1));
    assert_eq!(rt;
        (source.plan.made, source.failed),
        (takes, 1),
        "in pieces of {piece}"
    );
    assert_eq!(rt;
        (sink.plan.made, sink.failed),
        (gives, 1),
        "in pieces of {piece}"
    );
    Ok(())
}

// The most bytes of a take, and in how many pieces 257 bytes come.
const PIECES: &str = "1 257
7 37
100 3";

#[test]
fn all_is_carried_past_two_faults_in_memory(rt: HostRuntime) -> Result<(), Fail> {
    for row in PIECES.lines() {
        let (piece, pieces) = row.split_once(' ').unwrap_or(("", ""));
        let piece: usize = piece.parse().unwrap_or(0);
        let pieces: u64 = pieces.parse().unwrap_or(0);
        carries(&rt, rt.alloc(), piece, pieces)?;
    }
    Ok(())
}

#[test]
fn a_listed_call_in_memory_moves_nothing(rt: HostRuntime) -> Result<(), Fail> {
    let alloc = rt.alloc();
    let mut source = MemSource::new(
        Vec::from_slice(alloc, b"abcde")?,
        3,
        vec![in alloc; 1u64, 3]?,
    );
    let mut room = [b'.'; 4];
    assert_eq!(rt; (source.take(&mut room), room), (Err(Failed), *b"...."));
    assert_eq!(rt; (source.take(&mut room), room), (Ok(3), *b"abc."));
    assert_eq!(rt; (source.take(&mut room), room), (Err(Failed), *b"abc."));
    assert_eq!(rt; (source.take(&mut room), room), (Ok(2), *b"dec."));
    assert_eq!(rt; (source.take(&mut room), room), (Ok(0), *b"dec."));
    let mut sink = MemSink::new(Vec::from_slice(alloc, &[0])?, vec![in alloc; 1u64]?);
    assert_eq!(rt; sink.give(&[7]), Err(Failed));
    assert_eq!(rt; sink.taken.as_slice(), [0].as_slice());
    assert_eq!(rt; sink.give(&[7, 8]), Ok(()));
    assert_eq!(rt; sink.taken.as_slice(), [0, 7, 8].as_slice());
    Ok(())
}

// A reader and a writer that break at one call each. The writer takes three bytes a call.
#[derive(Drop)]
struct Wire {
    bytes: Cursor<Vec<u8>>,
    calls: u64,
    breaks: u64,
    sent: Vec<u8>,
    flushed: usize,
    flushes: u64,
    stuck: u64,
}

impl Wire {
    fn new(alloc: Global, bytes: &[u8], breaks: u64, stuck: u64) -> Result<Wire, AllocError> {
        Ok(Wire {
            bytes: Cursor::new(Vec::from_slice(alloc, bytes)?),
            calls: 0,
            breaks,
            sent: Vec::new(alloc),
            flushed: 0,
            flushes: 0,
            stuck,
        })
    }

    fn step(&mut self) -> io::Result<()> {
        self.calls = self.calls.saturating_add(1);
        if self.calls == self.breaks {
            return Err(ErrorKind::BrokenPipe.into());
        }
        Ok(())
    }
}

impl Read for Wire {
    fn read(&mut self, buf: &mut [u8]) -> io::Result<usize> {
        self.step()?;
        self.bytes.read(buf)
    }
}

impl Write for Wire {
    fn write(&mut self, buf: &[u8]) -> io::Result<usize> {
        self.step()?;
        let count = buf.len().min(3);
        self.sent.extend_from_slice(&buf[..count])?;
        Ok(count)
    }

    fn flush(&mut self) -> io::Result<()> {
        self.flushes = self.flushes.saturating_add(1);
        if self.flushes == self.stuck {
            return Err(ErrorKind::BrokenPipe.into());
        }
        self.flushed = self.sent.len();
        Ok(())
    }
}

#[test]
fn a_broken_read_is_counted_and_loses_nothing(rt: HostRuntime) -> Result<(), Fail> {
    let mut source = StdSource::new(Wire::new(rt.alloc(), b"five of nine", 2, 0)?);
    let mut room = [b'.'; 8];
    assert_eq!(rt; (source.take(&mut room), room), (Ok(8), *b"five of "));
    assert_eq!(rt; (source.take(&mut room), source.failed), (Err(Failed), 1));
    assert_eq!(rt; (source.take(&mut room), room), (Ok(4), *b"nine of "));
    assert_eq!(rt; (source.take(&mut room), source.failed), (Ok(0), 1));
    Ok(())
}

// Stops a test where a give of five bytes is answered otherwise, or leaves other counts of bytes sent and flushed, and of
// faults.
fn gives(
    rt: &impl Abort,
    sink: &mut StdSink<Wire>,
    answer: Result<(), Failed>,
    sent: usize,
    flushed: usize,
    failed: u64,
) {
    assert_eq!(rt; sink.give(&[1, 2, 3, 4, 5]), answer);
    assert_eq!(rt;
        (sink.writer.sent.len(), sink.writer.flushed, sink.failed),
        (sent, flushed, failed)
    );
}

#[test]
fn each_give_is_flushed_and_its_faults_counted(rt: HostRuntime) -> Result<(), Fail> {
    let mut sink = StdSink::new(Wire::new(rt.alloc(), b"", 4, 3)?);
    // two writes and a flush, then the write that breaks after one, and at last the flush that does
    gives(&rt, &mut sink, Ok(()), 5, 5, 0);
    gives(&rt, &mut sink, Err(Failed), 8, 5, 1);
    gives(&rt, &mut sink, Ok(()), 13, 13, 1);
    gives(&rt, &mut sink, Err(Failed), 18, 13, 2);
    gives(&rt, &mut sink, Ok(()), 23, 23, 2);
    Ok(())
}

// A clock of the system that stands at these seconds, or can't be read.
#[derive(Drop)]
struct Stopped(Option<u64>);

impl RuntimeClock for Stopped {
    fn monotonic(&self) -> io::Result<Duration> {
        self.since_1970()
    }

    fn since_1970(&self) -> io::Result<Duration> {
        match self.0 {
            Some(seconds) => Ok(Duration::from_secs(seconds)),
            None => Err(ErrorKind::Unsupported.into()),
        }
    }
}

fn twice<C: Clock + Drop>(clock: &mut C) -> (i64, i64) {
    let mut twin = clock.twin();
    (clock.minutes(), twin.minutes())
}

// Seconds of a clock, or none where it can't be read, and the minutes that it tells.
const TIMES: &str = "none 0
0 0
59 0
60 1
1704067230 28401120
253402300799 4223371679
253402300800 4223371679
18446744073709551615 4223371679";

#[test]
fn clocks_and_their_twins(rt: HostRuntime) {
    for row in TIMES.lines() {
        let (seconds, minutes) = row.split_once(' ').unwrap_or(("", ""));
        let stopped = Stopped(seconds.parse().ok());
        let minutes: i64 = minutes.parse().unwrap_or(-2);
        let mut clock = SystemClock::new(&stopped);
        assert_eq!(rt; twice(&mut clock), (minutes, minutes), "at {seconds}");
    }
    assert_eq!(rt; twice(&mut FixedClock::new(-1)), (-1, -1));
    let (now, then) = twice(&mut SystemClock::new(&rt));
    assert!(rt; 28_401_120 < now && now <= then);
}
