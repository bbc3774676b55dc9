// The writing calls of a disk in memory, and what a file is after them.
ghost use Rattle.std.specs.Prelude.{◌≡◌, ◌≤◌, ◌++◌, ◌∷◌, [], length, map, take, IfOk, OnOk, OnErr};
ghost use Rattle.std.specs.List.{list_any, range_with_len};
ghost use Rattle.sea_disk.specs.Traced.{is_file as is_file_of, noted, traced, track_of, fresh, left_by, largest, safe_or_one, touches};

use crate::bytes::FileBytes;
use crate::file::File;
use sqlite_items::Items;
use std::alloc::{AllocError, Global};

/// What a writing call did to its file.
#[derive(Drop)]
pub enum Act {
    /// It wrote bytes from a place on.
    Write { at: u64, bytes: Items<u8> },
    /// It failed to write from a place on, up to before another.
    FailedWrite { at: u64, to: u64 },
    /// It cut the file to a length.
    Cut { len: u64 },
    /// It failed to cut the file to a length.
    FailedCut { len: u64 },
    /// It made the file safe.
    Sync,
}

/// A writing call.
#[derive(Drop)]
pub struct Call {
    pub file: File,
    pub act: Act,
}

/// A write or cut since the last good sync: the places that it may have touched, from the first to before the second,
/// and the sizes that it may have left, from the least to the most.
#[derive(Clone, Copy)]
pub struct Note {
    pub from: u64,
    pub to: u64,
    pub least: u64,
    pub most: u64,
}

/// A file after some calls: the bytes that reads give, those that the last good sync made safe, and the writes and
/// cuts since.
#[derive(Drop)]
pub struct Track {
    pub seen: FileBytes,
    pub safe: FileBytes,
    pub since: Items<Note>,
}

impl Track {
    /// An empty file that no call was made on.
    pub fn new(alloc: Global) -> Track
        ensures { result ≡ fresh }
    {
        Track {
            seen: FileBytes::new(alloc),
            safe: FileBytes::new(alloc),
            since: Items::new(alloc),
        }
    }

    /// The file after the calls on it.
    pub fn after(alloc: Global, calls: &[Call], file: File) -> Result<Track, AllocError>
        ensures { IfOk result (λ track. track ≡ track_of calls.now file) }
    {
        let mut track = Track::new(alloc);
        for call in calls {
            if is_file(call.file, file) {
                track.trace(alloc, &call.act)?;
            }
        }
        Ok(track)
    }

    // The file after one call more.
    fn trace(&mut self, alloc: Global, act: &Act) -> Result<(), AllocError>
        ensures { OnOk result (self.new ≡ traced self.old act.now) }
    {
        match act {
            Act::Write { at, bytes } => self.write(*at, bytes.as_slice()),
            Act::FailedWrite { at, to } => self.fail_write(*at, *to),
            Act::Cut { len } => self.cut(*len),
            Act::FailedCut { len } => self.fail_cut(*len),
            Act::Sync => self.sync(alloc),
        }
    }
}

impl Track {
    // One call more, which may have touched these places and left these sizes.
    fn note(&mut self, from: u64, to: u64, least: u64, most: u64) -> Result<(), AllocError>
        ensures { OnOk result (self.new ≡ noted self.old self.old.seen (record { from = from; to = to; least = least; most = most })) }
    {
        self.since.push(Note {
            from,
            to,
            least,
            most,
        })
    }

    fn size(&self) -> u64
        ensures { result ≡ length self.now.seen }
    {
        self.seen.as_slice().len() as u64
    }

    fn write(&mut self, at: u64, bytes: &[u8]) -> Result<(), AllocError>
        ensures { OnOk result (self.new ≡ traced self.old (Act.Write at bytes.now)) }
    {
        self.seen.overlay(at, bytes)?;
        let size = self.size();
        self.note(at, at + bytes.len() as u64, size, size)
    }

    fn fail_write(&mut self, at: u64, to: u64) -> Result<(), AllocError>
        ensures { OnOk result (self.new ≡ traced self.old (Act.FailedWrite at to)) }
    {
        let size = self.size();
        self.note(at, to, size, size.max(to))
    }

    fn cut(&mut self, len: u64) -> Result<(), AllocError>
        ensures { OnOk result (self.new ≡ traced self.old (Act.Cut len)) }
    {
        let before = self.size();
        self.seen.cut(len);
        let size = self.size();
        self.note(len, before, size, size)
    }

    fn fail_cut(&mut self, len: u64) -> Result<(), AllocError>
        ensures { OnOk result (self.new ≡ traced self.old (Act.FailedCut len)) }
    {
        let size = self.size();
        self.note(len, size, size.min(len), size)
    }

    fn sync(&mut self, alloc: Global) -> Result<(), AllocError>
        ensures { OnOk result (self.new ≡ traced self.old Act.Sync) }
    {
        self.safe = self.seen.copy(alloc)?;
        self.since = Items::new(alloc);
        Ok(())
    }
}

impl Track {
    /// What a stop leaves by choice: with 0 nothing since the last good sync, with 1 everything, and with any other
    /// number the largest size with a 1 for each byte that isn't safe.
    pub fn left_by(&self, alloc: Global, choice: u8) -> Result<FileBytes, AllocError>
        ensures { IfOk result (λ bytes. bytes ≡ left_by choice self.now) }
    {
        match choice {
            0 => self.safe.copy(alloc),
            1 => self.seen.copy(alloc),
            _ => self.ones(alloc),
        }
    }

    // The largest size with a 1 for each byte that isn't safe.
    fn ones(&self, alloc: Global) -> Result<FileBytes, AllocError>
        ensures { IfOk result (λ bytes. bytes ≡ map (safe_or_one self.now) (range_with_len 0 (largest self.now))) }
    {
        let size = self.largest() as usize;
        let mut bytes = Vec::with_capacity(alloc, size)?;
        for place in 0..size {
            bytes.push(self.safe_or_one(place))?;
        }
        Ok(FileBytes::from(bytes))
    }

    // The largest size that a stop may leave.
    fn largest(&self) -> u64
        ensures { result ≡ largest self.now }
    {
        let mut size = self.safe.as_slice().len() as u64;
        for note in self.since.as_slice() {
            size = size.max(note.most);
        }
        size
    }

    // The byte that is safe at a place, or 1.
    fn safe_or_one(&self, place: usize) -> u8
        ensures { result ≡ safe_or_one self.now place }
    {
        let safe = self.safe.as_slice();
        if place < safe.len() && !is_touched(self.since.as_slice(), place as u64) {
            safe[place]
        } else {
            1
        }
    }
}

// A call may have touched this place.
fn is_touched(notes: &[Note], place: u64) -> bool
    ensures { result ≡ list_any (touches place) notes.now }
{
    notes
        .iter()
        .any(|note| note.from <= place && place < note.to)
}

// The two files are one.
fn is_file(one: File, other: File) -> bool
    ensures { result ≡ is_file_of one other }
{
    matches!(
        (one, other),
        (File::Base0, File::Base0)
            | (File::Base1, File::Base1)
            | (File::Log0, File::Log0)
            | (File::Log1, File::Log1)
            | (File::Arch, File::Arch)
    )
}
