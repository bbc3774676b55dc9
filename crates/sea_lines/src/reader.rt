// The lines of a source, one after another, within the limits on a line and on the input.
ghost use Rattle.std.specs.Prelude.{◌≡◌, ◌≢◌, ◌+◌, ◌-◌, ◌<◌, ◌≤◌, ℕ, List, [], ◌++◌, length, Option, Ok, Err, Some, None, vec_len, option_map, min, IfOk, OnOk, OnErr, IfErr, IfSome, OnSome, ◌⊎◌, nat_lt, ◌==◌, true, false};
ghost use Rattle.std.specs.List.{position_or_len};
ghost use Rattle.sea_lines.specs.Lines.{line_limit, input_limit};
ghost use Rattle.sea_edge.specs.Bytes.{Takes};
ghost use Rattle.sea_faults.specs.Counts.{HasCause, Rose};

use memchr::memchr;
use sea_edge::Source;
use std::alloc::{AllocError, Global};
use thiserror::Error;

/// The most bytes of a line, before its newline.
const LINE_LIMIT: usize = 1_048_576;

/// The most bytes of an input.
const INPUT_LIMIT: u64 = 4_294_967_296;

/// The bytes of a reader's buffer.
const BUFFER_SIZE: usize = 65_536;

/// Why no further line was read.
#[derive(Clone, Copy, Debug, PartialEq, Eq, Error)]
pub enum ReadFault {
    /// No memory was left for the line.
    #[error("out of memory")]
    Memory,
    /// The source failed.
    #[error("the source failed")]
    Source,
    /// A line or the input is longer than its limit.
    #[error("too long")]
    TooLong,
}

impl From<AllocError> for ReadFault {
    ghost use Rattle.sea_lines.specs.declared.reader.ReadFault.TheVariants.{Memory};

    ghost from_gives = { λ _ fault. fault ≡ Memory };

    fn from(_error: AllocError) -> ReadFault {
        ReadFault::Memory
    }
}

/// Reads the lines of a source one after another. It holds one buffer, and each line as long as the caller keeps it.
#[derive(Drop)]
pub struct LineReader {
    buffer: Vec<u8>,
    /// The bytes of the buffer from `from` to `to` were taken from the source and not yet read.
    from: usize,
    to: usize,
    /// How many bytes were read as lines, newlines included.
    read: u64,
    ghost ordered: { from ≤ to },
    ghost held: { to ≤ vec_len buffer },
    ghost spacious: { 0 < vec_len buffer },
    pub ghost within: { read ≤ input_limit },
    pub ghost taken: { read + (to - from) ≤ input_limit + 1 },
}

/// A reader's buffer.
fn new_buffer(alloc: Global) -> Result<Vec<u8>, AllocError>
    ensures { IfOk result (λ buffer. vec_len buffer ≡ 65536) }
{
    vec![in alloc; 0; BUFFER_SIZE]
}

/// How many bytes stand before the first newline, or how many there are where there is none.
fn length_of_line(bytes: &[u8]) -> usize
    ensures place { result ≡ position_or_len (λ byte. byte == 10) bytes.now }
    ensures bound { result ≤ length bytes.now }
{
    match memchr(b'\n', bytes) {
        Some(place) => place,
        None => bytes.len(),
    }
}

/// Takes the next bytes of the source to the front of the buffer, at most `room` of them, and answers how many.
fn refill<S: Source>(source: &mut S, buffer: &mut [u8], room: usize) -> Result<usize, ReadFault>
    requires some { 0 < room }
    requires fits { room ≤ length buffer.old }
    ensures bound { IfOk result (λ count. count ≤ room) }
    ensures bytes { Takes (S.left source.old) (S.left source.new) result buffer.new }
    ensures fault { IfErr result (λ fault. fault ≡ ReadFault.Source) }
    ensures cause { HasCause result (S.faults source.old) (S.faults source.new) }
{
    match source.take(&mut buffer[..room]) {
        Ok(count) => Ok(count),
        Err(_failed) => Err(ReadFault::Source),
    }
}

impl LineReader {
    ghost use Rattle.sea_lines.specs.Lines.{BreaksOff, KeepsTotal, PassesLimit, ReadsLine};
    ghost use Rattle.sea_lines.specs.Reader.{bytes_read, place_of, unread};
    ghost use Rattle.std.specs.Io.KnownBytes.{IsAtEnd, Keeps};
    ghost use Rattle.std.specs.List.{after_first, before_first};

    /// A reader that has read nothing, with a buffer of 65,536 bytes. It fails only where no memory is left.
    pub fn new(alloc: Global) -> Result<LineReader, AllocError>
        ensures buffer { IfOk result (λ reader. vec_len reader.buffer ≡ 65536) }
        ensures nothing_read { IfOk result (λ reader. bytes_read reader ≡ 0) }
        ensures nothing_unread { IfOk result (λ reader. unread reader ≡ []) }
    {
        Ok(LineReader {
            buffer: new_buffer(alloc)?,
            from: 0,
            to: 0,
            read: 0,
        })
    }

    /// The next line without its newline, or `None` at the end of the input. A carriage return before the newline
    /// stays in the line. A last line without newline counts. Each line has at most 1,048,576 bytes, and the lines
    /// that were read at most 4,294,967,296 with their newlines: the answer is `TooLong` exactly where the next line
    /// would pass one of these. After a fault a part of the next line may have been read: where the source failed, no
    /// newline was taken with it.
    pub fn next_line<S: Source>(
        &mut self,
        alloc: Global,
        source: &mut S,
    ) -> Result<Option<Vec<u8>>, ReadFault>
        ensures line { IfOk result (λ line. ReadsLine (place_of self.old (S.left source.old)) (place_of self.new (S.left source.new)) (option_map (λ v. v.items) line)) }
        ensures short { IfOk result (λ line. IfSome line (λ v. vec_len v ≤ line_limit)) }
        ensures progress { IfOk result (λ line. OnSome line (bytes_read self.old < bytes_read self.new)) }
        ensures within { OnOk result (IfSome (place_of self.old (S.left source.old)).rest (λ rest. ¬ PassesLimit (bytes_read self.old) rest)) }
        ensures too_long { result ≡ Err ReadFault.TooLong → IfSome (place_of self.old (S.left source.old)).rest (λ rest. PassesLimit (bytes_read self.old) rest) }
        ensures broken { result ≡ Err ReadFault.Source → BreaksOff (place_of self.old (S.left source.old)).rest (S.left source.new) }
        ensures failed { result ≡ Err ReadFault.Source → Rose (S.faults source.old) (S.faults source.new) }
        ensures kept { result ≢ Err ReadFault.Source → S.faults source.new ≡ S.faults source.old }
        ensures later { S.faults source.old ≤ S.faults source.new }
        ensures counted { KeepsTotal (place_of self.old (S.left source.old)) (place_of self.new (S.left source.new)) }
    {
        let mut line = Vec::new(alloc);
        while self.fetch(source)? {
            if self.take_piece(&mut line)? {
                return Ok(Some(line));
            }
        }
        if line.is_empty() {
            return Ok(None);
        }
        Ok(Some(line))
    }

    /// Takes one piece from the source where no byte is unread, and tells whether there is one now. The place stays.
    fn fetch<S: Source>(&mut self, source: &mut S) -> Result<bool, ReadFault>
        ensures bytes { Keeps (place_of self.old (S.left source.old)).rest (place_of self.new (S.left source.new)).rest }
        ensures read { self.new.read ≡ self.old.read }
        ensures more { result ≡ Ok true → self.new.from < self.new.to }
        ensures end { result ≡ Ok false → IsAtEnd (place_of self.old (S.left source.old)).rest }
        ensures fault { IfErr result (λ fault. fault ≡ ReadFault.Source) }
        ensures none { IfErr result (λ _. unread self.new ≡ []) }
        ensures cause { HasCause result (S.faults source.old) (S.faults source.new) }
    {
        if self.from < self.to {
            return Ok(true);
        }
        let room = self.room();
        let count = refill(source, self.buffer.as_mut_slice(), room)?;
        self.from = 0;
        self.to = count;
        Ok(count > 0)
    }

    /// How many bytes to ask for where none are unread: the buffer's, and in all one more than an input may have.
    fn room(&self) -> usize
        ensures { result ≡ min (input_limit + 1 - self.now.read) (vec_len self.now.buffer) }
    {
        (INPUT_LIMIT + 1 - self.read).min(self.buffer.len() as u64) as usize
    }

    /// Appends the unread bytes before the first newline to the line, and reads them and that newline, or all where
    /// there is none. It tells whether there was one.
    fn take_piece(&mut self, line: &mut Vec<u8>) -> Result<bool, ReadFault>
        requires { self.old.from < self.old.to }
        ensures piece { OnOk result (line.new.items ≡ line.old.items ++ before_first (λ byte. byte == 10) (unread self.old)) }
        ensures rest { OnOk result (unread self.new ≡ after_first (λ byte. byte == 10) (unread self.old)) }
        ensures read { OnOk result (self.new.read ≡ self.old.read + min (position_or_len (λ byte. byte == 10) (unread self.old) + 1) (length (unread self.old))) }
        ensures ended { IfOk result (λ ended. ended ≡ nat_lt (position_or_len (λ byte. byte == 10) (unread self.old)) (length (unread self.old))) }
        ensures short { OnOk result (length line.new.items ≤ line_limit) }
        ensures too_long { result ≡ Err ReadFault.TooLong → (line_limit < length line.old.items + position_or_len (λ byte. byte == 10) (unread self.old))
            ⊎ (input_limit < self.old.read + min (position_or_len (λ byte. byte == 10) (unread self.old) + 1) (length (unread self.old))) }
        ensures fault { result ≢ Err ReadFault.Source }
        ensures err { OnErr result ((self.new.read ≡ self.old.read) × (unread self.new ≡ unread self.old)) }
    {
        let unread = &self.buffer[self.from..self.to];
        let length = length_of_line(unread);
        let count = unread.len().min(length + 1);
        if line.len() + length > LINE_LIMIT || self.read + count as u64 > INPUT_LIMIT {
            return Err(ReadFault::TooLong);
        }
        line.extend_from_slice(&unread[..length])?;
        let ended = length < unread.len();
        self.from += count;
        self.read += count as u64;
        Ok(ended)
    }
}
