// The script of a run, and the replies that have to come.
use crate::lines::{behind, cut, is_nothing, number};
use crate::version::version_of;
use std::alloc::{AllocError, Global};

/// What is played, and the replies that have to come.
#[derive(Drop)]
pub struct Script {
    alloc: Global,
    /// The lines that are played.
    pub lines: Vec<u8>,
    /// The replies that have to come, a line each.
    pub wanted: Vec<u8>,
    // Each reply that has to come is followed by a reopening.
    reopens: bool,
    // The version that the replies so far have told last.
    version: u64,
}

impl Script {
    /// Nothing, on a base of this version.
    pub fn new(alloc: Global, version: u64) -> Script {
        Script {
            alloc,
            lines: Vec::new(alloc),
            wanted: Vec::new(alloc),
            reopens: false,
            version,
        }
    }

    /// The script of a run.
    pub fn of(alloc: Global, run: &str, version: u64) -> Result<Script, AllocError> {
        let mut script = Script::new(alloc, version);
        for line in run.split('\n') {
            script.read(line)?;
        }
        Ok(script)
    }

    /// Reads a line.
    pub fn read(&mut self, line: &str) -> Result<(), AllocError> {
        if is_nothing(line) {
            return Ok(());
        }
        if line.starts_with('@') {
            return self.direct(line);
        }
        match line.rsplit_once(" -> ") {
            Some((played, reply)) => self.answered(played, reply),
            None => self.play(line),
        }
    }

    // Reads a directive. Those that say nothing of the script are passed over.
    fn direct(&mut self, line: &str) -> Result<(), AllocError> {
        let (name, rest) = cut(line);
        if name == "@text" {
            return escaped(&mut self.lines, rest, "%");
        }
        if name == "@repeat" {
            return self.repeat(rest);
        }
        if name == "@want" {
            return self.want(rest);
        }
        if name == "@wants" {
            return self.wants(rest);
        }
        if name == "@reopened" {
            self.reopens = true;
        }
        Ok(())
    }

    fn play(&mut self, line: &str) -> Result<(), AllocError> {
        self.lines.extend_from_slice(line.as_bytes())?;
        self.lines.push(b'\n')?;
        Ok(())
    }

    fn answered(&mut self, line: &str, reply: &str) -> Result<(), AllocError> {
        self.play(line)?;
        self.want(reply)?;
        Ok(())
    }

    fn want(&mut self, reply: &str) -> Result<(), AllocError> {
        self.expect(reply)?;
        self.reopen()?;
        Ok(())
    }

    // A reply that has to come.
    fn expect(&mut self, reply: &str) -> Result<(), AllocError> {
        self.wanted.extend_from_slice(reply.as_bytes())?;
        self.wanted.push(b'\n')?;
        if let Some(version) = version_of(reply) {
            self.version = version;
        }
        Ok(())
    }

    // Reopens, where the case asks for that.
    fn reopen(&mut self) -> Result<(), AllocError> {
        if !self.reopens {
            return Ok(());
        }
        let version = self.version;
        let reply = format!(in self.alloc; "{{\"reopened\":{version}}}")?;
        self.play("reopen")?;
        self.expect(reply.as_str())?;
        Ok(())
    }

    fn repeat(&mut self, rest: &str) -> Result<(), AllocError> {
        let (count, text) = cut(rest);
        let plain = !text.contains('%');
        for turn in 0..number(count).unwrap_or(0) {
            if plain {
                escaped(&mut self.lines, text, "%")?;
            } else {
                self.turn(text, turn.saturating_add(1))?;
            }
        }
        Ok(())
    }

    fn turn(&mut self, text: &str, turn: u64) -> Result<(), AllocError> {
        let shown = format!(in self.alloc; "{turn}")?;
        escaped(&mut self.lines, text, shown.as_str())
    }

    // Several replies, behind which a reopening comes once.
    fn wants(&mut self, rest: &str) -> Result<(), AllocError> {
        let (count, reply) = cut(rest);
        for turn in 0..number(count).unwrap_or(0) {
            self.numbered(reply, turn.saturating_add(1))?;
        }
        self.reopen()?;
        Ok(())
    }

    fn numbered(&mut self, reply: &str, turn: u64) -> Result<(), AllocError> {
        let mut filled = String::new(self.alloc);
        let mut front = true;
        for piece in reply.split('%') {
            if !front {
                filled.push_str(format!(in self.alloc; "{turn}")?.as_str())?;
            }
            filled.push_str(piece)?;
            front = false;
        }
        self.expect(filled.as_str())
    }
}

// Adds a text with its escapes, and another text for each %.
fn escaped(into: &mut Vec<u8>, text: &str, turn: &str) -> Result<(), AllocError> {
    let mut behind = false;
    for byte in text.bytes() {
        behind = step(into, behind, byte, turn)?;
    }
    if behind {
        into.push(b'\\')?;
    }
    Ok(())
}

// Adds a byte of such a text, and tells whether it is the backslash of an escape.
fn step(into: &mut Vec<u8>, behind: bool, byte: u8, turn: &str) -> Result<bool, AllocError> {
    if behind {
        escape(into, byte)?;
        return Ok(false);
    }
    if byte == b'\\' {
        return Ok(true);
    }
    if byte == b'%' {
        into.extend_from_slice(turn.as_bytes())?;
    } else {
        into.push(byte)?;
    }
    Ok(false)
}

// Adds what a byte behind a backslash stands for. Both stand as they are where that is no escape, as JSON has its own.
fn escape(into: &mut Vec<u8>, byte: u8) -> Result<(), AllocError> {
    match byte {
        b'n' => into.push(b'\n')?,
        b'r' => into.push(b'\r')?,
        b't' => into.push(b'\t')?,
        b'\\' => into.push(b'\\')?,
        _ => into.extend_from_slice(&[b'\\', byte])?,
    }
    Ok(())
}
