// The top call: what the program does with the words that it is given.
ghost use Rattle.std.specs.Prelude.{◌≡◌, false, option_map};
ghost use Rattle.sea_faults.specs.Counts.{IsCaused};
ghost use Rattle.sea_core.specs.Stands.{StandsFor};
ghost use Rattle.sea_operation.specs.declared.base.Plain.{Plain};
ghost use Rattle.sea_lines.specs.Lines.{TakesWithin};
ghost use Rattle.sea_drive.specs.Play.{CountsDisk, is_source_fault, is_sink_fault};
ghost use Rattle.sea_drive.specs.Setting.{setting, tape};
ghost use Rattle.sea_drive.specs.Words.{command_in, command_named as command_named_of, folder_in, is_play, usage_line as usage_line_of, SaysUsage, RunsBy};

use crate::dumping::dump;
use crate::player::play;
use crate::status::Status;
use sea_cell::Text;
use sea_core::Limits;
use sea_disk::Disk;
use sea_edge::{Clock, Sink, Source};
use std::alloc::Global;

/// A word of a command line.
pub type Word = Text;

/// What the words of a command line ask for.
#[derive(Clone, Copy)]
pub enum Command {
    /// That the source is played as a script.
    Play,
    /// That the base is written out.
    Dump,
}

/// Does what the words say, which don't include the program's own name. `play FOLDER` plays the source as a script on
/// the base that the disk's files stand for; `dump FOLDER` writes that base, and takes nothing from the source; other
/// words are no command's yet, and write the usage line. It always returns, waits for nobody, and gives the disk back
/// beside the status, which says how it ended.
pub fn run<S: Source, K: Sink, D: Disk, C: Clock>(
    alloc: Global,
    words: &[Word],
    source: &mut S,
    sink: &mut K,
    disk: D,
    clock: &mut C,
) -> (Status, D)
    ensures ends { RunsBy (command_in words.now) result.0 (setting (C.told clock.old) D.told D.shows D.faults D.failed) disk result.1 (tape (S.left source.old) (S.left source.new) (K.taken sink.old) (K.taken sink.new)) }
    ensures source { IsCaused (is_source_fault result.0) (S.faults source.old) (S.faults source.new) }
    ensures sink { IsCaused (is_sink_fault result.0) (K.faults sink.old) (K.faults sink.new) }
    ensures disk { CountsDisk result.0 (D.faults disk) (D.faults result.1) }
    // Only files that stand for no base are no base.
    ensures no_base { D.told → result.0 ≡ Status.NotABase → (base : Plain) → ¬ StandsFor base (D.shows disk).seen }
    // At most 4,294,967,297 bytes are taken.
    ensures within { TakesWithin (S.left source.old) (S.left source.new) }
    // Words other than those that play a script take nothing from the source.
    ensures untouched { is_play (command_in words.now) ≡ false → source.new ≡ source.old }
{
    match command_of(words) {
        Some(Command::Play) => play(alloc, Limits::standard(), source, sink, disk, clock),
        Some(Command::Dump) => dump(alloc, Limits::standard(), sink, disk),
        None => (usage(sink), disk),
    }
}

// The command that the words name.
fn command_of(words: &[Word]) -> Option<Command>
    ensures { result ≡ command_in words.now }
{
    match words {
        [word, _] => command_named(word.as_str()),
        _ => None,
    }
}

fn command_named(word: &str) -> Option<Command>
    ensures { result ≡ command_named_of word.now }
{
    if "play" == word {
        return Some(Command::Play);
    }
    if "dump" == word {
        return Some(Command::Dump);
    }
    None
}

/// The folder that the words name, where they are a command's.
pub fn folder_of(words: &[Word]) -> Option<&str>
    ensures { option_map (λ folder. folder.now) result ≡ folder_in words.now }
{
    match words {
        [word, folder] if command_named(word.as_str()).is_some() => Some(folder.as_str()),
        _ => None,
    }
}

/// Writes the line that says which words there are.
pub fn usage<K: Sink>(sink: &mut K) -> Status
    ensures says { SaysUsage result (K.taken sink.old) (K.taken sink.new) }
    ensures sink { IsCaused (is_sink_fault result) (K.faults sink.old) (K.faults sink.new) }
    ensures source { is_source_fault result ≡ false }
{
    match sink.give(usage_line()) {
        Ok(()) => Status::Usage,
        Err(_) => Status::SinkFault,
    }
}

fn usage_line() -> &'static [u8]
    ensures { result.now ≡ usage_line_of }
{
    b"usage: seatable new FOLDER | play FOLDER | dump FOLDER | drill FOLDER NUMBER COUNT | serve FOLDER ADDRESS WORKERS CONNECTIONS\n"
}
