//! The program `seatable`: a server for bases, which plays scripts and dumps bases so far.
//!
//! It stands on `sea_drive`, whose `program` does all that the program does: here the words, standard input, standard
//! output, the system's clock and the system's folders are put together.
#![tactic(auto)]

use sea_disk::SystemFolders;
use sea_drive::{Ended, Word, program};
use sea_edge::{StdSink, StdSource, SystemClock};
use std::alloc::Global;
use std::process::ExitCode;
use std::rt::Env;
use std::{env, io};

/// The exit status where there is no memory for the words.
const NO_MEMORY: u8 = 6;

fn main(rt: HostRuntime) -> ExitCode {
    let words = match words_of(&rt, rt.alloc()) {
        Ok(words) => words,
        Err(_) => return ExitCode::from(NO_MEMORY),
    };
    let mut source = StdSource::new(rt.stdin());
    let mut sink = StdSink::new(rt.stdout());
    let mut clock = SystemClock::new(&rt);
    let mut folders = SystemFolders { rt: &rt };
    let Ended { code, disk: _ } = program(
        rt.alloc(),
        words.as_slice(),
        &mut source,
        &mut sink,
        &mut folders,
        &mut clock,
    );
    let SystemFolders { rt: _ } = folders;
    ExitCode::from(code)
}

// The words behind the program's own name. Where one is no UTF-8 there are none, which is no command.
fn words_of(rt: &(impl Env + AllocGlobal), alloc: Global) -> io::Result<Vec<Word>> {
    let mut words = Vec::new(alloc);
    let args = match env::args(rt) {
        Ok(args) => args,
        Err(error) if error.kind() == io::ErrorKind::InvalidData => return Ok(words),
        Err(error) => return Err(error),
    };
    for arg in args.skip(1) {
        words.push(Word::from(arg))?;
    }
    Ok(words)
}
