//! Plays cases: texts that say what is played on a base, and what has to come of it.
//!
//! It stands above the last proved call, as a test does, and promises nothing of its own. It reads cases from standard
//! input and writes a line for each: `ok TITLE`, or `TITLE: ` and the first thing that differed. The exit status is 0
//! where all are ok, 1 where one isn't, 3 where the input can't be read, 4 where the output can't be written, and 6 where
//! there is no memory. Lines end in \n, and each is one of these:
//!
//!     case TITLE              a new case, on a blank disk, with the standard limits and the clock at 0
//!     LINE -> REPLY           a line that is played, and its reply; split at the last arrow
//!     LINE                    a line that is played; its reply, if it has one, stands in an @want
//!     // REMARK               nothing; empty lines are nothing too
//!     @text TEXT              adds text to the script as it stands, with \n, \r, \t and \\ for those bytes
//!     @repeat COUNT TEXT      adds text so many times, with the number of the turn, from 1, for each %
//!     @want REPLY             a reply that has to come, in order with those behind arrows
//!     @wants COUNT REPLY      so many of them, with the number of the turn, from 1, for each %
//!     @ends STATUS            the status that has to come, by its name; without it Done
//!     @reopened               from here on `reopen` is played behind each of these, and has to tell the version held
//!     @words WORDS            the words of the program; without it the script is played
//!     @no_folder              the folder of the words can't be opened
//!     @limit NAME N           a limit of the base by its name, `log_bytes`; not beside @words
//!     @minutes N              the clock
//!     @pieces N               the most bytes of one take of the source; without it 1000
//!     @take_fails N           the take of this number fails, from 1; this and the three below may stand several times
//!     @give_fails N           the give of this number fails
//!     @call_fails N           the call of the disk of this number in this run fails
//!     @fails_here N           the call of the disk of this number behind those of the lines so far fails
//!     @stop N                 the disk passes N calls, and then fails all
//!     @then                   plays the run so far; the next one goes on with its disk
//!     @then image N           the same with what a stop leaves of it by choice N, which is 0, 1 or 2
//!     @file NAME BYTES        before the run, writes bytes (hexadecimal) at the start of a file, and syncs it
//!     @size NAME N            after the run, the file has so many bytes
//!     @holds NAME AT BYTES    after the run, the file holds these bytes (hexadecimal) at this place
//!     @faults N               the script alone with a fault at each call below N, from 1
//!     @stops N                the script alone with a stop before each call, after 0 to N - 1 of them
//!     @starts A..B N          stops after A to B - 1 calls, then starts that are stopped after 0 to N - 1 calls
//!
//! Files are named base0, base1, log0, log1 and arch; statuses Done, NoFolder, Usage, SourceFault, SinkFault, DiskFault, Memory,
//! NotABase and TooLong. A stop leaves by choice 0 what was safe, by 1 all that was written, and by 2 each file as long as
//! it was, with 1 for each byte that wasn't safe. What is played and wanted, `@reopened` and `@fails_here` hold from their
//! place on, and all other directives for their whole run, wherever they stand in it. `@call_fails`, `@fails_here` and
//! `@stop` have to be met: a call of the disk has to fail in that run.
//!
//! The last three are sweeps: a run on a blank disk for each number, whose replies aren't compared, so a case with one wants
//! no replies and has no second run; but where nothing fails no line may be refused. After each run of the first two, all
//! three things that a stop may leave have the last acknowledged version or the next one, and the last run ends with the
//! case's status. In the third each stop has to be met, and after each stopped start a start finds the version that a start
//! finds without it. A line that is none of these, or that stands twice where that says nothing, is told and never passed
//! over. Standard output has the lines of the cases in their order.
#![tactic(auto)]

mod bytes;
mod case;
mod checking;
mod faults;
mod files;
mod lines;
mod outside;
mod run;
mod script;
mod suite;
mod sweep;
mod verdict;
mod version;

use crate::suite::Ending;
use std::process::ExitCode;

fn main(rt: HostRuntime) -> ExitCode {
    match suite::play(rt.alloc(), rt.stdin(), rt.stdout()) {
        Ok(ending) => ExitCode::from(code(ending)),
        Err(_) => ExitCode::from(6),
    }
}

// The exit status.
fn code(ending: Ending) -> u8 {
    match ending {
        Ending::Ok => 0,
        Ending::Differs => 1,
        Ending::Unread => 3,
        Ending::Unwritten => 4,
    }
}
