//! Scripts: what each line does to a base, and what it replies; and the program's top call.
//!
//! It stands on the core of a base, on the reader of a source's lines (`sea_lines`) and on the writer of a base's lines
//! (`sea_dump`). The contract that matters is that of `run`, the top call: what is written is the defined reply to each line
//! that was read, or the defined lines of the base that is dumped, and every other ending has its cause.
#![tactic(auto)]

mod command;
mod dumping;
mod feed;
mod feed_text;
mod line;
mod main_program;
mod outcome;
mod player;
mod playing;
mod refusal_text;
mod reply;
mod round;
mod select;
mod status;
mod texts;
mod verb;

pub use command::{Command, Word, folder_of, run};
pub use dumping::dump;
pub use main_program::{Ended, program};
pub use outcome::{Answer, AnswerRow, AnswerRows, LineOutcome};
pub use player::play;
pub use status::Status;
