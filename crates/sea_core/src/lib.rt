//! A base that is kept: each operation that it acknowledges is found again after a stop at any moment.
//!
//! It stands on the log, on the records of entries, and on the plain base. The contract that matters to the crates
//! above is that of `Core::edit` and `Core::start`: at each moment of an edit a stop leaves files that stand for the
//! base before it, or with the entry; after Ok with it; and a start finds that base, and changes at no moment what the
//! files stand for. `Core::feed` gives the entries that were accepted since the opening.
#![tactic(auto)]

mod addition;
mod base;
mod contents;
mod event;
mod fault;
mod feed;
mod first_gates;
mod laws;
mod limits;
mod preparation;
mod recovery;
mod replay;
mod standard;

pub use base::{Core, History};
pub use event::{Event, Outcome};
pub use fault::{CoreFault, StartFault};
pub use feed::Feed;
pub use laws::{each_version_has_its_entry, one_base_at_most};
pub use limits::Limits;
