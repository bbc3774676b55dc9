//! Texts and lists that own their memory: shared, copied, found and changed by name.
//!
//! It stands on std, and on the lists of `sqlite_items`. A text is seen by contracts as its bytes, a list as its items in
//! their order, a shared value as the value, and a copy (`Duplicate`) equals its source. The contract that matters to the
//! crates above is that of `Indexed::named`: the first thing of a name, where the list has one. `without_repeats` keeps each
//! text once, at its first place.
#![tactic(auto)]

mod distinct;
mod duplicate;
mod indexed;
mod shared;
mod text_type;

pub use distinct::{insert_text, is_among, no_text_goes_or_stays_twice, without_repeats};
pub use duplicate::{Duplicate, copies_of};
pub use indexed::{ChangeOf, Indexed, Named, items_in, named_in};
pub use shared::Shared;
pub use text_type::{Text, Texts};
