//! The pairs of rows that the links of a base join.
//!
//! It stands on the row ids of `sea_cell`. The contract that matters to the crates above is that of `Links`: a list of
//! pairs in the order in which they were added, none of them twice, and after each call the list that `specs/Pairs.antt`
//! defines. A removal takes no memory, and want of memory at an addition leaves the list as it was. `PairIndex` keeps the
//! pairs under rising numbers, with the numbers of each row's pairs on both sides, and the invariant of `Links` says that
//! they are these. No program holds `Links` yet; the plain base keeps a list of the same pairs.
#![tactic(auto)]

mod fault;
mod laws;
mod links;
mod pair;
mod pair_index;
mod row_numbers;

pub use fault::{LinkFault, NoLink};
pub use laws::both_sides_tell_the_same;
pub use links::Links;
pub use pair::{LinkPair, LinkPairs, is_of, is_pair, side};
