//! Tests of what no case can reach, of files, of the outside and of folders of the system; the tests of the parts of a base
//! stand in `sea_tests`, which says when a test is wanted.
//!
//! It stands on the crates that it tests, gives nothing out, and nothing stands on it.
#![tactic(auto)]

#[cfg(test)]
mod disk;
#[cfg(test)]
mod edge;
#[cfg(test)]
mod fields;
#[cfg(test)]
mod folder;
#[cfg(test)]
mod lines;
#[cfg(test)]
mod log;
