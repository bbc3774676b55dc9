//! Tests of what no case can reach, of the parts of a base and of operations: a generic function at a type that no program
//! gives it, an allocating function that no program runs, a fast body beside its plain one. What a script can show is a
//! case of the program `sea_cases` instead, since a case costs no proof.
//!
//! It stands on the crates that it tests, gives nothing out, and nothing stands on it. This crate and `sea_file_tests` are
//! the two that the gate proves a second time for their tests, each in one go; so the two go side by side.
#![tactic(auto)]

#[cfg(test)]
mod cells;
#[cfg(test)]
mod links;
#[cfg(test)]
mod moments;
#[cfg(test)]
mod operations;
#[cfg(test)]
mod plain_base;
#[cfg(test)]
mod schema;
#[cfg(test)]
mod views;
