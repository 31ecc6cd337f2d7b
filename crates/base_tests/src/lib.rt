//! The tests that no data can be given to: generic lists at a concrete type, and the host of real files. All other cases of the
//! library crates are data for the programs `cases` and `library_cases`.
#![tactic(auto)]

#[cfg(test)]
mod lists;
#[cfg(test)]
mod real_files;
