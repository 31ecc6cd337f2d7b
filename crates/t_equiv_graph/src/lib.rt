//! The strongly connected components of a graph, numbered against its steps.
//!
//! `components` promises that two nodes have one number exactly where they are the same or reach each other, and that no
//! step leads to a higher number (`specs/Graphs`). The numbers are found by one search in depth with a stack of its own
//! (`searching`), together with a witness of them (`specs/Witnesses`), which is checked (`checking`). It stands on nothing.
#![tactic(auto)]

mod checking;
mod numbering;
mod searching;
mod spreading;

pub use numbering::components;
