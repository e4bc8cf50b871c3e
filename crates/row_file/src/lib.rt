//! Rows of tests in text files, and the run of a program over them.
//!
//! Depends on mesh_base for `Memory`. A program of tests implements `Trial`, which makes the output
//! of a row, and returns the status of `run`. Its arguments name the files. `run` compares each
//! output with the expected one, prints each row that differs, and prints `FILE: N rows` for each
//! file. So a row that got lost changes the output of the program.
//!
//! A row is a block of lines:
//!
//! ```text
//! # name of the row, unique in its file
//! # notes, as where the expectation comes from
//! replay --default-policy deny
//! lines of input, any number, also empty ones
//! ----
//! lines of expected output
//! ```
//!
//! An empty line or the end of the file ends the row. An expected output with empty lines is
//! between two lines `----` directly after the first such line, and ends with two lines `----`. The
//! line after the notes is the words of the row, with one space between two: which call it is, and
//! its options. Each program says which words it reads.
//!
//! A definition `let NAME = TEXT` is a line outside of rows. A line `$NAME` below it, in an input
//! or an expected output, stands for `TEXT`. Definitions hold in their file alone, but those of a
//! file without rows hold in each file after it. A block of lines that begin with `#` is a comment
//! if an empty line or a definition follows it.
#![tactic(auto)]

mod faults;
mod reader;
mod rows;
mod runs;

pub use faults::TrialFault;
pub use reader::{FileFault, Problem, RowReader};
pub use rows::Row;
pub use runs::{Trial, run};
