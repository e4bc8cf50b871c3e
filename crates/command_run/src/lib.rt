//! Runs a command: it reads the words of the command line and the bytes of the input, and writes
//! the bytes of the output.
//!
//! Depends on command_words for the command line, and on replay_core, diagnosis, output_fold and
//! cluster_sample for the commands. The contract of `top` cites `specs/Commands` of command_words,
//! `specs/Headline` of each crate with a command, and `specs/Outcome`. Its tests are in
//! program_tests.
#![tactic(auto)]

pub mod top;
pub mod words;
