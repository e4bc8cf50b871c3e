//! The command line: the command that its words give, with its configuration, numbers and query.
//!
//! Depends on clap for options, on mesh_text, k8s_meta, net_cidr and watch_events for reading
//! values, and on view_types for their types. `read_words` returns `command_in` of
//! `specs/Commands`. There is no command if clap does not accept the words after the command's
//! name, or if a value that the command needs cannot be read.
#![tactic(auto)]

mod argument;
pub mod command;
mod config;
pub mod fault;
pub mod laws;
mod parse;
mod query;
mod socket;
mod value;
pub mod words;
