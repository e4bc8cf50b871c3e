//! Metadata and scalars of Kubernetes objects, and the language in which readers are written.
//!
//! Depends on mesh_base and net_cidr. A reader is defined by a member table in the words of
//! `specs/Words`, `specs/Scalars`, `specs/Amounts` and `specs/Lists`. A word reads a `Spot`, a
//! value with its path, and returns a value or the first error. The code has the same lines over a
//! `Place`, with the contract `Reads` of `specs/Spots`. `specs/Metadata` defines metadata.
#![tactic(auto)]

pub mod choice;
pub mod duration;
pub mod fault;
mod fault_text;
mod gather;
pub mod key;
mod label_map;
pub mod laws;
mod members;
pub mod meta;
pub mod names;
pub mod path;
pub mod place;
pub mod ports;
pub mod quantity;
pub mod reader;
mod runs;
mod strings;
mod trim;
pub mod words;
