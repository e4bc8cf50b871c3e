//! Links to peers over TCP: connections that a listener accepts, without threads.
//!
//! Depends on mesh_links for the trait `Links`, whose contract `mio_links::MioLinks` meets without
//! a trace, since only the system knows what its sockets hold. `specs/Answers` defines which
//! results are counted, `specs/Numbers` how new links are numbered, `specs/Shown` how long a poll
//! waits and which events it shows, and `specs/Streams` whose stream a call concerns.
#![tactic(auto)]

mod bound;
pub mod mio_links;
mod open_links;
mod ready;
