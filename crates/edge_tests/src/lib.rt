//! Tests of links over the loopback interface. They are in a crate of their own, since a crate
//! with tests is proved twice.
//!
//! Depends on mio_edge.
#![tactic(auto)]

#[cfg(test)]
mod loopback;
#[cfg(test)]
mod peers;
#[cfg(test)]
mod streams;
