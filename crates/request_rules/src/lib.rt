//! The verdict of the written policy on a request to a port of a Pod, over the objects held, and
//! what decides.
//!
//! Depends on view_rules for the authorizations that apply, and on route_match for the route of a
//! request. `specs/Admits` defines which clients an authorization admits, over the objects and over
//! a row of a view; `specs/Verdicts` the verdict; `specs/Meeting` which refused regular expressions
//! may leave a request without one. `specs/Laws` has the laws on them; the code only states these
//! laws.
#![tactic(auto)]

pub mod laws;
