//! The verdict on a simulated request, decided from the inbound view of its port.
//!
//! Depends on route_match for the best match, on request_rules for the definition `verdict` over
//! the objects, and on row_places for the order of authorizations. `decide` returns the `verdict`
//! over any objects that have the view; `specs/Decision` is the same decision over the rows of the
//! view. The authorizations of routes are not read from the view: those of the matched route are
//! looked up, in a source that the caller passes, and `specs/FullViews` is the view with all of
//! them. `best_of` returns the indexes of the best match among rows of routes, or the match whose
//! regular expression is refused.
#![tactic(auto)]

mod admits;
pub mod decide;
mod either;
pub mod fault;
pub mod laws;
pub mod matched;
mod policy;
mod probe;
pub mod route_authz;
