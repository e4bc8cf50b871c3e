//! A server over links: it applies the lines of feeds, and sends each subscriber the frames that
//! bring it up to date.
//!
//! Depends on mesh_links for the calls, on link_sessions for the open links, on fed_hub for the
//! objects and subscriptions, and on serve_rules for the definition of a turn. `server::Server`
//! takes turns, and `serve::serve_top` takes them until one ends the server. Their contracts cite
//! `specs/Turned` and `specs/Ends`, which say that these are turns of serve_rules, and
//! `specs/TurnCalls`, which says which kinds of calls a turn makes and in which order. The
//! functions of `laws` state what follows for the calls of a server that has ended (`specs/Laws`),
//! and why links are closed (`specs/CloseCauses`); they use event_laws and history_laws, too.
#![tactic(auto)]

pub mod laws;
pub mod serve;
pub mod server;
mod turning;
