//! The behavior of a server over links, as definitions and laws alone: whole turns, what each link
//! is due, and that leaving out a link changes nothing for the others.
//!
//! Depends on mesh_hub for the effects of the lines of feeds, on session_core for the contents of a
//! link's bytes, and on mesh_links for the calls. The contracts of `laws` cite `specs/Turns` and
//! `specs/Traces` (which calls are a turn, and which a lawful trace), `specs/Due` and
//! `specs/WrittenBytes` (what a link is due and was written), `specs/LinkErasure`,
//! `specs/LinkFailures`, `specs/Outboxes`, `specs/OwedBytes`, `specs/LinkOrder`,
//! `specs/TraceExtension` and `specs/Hubs`.
#![tactic(auto)]

pub mod laws;
