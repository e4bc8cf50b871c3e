//! The effect of the lines of a feed and the output for them: the definitions that all programs
//! which read a feed share.
//!
//! Depends on watch_events for the contents of lines, on view_rules for views and messages, on
//! request_rules for the verdict on a simulated request, and on proxy_proto for the encoding of
//! messages. `specs/History` defines the state after a list of rows, `specs/Output` the output for
//! it, and `specs/Deliveries` what each subscriber is sent; `specs/LookBack`, `specs/Live` and
//! `specs/LastDrain` state the same looking back from a row. The code writes frames, output lines
//! and refusals; its contracts cite `specs/Drains`, `specs/Text`, `specs/RefusalText` and
//! `specs/VerdictText`. No definition here depends on a hub. The laws are in history_laws.
#![tactic(auto)]

pub mod frames;
pub mod refusal;
pub mod text;
pub mod verdict;
