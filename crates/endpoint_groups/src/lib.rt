//! The subscribers of one key of endpoints, in groups of those that were last shown the same.
//!
//! Depends on pending_rows for what a group was shown, and on view_diff for a group that was shown
//! nothing. The contracts cite `specs/Members` for the members of each group, the endpoints that
//! they were last shown, and the kept encoding of their messages, and `specs/Encoded`, which says
//! that kept encodings are right.
#![tactic(auto)]

mod group;
pub mod groups;
mod places;
