//! The reader of ServiceProfiles, linkerd.io/v1alpha2.
//!
//! Depends on k8s_meta for the parts of the member tables, on view_types for the objects, and on
//! mesh_text for methods. `read_profile` returns `profile_at` of `specs/Profiles`. The request and
//! response matches in it nest: what they have in common is in `specs/Matches`, and their own
//! members are in `specs/Requests` and `specs/Responses`.
#![tactic(auto)]

mod kind;
pub mod laws;
mod nested;
mod parts;
pub mod profile;
mod request;
mod response;
