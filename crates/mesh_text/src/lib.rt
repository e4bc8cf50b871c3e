//! The short strings of proxies, objects and command lines: targets, workloads, context tokens,
//! policies, ports, request methods, API groups, and JSON itself; and what the labels, service
//! account and annotations of a Pod mean in the mesh.
//!
//! Depends on mesh_base, net_cidr, k8s_meta and view_types, on serde_json for tokens and on http
//! for methods. The result of each call is defined in `specs/Targets`, `specs/Workloads`,
//! `specs/Contexts`, `specs/PolicyWords`, `specs/PortRefs`, `specs/Methods`, `specs/Groups`,
//! `specs/Json` or `specs/Mesh`.
#![tactic(auto)]

pub mod group;
pub mod json;
pub mod laws;
pub mod mesh;
pub mod method;
mod name;
pub mod policy_word;
pub mod port_ref;
pub mod target_text;
pub mod token;
pub mod workload_text;
