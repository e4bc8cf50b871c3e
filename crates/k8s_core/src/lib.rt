//! Readers of the core objects: Service, EndpointSlice and Pod.
//!
//! Depends on k8s_meta and mesh_text for the parts of the member tables, and on view_types for the
//! objects. The contract of each reader cites its table: `service_at` of `specs/Services`,
//! `slice_at` of `specs/Slices`, `pod_at` of `specs/Pods`, with the probes of a container in
//! `specs/Probes`.
#![tactic(auto)]

mod addresses;
pub mod container;
pub mod laws;
pub mod pod;
mod port_entry;
pub mod probe;
pub mod service;
pub mod slice;
