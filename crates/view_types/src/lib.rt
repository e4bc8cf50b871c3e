//! The types that the controllers share: the objects of a cluster, the queries of proxies, the
//! views that they are sent, and the messages that carry the differences between views.
//!
//! Depends on mesh_base, net_cidr, label_select and k8s_meta. The specs define the key of an object
//! (`specs/Objects`), what calls require of it (`specs/Lawful`), the default configuration
//! (`specs/Defaults`) and the queries for a port (`specs/Ports`). The contents of views are defined
//! in view_rules. Every copy equals its source (`Copied`), and views compare exactly (`Same`).
#![tactic(auto)]

pub mod authn;
pub mod config;
pub mod endpoint;
pub mod mark;
pub mod message;
pub mod object;
mod object_copy;
pub mod outbound;
pub mod pod;
pub mod policy;
pub mod profile;
pub mod query;
pub mod request;
pub mod route;
pub mod server;
pub mod server_view;
pub mod service;
pub mod slice;
pub mod verdict;
pub mod view;
