//! Readers of the policy objects: Server, ServerAuthorization, AuthorizationPolicy,
//! MeshTLSAuthentication and NetworkAuthentication.
//!
//! Depends on k8s_meta for the parts of the member tables, on net_cidr and label_select for
//! networks and selectors, and on view_types for the objects. The contract of each reader cites its
//! table: `server_at` of `specs/Servers`, `server_authz_at` of `specs/ServerAuthorizations`,
//! `authz_policy_at` of `specs/AuthorizationPolicies`, `mesh_authn_at` and `net_authn_at` of
//! `specs/Authentications`. The objects are lawful as defined in `specs/Lawful` of view_types.
//! Networks, selectors, references, identities and protocols have modules of their own.
#![tactic(auto)]

pub mod authn;
pub mod authz_policy;
mod block;
mod identity;
pub mod laws;
mod protocol_word;
mod reference;
mod selector;
pub mod server;
pub mod server_authz;
