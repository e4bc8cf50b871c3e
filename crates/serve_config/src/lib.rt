//! The configuration of a server, which the command line yields and the server's loop reads.
//!
//! Depends on view_types for the configuration of views, and on mesh_base for strings and limits.
//! The record has no contract of its own.
#![tactic(auto)]

use mesh_base::limits::Limits;
use mesh_base::text::Text;
use view_types::config::Config;

/// The configuration of a server.
#[derive(Drop)]
pub struct ServeConfig {
    /// The address and port to listen on, such as `10.0.0.1:8086` or `[::1]:8086`.
    pub address: Text,
    /// The configuration of the views of its subscribers.
    pub config: Config,
    /// The limits on its input and its objects.
    pub limits: Limits,
}
