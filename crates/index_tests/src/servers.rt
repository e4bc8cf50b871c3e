// The index of what the ports of Pods are served by.
use crate::follower::{Follower, Writing};
use mark_rules::keys::ServerKey;
use mesh_base::memory::Memory;
use mesh_base::text::Text;
use row_file::TrialFault;
use server_index::index::{ServerIndex, new_index};
use server_index::kept::ServerPart;
use std::alloc::Global;
use view_types::config::Config;
use view_types::policy::{Policy, Protocol};

#[derive(Drop)]
pub(crate) struct Servers;

impl Writing<ServerKey, Option<ServerPart>> for Servers {
    fn letters(&self) -> &'static str {
        "h i"
    }

    fn key(&self, alloc: Global, letter: &str) -> Result<ServerKey, TrialFault> {
        let port = match letter {
            "h" => 8080,
            "i" => 9990,
            _ => return Err(TrialFault::new("no key has this letter")),
        };
        Ok(ServerKey {
            ns: Text::from_str(alloc, "app")?,
            pod: Text::from_str(alloc, "web-1")?,
            port,
        })
    }

    fn push_row(&self, all: &mut String, row: &Option<ServerPart>) -> Result<(), TrialFault> {
        match row {
            Some((protocol, policy, server, probes)) => {
                push_name(all, server)?;
                all.push_str(protocol_word(*protocol))?;
                all.push_str(policy_word(*policy))?;
                for path in probes.as_slice() {
                    all.push_str(" ")?;
                    all.push_str(path.as_str())?;
                }
            }
            None => all.push_str("none")?,
        }
        Ok(())
    }
}

fn push_name(all: &mut String, server: &Option<Text>) -> Result<(), TrialFault> {
    match server {
        Some(name) => all.push_str(name.as_str())?,
        None => all.push_str("default")?,
    }
    Ok(())
}

fn protocol_word(protocol: Protocol) -> &'static str {
    match protocol {
        Protocol::Unknown => " unknown",
        Protocol::Http2 => " http2",
        Protocol::Opaque => " opaque",
        _ => " another",
    }
}

fn policy_word(policy: Policy) -> &'static str {
    match policy {
        Policy::AllUnauthenticated => " all-unauthenticated",
        Policy::AllAuthenticated => " all-authenticated",
        Policy::Deny => " deny",
        Policy::Audit => " audit",
        _ => " another",
    }
}

/// Returns an index without users, and the objects of these lines.
pub(crate) fn new_servers(alloc: Global, objects: &str) -> Result<Follower<ServerIndex>, Memory> {
    let config = Config::usual(alloc)?;
    let index = new_index(alloc, &config)?;
    Follower::new(alloc, objects, config, index)
}
