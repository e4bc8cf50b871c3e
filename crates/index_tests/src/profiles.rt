// The index of profiles.
use crate::follower::{Follower, Writing};
use mark_rules::keys::ProfileKey;
use mesh_base::memory::Memory;
use mesh_base::text::Text;
use net_cidr::ip::Ip;
use net_cidr::packed_ip::PackedIp;
use profile_index::index::{ProfileIndex, new_index};
use row_file::TrialFault;
use std::alloc::Global;
use view_types::config::Config;
use view_types::outbound::ProfileView;
use view_types::query::Target;

#[derive(Drop)]
pub(crate) struct Profiles;

impl Writing<ProfileKey, ProfileView> for Profiles {
    fn letters(&self) -> &'static str {
        "w t s p"
    }

    fn key(&self, alloc: Global, letter: &str) -> Result<ProfileKey, TrialFault> {
        let (target, client) = match letter {
            "w" => (web(alloc)?, None),
            "t" => (web(alloc)?, Some("test")),
            "s" => (at(0x0a60_000a), Some("test")),
            "p" => (at(0x0a01_0203), None),
            _ => return Err(TrialFault::new("no key has this letter")),
        };
        let client = match client {
            Some(ns) => Some(Text::from_str(alloc, ns)?),
            None => None,
        };
        Ok(ProfileKey { target, client })
    }

    fn push_row(&self, all: &mut String, row: &ProfileView) -> Result<(), TrialFault> {
        all.push_str(name_of(row))?;
        if row.opaque {
            all.push_str("!")?;
        }
        for route in row.routes.as_slice() {
            all.push_str("+")?;
            all.push_str(route.name.as_str())?;
        }
        Ok(())
    }
}

fn web(alloc: Global) -> Result<Target, TrialFault> {
    Ok(Target::Service {
        ns: Text::from_str(alloc, "app")?,
        name: Text::from_str(alloc, "web")?,
        port: 80,
    })
}

fn at(ip: u32) -> Target {
    Target::Address {
        ip: PackedIp::new(Ip::V4(ip)),
        port: 80,
    }
}

// The name of the Service, else that of the Pod.
fn name_of(row: &ProfileView) -> &str {
    match row.fqn.as_str().split_once('.') {
        Some((name, _)) => name,
        None => pod_name(row),
    }
}

fn pod_name(row: &ProfileView) -> &str {
    match &row.endpoint {
        Some(endpoint) => match endpoint.get().labels.get(b"pod") {
            Some(name) => name.as_str(),
            None => "unnamed",
        },
        None => "none",
    }
}

/// Returns an index without users, and the objects of these lines.
pub(crate) fn new_profiles(alloc: Global, objects: &str) -> Result<Follower<ProfileIndex>, Memory> {
    let config = Config::usual(alloc)?;
    let index = new_index(alloc, &config)?;
    Follower::new(alloc, objects, config, index)
}
