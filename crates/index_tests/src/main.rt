//! Tests of the indexes of rows over feeds of changes.
//!
//! Depends on the crates of the indexes, on watch_events for the objects of all but the endpoints,
//! and on row_file for the rows in data/. A row begins with
//! - `objects` and the name of an index. Each line of its input is a name and an object, which the
//!   rows below speak of. The index is without users, and no object is held;
//! - the name of an index. Each line of its input is a step, and has a line of output. The first
//!   step goes on where the row above it ended.
//!
//! `endpoints` has no row of objects: the steps say them in words.
#![tactic(auto)]

mod authorizations;
mod endpoints;
mod follower;
mod objects;
mod outbound;
mod profiles;
mod routes;
mod servers;

use crate::authorizations::{Authorizations, new_authorizations};
use crate::endpoints::{Endpoints, new_endpoints};
use crate::follower::Follower;
use crate::outbound::{Views, new_views};
use crate::profiles::{Profiles, new_profiles};
use crate::routes::{Routes, new_routes};
use crate::servers::{Servers, new_servers};
use authz_index::index::AuthzIndex;
use mesh_base::memory::Memory;
use outbound_index::index::OutboundIndex;
use profile_index::index::ProfileIndex;
use route_index::index::RouteIndex;
use row_file::{Row, Trial, TrialFault, run};
use server_index::index::ServerIndex;
use std::alloc::Global;
use std::process::ExitCode;

#[derive(Drop)]
struct Indexes {
    servers: Follower<ServerIndex>,
    authorizations: Follower<AuthzIndex>,
    routes: Follower<RouteIndex>,
    profiles: Follower<ProfileIndex>,
    outbound: Follower<OutboundIndex>,
    endpoints: Endpoints,
}

impl Trial for Indexes {
    fn run(&mut self, alloc: Global, row: &Row, out: &mut String) -> Result<(), TrialFault> {
        let input = row.input.as_str();
        match row.call() {
            ("objects", index) => self.begin(alloc, index, input, out),
            ("servers", _) => self.servers.run(&Servers, input, out),
            ("authorizations", _) => self.authorizations.run(&Authorizations, input, out),
            ("routes", _) => self.routes.run(&Routes, input, out),
            ("profiles", _) => self.profiles.run(&Profiles, input, out),
            ("outbound", _) => self.outbound.run(&Views, input, out),
            ("endpoints", _) => self.endpoints.run(input, out),
            _ => Err(TrialFault::new("no index has this name")),
        }
    }
}

impl Indexes {
    fn new(alloc: Global) -> Result<Indexes, Memory> {
        Ok(Indexes {
            servers: new_servers(alloc, "")?,
            authorizations: new_authorizations(alloc, "")?,
            routes: new_routes(alloc, "")?,
            profiles: new_profiles(alloc, "")?,
            outbound: new_views(alloc, "")?,
            endpoints: new_endpoints(alloc)?,
        })
    }

    // Begins anew with these objects, and writes how many there are.
    fn begin(
        &mut self,
        alloc: Global,
        index: &str,
        objects: &str,
        out: &mut String,
    ) -> Result<(), TrialFault> {
        match index {
            "servers" => self.servers = new_servers(alloc, objects)?,
            "authorizations" => self.authorizations = new_authorizations(alloc, objects)?,
            "routes" => self.routes = new_routes(alloc, objects)?,
            "profiles" => self.profiles = new_profiles(alloc, objects)?,
            "outbound" => self.outbound = new_views(alloc, objects)?,
            _ => return Err(TrialFault::new("no index has this name")),
        }
        Ok(writeln!(out, "{} objects", objects.lines().count())?)
    }
}

fn main(rt: HostRuntime) -> ExitCode {
    match Indexes::new(rt.alloc()) {
        Ok(mut indexes) => run(&rt, &mut indexes),
        Err(_) => ExitCode::FAILURE,
    }
}
