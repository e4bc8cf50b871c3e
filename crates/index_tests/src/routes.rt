// The index of routes.
use crate::follower::{Follower, Writing};
use mark_rules::keys::RouteKey;
use mesh_base::key::Kind;
use mesh_base::list::List;
use mesh_base::memory::Memory;
use mesh_base::text::Text;
use route_index::index::{RouteIndex, new_index};
use row_file::TrialFault;
use std::alloc::Global;
use view_types::config::Config;
use view_types::server_view::RouteRow;

#[derive(Drop)]
pub(crate) struct Routes;

impl Writing<RouteKey, List<RouteRow>> for Routes {
    fn letters(&self) -> &'static str {
        "w d"
    }

    fn key(&self, alloc: Global, letter: &str) -> Result<RouteKey, TrialFault> {
        let server = match letter {
            "w" => "web",
            "d" => "db",
            _ => return Err(TrialFault::new("no key has this letter")),
        };
        Ok(RouteKey {
            ns: Text::from_str(alloc, "app")?,
            server: Text::from_str(alloc, server)?,
        })
    }

    fn push_row(&self, all: &mut String, row: &List<RouteRow>) -> Result<(), TrialFault> {
        for route in row.as_slice() {
            let sign = match route.kind {
                Kind::GatewayRoute => "@",
                _ => "+",
            };
            all.push_str(sign)?;
            all.push_str(route.name.as_str())?;
            all.push_str(digit(route.rules.len())?)?;
            if route.authz.len() > 0 {
                return Err(TrialFault::new("a route has authorizations"));
            }
        }
        Ok(())
    }
}

fn digit(count: usize) -> Result<&'static str, TrialFault> {
    match count {
        0 => Ok("0"),
        1 => Ok("1"),
        _ => Err(TrialFault::new("a route has more than one rule")),
    }
}

/// Returns an index without users, and the objects of these lines.
pub(crate) fn new_routes(alloc: Global, objects: &str) -> Result<Follower<RouteIndex>, Memory> {
    Follower::new(alloc, objects, Config::usual(alloc)?, new_index(alloc))
}
