// The index of authorizations.
use crate::follower::{Follower, Writing};
use authz_index::index::{AuthzIndex, new_index};
use mesh_base::key::{Kind, ObjKey};
use mesh_base::list::List;
use mesh_base::memory::Memory;
use mesh_base::text::Text;
use row_file::TrialFault;
use std::alloc::Global;
use view_types::config::Config;
use view_types::server_view::{AuthzKind, AuthzRow};

#[derive(Drop)]
pub(crate) struct Authorizations;

impl Writing<ObjKey, List<AuthzRow>> for Authorizations {
    fn letters(&self) -> &'static str {
        "s l g p"
    }

    fn key(&self, alloc: Global, letter: &str) -> Result<ObjKey, TrialFault> {
        let (kind, name) = match letter {
            "s" => (Kind::Server, "web"),
            "l" => (Kind::LinkerdRoute, "r"),
            "g" => (Kind::GatewayRoute, "r"),
            "p" => (Kind::Pod, "web"),
            _ => return Err(TrialFault::new("no key has this letter")),
        };
        Ok(ObjKey {
            kind,
            ns: Text::from_str(alloc, "app")?,
            name: Text::from_str(alloc, name)?,
        })
    }

    fn push_row(&self, all: &mut String, row: &List<AuthzRow>) -> Result<(), TrialFault> {
        for authz in row.as_slice() {
            let sign = match authz.kind {
                AuthzKind::ServerAuthorization => "+",
                AuthzKind::AuthorizationPolicy => "#",
            };
            all.push_str(sign)?;
            all.push_str(authz.name.as_str())?;
        }
        Ok(())
    }
}

/// Returns an index without users, and the objects of these lines.
pub(crate) fn new_authorizations(
    alloc: Global,
    objects: &str,
) -> Result<Follower<AuthzIndex>, Memory> {
    let config = Config::usual(alloc)?;
    let index = new_index(alloc, &config)?;
    Follower::new(alloc, objects, config, index)
}
