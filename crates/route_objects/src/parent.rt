ghost use Rattle.std.specs.Prelude.{◌≡◌};
ghost use Rattle.k8s_meta.specs.Spots.{Reads, seen};
ghost use Rattle.route_objects.specs.Parents.{kind_in, parent_at, parent_kind, server_in, service_in};

use k8s_meta::fault::ReadFault;
use k8s_meta::key::Key;
use k8s_meta::place::Place;
use k8s_meta::reader::Reader;
use k8s_meta::words::{AnyText, Name, Namespace, PORT};
use mesh_base::text::Text;
use mesh_text::group::is_core;
use view_types::route::{Parent, ParentKind};

/// A reference to a parent of a route in the namespace `own`, or None if it is not supported.
#[derive(Clone, Copy)]
pub struct ParentRef<'b> {
    pub own: &'b str,
}

impl<'b> Reader for ParentRef<'b> {
    type Made = Option<Parent>;

    ghost reading = { λ r. parent_at r.own.now };

    #[tactic(auto, unfolding(k8s_meta::specs::Spots::then, crate::specs::Parents::parent_at))]
    fn read<'a>(&self, place: &'a Place<'a>) -> Result<Option<Parent>, ReadFault> {
        place.object()?;
        let group = place.optional(Key::Group, &AnyText)?;
        let kind = place.str_or(Key::Kind, "")?;
        let ns = place.text_or(Key::Namespace, &Namespace, self.own)?;
        let name = place.required(Key::Name, &Name)?;
        let port = place.optional(Key::Port, &PORT)?;
        match kind_in(self.own, ns.as_str(), parent_kind(&group, kind)) {
            Some(kind) => Ok(Some(Parent { kind, name, port })),
            None => Ok(None),
        }
    }
}

fn kind_in(own: &str, ns: &str, kind: Option<ParentKind>) -> Option<ParentKind>
    ensures { result ≡ kind_in own.now ns.now kind }
{
    if ns == own { kind } else { None }
}

fn parent_kind(group: &Option<Text>, kind: &str) -> Option<ParentKind>
    ensures { result ≡ parent_kind group.now kind.now }
{
    if kind == "Server" {
        server_in(group)
    } else if kind == "Service" {
        service_in(group)
    } else {
        None
    }
}

fn server_in(group: &Option<Text>) -> Option<ParentKind>
    ensures { result ≡ server_in group.now }
{
    match group {
        Some(group) => {
            if group.as_str() == "policy.linkerd.io" {
                Some(ParentKind::Server)
            } else {
                None
            }
        }
        None => Some(ParentKind::Server),
    }
}

fn service_in(group: &Option<Text>) -> Option<ParentKind>
    ensures { result ≡ service_in group.now }
{
    match group {
        Some(group) => {
            if is_core(group.as_str()) {
                Some(ParentKind::Service)
            } else {
                None
            }
        }
        None => Some(ParentKind::Service),
    }
}
