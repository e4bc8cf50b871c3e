ghost use Rattle.std.specs.Prelude.{◌≡◌, ◌&&◌, ℕ, Bool, List, IfOk, not};
ghost use Rattle.std.specs.Str.{bytes_eq};
ghost use Rattle.view_types.specs.declared.mark.Mark.{Mark};
ghost use Rattle.view_types.specs.declared.mark.Mark.TheVariants.{RouteOn};
ghost use Rattle.view_types.specs.declared.route.Parent.{Parent as Written};
ghost use Rattle.view_types.specs.declared.route.ParentKind.TheVariants as parent;
ghost use Rattle.view_rules.specs.Routes.{is_port_or_none, is_server, is_server_parent, is_service_parent};
ghost use Rattle.policy_rows.specs.ByMark.{HoldMarked, HoldRoutes};

use crate::by_mark::routes_on;
use mark_rules::laws::rows_by_marks;
use mesh_base::key::ObjKey;
use mesh_base::memory::Memory;
use mesh_base::text::Text;
use object_store::store::Store;
use view_types::route::{Parent, ParentKind};

/// An object that routes are attached to.
pub trait Attachment {
    ghost is_parent: { Self → Written → Bool };

    /// The mark of the routes of a namespace that may be attached to it.
    ghost mark: { Self → List ℕ → Mark };

    fn is_parent(&self, parent: &Parent) -> bool
        ensures { result ≡ is_parent self.now parent.now };

    /// Returns keys under which the routes of a namespace that are attached to it are held.
    fn keys<'a>(&self, store: &'a Store, ns: &Text) -> Result<&'a [ObjKey], Memory>
        ensures routes { IfOk result (λ keys.
            HoldRoutes store.now.objects ns.now (is_parent self.now) keys.now) }
        ensures marked { IfOk result (λ keys.
            HoldMarked store.now.objects (mark self.now ns.now) keys.now) };
}

/// The Server with a name.
#[derive(Clone, Copy)]
pub struct ServerNamed<'a> {
    pub name: &'a Text,
}

/// The Service with a name, at a port.
#[derive(Clone, Copy)]
pub struct ServiceAt<'a> {
    pub name: &'a Text,
    pub port: u16,
}

impl<'a> Attachment for ServerNamed<'a> {
    ghost is_parent = { λ server. is_server_parent server.name.now };

    ghost mark = { λ server ns. RouteOn ns parent.Server server.name.now };

    fn is_parent(&self, parent: &Parent) -> bool {
        is_server(parent.kind) && parent.name == *self.name
    }

    fn keys<'b>(&self, store: &'b Store, ns: &Text) -> Result<&'b [ObjKey], Memory> {
        rows_by_marks();
        routes_on(store, ns, ParentKind::Server, self.name)
    }
}

impl<'a> Attachment for ServiceAt<'a> {
    ghost is_parent = { λ service. is_service_parent service.name.now service.port };

    ghost mark = { λ service ns. RouteOn ns parent.Service service.name.now };

    fn is_parent(&self, parent: &Parent) -> bool {
        !is_server(parent.kind)
            && parent.name == *self.name
            && is_port_or_none(self.port, parent.port)
    }

    fn keys<'b>(&self, store: &'b Store, ns: &Text) -> Result<&'b [ObjKey], Memory> {
        rows_by_marks();
        routes_on(store, ns, ParentKind::Service, self.name)
    }
}

fn is_server(kind: ParentKind) -> bool
    ensures { result ≡ is_server kind }
{
    match kind {
        ParentKind::Server => true,
        ParentKind::Service => false,
    }
}

fn is_port_or_none(port: u16, asked: Option<u16>) -> bool
    ensures { result ≡ is_port_or_none port asked }
{
    match asked {
        Some(asked) => asked == port,
        None => true,
    }
}
