// The marks that each row reads.
ghost use Rattle.std.specs.Prelude.{◌≡◌, ◌++◌, [], ◌∷◌, false, IfOk, OnOk};
ghost use Rattle.std.specs.Option.{option_copied};
ghost use Rattle.view_rules.specs.Profiles.{service_at};
ghost use Rattle.view_types.specs.declared.mark.Mark.TheVariants.{IpService, Obj, PolicyOn, RouteOn, ServerAuthzIn, SlicesOf};
ghost use Rattle.view_types.specs.declared.route.ParentKind.TheVariants as parent;
ghost use Rattle.mesh_base.specs.declared.key.Kind.TheVariants as kind;
ghost use Rattle.row_reads.specs.References.{HaveSame, authz_at, read_at};
ghost use Rattle.mark_rules.specs.Reads.{address_reads, authz_reads, client_marks, endpoint_reads, outbound_reads, profile_reads, reads, route_reads, server_reads, service_outbound_reads, service_profile_reads};

use crate::at_mark::Reader;
use crate::references::{Reference, add_key};
use mark_rules::keys::{EndpointKey, ProfileKey, RouteKey, RowKey, ServerKey};
use mark_rules::laws::addresses_by_mark;
use mesh_base::copied::Copied;
use mesh_base::key::{Kind, ObjKey};
use mesh_base::list::List;
use mesh_base::memory::Memory;
use mesh_base::steps::Steps;
use mesh_base::text::Text;
use mesh_text::mesh::full_name;
use net_cidr::ip::Ip;
use net_cidr::packed_ip::PackedIp;
use std::alloc::Global;
use view_types::authn::RefKind;
use view_types::mark::Mark;
use view_types::object::Object;
use view_types::query::Target;
use view_types::route::ParentKind;
use view_types::service::Service;

/// Returns the marks that the row of a port's Server reads: its Pod, and the Servers of the
/// namespace.
pub fn server_reads(alloc: Global, key: &ServerKey) -> Result<List<Mark>, Memory>
    ensures { IfOk result (λ marks. marks ≡ server_reads key.now) }
{
    let mut marks = List::from_vec(Vec::with_capacity(alloc, 2)?);
    add_key(&mut marks, Kind::Pod, &key.ns, &key.pod)?;
    marks.add(Mark::ServersIn(key.ns.copy()?))?;
    Ok(marks)
}

/// Returns the mark that the row of a Server's routes reads: the routes with the Server as a
/// parent.
pub fn route_reads(alloc: Global, key: &RouteKey) -> Result<List<Mark>, Memory>
    ensures { IfOk result (λ marks. marks ≡ route_reads key.now) }
{
    let mut marks = List::new(alloc);
    add_routes(&mut marks, &key.ns, &key.server)?;
    Ok(marks)
}

/// Adds the mark of the routes with the Server as a parent.
pub fn add_routes(marks: &mut List<Mark>, ns: &Text, name: &Text) -> Result<(), Memory>
    ensures { OnOk result (marks.new ≡ marks.old ++ RouteOn ns.now parent.Server name.now ∷ []) }
{
    marks.add(routes_on(ns, ParentKind::Server, name)?)
}

fn slices_of(ns: &Text, name: &Text) -> Result<Mark, Memory>
    ensures { IfOk result (λ mark. mark ≡ SlicesOf ns.now name.now) }
{
    Ok(Mark::SlicesOf(ns.copy()?, name.copy()?))
}

/// Returns the mark of the routes with a parent of this kind and name.
fn routes_on(ns: &Text, kind: ParentKind, name: &Text) -> Result<Mark, Memory>
    ensures { IfOk result (λ mark. mark ≡ RouteOn ns.now kind name.now) }
{
    Ok(Mark::RouteOn(ns.copy()?, kind, name.copy()?))
}

impl Reader<'_> {
    /// Returns the marks that a row reads, possibly with duplicates.
    pub fn reads<L>(&self, row: &RowKey, steps: &mut Steps<L>) -> Result<List<Mark>, Memory>
        ensures { self.now.store.now.spent ≡ false → IfOk result (λ marks.
            HaveSame marks (reads self.now.config.now self.now.store.now.objects row.now)) }
    {
        match row {
            RowKey::Endpoint(key) => self.endpoint_reads(key, steps),
            RowKey::Profile(key) => self.profile_reads(key, steps),
            RowKey::Server(key) => server_reads(self.alloc, key),
            RowKey::Route(key) => route_reads(self.alloc, key),
            RowKey::Authz(key) => self.authz_reads(key, steps),
            RowKey::Outbound(target) => self.outbound_reads(target, steps),
        }
    }

    /// Returns the marks that a row of endpoints reads: its Service, its EndpointSlices, and their
    /// Pods.
    pub fn endpoint_reads<L>(
        &self,
        key: &EndpointKey,
        steps: &mut Steps<L>,
    ) -> Result<List<Mark>, Memory>
        ensures { self.now.store.now.spent ≡ false → IfOk result
            (λ marks. marks ≡ endpoint_reads self.now.store.now.objects key.now) }
    {
        let mut marks = List::new(self.alloc);
        add_key(&mut marks, Kind::Service, &key.ns, &key.name)?;
        let slices = slices_of(&key.ns, &key.name)?;
        self.add_read(&slices, Reference::Pods, &mut marks, steps)?;
        Ok(marks)
    }

    /// Adds the marks that the outbound row of a Service reads: the Service, its routes, and the
    /// Services of their backends.
    fn add_service_outbound<L>(
        &self,
        ns: &Text,
        name: &Text,
        marks: &mut List<Mark>,
        steps: &mut Steps<L>,
    ) -> Result<(), Memory>
        ensures { self.now.store.now.spent ≡ false → OnOk result (marks.new ≡ marks.old
            ++ service_outbound_reads self.now.store.now.objects ns.now name.now) }
    {
        add_key(marks, Kind::Service, ns, name)?;
        let routes = routes_on(ns, ParentKind::Service, name)?;
        self.add_read(&routes, Reference::Backends, marks, steps)
    }

    // Returns the Service at an address, if there is one.
    fn service_at<L>(&self, ip: Ip, steps: &mut Steps<L>) -> Option<&Service>
        ensures { self.now.store.now.spent ≡ false
            → option_copied result ≡ service_at self.now.store.now.objects ip }
    {
        addresses_by_mark();
        self.store.stand_at_keys();
        let key = self.store.service_at(ip)?;
        match self.store.get(key, steps)? {
            Object::Service(service) => Some(service.get()),
            _ => None,
        }
    }

    /// Returns the marks that an outbound row reads. For an address these are the marks of the
    /// Service, or of the Pods, at the address.
    pub fn outbound_reads<L>(
        &self,
        target: &Target,
        steps: &mut Steps<L>,
    ) -> Result<List<Mark>, Memory>
        ensures { self.now.store.now.spent ≡ false → IfOk result
            (λ marks. marks ≡ outbound_reads self.now.store.now.objects target.now) }
    {
        let mut marks = List::new(self.alloc);
        self.add_outbound(target, &mut marks, steps)?;
        Ok(marks)
    }

    fn add_outbound<L>(
        &self,
        target: &Target,
        marks: &mut List<Mark>,
        steps: &mut Steps<L>,
    ) -> Result<(), Memory>
        ensures { self.now.store.now.spent ≡ false → OnOk result (marks.new ≡ marks.old
            ++ outbound_reads self.now.store.now.objects target.now) }
    {
        match target {
            Target::Service { ns, name, .. } => self.add_service_outbound(ns, name, marks, steps),
            Target::Address { ip, .. } => self.add_address_outbound(ip.get(), marks, steps),
        }
    }

    fn add_address_outbound<L>(
        &self,
        ip: Ip,
        marks: &mut List<Mark>,
        steps: &mut Steps<L>,
    ) -> Result<(), Memory>
        ensures { self.now.store.now.spent ≡ false → OnOk result (marks.new ≡ marks.old
            ++ IpService ip ∷ address_reads
            (service_outbound_reads self.now.store.now.objects) ip
            (service_at self.now.store.now.objects ip)) }
    {
        marks.add(Mark::IpService(PackedIp::new(ip)))?;
        match self.service_at(ip, steps) {
            Some(service) => {
                self.add_service_outbound(&service.meta.ns, &service.meta.name, marks, steps)
            }
            None => marks.add(Mark::IpPod(PackedIp::new(ip))),
        }
    }

    /// Returns the marks that a row of profiles reads: the Service and its ServiceProfiles. For an
    /// address these are the marks of the Service, or of the Pods, at the address.
    pub fn profile_reads<L>(
        &self,
        key: &ProfileKey,
        steps: &mut Steps<L>,
    ) -> Result<List<Mark>, Memory>
        ensures { self.now.store.now.spent ≡ false → IfOk result (λ marks.
            marks ≡ profile_reads self.now.config.now self.now.store.now.objects key.now) }
    {
        let mut marks = List::new(self.alloc);
        self.add_profile(key, &mut marks, steps)?;
        Ok(marks)
    }

    fn add_profile<L>(
        &self,
        key: &ProfileKey,
        marks: &mut List<Mark>,
        steps: &mut Steps<L>,
    ) -> Result<(), Memory>
        ensures { self.now.store.now.spent ≡ false → OnOk result (marks.new ≡ marks.old
            ++ profile_reads self.now.config.now self.now.store.now.objects key.now) }
    {
        match &key.target {
            Target::Service { ns, name, .. } => {
                self.add_service_profile(&key.client, ns, name, marks)
            }
            Target::Address { ip, .. } => self.add_address_profile(
                &key.client,
                ip.get(),
                marks,
                steps,
            ),
        }
    }

    fn add_address_profile<L>(
        &self,
        client: &Option<Text>,
        ip: Ip,
        marks: &mut List<Mark>,
        steps: &mut Steps<L>,
    ) -> Result<(), Memory>
        ensures { self.now.store.now.spent ≡ false → OnOk result (marks.new ≡ marks.old
            ++ IpService ip ∷ address_reads
            (service_profile_reads self.now.config.now client.now) ip
            (service_at self.now.store.now.objects ip)) }
    {
        marks.add(Mark::IpService(PackedIp::new(ip)))?;
        match self.service_at(ip, steps) {
            Some(service) => {
                let meta = &service.meta;
                self.add_service_profile(client, &meta.ns, &meta.name, marks)
            }
            None => marks.add(Mark::IpPod(PackedIp::new(ip))),
        }
    }

    fn add_service_profile(
        &self,
        client: &Option<Text>,
        ns: &Text,
        name: &Text,
        marks: &mut List<Mark>,
    ) -> Result<(), Memory>
        ensures { OnOk result (marks.new ≡ marks.old
            ++ service_profile_reads self.now.config.now client.now ns.now name.now) }
    {
        let full = full_name(self.alloc, self.config, ns, name)?;
        add_client(marks, client, &full)?;
        add_key(marks, Kind::ServiceProfile, ns, &full)?;
        add_key(marks, Kind::Service, ns, name)
    }

    /// Returns the marks that the authorizations of a Server or a route read, possibly with
    /// duplicates: the Server, what may apply to it or to the route, and the authentications that
    /// the policies refer to, held or not.
    pub fn authz_reads<L>(&self, key: &ObjKey, steps: &mut Steps<L>) -> Result<List<Mark>, Memory>
        ensures { self.now.store.now.spent ≡ false → IfOk result (λ marks.
            HaveSame marks (authz_reads self.now.store.now.objects key.now)) }
    {
        let mut marks = List::new(self.alloc);
        self.add_authz(key, &mut marks, steps)?;
        Ok(marks)
    }

    pub(crate) fn add_authz<L>(
        &self,
        key: &ObjKey,
        marks: &mut List<Mark>,
        steps: &mut Steps<L>,
    ) -> Result<(), Memory>
        ensures { self.now.store.now.spent ≡ false → OnOk result (marks.new ≡ marks.old
            ++ authz_at self.now.store.now.objects key.now key.now.kind) }
    {
        match key.kind {
            Kind::Server => self.add_server_authz(key, marks, steps),
            Kind::LinkerdRoute => self.add_route_authz(key, RefKind::LinkerdRoute, marks, steps),
            Kind::GatewayRoute => self.add_route_authz(key, RefKind::GatewayRoute, marks, steps),
            _ => Ok(()),
        }
    }

    fn add_server_authz<L>(
        &self,
        key: &ObjKey,
        marks: &mut List<Mark>,
        steps: &mut Steps<L>,
    ) -> Result<(), Memory>
        ensures { self.now.store.now.spent ≡ false → OnOk result (marks.new ≡ marks.old
            ++ authz_at self.now.store.now.objects key.now kind.Server) }
    {
        add_own(self.alloc, marks, key)?;
        let in_namespace = authz_in(&key.ns)?;
        self.add_read(&in_namespace, Reference::Authentications, marks, steps)?;
        let on_server = policies_on(&key.ns, RefKind::Server, &key.name)?;
        self.add_read(&on_server, Reference::Authentications, marks, steps)?;
        let on_namespace = policies_on(&key.ns, RefKind::Namespace, &key.ns)?;
        self.add_read(&on_namespace, Reference::Authentications, marks, steps)
    }

    fn add_route_authz<L>(
        &self,
        key: &ObjKey,
        target: RefKind,
        marks: &mut List<Mark>,
        steps: &mut Steps<L>,
    ) -> Result<(), Memory>
        ensures { self.now.store.now.spent ≡ false → OnOk result (marks.new ≡ marks.old
            ++ read_at self.now.store.now.objects Reference.Authentications
            (PolicyOn key.now.ns target key.now.name)) }
    {
        let on_route = policies_on(&key.ns, target, &key.name)?;
        self.add_read(&on_route, Reference::Authentications, marks, steps)
    }
}

fn add_own(alloc: Global, marks: &mut List<Mark>, key: &ObjKey) -> Result<(), Memory>
    ensures { OnOk result (marks.new ≡ marks.old ++ Obj key.now ∷ []) }
{
    marks.add(Mark::Obj(key.copy(alloc)?))
}

/// Returns the mark of the ServerAuthorizations of a namespace.
pub fn authz_in(ns: &Text) -> Result<Mark, Memory>
    ensures { IfOk result (λ mark. mark ≡ ServerAuthzIn ns.now) }
{
    Ok(Mark::ServerAuthzIn(ns.copy()?))
}

/// Returns the mark of the AuthorizationPolicies of a namespace with this target.
pub fn policies_on(ns: &Text, target: RefKind, name: &Text) -> Result<Mark, Memory>
    ensures { IfOk result (λ mark. mark ≡ PolicyOn ns.now target name.now) }
{
    Ok(Mark::PolicyOn(ns.copy()?, target, name.copy()?))
}

// Adds the mark of the ServiceProfile in the namespace of the client, if it declares one.
fn add_client(marks: &mut List<Mark>, client: &Option<Text>, full: &Text) -> Result<(), Memory>
    ensures { OnOk result (marks.new ≡ marks.old ++ client_marks client.now full.now) }
{
    match client {
        Some(client) => add_key(marks, Kind::ServiceProfile, client, full),
        None => Ok(()),
    }
}
