ghost use Rattle.std.specs.Prelude.{◌≡◌, ◌≤◌, ◌+◌, ◌++◌, [], ◌∷◌, IfOk, None};
ghost use Rattle.std.specs.Option.{option_copied};
ghost use Rattle.view_types.specs.declared.mark.Mark.TheVariants.{IpService, Obj};
ghost use Rattle.view_rules.specs.Profiles.{address_profile, as_profile, overrides_in, pod_profile, profile, profile_for, profile_found, profile_held, profile_key, routes_in, service_at, service_profile};
ghost use Rattle.mark_rules.specs.Reads.{address_reads, client_marks, cost, count_at, profile_reads_of, service_profile_reads};

use crate::address::{pod_at, service_at};
use crate::endpoint::row_of;
use crate::opaque::{is_opaque, is_opaque_by_default, is_opaque_for};
use crate::service::service_held;
use mesh_base::boxed::Boxed;
use mesh_base::copied::Copied;
use mesh_base::key::Kind;
use mesh_base::list::List;
use mesh_base::memory::Memory;
use mesh_base::steps::Steps;
use mesh_base::text::Text;
use mesh_text::mesh::full_name;
use net_cidr::ip::Ip;
use object_store::store::Store;
use policy_rows::snapshot::Snapshot;
use std::alloc::Global;
use view_types::config::Config;
use view_types::object::Object;
use view_types::outbound::ProfileView;
use view_types::pod::Pod;
use view_types::profile::{Override, Profile, ProfileRoute};
use view_types::query::Target;

/// A port of the Service of a namespace and name.
#[derive(Clone, Copy)]
pub struct ServicePort<'a> {
    pub ns: &'a Text,
    pub name: &'a Text,
    pub port: u16,
}

/// Returns the profile of a target, for a client in this namespace if it declares one.
pub fn profile<L>(
    from: &Snapshot,
    target: &Target,
    client: &Option<Text>,
    steps: &mut Steps<L>,
) -> Result<ProfileView, Memory>
    ensures value { IfOk result (λ view.
        view ≡ profile from.now.config.now from.now.store.now.objects target.now client.now) }
    ensures steps { steps.new ≤ steps.old + cost from.now.store.now.objects (profile_reads_of
        from.now.config.now from.now.store.now.objects client.now target.now) }
{
    match target {
        Target::Service { ns, name, port } => {
            let port = *port;
            service_profile(from, client, &ServicePort { ns, name, port }, steps)
        }
        Target::Address { ip, port } => address_profile(from, client, ip.get(), *port, steps),
    }
}

#[tactic(auto, using(mark_rules::proofs::Counts::cost_cons))]
fn address_profile<L>(
    from: &Snapshot,
    client: &Option<Text>,
    ip: Ip,
    port: u16,
    steps: &mut Steps<L>,
) -> Result<ProfileView, Memory>
    ensures value { IfOk result (λ view.
        view ≡ address_profile from.now.config.now from.now.store.now.objects client.now ip port
        (service_at from.now.store.now.objects ip)) }
    ensures steps { steps.new ≤ steps.old + cost from.now.store.now.objects (IpService ip
        ∷ address_reads (service_profile_reads from.now.config.now client.now) ip
        (service_at from.now.store.now.objects ip)) }
{
    match service_at(from.store, ip, steps)? {
        Some(service) => {
            let ns = &service.meta.ns;
            let name = &service.meta.name;
            service_profile(from, client, &ServicePort { ns, name, port }, steps)
        }
        None => {
            let pod = pod_at(from.store, ip, steps)?;
            pod_profile(from.alloc, from.config, pod, ip, port)
        }
    }
}

/// Returns the profile of a Service port, from the ServiceProfile in the client's namespace or the
/// Service's.
pub fn service_profile<L>(
    from: &Snapshot,
    client: &Option<Text>,
    asked: &ServicePort,
    steps: &mut Steps<L>,
) -> Result<ProfileView, Memory>
    ensures value { IfOk result (λ view.
        view ≡ service_profile from.now.config.now from.now.store.now.objects client.now
        asked.now.ns.now asked.now.name.now asked.now.port) }
    ensures steps { steps.new ≤ steps.old + cost from.now.store.now.objects (service_profile_reads
        from.now.config.now client.now asked.now.ns.now asked.now.name.now) }
{
    let fqn = full_name(from.alloc, from.config, asked.ns, asked.name)?;
    let service = service_held(from.store, asked.ns, asked.name, steps);
    let opaque = is_opaque_for(from.alloc, service, asked.port)?;
    let found = profile_for(from.store, client, asked.ns, &fqn, steps);
    let routes = routes_in(from.alloc, found)?;
    let overrides = overrides_in(from.alloc, found)?;
    Ok(ProfileView {
        fqn,
        opaque,
        routes,
        overrides,
        endpoint: None,
    })
}

/// Returns the profile of the full name in the client's namespace, if it has one, or in the
/// Service's.
fn profile_for<'a, L>(
    store: &'a Store,
    client: &Option<Text>,
    ns: &Text,
    full: &Text,
    steps: &mut Steps<L>,
) -> Option<&'a Profile>
    ensures value { option_copied result
        ≡ profile_for store.now.objects client.now ns.now full.now }
    ensures steps { steps.new ≤ steps.old + cost store.now.objects
        (client_marks client.now full.now ++ Obj (profile_key ns.now full.now) ∷ []) }
{
    match client {
        Some(client) => match profile_held(store, client, full, steps) {
            Some(profile) => Some(profile),
            None => profile_held(store, ns, full, steps),
        },
        None => profile_held(store, ns, full, steps),
    }
}

fn profile_held<'a, L>(
    store: &'a Store,
    ns: &Text,
    name: &Text,
    steps: &mut Steps<L>,
) -> Option<&'a Profile>
    ensures value { option_copied result ≡ profile_held store.now.objects ns.now name.now }
    ensures steps { steps.new ≤ steps.old
        + count_at store.now.objects (Obj (profile_key ns.now name.now)) }
{
    profile_found(store.find(Kind::ServiceProfile, ns, name, steps))
}

fn profile_found(found: Option<&Object>) -> Option<&Profile>
    ensures { option_copied result ≡ profile_found (option_copied found.entry) }
{
    match found {
        Some(object) => as_profile(object),
        None => None,
    }
}

fn as_profile(object: &Object) -> Option<&Profile>
    ensures { option_copied result ≡ as_profile object.now }
{
    match object {
        Object::ServiceProfile(boxed) => Some(boxed.get()),
        _ => None,
    }
}

fn routes_in(alloc: Global, found: Option<&Profile>) -> Result<List<ProfileRoute>, Memory>
    ensures { IfOk result (λ routes. routes ≡ routes_in (option_copied found.entry)) }
{
    match found {
        Some(profile) => profile.routes.copy(alloc),
        None => Ok(List::new(alloc)),
    }
}

fn overrides_in(alloc: Global, found: Option<&Profile>) -> Result<List<Override>, Memory>
    ensures { IfOk result (λ overrides. overrides ≡ overrides_in (option_copied found.entry)) }
{
    match found {
        Some(profile) => profile.overrides.copy(alloc),
        None => Ok(List::new(alloc)),
    }
}

/// Returns the profile of an address that no Service has, from the Pod that has it, if there is
/// one.
pub fn pod_profile(
    alloc: Global,
    config: &Config,
    pod: Option<&Pod>,
    ip: Ip,
    port: u16,
) -> Result<ProfileView, Memory>
    ensures { IfOk result (λ view.
        view ≡ pod_profile config.now (option_copied pod.entry) ip port) }
{
    let mut view = ProfileView {
        fqn: Text::from_str(alloc, "")?,
        opaque: false,
        routes: List::new(alloc),
        overrides: List::new(alloc),
        endpoint: None,
    };
    match pod {
        Some(pod) => {
            view.opaque = is_opaque(alloc, &pod.meta, port)?;
            let row = row_of(alloc, config, Some(pod), ip, port)?;
            view.endpoint = Some(Boxed::new(alloc, row)?);
        }
        None => view.opaque = is_opaque_by_default(alloc, port)?,
    }
    Ok(view)
}
