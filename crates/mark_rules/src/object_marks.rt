ghost use Rattle.std.specs.Prelude.{◌≡◌, ◌&&◌, not, ◌++◌, IfOk, OnOk, flat_map, map};
ghost use Rattle.std.specs.Option.{unwrap_or};
ghost use Rattle.mesh_text.specs.Mesh.{is_some_text};
ghost use Rattle.view_types.specs.declared.mark.Mark.TheVariants.{IpPod, IpService};
ghost use Rattle.view_rules.specs.Endpoints.{service_of};
ghost use Rattle.view_rules.specs.Policies.{ns_of};
ghost use Rattle.view_rules.specs.Profiles.{has_ended};
ghost use Rattle.mark_rules.specs.Marks.{each_once, has_own_addresses, label_marks, marks_of, other_marks, parent_mark, pod_marks, policy_marks, route_marks, service_marks, targets_own};

use crate::marks::{compare_marks, is_same_mark};
use mesh_base::list::List;
use mesh_base::memory::Memory;
use mesh_base::text::Text;
use net_cidr::ip::Ip;
use net_cidr::packed_ip::PackedIp;
use std::alloc::Global;
use view_types::authn::AuthzPolicy;
use view_types::mark::Mark;
use view_types::object::Object;
use view_types::pod::Pod;
use view_types::route::{Parent, Route};
use view_types::service::Service;
use view_types::slice::Slice;

/// Returns the marks of an object, that of its key first.
pub fn marks_of(alloc: Global, object: &Object) -> Result<List<Mark>, Memory>
    ensures { IfOk result (λ marks. marks ≡ marks_of object.now) }
{
    let mut marks = List::new(alloc);
    add_marks(alloc, &mut marks, object)?;
    Ok(marks)
}

/// Adds the marks of an object.
pub fn add_marks(alloc: Global, marks: &mut List<Mark>, object: &Object) -> Result<(), Memory>
    ensures { OnOk result (marks.new ≡ marks.old ++ marks_of object.now) }
{
    marks.add(Mark::Obj(object.key(alloc)?))?;
    add_others(marks, object)
}

/// Adds the marks of all these objects.
pub fn add_all_marks(
    alloc: Global,
    marks: &mut List<Mark>,
    objects: &[Object],
) -> Result<(), Memory>
    ensures { OnOk result (marks.new ≡ marks.old ++ flat_map marks_of objects.now) }
{
    for object in objects {
        add_marks(alloc, marks, object)?;
    }
    Ok(())
}

/// Sorts marks and removes duplicates.
pub fn keep_once(marks: List<Mark>) -> Result<List<Mark>, Memory>
    ensures { IfOk result (λ kept. kept ≡ each_once marks) }
{
    let mut marks = marks.into_vec();
    marks.sort_by(|a, b| compare_marks(a, b))?;
    marks.dedup_by(|mark, kept| is_same_mark(mark, kept));
    Ok(List::from_vec(marks))
}

/// Adds the marks of an object other than that of its key.
pub fn add_others(marks: &mut List<Mark>, object: &Object) -> Result<(), Memory>
    ensures { OnOk result (marks.new ≡ marks.old ++ other_marks object.now) }
{
    match object {
        Object::Pod(pod) => add_pod(marks, pod.get()),
        Object::Service(service) => add_service(marks, service.get()),
        Object::EndpointSlice(slice) => add_slice(marks, slice.get()),
        Object::Server(server) => marks.add(Mark::ServersIn(server.get().meta.ns.copy()?)),
        Object::ServerAuthorization(authorization) => {
            marks.add(Mark::ServerAuthzIn(authorization.get().meta.ns.copy()?))
        }
        Object::AuthorizationPolicy(policy) => add_policy(marks, policy.get()),
        Object::LinkerdRoute(route) => add_route(marks, route.get()),
        Object::GatewayRoute(route) => add_route(marks, route.get()),
        Object::ServiceProfile(_) => Ok(()),
        Object::MeshTLSAuthentication(_) => Ok(()),
        Object::NetworkAuthentication(_) => Ok(()),
    }
}

fn add_pod(marks: &mut List<Mark>, pod: &Pod) -> Result<(), Memory>
    ensures { OnOk result (marks.new ≡ marks.old ++ pod_marks pod.now) }
{
    if has_own_addresses(pod) {
        return add_pod_addresses(marks, pod.addrs.as_slice());
    }
    Ok(())
}

fn has_own_addresses(pod: &Pod) -> bool
    ensures { result ≡ has_own_addresses pod.now }
{
    !pod.host_network && !has_ended(pod)
}

fn has_ended(pod: &Pod) -> bool
    ensures { result ≡ has_ended pod.now }
{
    is_text(&pod.phase, "Succeeded") || is_text(&pod.phase, "Failed")
}

fn is_text(found: &Option<Text>, text: &str) -> bool
    ensures { result ≡ is_some_text text.now found.now }
{
    match found {
        Some(found) => found.as_str() == text,
        None => false,
    }
}

fn add_pod_addresses(marks: &mut List<Mark>, addrs: &[Ip]) -> Result<(), Memory>
    ensures { OnOk result (marks.new ≡ marks.old ++ map IpPod addrs.now) }
{
    for ip in addrs {
        marks.add(Mark::IpPod(PackedIp::new(*ip)))?;
    }
    Ok(())
}

fn add_service(marks: &mut List<Mark>, service: &Service) -> Result<(), Memory>
    ensures { OnOk result (marks.new ≡ marks.old ++ service_marks service.now) }
{
    if service.external {
        return Ok(());
    }
    add_service_addresses(marks, service.addrs.as_slice())
}

fn add_service_addresses(marks: &mut List<Mark>, addrs: &[Ip]) -> Result<(), Memory>
    ensures { OnOk result (marks.new ≡ marks.old ++ map IpService addrs.now) }
{
    for ip in addrs {
        marks.add(Mark::IpService(PackedIp::new(*ip)))?;
    }
    Ok(())
}

fn add_slice(marks: &mut List<Mark>, slice: &Slice) -> Result<(), Memory>
    ensures { OnOk result
        (marks.new ≡ marks.old ++ label_marks slice.now.meta.ns (service_of slice.now)) }
{
    match slice.meta.labels.get(b"kubernetes.io/service-name") {
        Some(service) => marks.add(Mark::SlicesOf(slice.meta.ns.copy()?, service.copy()?)),
        None => Ok(()),
    }
}

fn add_policy(marks: &mut List<Mark>, policy: &AuthzPolicy) -> Result<(), Memory>
    ensures { OnOk result (marks.new ≡ marks.old ++ policy_marks policy.now) }
{
    if targets_own(policy) {
        let target = &policy.target;
        let ns = policy.meta.ns.copy()?;
        return marks.add(Mark::PolicyOn(ns, target.kind, target.name.copy()?));
    }
    Ok(())
}

fn targets_own(policy: &AuthzPolicy) -> bool
    ensures { result ≡ targets_own policy.now }
{
    match &policy.target.ns {
        Some(ns) => *ns == policy.meta.ns,
        None => true,
    }
}

fn add_route(marks: &mut List<Mark>, route: &Route) -> Result<(), Memory>
    ensures { OnOk result (marks.new ≡ marks.old ++ route_marks route.now) }
{
    for parent in route.parents.as_slice() {
        marks.add(parent_mark(&route.meta.ns, parent)?)?;
    }
    Ok(())
}

fn parent_mark(ns: &Text, parent: &Parent) -> Result<Mark, Memory>
    ensures { IfOk result (λ mark. mark ≡ parent_mark ns.now parent.now) }
{
    Ok(Mark::RouteOn(ns.copy()?, parent.kind, parent.name.copy()?))
}
