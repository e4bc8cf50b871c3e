// The outbound view of a target, with the marks that it reads.
ghost use Rattle.std.specs.Prelude.{◌≡◌, ◌≤◌, ◌+◌, ◌++◌, ◌∷◌, [], None, IfOk, OnOk, flat_map, map};
ghost use Rattle.view_types.specs.declared.mark.Mark.TheVariants.{IpPod, IpService, Obj, RouteOn};
ghost use Rattle.view_types.specs.declared.route.ParentKind.TheVariants as parent;
ghost use Rattle.view_rules.specs.Endpoints.{service_key};
ghost use Rattle.view_rules.specs.Outbound.{outbound, outbound_routes, to_address, to_service};
ghost use Rattle.view_rules.specs.Profiles.{service_at};
ghost use Rattle.view_rules.specs.Routes.{attached_routes, is_service_parent};
ghost use Rattle.mark_rules.specs.Reads.{address_reads, backends_of, cost, count_at, outbound_reads, routes_on, service_outbound_reads};

use mark_rules::laws::rows_by_marks;
use mesh_base::key::Kind;
use mesh_base::list::List;
use mesh_base::memory::Memory;
use mesh_base::steps::Steps;
use net_cidr::ip::Ip;
use net_cidr::packed_ip::PackedIp;
use policy_rows::candidates::add_all;
use policy_rows::parent::{Attachment, ServiceAt};
use policy_rows::routes::routes_among;
use policy_rows::snapshot::Snapshot;
use row_reads::references::{Reference, add_all_references, add_key};
use row_table::plain_row::PlainRow;
use view_scratch::address::{pod_at, service_at};
use view_scratch::opaque::is_opaque;
use view_scratch::outbound::{route_rows, to_pod};
use view_scratch::profile::ServicePort;
use view_scratch::service::service_held;
use view_types::mark::Mark;
use view_types::outbound::OutboundView;
use view_types::query::Target;
use view_types::route::{ParentKind, Route};
use view_types::server_view::RouteRow;

/// Returns the outbound view of a target.
pub(crate) fn outbound_of<L>(
    from: &Snapshot,
    target: &Target,
    steps: &mut Steps<L>,
) -> Result<PlainRow<OutboundView>, Memory>
    ensures row { IfOk result (λ found. found.row
        ≡ outbound from.now.config.now from.now.store.now.objects target.now) }
    ensures marks { IfOk result (λ found. found.marks
        ≡ outbound_reads from.now.store.now.objects target.now) }
    ensures steps { steps.new ≤ steps.old + cost from.now.store.now.objects
        (outbound_reads from.now.store.now.objects target.now) }
{
    match target {
        Target::Service { ns, name, port } => {
            let port = *port;
            to_service(
                from,
                &ServicePort { ns, name, port },
                List::new(from.alloc),
                steps,
            )
        }
        Target::Address { ip, port } => to_address(from, ip.get(), *port, steps),
    }
}

fn to_address<L>(
    from: &Snapshot,
    ip: Ip,
    port: u16,
    steps: &mut Steps<L>,
) -> Result<PlainRow<OutboundView>, Memory>
    ensures row { IfOk result (λ found. found.row ≡ to_address from.now.config.now
        from.now.store.now.objects ip port (service_at from.now.store.now.objects ip)) }
    ensures marks { IfOk result (λ found. found.marks ≡ IpService ip
        ∷ address_reads (service_outbound_reads from.now.store.now.objects) ip
        (service_at from.now.store.now.objects ip)) }
    ensures steps { steps.new ≤ steps.old + cost from.now.store.now.objects (IpService ip
        ∷ address_reads (service_outbound_reads from.now.store.now.objects) ip
        (service_at from.now.store.now.objects ip)) }
{
    let mut marks = List::new(from.alloc);
    marks.add(Mark::IpService(PackedIp::new(ip)))?;
    match service_at(from.store, ip, steps)? {
        Some(service) => {
            let ns = &service.meta.ns;
            let name = &service.meta.name;
            to_service(from, &ServicePort { ns, name, port }, marks, steps)
        }
        None => to_pod_at(from, ip, port, marks, steps),
    }
}

// Returns the view of an address that no Service has. Its mark is added to these.
fn to_pod_at<L>(
    from: &Snapshot,
    ip: Ip,
    port: u16,
    marks: List<Mark>,
    steps: &mut Steps<L>,
) -> Result<PlainRow<OutboundView>, Memory>
    ensures row { IfOk result (λ found. found.row ≡ to_address from.now.config.now
        from.now.store.now.objects ip port None) }
    ensures marks { IfOk result (λ found. found.marks ≡ marks ++ IpPod ip ∷ []) }
    ensures steps { steps.new ≤ steps.old + count_at from.now.store.now.objects (IpPod ip) }
{
    let mut marks = marks;
    marks.add(Mark::IpPod(PackedIp::new(ip)))?;
    let pod = pod_at(from.store, ip, steps)?;
    let row = to_pod(from.alloc, from.config, pod, ip, port)?;
    Ok(PlainRow { row, marks })
}

// Returns the view of a Service. Its marks are added to these.
fn to_service<L>(
    from: &Snapshot,
    asked: &ServicePort,
    marks: List<Mark>,
    steps: &mut Steps<L>,
) -> Result<PlainRow<OutboundView>, Memory>
    ensures row { IfOk result (λ found. found.row ≡ to_service from.now.store.now.objects
        asked.now.ns.now asked.now.name.now asked.now.port) }
    ensures marks { IfOk result (λ found. found.marks ≡ marks ++ service_outbound_reads
        from.now.store.now.objects asked.now.ns.now asked.now.name.now) }
    ensures steps { steps.new ≤ steps.old + cost from.now.store.now.objects
        (service_outbound_reads from.now.store.now.objects asked.now.ns.now asked.now.name.now) }
{
    rows_by_marks();
    let mut marks = marks;
    add_service(&mut marks, asked)?;
    let routes = routes_on(from, asked, &mut marks, steps)?;
    let row = through_routes(from, asked, routes.as_slice(), steps)?;
    Ok(PlainRow { row, marks })
}

// Adds the mark of a Service and that of its routes.
fn add_service(marks: &mut List<Mark>, asked: &ServicePort) -> Result<(), Memory>
    ensures { OnOk result (marks.new
        ≡ marks.old ++ Obj (service_key asked.now.ns.now asked.now.name.now)
        ∷ RouteOn asked.now.ns.now parent.Service asked.now.name.now ∷ []) }
{
    add_key(marks, Kind::Service, asked.ns, asked.name)?;
    marks.add(Mark::RouteOn(asked.ns.copy()?, ParentKind::Service, asked.name.copy()?))
}

// Returns the routes that are attached to a Service at a port. Adds the marks of the backends of
// its routes at all ports.
fn routes_on<'a, L>(
    from: &Snapshot<'a>,
    asked: &ServicePort,
    marks: &mut List<Mark>,
    steps: &mut Steps<L>,
) -> Result<Vec<&'a Route>, Memory>
    ensures routes { IfOk result (λ routes. map (λ route. route.now) routes.items
        ≡ attached_routes from.now.store.now.objects asked.now.ns.now
        (is_service_parent asked.now.name.now asked.now.port)) }
    ensures marks { OnOk result (marks.new ≡ marks.old ++ flat_map backends_of
        (routes_on from.now.store.now.objects asked.now.ns.now asked.now.name.now)) }
    ensures steps { steps.new ≤ steps.old + count_at from.now.store.now.objects
        (RouteOn asked.now.ns.now parent.Service asked.now.name.now) }
{
    let service = ServiceAt {
        name: asked.name,
        port: asked.port,
    };
    let keys = service.keys(from.store, asked.ns)?;
    let mut objects = Vec::new(from.alloc);
    add_all(from.store, keys, &mut objects, steps)?;
    let routes = routes_among(from.alloc, asked.ns, &service, objects.as_slice())?;
    add_all_references(marks, Reference::Backends, objects.as_slice())?;
    Ok(routes)
}

// Returns the view of a Service with these attached routes.
fn through_routes<L>(
    from: &Snapshot,
    asked: &ServicePort,
    routes: &[&Route],
    steps: &mut Steps<L>,
) -> Result<OutboundView, Memory>
    ensures view { IfOk result (λ view. map (λ route. route.now) routes.now
        ≡ attached_routes from.now.store.now.objects asked.now.ns.now
        (is_service_parent asked.now.name.now asked.now.port)
        → view ≡ to_service from.now.store.now.objects asked.now.ns.now asked.now.name.now
        asked.now.port) }
    ensures steps { steps.new ≤ steps.old + (count_at from.now.store.now.objects
        (Obj (service_key asked.now.ns.now asked.now.name.now))
        + cost from.now.store.now.objects (flat_map (λ route. backends_of route.now) routes.now)) }
{
    match service_held(from.store, asked.ns, asked.name, steps) {
        Some(service) if !service.external => Ok(OutboundView::Service {
            ns: asked.ns.copy()?,
            name: asked.name.copy()?,
            port: asked.port,
            opaque: is_opaque(from.alloc, &service.meta, asked.port)?,
            routes: shown_routes(from, asked, routes, steps)?,
        }),
        _ => Ok(OutboundView::Absent),
    }
}

// Returns the rows of the routes of a Service, if these are the attached ones.
fn shown_routes<L>(
    from: &Snapshot,
    asked: &ServicePort,
    routes: &[&Route],
    steps: &mut Steps<L>,
) -> Result<List<RouteRow>, Memory>
    ensures rows { IfOk result (λ rows. map (λ route. route.now) routes.now
        ≡ attached_routes from.now.store.now.objects asked.now.ns.now
        (is_service_parent asked.now.name.now asked.now.port)
        → rows ≡ outbound_routes from.now.store.now.objects asked.now.ns.now asked.now.name.now
        asked.now.port) }
    ensures steps { steps.new ≤ steps.old + cost from.now.store.now.objects
        (flat_map (λ route. backends_of route.now) routes.now) }
{
    route_rows(from, routes, steps)
}
