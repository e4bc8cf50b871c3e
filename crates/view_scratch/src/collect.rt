ghost use Rattle.std.specs.Prelude.{◌≡◌, ◌≤◌, ◌+◌, ◌++◌, ◌∷◌, ◌&&◌, IfOk, OnOk, filter_map, flat_map, if◌then◌else◌, is_some, map, None, option_and_then, option_to_list, Some};
ghost use Rattle.std.specs.FinMap.{get};
ghost use Rattle.std.specs.Option.{option_copied};
ghost use Rattle.std.specs.Str.{bytes_eq};
ghost use Rattle.view_types.specs.declared.mark.Mark.TheVariants.{SlicesOf};
ghost use Rattle.view_rules.specs.Endpoints.{has_addresses, is_text, point_rows, service_of, slice_in, slice_rows, slices_held};
ghost use Rattle.view_rules.specs.PodRows.{row_for};
ghost use Rattle.mark_rules.specs.Reads.{cost, point_marks, pods_of, target_marks};
ghost use Rattle.view_scratch.specs.Parts.{number_at, row_at, rows_of_point};

use crate::endpoint::Endpoint;
use crate::pod::pod_held;
use mark_rules::laws::rows_by_marks;
use mesh_base::key::ObjKey;
use mesh_base::list::List;
use mesh_base::memory::Memory;
use mesh_base::steps::Steps;
use mesh_base::text::Text;
use net_cidr::ip::Ip;
use object_store::store::Store;
use policy_rows::by_mark::slices_of;
use policy_rows::snapshot::Snapshot;
use std::alloc::Global;
use view_types::endpoint::EndpointRow;
use view_types::object::Object;
use view_types::service::NamedPort;
use view_types::slice::{Family, Point, Slice};

/// Returns the rows from the places of the Service's slices at ports with this name. A pair of
/// address and port occurs once per place.
pub(crate) fn rows_of_places<L>(
    from: &Snapshot,
    ns: &Text,
    name: &Text,
    port_name: &Text,
    steps: &mut Steps<L>,
) -> Result<List<EndpointRow>, Memory>
    ensures value { IfOk result (λ rows.
        rows ≡ flat_map (slice_rows (row_for from.now.config.now from.now.store.now.objects)
        port_name.now) (slices_held from.now.store.now.objects ns.now name.now)) }
    ensures steps { steps.new ≤ steps.old + cost from.now.store.now.objects
        (SlicesOf ns.now name.now
        ∷ flat_map pods_of (slices_held from.now.store.now.objects ns.now name.now)) }
{
    rows_by_marks();
    let keys = slices_of(from.store, ns, name)?;
    let mut rows = List::new(from.alloc);
    for key in keys {
        let slice = slice_at(from.store, key, ns, name, steps);
        add_found(from, &mut rows, slice, port_name, steps)?;
    }
    Ok(rows)
}

/// Returns the slice under the key, if it is one of the Service's.
#[tactic(auto, using(object_store::proofs::Counts::copied_some))]
pub fn slice_at<'a, L>(
    store: &'a Store,
    key: &ObjKey,
    ns: &Text,
    name: &Text,
    steps: &mut Steps<L>,
) -> Option<&'a Slice>
    ensures value { option_copied result
        ≡ option_and_then (slice_in ns.now name.now) (get store.now.objects key.now) }
    ensures steps { steps.new ≤ steps.old
        + (if is_some (get store.now.objects key.now) then 1 else 0) }
{
    match store.get(key, steps) {
        Some(object) => slice_in(object, ns, name),
        None => None,
    }
}

fn add_found<L>(
    from: &Snapshot,
    rows: &mut List<EndpointRow>,
    slice: Option<&Slice>,
    port_name: &Text,
    steps: &mut Steps<L>,
) -> Result<(), Memory>
    ensures rows { OnOk result (rows.new
        ≡ rows.old ++ flat_map (slice_rows (row_for from.now.config.now from.now.store.now.objects)
        port_name.now) (option_to_list (option_copied slice.entry))) }
    ensures steps { steps.new ≤ steps.old + cost from.now.store.now.objects
        (flat_map pods_of (option_to_list (option_copied slice.entry))) }
{
    match slice {
        Some(slice) => add_slice(from, rows, slice, port_name, steps),
        None => Ok(()),
    }
}

fn slice_in<'a>(object: &'a Object, ns: &Text, name: &Text) -> Option<&'a Slice>
    ensures { option_copied result ≡ slice_in ns.now name.now object.now }
{
    match object {
        Object::EndpointSlice(boxed) => {
            let slice = boxed.get();
            if slice.meta.ns == *ns && is_of(slice, name) {
                Some(slice)
            } else {
                None
            }
        }
        _ => None,
    }
}

fn is_of(slice: &Slice, name: &Text) -> bool
    ensures { result ≡ is_text name.now (service_of slice.now) }
{
    match slice.meta.labels.get(b"kubernetes.io/service-name") {
        Some(service) => *service == *name,
        None => false,
    }
}

/// Adds the rows from the places of the slice at ports with this name.
pub fn add_slice<L>(
    from: &Snapshot,
    rows: &mut List<EndpointRow>,
    slice: &Slice,
    port_name: &Text,
    steps: &mut Steps<L>,
) -> Result<(), Memory>
    ensures rows { OnOk result (rows.new
        ≡ rows.old ++ slice_rows (row_for from.now.config.now from.now.store.now.objects)
        port_name.now slice.now) }
    ensures steps { steps.new ≤ steps.old
        + cost from.now.store.now.objects (pods_of slice.now) }
{
    match slice.family {
        Family::V4 | Family::V6 => add_places(from, rows, slice, port_name, steps),
        Family::Fqdn => Ok(()),
    }
}

fn add_places<L>(
    from: &Snapshot,
    rows: &mut List<EndpointRow>,
    slice: &Slice,
    port_name: &Text,
    steps: &mut Steps<L>,
) -> Result<(), Memory>
    ensures rows { OnOk result (rows.new
        ≡ rows.old ++ flat_map (point_rows (row_for from.now.config.now from.now.store.now.objects)
        port_name.now slice.now.ports) slice.now.points) }
    ensures steps { steps.new ≤ steps.old
        + cost from.now.store.now.objects (flat_map point_marks slice.now.points) }
{
    let numbers = numbers_named(from.alloc, slice.ports.as_slice(), port_name)?;
    let points = slice.points.as_slice();
    add_points(from, rows, points, numbers.as_slice(), steps)
}

/// Returns the numbers of the TCP ports with the name.
fn numbers_named(alloc: Global, ports: &[NamedPort], name: &Text) -> Result<List<u16>, Memory>
    ensures { IfOk result (λ numbers. numbers ≡ filter_map (number_at name.now) ports.now) }
{
    let mut numbers = List::new(alloc);
    for port in ports {
        add_number(&mut numbers, number_at(port, name))?;
    }
    Ok(numbers)
}

fn add_number(numbers: &mut List<u16>, number: Option<u16>) -> Result<(), Memory>
    ensures { OnOk result (numbers.new ≡ numbers.old ++ option_to_list number) }
{
    match number {
        Some(number) => numbers.add(number),
        None => Ok(()),
    }
}

fn number_at(port: &NamedPort, name: &Text) -> Option<u16>
    ensures { result ≡ number_at name.now port.now }
{
    if port.tcp && port.name == *name {
        return Some(port.port);
    }
    None
}

fn add_points<L>(
    from: &Snapshot,
    rows: &mut List<EndpointRow>,
    points: &[Point],
    numbers: &[u16],
    steps: &mut Steps<L>,
) -> Result<(), Memory>
    ensures rows { OnOk result (rows.new
        ≡ rows.old ++ flat_map
        (rows_of_point (row_for from.now.config.now from.now.store.now.objects) numbers.now)
        points.now) }
    ensures steps { steps.new ≤ steps.old
        + cost from.now.store.now.objects (flat_map point_marks points.now) }
{
    for point in points {
        add_point(from, rows, point, numbers, steps)?;
    }
    Ok(())
}

fn add_point<L>(
    from: &Snapshot,
    rows: &mut List<EndpointRow>,
    point: &Point,
    numbers: &[u16],
    steps: &mut Steps<L>,
) -> Result<(), Memory>
    ensures rows { OnOk result (rows.new
        ≡ rows.old ++ rows_of_point (row_for from.now.config.now from.now.store.now.objects)
        numbers.now point.now) }
    ensures steps { steps.new ≤ steps.old
        + cost from.now.store.now.objects (point_marks point.now) }
{
    if point.ready {
        return add_ready(from, rows, point, numbers, steps);
    }
    Ok(())
}

fn add_ready<L>(
    from: &Snapshot,
    rows: &mut List<EndpointRow>,
    point: &Point,
    numbers: &[u16],
    steps: &mut Steps<L>,
) -> Result<(), Memory>
    ensures rows { OnOk result (rows.new
        ≡ rows.old ++ flat_map
        (λ ip. map (row_for from.now.config.now from.now.store.now.objects point.now.pod ip)
        numbers.now) point.now.addrs) }
    ensures steps { steps.new ≤ steps.old
        + cost from.now.store.now.objects (target_marks point.now.pod) }
{
    let pod = pod_held(from.store, &point.pod, steps);
    let endpoint = Endpoint::of(from.alloc, from.config, pod)?;
    let addrs = point.addrs.as_slice();
    add_addresses(from.alloc, rows, &endpoint, addrs, numbers)
}

fn add_addresses(
    alloc: Global,
    rows: &mut List<EndpointRow>,
    endpoint: &Endpoint,
    addrs: &[Ip],
    numbers: &[u16],
) -> Result<(), Memory>
    ensures { OnOk result (rows.new
        ≡ rows.old ++ flat_map (λ ip. map (row_at endpoint.now ip) numbers.now) addrs.now) }
{
    for ip in addrs {
        add_address(alloc, rows, endpoint, *ip, numbers)?;
    }
    Ok(())
}

fn add_address(
    alloc: Global,
    rows: &mut List<EndpointRow>,
    endpoint: &Endpoint,
    ip: Ip,
    numbers: &[u16],
) -> Result<(), Memory>
    ensures { OnOk result (rows.new ≡ rows.old ++ map (row_at endpoint.now ip) numbers.now) }
{
    for number in numbers {
        rows.add(endpoint.row_at(alloc, ip, *number)?)?;
    }
    Ok(())
}
