ghost use Rattle.std.specs.Prelude.{◌≡◌, ℕ, IfOk};
ghost use Rattle.serde_json.specs.View.{view};
ghost use Rattle.net_cidr.specs.Address.{ip_of};
ghost use Rattle.k8s_core.specs.Slices.{address_at, family_of, in_family, point_at, pod_name_at, slice_at, target_at};
ghost use Rattle.k8s_meta.specs.Lists.{each};
ghost use Rattle.k8s_meta.specs.Spots.{◌·◌, Reads, seen};
ghost use Rattle.view_types.specs.Lawful.{IsLawfulSlice};
ghost use Rattle.k8s_meta.specs.declared.key.Key.TheVariants.{Endpoints};

use crate::port_entry::SlicePort;
use k8s_meta::choice::{Choice, Word};
use k8s_meta::fault::{ReadFault, What};
use k8s_meta::key::Key;
use k8s_meta::meta::meta_of;
use k8s_meta::place::Place;
use k8s_meta::reader::Reader;
use k8s_meta::words::{Flag, Name, Namespace};
use mesh_base::list::List;
use mesh_base::memory::Memory;
use mesh_base::text::Text;
use net_cidr::ip::{Ip, read_ip};
use serde_json::Value;
use std::alloc::Global;
use view_types::slice::{Family, Point, Slice};

/// Reads the EndpointSlice at the path `at`. A fault is the first one in the order of the members.
pub fn read_slice(alloc: Global, object: &Value, at: &str) -> Result<Slice, ReadFault>
    ensures lawful { IfOk result IsLawfulSlice }
    ensures value { Reads result (slice_at record { at = at.now; value = view object.now }) }
{
    slice_of(&Place::top(alloc, object, at))
}

/// Reads the EndpointSlice at a place.
pub fn slice_of<'a>(object: &'a Place<'a>) -> Result<Slice, ReadFault>
    ensures lawful { IfOk result IsLawfulSlice }
    ensures value { Reads result (slice_at (seen object.now)) }
{
    members_of(object)
}

#[tactic(auto, unfolding(k8s_meta::specs::Spots::then, crate::specs::Slices::slice_at))]
fn members_of<'a>(object: &'a Place<'a>) -> Result<Slice, ReadFault>
    ensures { Reads result (slice_at (seen object.now)) }
{
    let meta = meta_of(object)?;
    let family = object.required(Key::AddressType, &Choice(FamilyWord))?;
    let points = points_of(object, family, meta.ns.as_str())?;
    let ports = object.each_some(Key::Ports, &SlicePort)?;
    Ok(Slice {
        meta,
        family,
        points,
        ports,
    })
}

fn points_of<'a>(object: &'a Place<'a>, family: Family, own: &str) -> Result<List<Point>, ReadFault>
    ensures { Reads result (each (point_at family own.now) ((seen object.now) · Endpoints)) }
{
    object.each(Key::Endpoints, &Endpoint { family, own })
}

/// The names of families.
struct FamilyWord;

impl Word for FamilyWord {
    type Meaning = Family;

    ghost meaning = { λ _. family_of };

    fn meaning_of(&self, text: &str) -> Option<Family> {
        if text == "IPv4" {
            Some(Family::V4)
        } else if text == "IPv6" {
            Some(Family::V6)
        } else if text == "FQDN" {
            Some(Family::Fqdn)
        } else {
            None
        }
    }
}

/// An endpoint of a slice with this family and namespace.
#[derive(Clone, Copy)]
struct Endpoint<'b> {
    family: Family,
    own: &'b str,
}

impl<'b> Reader for Endpoint<'b> {
    type Made = Point;

    ghost reading = { λ r. point_at r.family r.own.now };

    #[tactic(auto, unfolding(k8s_meta::specs::Spots::then, crate::specs::Slices::point_at))]
    fn read<'a>(&self, place: &'a Place<'a>) -> Result<Point, ReadFault> {
        place.object()?;
        let addrs = place.each_some(
            Key::Addresses,
            &SliceAddress {
                family: self.family,
            },
        )?;
        let conditions = place.part(Key::Conditions)?;
        let ready = conditions.default(Key::Ready, &Flag, true)?;
        let target = place.part(Key::TargetRef)?;
        let pod = target_of(&target, self.own)?;
        Ok(Point { addrs, ready, pod })
    }
}

/// An address of a family, or None for a host name.
#[derive(Clone, Copy)]
struct SliceAddress {
    family: Family,
}

impl Reader for SliceAddress {
    type Made = Option<Ip>;

    ghost reading = { λ r. address_at r.family };

    #[tactic(auto, unfolding(k8s_meta::specs::Spots::then, crate::specs::Slices::address_at))]
    fn read<'a>(&self, place: &'a Place<'a>) -> Result<Option<Ip>, ReadFault> {
        let text = place.text()?;
        place.valid(
            What::Address,
            in_family(self.family, read_ip(text.as_bytes())),
        )
    }
}

fn in_family(family: Family, ip: Option<Ip>) -> Option<Option<Ip>>
    ensures { result ≡ in_family family ip }
{
    match (family, ip) {
        (Family::Fqdn, _) => Some(None),
        (Family::V4, Some(Ip::V4(number))) => Some(Some(Ip::V4(number))),
        (Family::V6, Some(Ip::V6(number))) => Some(Some(Ip::V6(number))),
        _ => None,
    }
}

#[tactic(auto, unfolding(k8s_meta::specs::Spots::then, crate::specs::Slices::target_at))]
fn target_of<'a>(place: &'a Place<'a>, own: &str) -> Result<Option<(Text, Text)>, ReadFault>
    ensures { Reads result (target_at own.now (seen place.now)) }
{
    let kind = place.str_or(Key::Kind, "")?;
    if kind == "Pod" {
        pod_name_of(place, own)
    } else {
        Ok(None)
    }
}

#[tactic(auto, unfolding(k8s_meta::specs::Spots::then))]
fn pod_name_of<'a>(place: &'a Place<'a>, own: &str) -> Result<Option<(Text, Text)>, ReadFault>
    ensures { Reads result (pod_name_at own.now (seen place.now)) }
{
    let name = place.required(Key::Name, &Name)?;
    let ns = place.text_or(Key::Namespace, &Namespace, own)?;
    Ok(Some((ns, name)))
}
