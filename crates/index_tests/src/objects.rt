// Objects written in a few words.
use k8s_meta::meta::Meta;
use mesh_base::boxed::Boxed;
use mesh_base::key::{Kind, ObjKey};
use mesh_base::labels::Labels;
use mesh_base::list::List;
use mesh_base::text::Text;
use net_cidr::ip::Ip;
use row_file::TrialFault;
use std::alloc::Global;
use view_types::object::Object;
use view_types::pod::Pod;
use view_types::service::{NamedPort, Service};
use view_types::slice::{Family, Point, Slice};

// The first word, and those after it.
fn cut(words: &str) -> Result<(&str, &str), TrialFault> {
    match words.split_once(' ') {
        Some(parts) => Ok(parts),
        None => Err(TrialFault::new("an object or a key lacks a word")),
    }
}

/// The object of these words, in the namespace app:
/// - `service PORT` and `external PORT` are the Service web with port 80 of this name;
/// - `slice NAME PORT POINT..` is a slice of it, with port 8080 of this name; `names` is one of
///   host names. A point is an address of one digit, with `>` and a Pod if it targets one;
/// - `bare NAME`, `meshed NAME` and `wide NAME` are Pods, the last meshed and with six addresses.
pub(crate) fn object(alloc: Global, words: &str) -> Result<Object, TrialFault> {
    let (kind, rest) = cut(words)?;
    match kind {
        "service" => service(alloc, rest, false),
        "external" => service(alloc, rest, true),
        "slice" => slice(alloc, rest, Family::V4),
        "names" => slice(alloc, rest, Family::Fqdn),
        "bare" => pod(alloc, rest, "", 1),
        "meshed" => pod(alloc, rest, "linkerd", 1),
        "wide" => pod(alloc, rest, "linkerd", 6),
        _ => Err(TrialFault::new("no object is written so")),
    }
}

/// The key of `pod NAME`, `slice NAME` or `service NAME`.
pub(crate) fn key(alloc: Global, words: &str) -> Result<ObjKey, TrialFault> {
    let (kind, name) = cut(words)?;
    Ok(ObjKey {
        kind: kind_of(kind)?,
        ns: Text::from_str(alloc, "app")?,
        name: Text::from_str(alloc, name)?,
    })
}

fn kind_of(word: &str) -> Result<Kind, TrialFault> {
    match word {
        "pod" => Ok(Kind::Pod),
        "slice" => Ok(Kind::EndpointSlice),
        "service" => Ok(Kind::Service),
        _ => Err(TrialFault::new("no kind is written so")),
    }
}

fn meta(alloc: Global, name: &str, label: &str, value: &str) -> Result<Meta, TrialFault> {
    let mut labels = Labels::new(alloc);
    if !value.is_empty() {
        labels.put(Text::from_str(alloc, label)?, Text::from_str(alloc, value)?)?;
    }
    Ok(Meta {
        ns: Text::from_str(alloc, "app")?,
        name: Text::from_str(alloc, name)?,
        labels,
        notes: Labels::new(alloc),
        created: None,
    })
}

fn ports(alloc: Global, name: &str, port: u16) -> Result<List<NamedPort>, TrialFault> {
    let mut ports = List::new(alloc);
    ports.add(NamedPort {
        name: Text::from_str(alloc, name)?,
        port,
        tcp: true,
    })?;
    Ok(ports)
}

fn service(alloc: Global, port: &str, external: bool) -> Result<Object, TrialFault> {
    let service = Service {
        meta: meta(alloc, "web", "", "")?,
        external,
        addrs: List::new(alloc),
        ports: ports(alloc, port, 80)?,
    };
    Ok(Object::Service(Boxed::new(alloc, service)?))
}

fn slice(alloc: Global, words: &str, family: Family) -> Result<Object, TrialFault> {
    let (name, rest) = cut(words)?;
    let (port, rest) = cut(rest)?;
    let slice = Slice {
        meta: meta(alloc, name, "kubernetes.io/service-name", "web")?,
        family,
        points: points(alloc, rest)?,
        ports: ports(alloc, port, 8080)?,
    };
    Ok(Object::EndpointSlice(Boxed::new(alloc, slice)?))
}

fn points(alloc: Global, words: &str) -> Result<List<Point>, TrialFault> {
    let mut points = List::new(alloc);
    for word in words.split(' ') {
        points.add(point(alloc, word)?)?;
    }
    Ok(points)
}

fn point(alloc: Global, word: &str) -> Result<Point, TrialFault> {
    match word.split_once('>') {
        Some((digit, pod)) => Ok(Point {
            addrs: address(alloc, digit)?,
            ready: true,
            pod: Some((Text::from_str(alloc, "app")?, Text::from_str(alloc, pod)?)),
        }),
        None => Ok(Point {
            addrs: address(alloc, word)?,
            ready: true,
            pod: None,
        }),
    }
}

fn address(alloc: Global, digit: &str) -> Result<List<Ip>, TrialFault> {
    let mut addrs = List::new(alloc);
    match digit.as_bytes() {
        [byte] if byte.is_ascii_digit() => addrs.add(Ip::V4(u32::from(*byte - b'0')))?,
        _ => return Err(TrialFault::new("an address is no digit")),
    }
    Ok(addrs)
}

fn pod(alloc: Global, name: &str, mesh: &str, count: u32) -> Result<Object, TrialFault> {
    let mut addrs = List::new(alloc);
    for last in 0..count {
        addrs.add(Ip::V4(last))?;
    }
    let pod = Pod {
        meta: meta(alloc, name, "linkerd.io/control-plane-ns", mesh)?,
        account: Text::from_str(alloc, "run")?,
        host_network: false,
        node: None,
        phase: None,
        addrs,
        ports: List::new(alloc),
        probes: List::new(alloc),
    };
    Ok(Object::Pod(Boxed::new(alloc, pod)?))
}
