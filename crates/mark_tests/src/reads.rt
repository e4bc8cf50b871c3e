use crate::names::push_mark;
use crate::queries::query_reads;
use mark_rules::keys::{EndpointKey, ProfileKey, RouteKey, RowKey, ServerKey};
use mesh_base::key::{Kind, ObjKey};
use mesh_base::limits::Limits;
use mesh_base::steps::Steps;
use mesh_base::text::Text;
use net_cidr::ip::Ip;
use net_cidr::packed_ip::PackedIp;
use object_store::store::Store;
use row_file::TrialFault;
use row_reads::at_mark::Reader;
use std::alloc::Global;
use view_types::config::Config;
use view_types::mark::Mark;
use view_types::query::{Query, Target};
use watch_events::event::Event;
use watch_events::line::Line;
use watch_events::read::read_line;

/// Returns a store of the objects of these events.
pub(crate) fn store_of(alloc: Global, config: &Config, feed: &str) -> Result<Store, TrialFault> {
    let mut store = Store::new(alloc, 100);
    for line in feed.lines() {
        match read_line(alloc, line.as_bytes(), config, &Limits::USUAL) {
            Ok(Line::Event(Event::Set(object))) => {
                let Ok(_) = store.set(object) else {
                    return Err(TrialFault::new("an object was refused"));
                };
            }
            _ => return Err(TrialFault::new("a line is no event")),
        }
    }
    Ok(store)
}

fn address_of(word: &str) -> Result<Ip, TrialFault> {
    match word {
        "10.96.0.10" => Ok(Ip::V4(0x0a60_000a)),
        "10.1.2.3" => Ok(Ip::V4(0x0a01_0203)),
        _ => Err(TrialFault::new("no address is written so")),
    }
}

fn client_of(alloc: Global, word: &str) -> Result<Option<Text>, TrialFault> {
    if word == "-" {
        return Ok(None);
    }
    Ok(Some(Text::from_str(alloc, word)?))
}

fn kind_of(word: &str) -> Result<Kind, TrialFault> {
    match word {
        "Server" => Ok(Kind::Server),
        "LinkerdRoute" => Ok(Kind::LinkerdRoute),
        "GatewayRoute" => Ok(Kind::GatewayRoute),
        "Pod" => Ok(Kind::Pod),
        _ => Err(TrialFault::new("no kind has this name")),
    }
}

// A Service and a port of it, or an address.
fn service(alloc: Global, ns: &str, name: &str) -> Result<Target, TrialFault> {
    Ok(Target::Service {
        ns: Text::from_str(alloc, ns)?,
        name: Text::from_str(alloc, name)?,
        port: 80,
    })
}

fn address(word: &str) -> Result<Target, TrialFault> {
    Ok(Target::Address {
        ip: PackedIp::new(address_of(word)?),
        port: 80,
    })
}

fn authz_key(alloc: Global, kind: &str, ns: &str, name: &str) -> Result<RowKey, TrialFault> {
    Ok(RowKey::Authz(ObjKey {
        kind: kind_of(kind)?,
        ns: Text::from_str(alloc, ns)?,
        name: Text::from_str(alloc, name)?,
    }))
}

// A row of two names.
fn named_key(alloc: Global, sort: &str, ns: &str, name: &str) -> Result<RowKey, TrialFault> {
    let (ns, name) = (Text::from_str(alloc, ns)?, Text::from_str(alloc, name)?);
    match sort {
        "endpoint" => Ok(RowKey::Endpoint(EndpointKey { ns, name, port: 80 })),
        "server" => Ok(RowKey::Server(ServerKey {
            ns,
            pod: name,
            port: 8080,
        })),
        "route" => Ok(RowKey::Route(RouteKey { ns, server: name })),
        _ => Err(TrialFault::new("no row is of this sort")),
    }
}

fn profile_key(alloc: Global, target: Target, client: &str) -> Result<RowKey, TrialFault> {
    Ok(RowKey::Profile(ProfileKey {
        target,
        client: client_of(alloc, client)?,
    }))
}

// The first word, and those after it.
fn cut(words: &str) -> Result<(&str, &str), TrialFault> {
    match words.split_once(' ') {
        Some(parts) => Ok(parts),
        None => Err(TrialFault::new("a key lacks a word")),
    }
}

fn key_of(alloc: Global, words: &str) -> Result<RowKey, TrialFault> {
    let (sort, rest) = cut(words)?;
    match sort {
        "outbound_at" => Ok(RowKey::Outbound(address(rest)?)),
        "authz" => {
            let (kind, rest) = cut(rest)?;
            let (ns, name) = cut(rest)?;
            authz_key(alloc, kind, ns, name)
        }
        "profile" => {
            let (ns, rest) = cut(rest)?;
            let (name, client) = cut(rest)?;
            profile_key(alloc, service(alloc, ns, name)?, client)
        }
        "profile_at" => {
            let (ip, client) = cut(rest)?;
            profile_key(alloc, address(ip)?, client)
        }
        "outbound" => {
            let (ns, name) = cut(rest)?;
            Ok(RowKey::Outbound(service(alloc, ns, name)?))
        }
        _ => {
            let (ns, name) = cut(rest)?;
            named_key(alloc, sort, ns, name)
        }
    }
}

/// Writes the marks that the row of a key reads.
pub(crate) fn push_reads(
    alloc: Global,
    config: &Config,
    store: &Store,
    key: &str,
    out: &mut String,
) -> Result<(), TrialFault> {
    let key = key_of(alloc, key)?;
    let reader = Reader {
        alloc,
        config,
        store,
    };
    let marks = reader.reads(&key, &mut Steps::<Store>::new())?;
    push_marks(marks.as_slice(), out)
}

/// Writes the marks that the rows of the port 8080 of a Pod read, which is in the namespace `app`.
pub(crate) fn push_port(
    alloc: Global,
    config: &Config,
    store: &Store,
    pod: &str,
    out: &mut String,
) -> Result<(), TrialFault> {
    let query = Query::Port {
        ns: Text::from_str(alloc, "app")?,
        pod: Text::from_str(alloc, pod)?,
        port: 8080,
    };
    let reader = Reader {
        alloc,
        config,
        store,
    };
    let marks = query_reads(&reader, &query, &mut Steps::<Store>::new())?;
    push_marks(marks.as_slice(), out)
}

fn push_marks(marks: &[Mark], out: &mut String) -> Result<(), TrialFault> {
    for mark in marks {
        push_mark(mark, out)?;
    }
    Ok(())
}
