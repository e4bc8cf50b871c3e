// The index of endpoints.
use crate::objects::{key, object};
use endpoint_index::index::EndpointIndex;
use mark_rules::keys::EndpointKey;
use mesh_base::key::Kind;
use mesh_base::memory::Memory;
use mesh_base::steps::Steps;
use mesh_base::text::Text;
use net_cidr::ip::Ip;
use object_store::change::Change;
use object_store::store::Store;
use row_file::TrialFault;
use row_table::row_index::RowIndex;
use std::alloc::Global;
use view_types::config::Config;
use view_types::endpoint::EndpointRow;
use view_types::mark::Mark;

/// A store and an index that follows it.
#[derive(Drop)]
pub(crate) struct Endpoints {
    alloc: Global,
    store: Store,
    index: EndpointIndex,
}

/// Returns an index without users, and an empty store.
pub(crate) fn new_endpoints(alloc: Global) -> Result<Endpoints, Memory> {
    Ok(Endpoints {
        alloc,
        store: Store::new(alloc, 100),
        index: EndpointIndex::new(alloc, &Config::usual(alloc)?)?,
    })
}

impl Endpoints {
    /// Makes the step of each line, and writes the endpoints of port 80 of the Service `web`:
    /// whether it exists, its rows, what stood where the last change made a difference, and the
    /// Pods that it reads. A row is its address, its Pod if that is held, and `+` if the Pod is
    /// meshed.
    pub(crate) fn run(&mut self, lines: &str, out: &mut String) -> Result<(), TrialFault> {
        for line in lines.lines() {
            step(self.alloc, &mut self.store, &mut self.index, line)?;
            push_shown(self.alloc, &self.index, out)?;
        }
        Ok(())
    }
}

fn web(alloc: Global) -> Result<EndpointKey, Memory> {
    Ok(EndpointKey {
        ns: Text::from_str(alloc, "app")?,
        name: Text::from_str(alloc, "web")?,
        port: 80,
    })
}

fn changed(alloc: Global, store: &mut Store, words: &str) -> Result<Change, TrialFault> {
    if let Some(rest) = words.strip_prefix("delete ") {
        return Ok(store.remove(&key(alloc, rest)?)?);
    }
    Ok(store.set(object(alloc, words)?)?)
}

fn step(
    alloc: Global,
    store: &mut Store,
    index: &mut EndpointIndex,
    words: &str,
) -> Result<(), TrialFault> {
    let mut steps = Steps::<Store>::new();
    match words {
        "enter" => index.enter(store, web(alloc)?, &mut steps)?,
        "leave" => index.leave(&web(alloc)?),
        _ => {
            let change = changed(alloc, store, words)?;
            index.follow_change(store, &change, &mut steps)?;
        }
    }
    Ok(())
}

fn push_row(all: &mut String, row: &EndpointRow) -> Result<(), TrialFault> {
    let pod = match row.labels.get(b"pod") {
        Some(name) => name.as_str(),
        None => "",
    };
    if let Ip::V4(ip) = row.ip {
        write!(all, "{ip}{pod}")?;
    }
    if is_meshed(row) {
        all.push_str("+")?;
    }
    Ok(())
}

fn is_meshed(row: &EndpointRow) -> bool {
    match &row.identity {
        Some(id) => id.as_str() == "run.app.serviceaccount.identity.linkerd.cluster.local",
        None => false,
    }
}

fn push_rows(all: &mut String, rows: &[EndpointRow]) -> Result<(), TrialFault> {
    let mut between = "";
    for row in rows {
        all.push_str(between)?;
        push_row(all, row)?;
        between = " ";
    }
    Ok(())
}

fn push_note(all: &mut String, note: &(Ip, u16, Option<EndpointRow>)) -> Result<(), TrialFault> {
    if let Ip::V4(ip) = note.0 {
        write!(all, " {ip} was ")?;
    }
    match &note.2 {
        Some(row) => push_row(all, row),
        None => Ok(all.push_str("none")?),
    }
}

fn push_pods(all: &mut String, marks: &[Mark]) -> Result<(), TrialFault> {
    all.push_str(" reads")?;
    for mark in marks {
        if let Mark::Obj(key) = mark
            && key.kind == Kind::Pod
        {
            write!(all, " {}", key.name.as_str())?;
        }
    }
    Ok(())
}

fn push_shown(alloc: Global, index: &EndpointIndex, all: &mut String) -> Result<(), TrialFault> {
    let key = web(alloc)?;
    let Some(view) = index.row(&key) else {
        return Ok(all.push_str("none\n")?);
    };
    all.push_str(if view.exists { "yes " } else { "no " })?;
    push_rows(all, view.rows.as_slice())?;
    all.push_str(",")?;
    for note in index.before(&key) {
        push_note(all, note)?;
    }
    push_pods(all, index.marks(&key)?.as_slice())?;
    Ok(all.push_str("\n")?)
}
