use crate::objects::read_object;
use crate::told::{put_lines, told};
use mesh_base::memory::Memory;
use mesh_base::steps::Steps;
use mesh_base::text::Text;
use object_store::store::Store;
use row_file::TrialFault;
use serde_json::Value;
use std::alloc::Global;
use view_scratch::scratch::scratch;
use view_types::config::Config;
use view_types::query::{Context, Query};
use view_types::view::View;

/// What holds the objects of all lines.
fn store_of(alloc: Global, lines: &str) -> Result<Store, TrialFault> {
    let mut store = Store::new(alloc, 10);
    for line in lines.lines() {
        let (kind, text) = line.split_once(' ').unwrap_or((line, ""));
        let Ok(value) = Value::from_str(alloc, text) else {
            return Err(TrialFault::new("no JSON"));
        };
        let Some(object) = read_object(alloc, kind, &value)? else {
            return Err(TrialFault::new("no kind has this name"));
        };
        store.set(object)?;
    }
    Ok(store)
}

/// For the port of the Service `web` of `app`.
fn query_of(alloc: Global, port: u16) -> Result<Query, Memory> {
    Ok(Query::Get {
        ns: Text::from_str(alloc, "app")?,
        name: Text::from_str(alloc, "web")?,
        port,
        ctx: Context {
            ns: None,
            node: None,
        },
    })
}

/// Writes the endpoints at a port that the objects of the input show.
pub fn view(alloc: Global, port: &str, input: &str, out: &mut String) -> Result<(), TrialFault> {
    let store = store_of(alloc, input)?;
    let config = Config::usual(alloc)?;
    let query = query_of(alloc, port.parse::<u16>()?)?;
    match &scratch(alloc, &store, &config, &query, &mut Steps::<View>::new())? {
        View::Endpoints(view) => put_lines(out, told(alloc, view)?.as_str()),
        _ => Err(TrialFault::new("the view has no endpoints")),
    }
}
