ghost use Rattle.std.specs.Prelude.{◌≡◌, IfOk};
ghost use Rattle.mesh_base.specs.declared.key.Kind.TheVariants.{NetworkAuthentication};
ghost use Rattle.view_types.specs.Objects.{kind_of, IsListOf};

use crate::told::{put_line, put_lines, text_of, told};
use k8s_meta::meta::Meta;
use mesh_base::boxed::Boxed;
use mesh_base::key::Kind;
use mesh_base::labels::Labels;
use mesh_base::list::List;
use mesh_base::memory::Memory;
use mesh_base::steps::Steps;
use mesh_base::text::Text;
use object_store::change::{Change, StoreFault};
use object_store::store::Store;
use row_file::TrialFault;
use std::alloc::Global;
use view_types::authn::NetAuthn;
use view_types::object::Object;

fn network(alloc: Global, name: &str) -> Result<Object, Memory>
    ensures { IfOk result (λ object. kind_of object ≡ NetworkAuthentication) }
{
    let meta = Meta {
        ns: Text::from_str(alloc, "default")?,
        name: Text::from_str(alloc, name)?,
        labels: Labels::new(alloc),
        notes: Labels::new(alloc),
        created: None,
    };
    let authn = NetAuthn {
        meta,
        blocks: List::new(alloc),
    };
    Ok(Object::NetworkAuthentication(Boxed::new(alloc, authn)?))
}

fn one_network(alloc: Global, name: &str) -> Result<List<Object>, Memory>
    ensures { IfOk result (IsListOf NetworkAuthentication) }
{
    let mut items = List::new(alloc);
    items.add(network(alloc, name)?)?;
    Ok(items)
}

/// Puts what a call changed, or its fault.
fn put_change(
    alloc: Global,
    change: Result<Change, StoreFault>,
    out: &mut String,
) -> Result<(), TrialFault> {
    match change {
        Ok(change) => put_lines(out, text_of(alloc, &change)?.as_str()),
        Err(fault) => put_line(out, format!(in alloc; "{fault:?}")?.as_str()),
    }
}

/// Puts how many objects of the kind are listed, and how many objects are counted.
fn put_sizes(alloc: Global, store: &Store, out: &mut String) -> Result<(), TrialFault> {
    let listed = store.of_kind(Kind::NetworkAuthentication).len();
    let held = store.len();
    put_line(
        out,
        format!(in alloc; "{listed} listed, {held} held")?.as_str(),
    )
}

/// Makes the call of a line, which is a word and the name of an object.
fn step(alloc: Global, store: &mut Store, line: &str, out: &mut String) -> Result<(), TrialFault> {
    let (call, name) = line.split_once(' ').unwrap_or((line, ""));
    let key = network(alloc, name)?.key(alloc)?;
    match call {
        "set" => put_change(alloc, store.set(network(alloc, name)?), out),
        "relist" => {
            let items = one_network(alloc, name)?;
            put_change(alloc, store.relist(Kind::NetworkAuthentication, items), out)
        }
        "remove" => put_change(alloc, Ok(store.remove(&key)?), out),
        "key" => put_line(out, told(alloc, &key)?.as_str()),
        "has" => {
            let found = store.get(&key, &mut Steps::<Store>::new()).is_some();
            put_line(out, if found { "held" } else { "not held" })
        }
        "sizes" => put_sizes(alloc, store, out),
        _ => Err(TrialFault::new("no call has this name")),
    }
}

/// Makes the call of each line of the input on a store that has room for two objects.
pub fn store(alloc: Global, input: &str, out: &mut String) -> Result<(), TrialFault> {
    let mut store = Store::new(alloc, 2);
    for line in input.lines() {
        step(alloc, &mut store, line, out)?;
    }
    Ok(())
}
