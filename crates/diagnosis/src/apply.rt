ghost use Rattle.std.specs.Prelude.{IfOk};
ghost use Rattle.view_types.specs.Objects.{IsListOf};
ghost use Rattle.watch_events.specs.Lawful.{IsLawfulEvent};
ghost use Rattle.watch_events.specs.declared.event.Event.TheVariants.{Delete, Relist, Set};
ghost use Rattle.diagnosis.specs.Stand.{Applies};

use feed_history::refusal::HubFault;
use mesh_base::key::{Kind, ObjKey};
use mesh_base::list::List;
use mesh_base::memory::Memory;
use object_store::change::StoreFault;
use object_store::store::Store;
use view_types::object::Object;
use watch_events::event::Event;

// Each function returns why it changed nothing, or None if it did.

fn set(store: &mut Store, object: Object) -> Result<Option<HubFault>, Memory>
    ensures { IfOk result (Applies (Set object) store.old store.new) }
{
    match store.set(object) {
        Ok(_) => Ok(None),
        Err(StoreFault::Full { held }) => Ok(Some(HubFault::Full { held })),
        Err(StoreFault::Memory) => Err(Memory),
    }
}

fn delete(store: &mut Store, key: &ObjKey) -> Result<Option<HubFault>, Memory>
    ensures { IfOk result (Applies (Delete key.now) store.old store.new) }
{
    match store.remove(key) {
        Ok(_) => Ok(None),
        Err(_) => Err(Memory),
    }
}

fn relist(store: &mut Store, kind: Kind, items: List<Object>) -> Result<Option<HubFault>, Memory>
    requires { IsListOf kind items }
    ensures { IfOk result (Applies (Relist kind items) store.old store.new) }
{
    match store.relist(kind, items) {
        Ok(_) => Ok(None),
        Err(StoreFault::Full { held }) => Ok(Some(HubFault::Full { held })),
        Err(StoreFault::Memory) => Err(Memory),
    }
}

/// Applies a watch event to a store without a hub. Returns why it is refused, or None. Also for a
/// command that answers each line from the objects held before it; `Holds` of `specs/Stand` then
/// ties the store to the state after the lines.
pub fn apply(store: &mut Store, event: Event) -> Result<Option<HubFault>, Memory>
    requires { IsLawfulEvent event }
    ensures { IfOk result (Applies event store.old store.new) }
{
    match event {
        Event::Set(object) => set(store, object),
        Event::Delete(key) => delete(store, &key),
        Event::Relist { kind, items } => relist(store, kind, items),
        Event::Bookmark => Ok(None),
    }
}
