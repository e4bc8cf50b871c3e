// The objects held, and how a watch event changes them.
ghost use Rattle.std.specs.Prelude.{◌≡◌, ◌||◌, [], false, IfErr, IfOk};
ghost use Rattle.std.specs.FinMap as map;
ghost use Rattle.view_types.specs.Objects.{AtKeys};
ghost use Rattle.view_rules.specs.PolicyLaws.{AreLawful};
ghost use Rattle.watch_events.specs.Lawful.{IsLawfulEvent};
ghost use Rattle.mesh_hub.specs.Changing.{Changes, Refuses, hub_fault, spends};

use event_laws::laws::events_keep_lawful;
use feed_history::refusal::HubFault;
use mesh_base::list::List;
use object_store::change::{Change, StoreFault};
use object_store::store::Store;
use std::alloc::Global;
use std::marker::Model;
use watch_events::event::Event;

/// A store whose objects are all as their readers return them. Contracts see it as the store.
pub struct LawfulStore {
    store: Store,
}

/// Written by hand, like that of `Store`.
impl Drop for LawfulStore {
    fn drop(self) {
        let LawfulStore { store: _store } = self;
    }
}

impl Model for LawfulStore {
    ghost use Rattle.std.specs.Prelude.{◌≡◌, false};
    ghost use Rattle.object_store.specs.Held.{Held, held_code};
    ghost use Rattle.view_rules.specs.PolicyLaws.{AreLawful};

    ghost Value = { Held };

    ghost coded = { held_code };

    ghost view = { λ s. s.store };

    ghost invariant = { λ s. s.store.spent ≡ false → AreLawful s.store.objects };
}

impl LawfulStore {
    pub fn new(alloc: Global, limit: u32) -> LawfulStore
        ensures { result ≡ record { objects = map.empty; limit = limit; spent = false } }
    {
        LawfulStore {
            store: Store::new(alloc, limit),
        }
    }

    /// Returns the store. Only events change it.
    pub fn get(&self) -> &Store
        ensures value { result.now ≡ self.now }
        ensures lawful { self.now.spent ≡ false → AreLawful self.now.objects }
        ensures at_keys { AtKeys self.now.objects }
    {
        self.store.stand_at_keys();
        &self.store
    }

    /// Applies a watch event. Returns `Full` if there would be more objects than the limit.
    pub fn change(&mut self, alloc: Global, event: Event) -> Result<Change, StoreFault>
        requires { IsLawfulEvent event }
        ensures ok { IfOk result (Changes self.old self.new event) }
        ensures refused { IfErr result (Refuses self.old self.new event) }
    {
        events_keep_lawful();
        change_by(alloc, &mut self.store, event)
    }
}

fn change_by(alloc: Global, store: &mut Store, event: Event) -> Result<Change, StoreFault>
    requires { IsLawfulEvent event }
    ensures ok { IfOk result (Changes store.old store.new event) }
    ensures refused { IfErr result (Refuses store.old store.new event) }
{
    store.stand_at_keys();
    match event {
        Event::Set(object) => store.set(object),
        Event::Delete(key) => Ok(store.remove(&key)?),
        Event::Relist { kind, items } => store.relist(kind, items),
        Event::Bookmark => Ok(no_change(alloc)),
    }
}

fn no_change(alloc: Global) -> Change
    ensures { result.marks ≡ [] }
{
    Change {
        old: List::new(alloc),
        new: List::new(alloc),
        marks: List::new(alloc),
    }
}

/// Converts a fault of the store to a fault of the hub. If memory ran out, it marks the hub as
/// spent.
pub fn fault_of(spent: &mut bool, fault: StoreFault) -> HubFault
    ensures fault { result ≡ hub_fault fault }
    ensures spent { spent.new ≡ (spends fault || spent.old) }
{
    match fault {
        StoreFault::Memory => {
            *spent = true;
            HubFault::Memory
        }
        StoreFault::Full { held } => HubFault::Full { held },
    }
}
