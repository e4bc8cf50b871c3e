ghost use Rattle.std.specs.Prelude.{◌≡◌, ◌≤◌, ◌+◌, ◌-◌, ◌^◌, min, true, false, is_some, if◌then◌else◌, IsErr, IfSome, IfOk, IfErr, OnOk, OnErr, IsErrOf};
ghost use Rattle.std.specs.Option.{option_copied};
ghost use Rattle.std.specs.FinMap as map;
ghost use Rattle.mark_rules.specs.Reads.{count_at};
ghost use Rattle.view_types.specs.declared.mark.Mark.TheVariants.{IpPod, IpService, Obj, PolicyOn, RouteOn, ServerAuthzIn, ServersIn, SlicesOf};
ghost use Rattle.view_types.specs.Objects.{AtKeys, key_of, IsListOf};
ghost use Rattle.object_store.specs.Relisted.{Relists, exceeds, of_kind};
ghost use Rattle.object_store.specs.KeyLists.{FindsFirst, FindsKeys, StayUnlessSpent, is_of_key};
ghost use Rattle.object_store.specs.Held.{key_with};
ghost use Rattle.object_store.specs.ServerKeys.{AreKept, FindsServers};
ghost use Rattle.object_store.specs.Changes.{Puts, Takes, Refuses, IsFull, lacks_room};

use crate::change::{Change, StoreFault};
use crate::objects::Objects;
use crate::relist::relist;
use crate::store_keys::StoreKeys;
use crate::upkeep::follow;
use chunked_list::list::ChunkedList;
use mark_rules::object_marks::marks_of;
use mesh_base::key::{Kind, ObjKey};
use mesh_base::list::List;
use mesh_base::memory::Memory;
use mesh_base::steps::Steps;
use mesh_base::text::Text;
use net_cidr::ip::Ip;
use std::alloc::Global;
use std::marker::Model;
use view_types::authn::RefKind;
use view_types::mark::Mark;
use view_types::object::Object;
use view_types::route::ParentKind;

/// The objects held, at most `limit`. After an out of memory error, every change is refused.
pub struct Store {
    objects: Objects,
    keys: StoreKeys,
    limit: u32,
    spent: bool,
    alloc: Global,
}

/// Written by hand, like that of `Object`.
impl Drop for Store {
    fn drop(self) {
        let Store {
            objects: _objects,
            keys: _keys,
            limit: _,
            spent: _,
            alloc: _,
        } = self;
    }
}

impl Model for Store {
    ghost use Rattle.std.specs.Prelude.{◌≡◌, ◌≤◌, false};
    ghost use Rattle.std.specs.FinMap.{len};
    ghost use Rattle.object_store.specs.Held.{Held, held_code};
    ghost use Rattle.object_store.specs.ServerKeys.{AreKept};

    ghost Value = { Held };

    ghost coded = { held_code };

    ghost view = { λ s. record { objects = s.objects; limit = s.limit; spent = s.spent } };

    ghost invariant = { λ s. (len s.objects ≤ s.limit)
        × (s.spent ≡ false → AreKept s.objects s.keys) };
}

impl Store {
    pub fn new(alloc: Global, limit: u32) -> Store
        ensures { result ≡ record { objects = map.empty; limit = limit; spent = false } }
    {
        Store {
            objects: Objects::new(alloc),
            keys: StoreKeys::new(alloc),
            limit,
            spent: false,
            alloc,
        }
    }

    /// Returns the number of objects held.
    pub fn len(&self) -> usize
        ensures { result ≡ map.len self.now.objects }
    {
        self.objects.len()
    }

    /// Returns whether a change has run out of memory.
    pub fn is_spent(&self) -> bool
        ensures { result ≡ self.now.spent }
    {
        self.spent
    }

    /// Returns the objects of the kind, in the order of their keys.
    pub fn of_kind(&self, kind: Kind) -> &ChunkedList<Object>
        ensures value { result.now ≡ of_kind kind self.now.objects }
        ensures at_keys { AtKeys self.now.objects }
    {
        self.objects.of_kind(kind)
    }

    /// Establishes that each object is at its own key. Reads no object.
    pub fn stand_at_keys(&self)
        ensures { AtKeys self.now.objects }
    {
        self.objects.stand_at_keys();
    }

    /// Returns the object at the key. An object that is found counts as one step.
    pub fn get<L>(&self, key: &ObjKey, steps: &mut Steps<L>) -> Option<&Object>
        ensures value { option_copied result ≡ map.get self.now.objects key.now }
        ensures at_key { IfSome result (λ o. key_of o.now ≡ key.now) }
        ensures steps { steps.new ≡ (if is_some result then min (steps.old + 1)
            (2 ^ 64 - 1) else steps.old) }
        ensures counts { steps.new ≤ steps.old + count_at self.now.objects (Obj key.now) }
    {
        self.objects.stand_at_keys();
        let found = self.objects.get(key);
        tick_if(found.is_some(), steps);
        found
    }

    /// Returns the object at the key of this kind, namespace and name, without building the key.
    pub fn find<L>(
        &self,
        kind: Kind,
        ns: &Text,
        name: &Text,
        steps: &mut Steps<L>,
    ) -> Option<&Object>
        ensures value { option_copied result
            ≡ map.get self.now.objects (key_with kind ns.now name.now) }
        ensures at_key { IfSome result (λ o. key_of o.now ≡ key_with kind ns.now name.now) }
        ensures steps { steps.new ≡ (if is_some result then min (steps.old + 1)
            (2 ^ 64 - 1) else steps.old) }
        ensures counts { steps.new ≤ steps.old
            + count_at self.now.objects (Obj (key_with kind ns.now name.now)) }
    {
        self.objects.stand_at_keys();
        let found = self.objects.find(kind, ns, name);
        tick_if(found.is_some(), steps);
        found
    }

    /// Returns the keys of the objects with the mark, in order. For the mark of a key, use `get`.
    pub fn keys_with<'a>(&'a self, mark: &Mark) -> &'a [ObjKey]
        requires { is_of_key mark.now ≡ false }
        ensures { FindsKeys self.now mark.now result.now }
    {
        self.objects.stand_at_keys();
        self.keys.marked.at(mark)
    }

    /// Returns the keys of the EndpointSlices of the Service, in order.
    pub fn slices_of(&self, ns: &Text, service: &Text) -> &[ObjKey]
        ensures { FindsKeys self.now (SlicesOf ns.now service.now) result.now }
    {
        self.objects.stand_at_keys();
        self.keys.marked.slices_of(ns, service)
    }

    /// Returns the keys of the Servers of the namespace, in order.
    pub fn servers_in(&self, ns: &Text) -> &[ObjKey]
        ensures { FindsKeys self.now (ServersIn ns.now) result.now }
    {
        self.objects.stand_at_keys();
        self.keys.marked.servers_in(ns)
    }

    /// Returns the keys of the Servers of the namespace whose first required label has the value. A
    /// Server that requires no label is found with its namespace as the value.
    pub fn servers_requiring(&self, ns: &Text, value: &Text) -> &[ObjKey]
        ensures { FindsServers self.now (ns.now, value.now) result.now }
    {
        self.keys.servers.at(ns, value)
    }

    /// Returns the keys of the ServerAuthorizations of the namespace, in order.
    pub fn server_authz_in(&self, ns: &Text) -> &[ObjKey]
        ensures { FindsKeys self.now (ServerAuthzIn ns.now) result.now }
    {
        self.objects.stand_at_keys();
        self.keys.marked.server_authz_in(ns)
    }

    /// Returns the keys of the AuthorizationPolicies of the namespace with this target, in order.
    pub fn policies_on(&self, ns: &Text, kind: RefKind, name: &Text) -> &[ObjKey]
        ensures { FindsKeys self.now (PolicyOn ns.now kind name.now) result.now }
    {
        self.objects.stand_at_keys();
        self.keys.marked.policies_on(ns, kind, name)
    }

    /// Returns the keys of the routes of the namespace with this parent, in order.
    pub fn routes_on(&self, ns: &Text, kind: ParentKind, name: &Text) -> &[ObjKey]
        ensures { FindsKeys self.now (RouteOn ns.now kind name.now) result.now }
    {
        self.objects.stand_at_keys();
        self.keys.marked.routes_on(ns, kind, name)
    }

    /// Returns the first of the keys of the Services at the address, in order.
    pub fn service_at(&self, ip: Ip) -> Option<&ObjKey>
        ensures { FindsFirst self.now (IpService ip) (option_copied result) }
    {
        self.services_at(ip).first()
    }

    /// Returns the first of the keys of the Pods with the address, in order.
    pub fn pod_at(&self, ip: Ip) -> Option<&ObjKey>
        ensures { FindsFirst self.now (IpPod ip) (option_copied result) }
    {
        self.pods_at(ip).first()
    }

    fn services_at(&self, ip: Ip) -> &[ObjKey]
        ensures { FindsKeys self.now (IpService ip) result.now }
    {
        self.objects.stand_at_keys();
        self.keys.marked.services_at(ip)
    }

    fn pods_at(&self, ip: Ip) -> &[ObjKey]
        ensures { FindsKeys self.now (IpPod ip) result.now }
    {
        self.objects.stand_at_keys();
        self.keys.marked.pods_at(ip)
    }

    /// Sets the object at its key. Returns `Full` if the key is new and `limit` objects are held.
    pub fn set(&mut self, object: Object) -> Result<Change, StoreFault>
        ensures ok { IfOk result (Puts self.old.objects self.new.objects object) }
        ensures room { OnOk result
            (lacks_room self.old.objects self.old.limit (key_of object) ≡ false) }
        ensures refused { IfErr result (Refuses self.old self.new
            (lacks_room self.old.objects self.old.limit (key_of object))) }
        ensures was_spent { self.old.spent ≡ true → IsErrOf result StoreFault.Memory }
        ensures going { OnOk result (self.new.spent ≡ false) }
        ensures limit { self.new.limit ≡ self.old.limit }
    {
        if self.spent {
            return Err(StoreFault::Memory);
        }
        let result = put(
            self.alloc,
            &mut self.objects,
            &mut self.keys,
            self.limit,
            object,
        );
        self.spent = matches!(&result, Err(StoreFault::Memory));
        result
    }

    /// Removes the object at the key. The change is empty if there is none.
    pub fn remove(&mut self, key: &ObjKey) -> Result<Change, Memory>
        ensures ok { IfOk result (Takes self.old.objects self.new.objects key.now) }
        ensures refused { OnErr result (self.new.spent ≡ true) }
        ensures was_spent { self.old.spent ≡ true → IsErr result }
        ensures going { OnOk result (self.new.spent ≡ false) }
        ensures limit { self.new.limit ≡ self.old.limit }
    {
        if self.spent {
            return Err(Memory);
        }
        let result = take(self.alloc, &mut self.objects, &mut self.keys, key);
        self.spent = result.is_err();
        result
    }

    /// Replaces all objects of the kind, in all namespaces, by the items. Returns `Full` if more
    /// than `limit` objects would be held. The keys of the change are ascending.
    pub fn relist(&mut self, kind: Kind, items: List<Object>) -> Result<Change, StoreFault>
        requires { IsListOf kind items }
        ensures ok { IfOk result (Relists self.old.objects self.new.objects kind items) }
        ensures room { OnOk result (exceeds self.old.objects self.old.limit kind items ≡ false) }
        ensures refused { IfErr result (Refuses self.old self.new
            (exceeds self.old.objects self.old.limit kind items)) }
        ensures was_spent { self.old.spent ≡ true → IsErrOf result StoreFault.Memory }
        ensures going { OnOk result (self.new.spent ≡ false) }
        ensures limit { self.new.limit ≡ self.old.limit }
    {
        if self.spent {
            return Err(StoreFault::Memory);
        }
        let result = relist(
            self.alloc,
            &mut self.objects,
            &mut self.keys,
            self.limit,
            kind,
            items,
        );
        self.spent = matches!(&result, Err(StoreFault::Memory));
        result
    }
}

fn put(
    alloc: Global,
    objects: &mut Objects,
    keys: &mut StoreKeys,
    limit: u32,
    object: Object,
) -> Result<Change, StoreFault>
    requires { map.len objects.old ≤ limit }
    ensures ok { IfOk result (Puts objects.old objects.new object) }
    ensures room { OnOk result (lacks_room objects.old limit (key_of object) ≡ false) }
    ensures full { IfErr result (IsFull objects.old objects.new
        (lacks_room objects.old limit (key_of object))) }
    ensures within { map.len objects.new ≤ limit }
    ensures keys { OnOk result (AreKept objects.old keys.old → AreKept objects.new keys.new) }
    ensures keys_stay { IfErr result (StayUnlessSpent keys.old keys.new) }
{
    objects.stand_at_keys();
    let key = object.key(alloc)?;
    let marks = marks_of(alloc, &object)?;
    let before = objects.set(alloc, limit, &key, object)?;
    let change = Change::put(alloc, marks, before, key)?;
    follow(alloc, objects, keys, &change)?;
    Ok(change)
}

fn take(
    alloc: Global,
    objects: &mut Objects,
    keys: &mut StoreKeys,
    key: &ObjKey,
) -> Result<Change, Memory>
    ensures ok { IfOk result (Takes objects.old objects.new key.now) }
    ensures removed { objects.new ≡ map.remove objects.old key.now }
    ensures keys { OnOk result (AreKept objects.old keys.old → AreKept objects.new keys.new) }
{
    objects.stand_at_keys();
    let change = Change::taken(alloc, objects.remove(key))?;
    follow(alloc, objects, keys, &change)?;
    Ok(change)
}

fn tick_if<L>(there: bool, steps: &mut Steps<L>)
    ensures { steps.new ≡ (if there then min (steps.old + 1) (2 ^ 64 - 1) else steps.old) }
{
    if there {
        steps.tick();
    }
}
