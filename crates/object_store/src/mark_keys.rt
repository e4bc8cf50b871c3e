ghost use Rattle.std.specs.Prelude.{◌≡◌, ◌&&◌, ◌||◌, not, true, false, IfOk, OnOk};
ghost use Rattle.std.specs.List.{list_any};
ghost use Rattle.std.specs.Option.{option_to_list};
ghost use Rattle.key_lists.specs.Keys.{has_key, is_after, is_key, Rises};
ghost use Rattle.mesh_base.specs.declared.key.ObjKey.{ObjKey};
ghost use Rattle.view_types.specs.declared.mark.Mark.{Mark};
ghost use Rattle.view_types.specs.declared.mark.Mark.TheVariants.{IpPod, IpService, PolicyOn, RouteOn, ServerAuthzIn, ServersIn, SlicesOf};
ghost use Rattle.object_store.specs.KeyLists.{is_among, is_aside, is_at, is_for, is_kept, kept_at};

use crate::aside::{Aside, Parent};
use key_lists::key_list::KeyList;
use key_lists::{by_kind, by_mark, nested};
use mesh_base::key::{Kind, ObjKey};
use mesh_base::memory::Memory;
use mesh_base::text::Text;
use net_cidr::ip::Ip;
use std::alloc::Global;
use std::collections::BTreeMap;
use view_types::authn::RefKind;
use view_types::mark::Mark;
use view_types::route::ParentKind;

/// The keys of objects by their marks, except for the marks of keys. The maps are nested by the
/// parts of a mark, for look-ups without building a mark.
#[derive(Drop)]
pub struct MarkKeys {
    /// The keys of EndpointSlices by the namespace and the name of the Service.
    slices: BTreeMap<Text, BTreeMap<Text, KeyList>>,
    servers: BTreeMap<Text, KeyList>,
    server_authz: BTreeMap<Text, KeyList>,
    /// The keys of AuthorizationPolicies by the kind, the namespace and the name of the target.
    policies: BTreeMap<RefKind, BTreeMap<Text, BTreeMap<Text, KeyList>>>,
    /// The keys of routes by the kind, the namespace and the name of the parent.
    routes: BTreeMap<ParentKind, BTreeMap<Text, BTreeMap<Text, KeyList>>>,
    services: BTreeMap<Ip, KeyList>,
    pods: BTreeMap<Ip, KeyList>,
}

impl MarkKeys {
    pub fn new(alloc: Global) -> MarkKeys
        ensures { (m : Mark) (k : ObjKey) → is_kept result m k ≡ false }
    {
        MarkKeys {
            slices: BTreeMap::new(alloc),
            servers: BTreeMap::new(alloc),
            server_authz: BTreeMap::new(alloc),
            policies: BTreeMap::new(alloc),
            routes: BTreeMap::new(alloc),
            services: BTreeMap::new(alloc),
            pods: BTreeMap::new(alloc),
        }
    }

    /// Returns the keys at the mark, in order.
    pub fn at<'a>(&'a self, mark: &Mark) -> &'a [ObjKey]
        ensures value { result.now ≡ kept_at self.now mark.now }
        ensures rise { Rises (kept_at self.now mark.now) }
    {
        match mark {
            Mark::Obj(_) => &[],
            Mark::SlicesOf(ns, service) => self.slices_of(ns, service),
            Mark::ServersIn(ns) => self.servers_in(ns),
            Mark::ServerAuthzIn(ns) => self.server_authz_in(ns),
            Mark::PolicyOn(ns, kind, name) => self.policies_on(ns, *kind, name),
            Mark::RouteOn(ns, kind, name) => self.routes_on(ns, *kind, name),
            Mark::IpService(ip) => self.services_at(ip.get()),
            Mark::IpPod(ip) => self.pods_at(ip.get()),
        }
    }

    /// Returns the keys of the EndpointSlices of the Service, in order.
    pub fn slices_of(&self, ns: &Text, service: &Text) -> &[ObjKey]
        ensures value { result.now ≡ kept_at self.now (SlicesOf ns.now service.now) }
        ensures rise { Rises (kept_at self.now (SlicesOf ns.now service.now)) }
    {
        nested::keys_at(&self.slices, ns, service)
    }

    /// Returns the keys of the Servers of the namespace, in order.
    pub fn servers_in(&self, ns: &Text) -> &[ObjKey]
        ensures value { result.now ≡ kept_at self.now (ServersIn ns.now) }
        ensures rise { Rises (kept_at self.now (ServersIn ns.now)) }
    {
        by_mark::keys_at(&self.servers, ns)
    }

    /// Returns the keys of the ServerAuthorizations of the namespace, in order.
    pub fn server_authz_in(&self, ns: &Text) -> &[ObjKey]
        ensures value { result.now ≡ kept_at self.now (ServerAuthzIn ns.now) }
        ensures rise { Rises (kept_at self.now (ServerAuthzIn ns.now)) }
    {
        by_mark::keys_at(&self.server_authz, ns)
    }

    /// Returns the keys of the AuthorizationPolicies of the namespace with this target, in order.
    pub fn policies_on(&self, ns: &Text, kind: RefKind, name: &Text) -> &[ObjKey]
        ensures value { result.now ≡ kept_at self.now (PolicyOn ns.now kind name.now) }
        ensures rise { Rises (kept_at self.now (PolicyOn ns.now kind name.now)) }
    {
        by_kind::keys_at(&self.policies, kind, ns, name)
    }

    /// Returns the keys of the routes of the namespace with this parent, in order.
    pub fn routes_on(&self, ns: &Text, kind: ParentKind, name: &Text) -> &[ObjKey]
        ensures value { result.now ≡ kept_at self.now (RouteOn ns.now kind name.now) }
        ensures rise { Rises (kept_at self.now (RouteOn ns.now kind name.now)) }
    {
        by_kind::keys_at(&self.routes, kind, ns, name)
    }

    /// Returns the keys of the Services at the address, in order.
    pub fn services_at(&self, ip: Ip) -> &[ObjKey]
        ensures value { result.now ≡ kept_at self.now (IpService ip) }
        ensures rise { Rises (kept_at self.now (IpService ip)) }
    {
        by_mark::keys_at(&self.services, &ip)
    }

    /// Returns the keys of the Pods with the address, in order.
    pub fn pods_at(&self, ip: Ip) -> &[ObjKey]
        ensures value { result.now ≡ kept_at self.now (IpPod ip) }
        ensures rise { Rises (kept_at self.now (IpPod ip)) }
    {
        by_mark::keys_at(&self.pods, &ip)
    }

    /// Adds the key at each mark.
    pub fn put(&mut self, alloc: Global, marks: &[Mark], key: &ObjKey) -> Result<(), Memory>
        ensures { OnOk result ((m : Mark) (k : ObjKey)
            → is_kept self.new m k
            ≡ ((is_among marks.now m && is_key k key.now) || is_kept self.old m k)) }
    {
        for mark in marks {
            self.put_one(alloc, mark, key)?;
        }
        Ok(())
    }

    /// Removes the key from each mark.
    pub fn take(&mut self, marks: &[Mark], key: &ObjKey)
        ensures { (m : Mark) (k : ObjKey)
            → is_kept self.new m k
            ≡ (not (is_among marks.now m && is_key k key.now) && is_kept self.old m k) }
    {
        for mark in marks {
            self.take_one(mark, key);
        }
    }

    /// Removes and returns the keys of kinds after this one, which only a list of routes may have.
    pub fn set_aside(
        &mut self,
        alloc: Global,
        kind: Kind,
        mark: &Mark,
    ) -> Result<Option<Aside>, Memory>
        ensures parted { IfOk result (λ aside. (m : Mark) (k : ObjKey)
            → is_kept self.old m k
            ≡ (list_any (is_aside m k) (option_to_list aside) || is_kept self.new m k)) }
        ensures after { IfOk result (λ aside. (m : Mark) (k : ObjKey)
            → list_any (is_aside m k) (option_to_list aside) ≡ true → is_after kind k ≡ true) }
    {
        match mark {
            Mark::RouteOn(ns, parent, name) => {
                if ends_by(self.routes_on(ns, *parent, name), kind) {
                    return Ok(None);
                }
                let parent = Parent {
                    ns: ns.copy()?,
                    kind: *parent,
                    name: name.copy()?,
                };
                let keys = self.take_routes_after(alloc, kind, &parent)?;
                Ok(Some(Aside { parent, keys }))
            }
            _ => Ok(None),
        }
    }

    /// Puts back the keys that were set aside.
    pub fn put_back(&mut self, alloc: Global, aside: Aside) -> Result<(), Memory>
        ensures { OnOk result ((m : Mark) (k : ObjKey)
            → is_kept self.new m k ≡ (is_aside m k aside || is_kept self.old m k)) }
    {
        let Aside { parent, keys } = aside;
        self.put_routes(alloc, &parent, keys)
    }

    fn take_routes_after(
        &mut self,
        alloc: Global,
        kind: Kind,
        parent: &Parent,
    ) -> Result<KeyList, Memory>
        ensures parted { IfOk result (λ keys. (m : Mark) (k : ObjKey)
            → is_kept self.old m k
            ≡ ((is_at parent.now m && has_key k keys) || is_kept self.new m k)) }
        ensures after { IfOk result (λ keys. (k : ObjKey)
            → has_key k keys ≡ true → is_after kind k ≡ true) }
    {
        let mut keys = by_kind::take_list(
            alloc,
            &mut self.routes,
            parent.kind,
            &parent.ns,
            &parent.name,
        );
        let after = keys.split_after(kind)?;
        self.put_routes(alloc, parent, keys)?;
        Ok(after)
    }

    fn put_routes(&mut self, alloc: Global, parent: &Parent, keys: KeyList) -> Result<(), Memory>
        ensures { OnOk result ((m : Mark) (k : ObjKey)
            → is_kept self.new m k
            ≡ ((is_at parent.now m && has_key k keys) || is_kept self.old m k)) }
    {
        if keys.is_empty() {
            return Ok(());
        }
        by_kind::put_list(
            alloc,
            &mut self.routes,
            parent.kind,
            &parent.ns,
            &parent.name,
            keys,
        )
    }

    fn put_one(&mut self, alloc: Global, mark: &Mark, key: &ObjKey) -> Result<(), Memory>
        ensures { OnOk result ((m : Mark) (k : ObjKey)
            → is_kept self.new m k
            ≡ ((is_for mark.now m && is_key k key.now) || is_kept self.old m k)) }
    {
        match mark {
            Mark::Obj(_) => Ok(()),
            Mark::SlicesOf(ns, service) => {
                nested::put_one(alloc, &mut self.slices, ns, service, key)
            }
            Mark::ServersIn(ns) => by_mark::put_one(alloc, &mut self.servers, ns, key),
            Mark::ServerAuthzIn(ns) => by_mark::put_one(alloc, &mut self.server_authz, ns, key),
            Mark::PolicyOn(ns, kind, name) => {
                by_kind::put_one(alloc, &mut self.policies, *kind, ns, name, key)
            }
            Mark::RouteOn(ns, kind, name) => {
                by_kind::put_one(alloc, &mut self.routes, *kind, ns, name, key)
            }
            Mark::IpService(ip) => by_mark::put_one(alloc, &mut self.services, &ip.get(), key),
            Mark::IpPod(ip) => by_mark::put_one(alloc, &mut self.pods, &ip.get(), key),
        }
    }

    fn take_one(&mut self, mark: &Mark, key: &ObjKey)
        ensures { (m : Mark) (k : ObjKey)
            → is_kept self.new m k
            ≡ (not (is_for mark.now m && is_key k key.now) && is_kept self.old m k) }
    {
        match mark {
            Mark::Obj(_) => {}
            Mark::SlicesOf(ns, service) => nested::take_one(&mut self.slices, ns, service, key),
            Mark::ServersIn(ns) => by_mark::take_one(&mut self.servers, ns, key),
            Mark::ServerAuthzIn(ns) => by_mark::take_one(&mut self.server_authz, ns, key),
            Mark::PolicyOn(ns, kind, name) => {
                by_kind::take_one(&mut self.policies, *kind, ns, name, key)
            }
            Mark::RouteOn(ns, kind, name) => {
                by_kind::take_one(&mut self.routes, *kind, ns, name, key)
            }
            Mark::IpService(ip) => by_mark::take_one(&mut self.services, &ip.get(), key),
            Mark::IpPod(ip) => by_mark::take_one(&mut self.pods, &ip.get(), key),
        }
    }
}

/// Returns whether no key is of a kind after this one. The last key is of the last kind.
fn ends_by(keys: &[ObjKey], kind: Kind) -> bool {
    match keys.last() {
        Some(key) => key.kind <= kind,
        None => true,
    }
}
