// Keys of Servers by the labels that they require of a Pod.
ghost use Rattle.std.specs.Prelude.{◌≡◌, ◌&&◌, ◌||◌, not, false, OnOk, Some};
ghost use Rattle.key_lists.specs.Keys.{is_key};
ghost use Rattle.mesh_base.specs.declared.key.ObjKey.{ObjKey};
ghost use Rattle.object_store.specs.ServerKeys.{Place, is_kept_for, is_placed, kept_for, required_value, requires_value};

use key_lists::key_list::KeyList;
use key_lists::nested;
use mesh_base::key::ObjKey;
use mesh_base::memory::Memory;
use mesh_base::text::Text;
use std::alloc::Global;
use std::collections::BTreeMap;
use view_types::object::Object;
use view_types::server::ServerSpec;

/// The keys of Servers, by the namespace and the value of the first label that each requires of a
/// Pod. A Server that requires no label has its namespace in place of the value.
#[derive(Drop)]
pub struct ServerKeys {
    by_value: BTreeMap<Text, BTreeMap<Text, KeyList>>,
}

impl ServerKeys {
    pub fn new(alloc: Global) -> ServerKeys
        ensures { (place : Place) (k : ObjKey) → is_kept_for result place k ≡ false }
    {
        ServerKeys {
            by_value: BTreeMap::new(alloc),
        }
    }

    /// Returns the keys for the namespace and the value, in order.
    pub fn at(&self, ns: &Text, value: &Text) -> &[ObjKey]
        ensures { result.now ≡ kept_for self.now (ns.now, value.now) }
    {
        nested::keys_at(&self.by_value, ns, value)
    }

    /// Adds the key of an object, if the object is a Server.
    pub fn put(&mut self, alloc: Global, object: &Object, key: &ObjKey) -> Result<(), Memory>
        ensures { OnOk result ((place : Place) (k : ObjKey) → is_kept_for self.new place k
            ≡ ((is_key k key.now && requires_value place (Some object.now))
            || is_kept_for self.old place k)) }
    {
        match object {
            Object::Server(server) => self.put_server(alloc, server.get(), key),
            _ => Ok(()),
        }
    }

    /// Removes the key of an object, if the object is a Server.
    pub fn take(&mut self, object: &Object, key: &ObjKey)
        ensures { (place : Place) (k : ObjKey) → is_kept_for self.new place k
            ≡ (not (requires_value place (Some object.now) && is_key k key.now)
            && is_kept_for self.old place k) }
    {
        match object {
            Object::Server(server) => self.take_server(server.get(), key),
            _ => {}
        }
    }

    fn put_server(&mut self, alloc: Global, server: &ServerSpec, key: &ObjKey) -> Result<(), Memory>
        ensures { OnOk result ((place : Place) (k : ObjKey) → is_kept_for self.new place k
            ≡ ((is_key k key.now && is_placed place (Some server.now))
            || is_kept_for self.old place k)) }
    {
        let value = required_value(server);
        nested::put_one(alloc, &mut self.by_value, &server.meta.ns, value, key)
    }

    fn take_server(&mut self, server: &ServerSpec, key: &ObjKey)
        ensures { (place : Place) (k : ObjKey) → is_kept_for self.new place k
            ≡ (not (is_placed place (Some server.now) && is_key k key.now)
            && is_kept_for self.old place k) }
    {
        let value = required_value(server);
        nested::take_one(&mut self.by_value, &server.meta.ns, value, key);
    }
}

/// Returns the value of the first label that a Server requires, or else its namespace.
fn required_value(server: &ServerSpec) -> &Text
    ensures { result.now ≡ required_value server.now }
{
    let Some(selector) = &server.pods else {
        return &server.meta.ns;
    };
    match selector.exact.entries().first() {
        Some(label) => &label.1,
        None => &server.meta.ns,
    }
}
