ghost use Rattle.std.specs.Prelude.{◌≡◌, ◌++◌, IfOk, IfErr, OnOk, OnErr, map};
ghost use Rattle.std.specs.FinMap as map;
ghost use Rattle.std.specs.List.{IsDistinct};
ghost use Rattle.std.specs.List.Sorted.{IsPermutation};
ghost use Rattle.std.specs.Ordering.{eq_by_cmp};
ghost use Rattle.mesh_base.specs.KeyOrder.{key_cmp};
ghost use Rattle.mesh_base.specs.Keyed.{IsKeyed};
ghost use Rattle.mesh_base.specs.Places.{IsGap, IsHit};
ghost use Rattle.object_store.specs.Relisted.{put_all};
ghost use Rattle.view_types.specs.Objects.{key_of};
ghost use Rattle.grpc_feed.specs.FeedLines.{kept, stays};

use crate::kinds::{FeedKind, is_gateway_route, is_lowered_object};
use mesh_base::copied::Copied;
use mesh_base::key::ObjKey;
use mesh_base::list::List;
use mesh_base::memory::Memory;
use std::alloc::Global;
use std::marker::Model;
use view_types::object::Object;

/// Routes in the order of their keys, which contracts see as a finite map.
pub struct Routes {
    objects: Vec<Object>,
}

/// Written by hand, as that of `List`.
impl Drop for Routes {
    fn drop(self) {
        let Routes { objects: _objects } = self;
    }
}

impl Model for Routes {
    ghost use Rattle.std.specs.FinMap as map;
    ghost use Rattle.mesh_base.specs.KeyOrder.{coded_key, key_cmp};
    ghost use Rattle.mesh_base.specs.Keyed.{IsKeyed, keyed_map};
    ghost use Rattle.view_types.specs.Objects.{ObjectMap, key_of};
    ghost use Rattle.view_types.specs.contracts.object.Object as object;

    ghost Value = { ObjectMap };

    ghost coded = { map.code coded_key object.the_row.coded };

    ghost view = { λ r. keyed_map key_cmp key_of (λ o. o) r.objects.items };

    ghost invariant = { λ r. IsKeyed key_cmp key_of (λ o. o) r.objects.items };
}

impl Routes {
    pub fn new(alloc: Global) -> Routes
        ensures { result ≡ map.empty }
    {
        Routes {
            objects: Vec::new(alloc),
        }
    }

    /// Copies the items of a list, which have distinct keys.
    pub fn copy_of(alloc: Global, items: &List<Object>) -> Result<Routes, Memory>
        requires { IsDistinct (eq_by_cmp key_cmp) (map key_of items.now) }
        ensures { IfOk result (λ routes. routes ≡ put_all items.now map.empty) }
    {
        Ok(Routes {
            objects: arrange(items.copy(alloc)?),
        })
    }

    /// Sets the object at its key.
    pub fn set(&mut self, object: Object) -> Result<(), Memory>
        ensures ok { OnOk result (self.new ≡ map.insert self.old (key_of object) object) }
        ensures err { OnErr result (self.new ≡ self.old) }
    {
        match place_of(self.objects.as_slice(), &object) {
            Ok(at) => {
                self.objects[at] = object;
                Ok(())
            }
            Err(at) => Ok(self.objects.insert(at, object)?),
        }
    }

    /// Removes the object at the key, if there is one.
    pub fn remove(&mut self, key: &ObjKey)
        ensures { self.new ≡ map.remove self.old key.now }
    {
        match place_at(self.objects.as_slice(), key) {
            Ok(at) => {
                let _object = self.objects.remove(at);
            }
            Err(_) => {}
        }
    }

    /// Appends copies of the routes that a list of the kind leaves as they are.
    pub fn add_kept(
        &self,
        alloc: Global,
        kind: FeedKind,
        items: &mut List<Object>,
    ) -> Result<(), Memory>
        ensures { OnOk result (items.new ≡ items.old ++ kept kind self.now) }
    {
        for object in self.objects.as_slice() {
            if stays(kind, object) {
                items.add(object.copy(alloc)?)?;
            }
        }
        Ok(())
    }
}

fn stays(kind: FeedKind, object: &Object) -> bool
    ensures { result ≡ stays kind (key_of object.now) }
{
    match kind {
        FeedKind::GrpcRoute => is_gateway_route(object.kind()) && !is_lowered_object(object),
        FeedKind::Held(kind) => is_gateway_route(kind) && is_lowered_object(object),
    }
}

/// Returns the items in the order of their keys.
fn arrange(items: List<Object>) -> Vec<Object>
    requires { IsDistinct (eq_by_cmp key_cmp) (map key_of items) }
    ensures sorted { IsKeyed key_cmp key_of (λ o. o) result.items }
    ensures moved { IsPermutation items result.items }
{
    let mut items = items.into_vec();
    items.sort_unstable_by(|a, b| a.compare_keys(b));
    items
}

/// Returns the index of the object with the key of this one, or the index at which it would be
/// inserted.
fn place_of(objects: &[Object], object: &Object) -> Result<usize, usize>
    requires { IsKeyed key_cmp key_of (λ o. o) objects.now }
    ensures hit { IfOk result (IsHit (λ o. key_cmp (key_of o) (key_of object.now)) objects.now) }
    ensures gap { IfErr result (IsGap (λ o. key_cmp (key_of o) (key_of object.now)) objects.now) }
{
    objects.binary_search_by(|other| other.compare_keys(object))
}

/// Returns the index of the object at the key, or the index at which it would be inserted.
fn place_at(objects: &[Object], key: &ObjKey) -> Result<usize, usize>
    requires { IsKeyed key_cmp key_of (λ o. o) objects.now }
    ensures hit { IfOk result (IsHit (λ o. key_cmp (key_of o) key.now) objects.now) }
    ensures gap { IfErr result (IsGap (λ o. key_cmp (key_of o) key.now) objects.now) }
{
    objects.binary_search_by(|other| other.compare_key(key))
}
