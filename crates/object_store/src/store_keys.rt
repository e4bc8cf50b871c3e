// The keys that a store keeps beside its objects.
ghost use Rattle.std.specs.Prelude.{◌≡◌, false};
ghost use Rattle.mesh_base.specs.declared.key.ObjKey.{ObjKey};
ghost use Rattle.view_types.specs.declared.mark.Mark.{Mark};
ghost use Rattle.object_store.specs.KeyLists.{is_kept};
ghost use Rattle.object_store.specs.ServerKeys.{Place, is_kept_for};

use crate::mark_keys::MarkKeys;
use crate::server_keys::ServerKeys;
use std::alloc::Global;

/// The indexes of a store: keys of objects, for look-ups by other values than a key.
#[derive(Drop)]
pub struct StoreKeys {
    /// The keys by the marks of the objects.
    pub marked: MarkKeys,
    /// The keys of Servers by the labels that they require of a Pod.
    pub servers: ServerKeys,
}

impl StoreKeys {
    pub fn new(alloc: Global) -> StoreKeys
        ensures marked { (m : Mark) (k : ObjKey) → is_kept result.marked m k ≡ false }
        ensures servers { (place : Place) (k : ObjKey)
            → is_kept_for result.servers place k ≡ false }
    {
        StoreKeys {
            marked: MarkKeys::new(alloc),
            servers: ServerKeys::new(alloc),
        }
    }
}
