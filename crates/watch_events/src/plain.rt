ghost use Rattle.watch_events.specs.SameKeys.{same_keys_is};
ghost use Rattle.watch_events.specs.Tables.{plain};

use crate::table::KindTable;
use crate::{kinds, object};
use k8s_meta::fault::ReadFault;
use k8s_meta::place::Place;
use mesh_base::key::{Kind, ObjKey};
use mesh_base::memory::Memory;
use std::alloc::Global;
use view_types::object::Object;

/// The kinds of objects that are held.
#[derive(Clone, Copy)]
pub struct PlainKinds;

impl KindTable for PlainKinds {
    type Kind = Kind;

    type Object = Object;

    type Key = ObjKey;

    ghost table = { λ _. plain };

    fn kind_named(&self, name: &[u8], group: &[u8]) -> Option<Kind> {
        kinds::kind_named(name, group)
    }

    fn read_object<'a>(&self, kind: Kind, object: &'a Place<'a>) -> Result<Object, ReadFault> {
        object::read_object(kind, object)
    }

    fn read_key<'a>(&self, kind: Kind, object: &'a Place<'a>) -> Result<ObjKey, ReadFault> {
        object::read_key(kind, object)
    }

    fn key(&self, alloc: Global, object: &Object) -> Result<ObjKey, Memory> {
        object.key(alloc)
    }

    ghost same_keys = { λ _ a b. same_keys_is a b };
}
