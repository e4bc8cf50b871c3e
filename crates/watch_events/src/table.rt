ghost use Rattle.std.specs.Prelude.{◌≡◌, IfOk};
ghost use Rattle.std.specs.Ordering.{eq_by_cmp};
ghost use Rattle.k8s_meta.specs.Spots.{Reads, seen};
ghost use Rattle.watch_events.specs.Tables.{Table};

use k8s_meta::fault::ReadFault;
use k8s_meta::place::Place;
use mesh_base::memory::Memory;
use std::alloc::Global;

/// The kinds of objects in a feed, and how their objects are read: what `read_form` is given.
///
/// A feed with further kinds has an implementation with its own types, which calls `PlainKinds` for
/// the others. `plain` of `specs/Tables` is the definition of these, and `table` is made over it.
/// What is needed of an object beside the object itself is read from the same place, into `Object`.
pub trait KindTable {
    type Kind: Copy + Drop;

    /// What is read of an object.
    type Object: Drop;

    /// What names an object of any kind.
    type Key: Ord + Drop;

    /// The definition of the table.
    ghost table: { Self → Table Self.Kind Self.Object Self.Key };

    /// Returns the kind with this name in this API group.
    fn kind_named(&self, name: &[u8], group: &[u8]) -> Option<Self::Kind>
        ensures { result ≡ (table self.now).named name.now group.now };

    /// Reads the object at a place, as one of the kind.
    fn read_object<'a>(
        &self,
        kind: Self::Kind,
        object: &'a Place<'a>,
    ) -> Result<Self::Object, ReadFault>
        ensures { Reads result ((table self.now).object kind (seen object.now)) };

    /// Reads the key of an object of the kind that is removed.
    fn read_key<'a>(&self, kind: Self::Kind, object: &'a Place<'a>) -> Result<Self::Key, ReadFault>
        ensures { Reads result ((table self.now).removed kind (seen object.now)) };

    /// Returns the key of an object that was read.
    fn key(&self, alloc: Global, object: &Self::Object) -> Result<Self::Key, Memory>
        ensures { IfOk result (λ key. key ≡ (table self.now).key object.now) };

    /// Keys compare as equal exactly if the definition says that they are the same.
    ghost same_keys: { (kinds : Self) (a b : Self.Key)
        → eq_by_cmp Self.Key.Ord.cmp a b ≡ (table kinds).same a b };
}
