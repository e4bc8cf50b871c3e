ghost use Rattle.std.specs.Prelude.{◌≡◌, [], ◌∷◌, ◌++◌, IfOk, flat_map};
ghost use Rattle.std.specs.Option.{option_to_list};
ghost use Rattle.mark_rules.specs.Marks.{each_once, marks_of, marks_of_all};
ghost use Rattle.object_store.specs.declared.change.StoreFault.TheVariants.{Memory};

use mark_rules::object_marks::{add_all_marks, keep_once};
use mesh_base::key::ObjKey;
use mesh_base::list::List;
use mesh_base::memory;
use std::alloc::{AllocFailed, Global};
use view_types::mark::Mark;
use view_types::object::Object;

/// The change that a call made.
#[derive(Drop)]
pub struct Change {
    /// The objects that were replaced or removed, in the order of their keys.
    pub old: List<Object>,
    /// The keys that were set, in order.
    pub new: List<ObjKey>,
    /// The marks of all old and new objects, in order, each once.
    pub marks: List<Mark>,
}

impl Change {
    /// Returns the change of a set, from the marks of the new object and the object before.
    pub fn put(
        alloc: Global,
        marks: List<Mark>,
        before: Option<Object>,
        key: ObjKey,
    ) -> Result<Change, memory::Memory>
        ensures old { IfOk result (λ change. change.old ≡ option_to_list before) }
        ensures new { IfOk result (λ change. change.new ≡ key ∷ []) }
        ensures marks { IfOk result (λ change.
            change.marks ≡ each_once (marks ++ flat_map marks_of (option_to_list before))) }
    {
        let old = listed(alloc, before)?;
        let mut new = List::new(alloc);
        new.add(key)?;
        Change::from(alloc, marks, old, new)
    }

    /// Returns the change of a removal, which is empty if there was no object.
    pub fn taken(alloc: Global, before: Option<Object>) -> Result<Change, memory::Memory>
        ensures old { IfOk result (λ change. change.old ≡ option_to_list before) }
        ensures new { IfOk result (λ change. change.new ≡ []) }
        ensures marks { IfOk result
            (λ change. change.marks ≡ marks_of_all (option_to_list before)) }
    {
        let old = listed(alloc, before)?;
        Change::from(alloc, List::new(alloc), old, List::new(alloc))
    }

    /// Returns the change with these old objects and new keys, from the marks of the new objects.
    pub fn from(
        alloc: Global,
        marks: List<Mark>,
        old: List<Object>,
        new: List<ObjKey>,
    ) -> Result<Change, memory::Memory>
        ensures old { IfOk result (λ change. change.old ≡ old) }
        ensures new { IfOk result (λ change. change.new ≡ new) }
        ensures marks { IfOk result (λ change.
            change.marks ≡ each_once (marks ++ flat_map marks_of old)) }
    {
        let mut marks = marks;
        add_all_marks(alloc, &mut marks, old.as_slice())?;
        let marks = keep_once(marks)?;
        Ok(Change { old, new, marks })
    }
}

fn listed(alloc: Global, found: Option<Object>) -> Result<List<Object>, memory::Memory>
    ensures { IfOk result (λ list. list ≡ option_to_list found) }
{
    let mut list = List::new(alloc);
    if let Some(object) = found {
        list.add(object)?;
    }
    Ok(list)
}

/// The reason why a change was refused.
#[derive(Clone, Copy, Debug, PartialEq, Eq)]
pub enum StoreFault {
    Memory,
    /// The change would exceed the limit of objects. `held` is their unchanged number.
    Full { held: u32 },
}

impl From<memory::Memory> for StoreFault {
    ghost from_gives = { λ _ e. e ≡ Memory };

    fn from(_e: memory::Memory) -> StoreFault {
        StoreFault::Memory
    }
}

impl<T: Drop> From<AllocFailed<T>> for StoreFault {
    ghost from_gives = { λ _ e. e ≡ Memory };

    fn from(_e: AllocFailed<T>) -> StoreFault {
        StoreFault::Memory
    }
}
