// References from the objects with a mark.
ghost use Rattle.std.specs.Prelude.{◌≡◌, ◌++◌, [], ◌∷◌, false, OnOk, flat_map};
ghost use Rattle.mark_rules.specs.Marks.{objects_with};
ghost use Rattle.object_store.specs.KeyLists.{is_of_key};
ghost use Rattle.row_reads.specs.References.{read_at, references, references_at};

use crate::references::{Reference, add_references};
use mark_rules::laws::keys_by_mark;
use mesh_base::copied::Copied;
use mesh_base::key::ObjKey;
use mesh_base::list::List;
use mesh_base::memory::Memory;
use mesh_base::steps::Steps;
use object_store::store::Store;
use std::alloc::Global;
use view_types::config::Config;
use view_types::mark::Mark;

/// The inputs of the marks of rows.
#[derive(Clone, Copy)]
pub struct Reader<'a> {
    pub alloc: Global,
    pub config: &'a Config,
    pub store: &'a Store,
}

impl Reader<'_> {
    /// Adds a mark, and the marks of what the objects with it refer to, in the order of these
    /// objects.
    pub fn add_read<L>(
        &self,
        mark: &Mark,
        sort: Reference,
        marks: &mut List<Mark>,
        steps: &mut Steps<L>,
    ) -> Result<(), Memory>
        requires { is_of_key mark.now ≡ false }
        ensures { self.now.store.now.spent ≡ false → OnOk result (marks.new ≡ marks.old
            ++ read_at self.now.store.now.objects sort mark.now) }
    {
        marks.add(mark.copy(self.alloc)?)?;
        add_at(self.store, mark, sort, marks, steps)
    }
}

/// Adds the marks of what the objects with a mark refer to, in the order of these objects.
fn add_at<L>(
    store: &Store,
    mark: &Mark,
    sort: Reference,
    marks: &mut List<Mark>,
    steps: &mut Steps<L>,
) -> Result<(), Memory>
    requires { is_of_key mark.now ≡ false }
    ensures { store.now.spent ≡ false → OnOk result (marks.new ≡ marks.old
        ++ flat_map (references sort) (objects_with store.now.objects (mark.now ∷ []))) }
{
    keys_by_mark();
    store.stand_at_keys();
    add_found(store, store.keys_with(mark), sort, marks, steps)
}

fn add_found<L>(
    store: &Store,
    keys: &[ObjKey],
    sort: Reference,
    marks: &mut List<Mark>,
    steps: &mut Steps<L>,
) -> Result<(), Memory>
    ensures { OnOk result (marks.new ≡ marks.old
        ++ flat_map (references_at store.now.objects sort) keys.now) }
{
    for key in keys {
        add_one(store, key, sort, marks, steps)?;
    }
    Ok(())
}

fn add_one<L>(
    store: &Store,
    key: &ObjKey,
    sort: Reference,
    marks: &mut List<Mark>,
    steps: &mut Steps<L>,
) -> Result<(), Memory>
    ensures { OnOk result (marks.new ≡ marks.old ++ references_at store.now.objects sort key.now) }
{
    match store.get(key, steps) {
        Some(object) => add_references(marks, sort, object),
        None => Ok(()),
    }
}
