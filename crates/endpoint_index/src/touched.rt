// The slices that a change affects.
ghost use Rattle.std.specs.Prelude.{◌≡◌, ◌||◌, IfOk, OnOk};
ghost use Rattle.std.specs.List.{list_any};
ghost use Rattle.key_lists.specs.Keys.{has_key};
ghost use Rattle.mesh_base.specs.declared.key.ObjKey.{ObjKey as TheKey};
ghost use Rattle.view_types.specs.declared.mark.Mark.TheVariants.{Obj};
ghost use Rattle.mark_rules.specs.Marks.{same_mark};
ghost use Rattle.endpoint_index.specs.Given.{touches};

use key_lists::key_list::KeyList;
use mesh_base::copied::Copied;
use mesh_base::key::ObjKey;
use mesh_base::memory::Memory;
use slice_marks::slices::SliceMarks;
use std::alloc::Global;
use view_types::mark::Mark;

/// Returns the keys of the slices that have one of these marks or name a Pod that does. There may
/// be keys of other objects with the marks among them.
pub(crate) fn touched_slices(
    alloc: Global,
    read: &SliceMarks,
    changed: &[Mark],
) -> Result<KeyList, Memory>
    ensures { IfOk result (λ touched. (k : TheKey)
        → has_key k touched ≡ list_any (touches read.now.by_mark k) changed.now) }
{
    let mut touched = KeyList::new(alloc);
    for mark in changed {
        add_touched(alloc, read, mark, &mut touched)?;
    }
    Ok(touched)
}

fn add_touched(
    alloc: Global,
    read: &SliceMarks,
    mark: &Mark,
    touched: &mut KeyList,
) -> Result<(), Memory>
    ensures { OnOk result ((k : TheKey) → has_key k touched.new
        ≡ (touches read.now.by_mark k mark.now || has_key k touched.old)) }
{
    add_keys(alloc, read.at(mark), touched)?;
    add_own(alloc, mark, touched)
}

fn add_keys(alloc: Global, keys: &[ObjKey], touched: &mut KeyList) -> Result<(), Memory>
    ensures { OnOk result ((k : TheKey)
        → has_key k touched.new ≡ (has_key k keys.now || has_key k touched.old)) }
{
    for key in keys {
        touched.put(key.copy(alloc)?)?;
    }
    Ok(())
}

fn add_own(alloc: Global, mark: &Mark, touched: &mut KeyList) -> Result<(), Memory>
    ensures { OnOk result ((k : TheKey)
        → has_key k touched.new ≡ (same_mark (Obj k) mark.now || has_key k touched.old)) }
{
    match mark {
        Mark::Obj(key) => touched.put(key.copy(alloc)?),
        _ => Ok(()),
    }
}
