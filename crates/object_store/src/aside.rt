ghost use Rattle.std.specs.Prelude.{◌≡◌, ◌||◌, ◌++◌, true, IfOk, OnOk};
ghost use Rattle.std.specs.List.{list_any};
ghost use Rattle.std.specs.Option.{option_to_list};
ghost use Rattle.key_lists.specs.Keys.{is_after};
ghost use Rattle.mesh_base.specs.declared.key.ObjKey.{ObjKey};
ghost use Rattle.object_store.specs.KeyLists.{is_aside, is_kept};
ghost use Rattle.view_types.specs.declared.mark.Mark.{Mark};

use crate::mark_keys::MarkKeys;
use key_lists::key_list::KeyList;
use mesh_base::key::Kind;
use mesh_base::list::List;
use mesh_base::memory::Memory;
use mesh_base::text::Text;
use std::alloc::Global;
use view_types::mark::Mark;
use view_types::route::ParentKind;

/// The parent of routes, as in `Mark::RouteOn`.
#[derive(Drop)]
pub struct Parent {
    pub ns: Text,
    pub kind: ParentKind,
    pub name: Text,
}

/// Keys of routes, removed from the list of a parent while keys of an earlier kind change.
#[derive(Drop)]
pub struct Aside {
    pub parent: Parent,
    pub keys: KeyList,
}

/// Removes and returns the keys of kinds after this one, at the marks with keys of several kinds.
pub fn set_aside(
    alloc: Global,
    keys: &mut MarkKeys,
    kind: Kind,
    marks: &[Mark],
) -> Result<List<Aside>, Memory>
    ensures parted { IfOk result (λ asides. (m : Mark) (k : ObjKey)
        → is_kept keys.old m k ≡ (list_any (is_aside m k) asides || is_kept keys.new m k)) }
    ensures after { IfOk result (λ asides. (m : Mark) (k : ObjKey)
        → list_any (is_aside m k) asides ≡ true → is_after kind k ≡ true) }
{
    let mut asides = List::new(alloc);
    for mark in marks {
        let aside = keys.set_aside(alloc, kind, mark)?;
        add(&mut asides, aside)?;
    }
    Ok(asides)
}

/// Puts back the keys that were set aside.
pub fn put_back(alloc: Global, keys: &mut MarkKeys, asides: List<Aside>) -> Result<(), Memory>
    ensures { OnOk result ((m : Mark) (k : ObjKey)
        → is_kept keys.new m k ≡ (list_any (is_aside m k) asides || is_kept keys.old m k)) }
{
    for aside in asides.into_vec() {
        keys.put_back(alloc, aside)?;
    }
    Ok(())
}

fn add(asides: &mut List<Aside>, aside: Option<Aside>) -> Result<(), Memory>
    ensures { OnOk result (asides.new ≡ asides.old ++ option_to_list aside) }
{
    match aside {
        Some(aside) => asides.add(aside),
        None => Ok(()),
    }
}
