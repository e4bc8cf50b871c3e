//! The keys of slices by mark.
ghost use Rattle.std.specs.Prelude.{◌≡◌, ◌&&◌, ◌||◌, ◌++◌, ◌∷◌, [], not, OnOk};
ghost use Rattle.mesh_base.specs.declared.key.ObjKey.{ObjKey};
ghost use Rattle.mesh_base.specs.KeyOrder.{key_cmp};
ghost use Rattle.key_lists.specs.Keys.{Rises, has_key, is_key, key_at, keys_at};
ghost use Rattle.mark_rules.specs.Marks.{has_mark, mark_cmp, same_mark};
ghost use Rattle.view_types.specs.declared.mark.Mark.{Mark};
ghost use Rattle.slice_marks.specs.Marked.{KeysByMark, OthersStay};

use key_lists::by_mark;
use key_lists::key_list::KeyList;
use mesh_base::copied::Copied;
use mesh_base::key::ObjKey;
use mesh_base::list::List;
use mesh_base::memory::Memory;
use std::alloc::Global;
use std::cmp::Ordering;
use std::collections::BTreeMap;
use view_types::mark::Mark;

/// Returns the keys at a mark.
pub(crate) fn keys_at<'a>(by: &'a BTreeMap<Mark, KeyList>, mark: &Mark) -> &'a [ObjKey]
    ensures value { result.now ≡ keys_at mark_cmp by.now mark.now }
    ensures rise { Rises (keys_at mark_cmp by.now mark.now) }
{
    by_mark::keys_at(by, mark)
}

/// Adds the key of a slice at each of its marks. The marks that did not have it are appended to
/// `moved`.
pub(crate) fn put_keys(
    alloc: Global,
    by: &mut BTreeMap<Mark, KeyList>,
    marks: &[Mark],
    key: &ObjKey,
    moved: &mut List<Mark>,
) -> Result<(), Memory>
    ensures put { OnOk result ((m : Mark) (k : ObjKey)
        → key_at mark_cmp by.new m k
        ≡ ((has_mark marks.now m && is_key k key.now) || key_at mark_cmp by.old m k)) }
    ensures moved { OnOk result ((before : KeysByMark)
        → OthersStay moved.old before by.old → OthersStay moved.new before by.new) }
{
    for mark in marks {
        put_if_new(alloc, by, mark, key, moved)?;
    }
    Ok(())
}

fn put_if_new(
    alloc: Global,
    by: &mut BTreeMap<Mark, KeyList>,
    mark: &Mark,
    key: &ObjKey,
    moved: &mut List<Mark>,
) -> Result<(), Memory>
    ensures put { OnOk result ((m : Mark) (k : ObjKey)
        → key_at mark_cmp by.new m k
        ≡ ((same_mark m mark.now && is_key k key.now) || key_at mark_cmp by.old m k)) }
    ensures moved { OnOk result ((before : KeysByMark)
        → OthersStay moved.old before by.old → OthersStay moved.new before by.new) }
{
    if has_key(keys_at(by, mark), key) {
        return Ok(());
    }
    add_copy(alloc, moved, mark)?;
    put_key(alloc, by, mark, key)
}

/// Adds a copy of a mark to a list.
pub(crate) fn add_copy(alloc: Global, marks: &mut List<Mark>, mark: &Mark) -> Result<(), Memory>
    ensures { OnOk result (marks.new ≡ marks.old ++ mark.now ∷ []) }
{
    marks.add(mark.copy(alloc)?)
}

/// Whether a key is in a sorted list of keys.
pub fn has_key(keys: &[ObjKey], key: &ObjKey) -> bool
    requires { Rises keys.now }
    ensures { result ≡ has_key key.now keys.now }
{
    keys.binary_search_by(|other| compare(other, key)).is_ok()
}

fn compare(a: &ObjKey, b: &ObjKey) -> Ordering
    ensures { result ≡ key_cmp a.now b.now }
{
    a.cmp(b)
}

fn put_key(
    alloc: Global,
    by: &mut BTreeMap<Mark, KeyList>,
    mark: &Mark,
    key: &ObjKey,
) -> Result<(), Memory>
    ensures { OnOk result ((m : Mark) (k : ObjKey)
        → key_at mark_cmp by.new m k
        ≡ ((same_mark m mark.now && is_key k key.now) || key_at mark_cmp by.old m k)) }
{
    by_mark::put_one(alloc, by, mark, key)
}

/// Removes the key of a slice at each of its marks.
pub(crate) fn take_keys(by: &mut BTreeMap<Mark, KeyList>, marks: &[Mark], key: &ObjKey)
    ensures { (m : Mark) (k : ObjKey)
        → key_at mark_cmp by.new m k
        ≡ (not (has_mark marks.now m && is_key k key.now) && key_at mark_cmp by.old m k) }
{
    for mark in marks {
        take_key(by, mark, key);
    }
}

fn take_key(by: &mut BTreeMap<Mark, KeyList>, mark: &Mark, key: &ObjKey)
    ensures { (m : Mark) (k : ObjKey)
        → key_at mark_cmp by.new m k
        ≡ (not (same_mark m mark.now && is_key k key.now) && key_at mark_cmp by.old m k) }
{
    by_mark::take_one(by, mark, key)
}
