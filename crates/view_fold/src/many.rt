//! Insertion and removal of many rows at once, by one pass over all rows.
ghost use Rattle.std.specs.Prelude.{◌≡◌, OnOk, OnErr, not};
ghost use Rattle.std.specs.FinMap.{values};
ghost use Rattle.std.specs.List.{filter, list_any};
ghost use Rattle.std.specs.List.Sorted.{IsPermutation};
ghost use Rattle.std.specs.Ordering.{eq_by_cmp};
ghost use Rattle.mesh_base.specs.Keyed.{IsKeyed};
ghost use Rattle.view_rules.specs.ByKey.{map_of, put_all, take_all};
ghost use Rattle.view_fold.specs.Sorted.{AreSorted};

use crate::order::put_in_order;
use mesh_base::memory::Memory;
use row_places::keyed::KeyedRow;
use std::cmp::Ordering;

/// Inserts rows by their keys, replacing those with the same key. If memory runs out, the rows stay
/// as they were.
pub fn put_many<T: KeyedRow>(rows: &mut Vec<T>, added: Vec<T>) -> Result<(), Memory>
    ensures ok { OnOk result (rows.new.items
        ≡ values (put_all T.cmp T.key_of added.items (map_of T.cmp T.key_of rows.old.items))) }
    ensures err { OnErr result (rows.new.items ≡ rows.old.items) }
{
    let count = rows.len();
    let mut added = added;
    rows.append(&mut added)?;
    match put_in_order(rows) {
        Ok(()) => Ok(()),
        Err(e) => {
            rows.truncate(count);
            Err(e)
        }
    }
}

/// Removes the rows at these keys. If memory runs out, the rows stay as they were.
pub fn take_many<T: KeyedRow>(rows: &mut Vec<T>, keys: Vec<T::Key>) -> Result<(), Memory>
    requires { IsKeyed T.cmp T.key_of (λ row. row) rows.old.items }
    ensures ok { OnOk result (rows.new.items
        ≡ values (take_all T.cmp T.key_of keys.items (map_of T.cmp T.key_of rows.old.items))) }
    ensures err { OnErr result (rows.new.items ≡ rows.old.items) }
{
    let mut gone = keys;
    sort_keys::<T>(&mut gone)?;
    drop_from(rows, gone.as_slice());
    Ok(())
}

fn sort_keys<T: KeyedRow>(keys: &mut Vec<T::Key>) -> Result<(), Memory>
    ensures sorted { OnOk result (AreSorted T.cmp keys.new.items) }
    ensures same { IsPermutation keys.old.items keys.new.items }
{
    keys.sort_by(|key, other| T::compare_keys(key, other))?;
    Ok(())
}

/// Removes the rows at these keys, which must be sorted.
fn drop_from<T: KeyedRow>(rows: &mut Vec<T>, gone: &[T::Key])
    requires { AreSorted T.cmp gone.now }
    ensures { rows.new.items ≡ filter (λ row. not
        (list_any (eq_by_cmp T.cmp (T.key_of row)) gone.now)) rows.old.items }
{
    rows.retain(|row| !is_gone(gone, row));
}

/// Whether the row's key is among these keys, which must be sorted.
fn is_gone<T: KeyedRow>(gone: &[T::Key], row: &T) -> bool
    ensures { AreSorted T.cmp gone.now
        → result ≡ list_any (eq_by_cmp T.cmp (T.key_of row.now)) gone.now }
{
    gone.binary_search_by(|key| compare_from(key, row)).is_ok()
}

fn compare_from<T: KeyedRow>(key: &T::Key, row: &T) -> Ordering
    ensures { result ≡ T.cmp key.now (T.key_of row.now) }
{
    row.compare_to(key).reverse()
}
