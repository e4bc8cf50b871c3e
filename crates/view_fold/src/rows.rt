//! Insertion and removal of rows by their keys.
ghost use Rattle.std.specs.Prelude.{◌≡◌, ◌<◌, ◌≤◌, ◌+◌, OnOk, OnErr};
ghost use Rattle.std.specs.FinMap.{insert, remove, values};
ghost use Rattle.std.specs.Vec.{vec_capacity, vec_len};
ghost use Rattle.mesh_base.specs.Keyed.{IsKeyed};
ghost use Rattle.view_rules.specs.ByKey.{map_of, put_all, take_all};

use crate::many::{put_many, take_many};
use mesh_base::list::List;
use mesh_base::memory::Memory;
use row_places::keyed::KeyedRow;
use row_places::place::{place, place_of};
use std::alloc::Global;
use std::mem;

/// The most rows that are inserted or removed one by one, each at its place, which moves the rows
/// after it only if a key is added or removed. For more rows, one pass goes over all of them.
const FEW: usize = 16;

/// Inserts rows by their keys, replacing those with the same key. If memory runs out, the rows stay
/// as they were.
pub fn put_rows<T: KeyedRow>(
    alloc: Global,
    rows: &mut List<T>,
    added: List<T>,
) -> Result<(), Memory>
    requires { IsKeyed T.cmp T.key_of (λ row. row) rows.old }
    ensures ok { OnOk result (rows.new
        ≡ values (put_all T.cmp T.key_of added (map_of T.cmp T.key_of rows.old))) }
    ensures err { OnErr result (rows.new ≡ rows.old) }
{
    let mut all = mem::replace(rows, List::new(alloc)).into_vec();
    let done = add_to(&mut all, added.into_vec());
    *rows = List::from_vec(all);
    done
}

fn add_to<T: KeyedRow>(rows: &mut Vec<T>, added: Vec<T>) -> Result<(), Memory>
    requires { IsKeyed T.cmp T.key_of (λ row. row) rows.old.items }
    ensures ok { OnOk result (rows.new.items
        ≡ values (put_all T.cmp T.key_of added.items (map_of T.cmp T.key_of rows.old.items))) }
    ensures err { OnErr result (rows.new.items ≡ rows.old.items) }
{
    if added.len() > FEW {
        return put_many(rows, added);
    }
    rows.reserve(added.len())?;
    put_each(rows, added);
    Ok(())
}

/// Inserts rows one by one. There must be room for all of them.
fn put_each<T: KeyedRow>(rows: &mut Vec<T>, added: Vec<T>)
    requires keyed { IsKeyed T.cmp T.key_of (λ row. row) rows.old.items }
    requires room { vec_len rows.old + vec_len added ≤ vec_capacity rows.old }
    ensures { rows.new.items
        ≡ values (put_all T.cmp T.key_of added.items (map_of T.cmp T.key_of rows.old.items)) }
{
    for row in added {
        put_row(rows, row);
    }
}

/// Inserts a row, or replaces the one with its key. There must be room for it.
fn put_row<T: KeyedRow>(rows: &mut Vec<T>, row: T)
    requires keyed { IsKeyed T.cmp T.key_of (λ row. row) rows.old.items }
    requires room { vec_len rows.old < vec_capacity rows.old }
    ensures put { map_of T.cmp T.key_of rows.new.items
        ≡ insert (map_of T.cmp T.key_of rows.old.items) (T.key_of row) row }
    ensures keyed { IsKeyed T.cmp T.key_of (λ row. row) rows.new.items }
    ensures more { vec_len rows.new ≤ vec_len rows.old + 1 }
    ensures room { vec_capacity rows.old ≤ vec_capacity rows.new }
{
    match place_of(rows.as_slice(), &row) {
        Ok(at) => rows[at] = row,
        Err(at) => {
            let Ok(()) = rows.insert(at, row) else {
                return;
            };
        }
    }
}

/// Removes the rows at these keys. If memory runs out, the rows stay as they were.
pub fn take_out<T: KeyedRow>(
    alloc: Global,
    rows: &mut List<T>,
    keys: List<T::Key>,
) -> Result<(), Memory>
    requires { IsKeyed T.cmp T.key_of (λ row. row) rows.old }
    ensures ok { OnOk result (rows.new
        ≡ values (take_all T.cmp T.key_of keys (map_of T.cmp T.key_of rows.old))) }
    ensures err { OnErr result (rows.new ≡ rows.old) }
{
    let mut all = mem::replace(rows, List::new(alloc)).into_vec();
    let done = take_from(&mut all, keys.into_vec());
    *rows = List::from_vec(all);
    done
}

fn take_from<T: KeyedRow>(rows: &mut Vec<T>, keys: Vec<T::Key>) -> Result<(), Memory>
    requires { IsKeyed T.cmp T.key_of (λ row. row) rows.old.items }
    ensures ok { OnOk result (rows.new.items
        ≡ values (take_all T.cmp T.key_of keys.items (map_of T.cmp T.key_of rows.old.items))) }
    ensures err { OnErr result (rows.new.items ≡ rows.old.items) }
{
    if keys.len() > FEW {
        return take_many(rows, keys);
    }
    take_each(rows, keys.as_slice());
    Ok(())
}

fn take_each<T: KeyedRow>(rows: &mut Vec<T>, keys: &[T::Key])
    requires { IsKeyed T.cmp T.key_of (λ row. row) rows.old.items }
    ensures { rows.new.items
        ≡ values (take_all T.cmp T.key_of keys.now (map_of T.cmp T.key_of rows.old.items)) }
{
    for key in keys {
        take_row(rows, key);
    }
}

fn take_row<T: KeyedRow>(rows: &mut Vec<T>, key: &T::Key)
    requires { IsKeyed T.cmp T.key_of (λ row. row) rows.old.items }
    ensures taken { map_of T.cmp T.key_of rows.new.items
        ≡ remove (map_of T.cmp T.key_of rows.old.items) key.now }
    ensures keyed { IsKeyed T.cmp T.key_of (λ row. row) rows.new.items }
{
    match place(rows.as_slice(), key) {
        Ok(at) => {
            let _row = rows.remove(at);
        }
        Err(_) => {}
    }
}
