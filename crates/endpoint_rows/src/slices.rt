//! The rows of slices by their keys, and the slices by the addresses and ports that they give.
ghost use Rattle.std.specs.Prelude.{◌≡◌, [], IfSome, OnOk, if◌then◌else◌};
ghost use Rattle.std.specs.Option.{option_copied};
ghost use Rattle.std.specs.BTreeMap.{IsOrdered};
ghost use Rattle.mesh_base.specs.KeyOrder.{key_cmp};
ghost use Rattle.mesh_base.specs.declared.key.ObjKey.{ObjKey};
ghost use Rattle.key_lists.specs.Keys.{is_key};
ghost use Rattle.endpoint_rows.specs.Kept.{Agree, all_rows, rows_of};
ghost use Rattle.row_places.specs.Rows.{row_at};
ghost use Rattle.view_rules.specs.Endpoints.{pair_of};

use crate::pairs::{keys_at, put_keys, take_keys};
use crate::row_list::RowList;
use key_lists::key_list::KeyList;
use mesh_base::key::ObjKey;
use mesh_base::memory::Memory;
use net_cidr::ip::Ip;
use std::alloc::Global;
use std::collections::BTreeMap;
use view_types::endpoint::EndpointRow;

/// The rows that slices give.
#[derive(Drop)]
pub struct Slices {
    /// The rows of each slice, in order, each address and port once.
    pub(crate) by_slice: BTreeMap<ObjKey, RowList>,
    /// The keys of the slices that give an address and port.
    pub(crate) by_pair: BTreeMap<(Ip, u16), KeyList>,
    pub(crate) alloc: Global,
}

impl Slices {
    pub(crate) fn new(alloc: Global) -> Slices
        ensures agree { Agree result }
        ensures none { (k : ObjKey) → rows_of result.by_slice k ≡ [] }
        ensures all { all_rows result.by_slice ≡ [] }
    {
        Slices {
            by_slice: BTreeMap::new(alloc),
            by_pair: BTreeMap::new(alloc),
            alloc,
        }
    }

    /// Returns the first row at an address and port, in the order of the slices' keys.
    pub(crate) fn first(&self, pair: &(Ip, u16)) -> Option<&EndpointRow>
        ensures value { Agree self.now
            → option_copied result ≡ row_at (all_rows self.now.by_slice) pair.now }
        ensures own { IfSome (option_copied result) (λ row. pair_of row ≡ pair.now) }
    {
        match keys_at(&self.by_pair, pair).first() {
            Some(key) => row_of(&self.by_slice, key, pair),
            None => None,
        }
    }

    /// Inserts the rows of a slice that has none yet.
    pub(crate) fn put(&mut self, key: ObjKey, rows: RowList) -> Result<(), Memory>
        ensures agree { Agree self.old → rows_of self.old.by_slice key ≡ []
            → OnOk result (Agree self.new) }
        ensures put { OnOk result ((k : ObjKey)
            → rows_of self.new.by_slice k
            ≡ (if is_key k key then rows else rows_of self.old.by_slice k)) }
    {
        put_keys(self.alloc, &mut self.by_pair, rows.as_slice(), &key)?;
        put_rows(&mut self.by_slice, key, rows)
    }

    /// Removes the rows of a slice, and returns them.
    pub(crate) fn take(&mut self, key: &ObjKey) -> RowList
        ensures agree { Agree self.old → Agree self.new }
        ensures rows { result ≡ rows_of self.old.by_slice key.now }
        ensures taken { (k : ObjKey)
            → rows_of self.new.by_slice k
            ≡ (if is_key k key.now then [] else rows_of self.old.by_slice k) }
    {
        let rows = take_rows(self.alloc, &mut self.by_slice, key);
        take_keys(&mut self.by_pair, rows.as_slice(), key);
        rows
    }
}

fn row_of<'a>(
    by_slice: &'a BTreeMap<ObjKey, RowList>,
    key: &ObjKey,
    pair: &(Ip, u16),
) -> Option<&'a EndpointRow>
    ensures value { option_copied result ≡ row_at (rows_of by_slice.now key.now) pair.now }
    ensures own { IfSome (option_copied result) (λ row. pair_of row ≡ pair.now) }
{
    match by_slice.get(key) {
        Some(rows) => rows.at(pair),
        None => None,
    }
}

fn put_rows(
    by_slice: &mut BTreeMap<ObjKey, RowList>,
    key: ObjKey,
    rows: RowList,
) -> Result<(), Memory>
    ensures ordered { OnOk result (IsOrdered key_cmp by_slice.new) }
    ensures put { OnOk result ((k : ObjKey)
        → rows_of by_slice.new k ≡ (if is_key k key then rows else rows_of by_slice.old k)) }
{
    by_slice.insert(key, rows)?;
    Ok(())
}

fn take_rows(alloc: Global, by_slice: &mut BTreeMap<ObjKey, RowList>, key: &ObjKey) -> RowList
    ensures ordered { IsOrdered key_cmp by_slice.new }
    ensures rows { result ≡ rows_of by_slice.old key.now }
    ensures taken { (k : ObjKey)
        → rows_of by_slice.new k ≡ (if is_key k key.now then [] else rows_of by_slice.old k) }
{
    match by_slice.remove(key) {
        Some(rows) => rows,
        None => RowList::new(alloc),
    }
}
