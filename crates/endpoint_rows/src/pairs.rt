//! Addresses with their ports.
ghost use Rattle.std.specs.Prelude.{◌≡◌, ◌&&◌, ◌||◌, ◌++◌, not, map, IfOk, OnOk};
ghost use Rattle.std.specs.Ordering.{is_eq};
ghost use Rattle.mesh_base.specs.declared.key.ObjKey.{ObjKey};
ghost use Rattle.key_lists.specs.Keys.{is_key, key_at, keys_at, Rises as KeysRise};
ghost use Rattle.view_rules.specs.Batch.{has_pair, same_pair};
ghost use Rattle.view_rules.specs.Endpoints.{pair_cmp, pair_of};
ghost use Rattle.view_rules.specs.InOrder.{in_order_by};
ghost use Rattle.endpoint_rows.specs.Kept.{Pair};

use key_lists::by_mark;
use key_lists::key_list::KeyList;
use mesh_base::key::ObjKey;
use mesh_base::list::List;
use mesh_base::memory::Memory;
use net_cidr::ip::{Ip, compare_ips};
use std::alloc::Global;
use std::cmp::Ordering;
use std::collections::BTreeMap;
use view_types::endpoint::EndpointRow;

/// Appends the pairs of rows to the list.
pub(crate) fn add_pairs(pairs: &mut List<(Ip, u16)>, rows: &[EndpointRow]) -> Result<(), Memory>
    ensures { OnOk result (pairs.new ≡ pairs.old ++ map pair_of rows.now) }
{
    for row in rows {
        pairs.add((row.ip, row.port))?;
    }
    Ok(())
}

/// Sorts pairs, and removes duplicates.
pub(crate) fn in_order(pairs: List<(Ip, u16)>) -> Result<List<(Ip, u16)>, Memory>
    ensures { IfOk result (λ ordered. ordered ≡ in_order_by pair_cmp (λ pair. pair) pairs) }
{
    let mut pairs = pairs.into_vec();
    pairs.sort_by(|a, b| compare_pairs(a, b))?;
    pairs.dedup_by(|pair, kept| is_same(pair, kept));
    Ok(List::from_vec(pairs))
}

fn is_same(a: &(Ip, u16), b: &(Ip, u16)) -> bool
    ensures { result ≡ is_eq (pair_cmp a.now b.now) }
{
    compare_pairs(a, b) == Ordering::Equal
}

fn compare_pairs(a: &(Ip, u16), b: &(Ip, u16)) -> Ordering
    ensures { result ≡ pair_cmp a.now b.now }
{
    match compare_ips(a.0, b.0) {
        Ordering::Equal => a.1.cmp(&b.1),
        unequal => unequal,
    }
}

/// Returns the keys of the slices that give a pair.
pub(crate) fn keys_at<'a>(by: &'a BTreeMap<(Ip, u16), KeyList>, pair: &(Ip, u16)) -> &'a [ObjKey]
    ensures value { result.now ≡ keys_at pair_cmp by.now pair.now }
    ensures rise { KeysRise (keys_at pair_cmp by.now pair.now) }
{
    by_mark::keys_at(by, pair)
}

/// Adds the key of a slice at each pair of its rows.
pub(crate) fn put_keys(
    alloc: Global,
    by: &mut BTreeMap<(Ip, u16), KeyList>,
    rows: &[EndpointRow],
    key: &ObjKey,
) -> Result<(), Memory>
    ensures { OnOk result ((p : Pair) (k : ObjKey)
        → key_at pair_cmp by.new p k
        ≡ ((has_pair rows.now p && is_key k key.now) || key_at pair_cmp by.old p k)) }
{
    for row in rows {
        put_key(alloc, by, row.ip, row.port, key)?;
    }
    Ok(())
}

fn put_key(
    alloc: Global,
    by: &mut BTreeMap<(Ip, u16), KeyList>,
    ip: Ip,
    port: u16,
    key: &ObjKey,
) -> Result<(), Memory>
    ensures { OnOk result ((p : Pair) (k : ObjKey)
        → key_at pair_cmp by.new p k
        ≡ ((same_pair p (ip, port) && is_key k key.now) || key_at pair_cmp by.old p k)) }
{
    by_mark::put_one(alloc, by, &(ip, port), key)
}

/// Removes the key of a slice at each pair of its rows.
pub(crate) fn take_keys(by: &mut BTreeMap<(Ip, u16), KeyList>, rows: &[EndpointRow], key: &ObjKey)
    ensures { (p : Pair) (k : ObjKey)
        → key_at pair_cmp by.new p k
        ≡ (not (has_pair rows.now p && is_key k key.now) && key_at pair_cmp by.old p k) }
{
    for row in rows {
        take_key(by, row.ip, row.port, key);
    }
}

fn take_key(by: &mut BTreeMap<(Ip, u16), KeyList>, ip: Ip, port: u16, key: &ObjKey)
    ensures { (p : Pair) (k : ObjKey)
        → key_at pair_cmp by.new p k
        ≡ (not (same_pair p (ip, port) && is_key k key.now) && key_at pair_cmp by.old p k) }
{
    by_mark::take_one(by, &(ip, port), key)
}
