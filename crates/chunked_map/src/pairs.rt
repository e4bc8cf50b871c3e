// Pairs of keys and values in the order of the keys.
ghost use Rattle.std.specs.Prelude.{◌≡◌, slice_get};
ghost use Rattle.std.specs.List.{remove};
ghost use Rattle.std.specs.List.Sorted.{IsStrictlySortedBy};
ghost use Rattle.std.specs.Option.{option_copied};
ghost use Rattle.std_collections.specs.Layout.BTreeMap.{seek};
ghost use Rattle.std_collections.specs.Layout.Columns.{set_value_at};
ghost use Rattle.std_collections.specs.Map.{keys_of, values_of};

use chunked_list::list::ChunkedList;
use std::mem;

/// Returns the index of the key as `Ok`, or the index to insert it at as `Err`.
pub fn place<K: Ord, V>(pairs: &ChunkedList<(K, V)>, key: &K) -> Result<usize, usize>
    requires { IsStrictlySortedBy K.cmp (keys_of pairs.now) }
    ensures { result ≡ seek (K.cmp key.now) pairs.now }
{
    pairs.binary_search_by(|pair| pair.0.cmp(key))
}

/// Returns the value of the pair at the index.
pub fn value_at<K, V>(pairs: &ChunkedList<(K, V)>, at: usize) -> Option<&V>
    ensures { option_copied result ≡ slice_get (values_of pairs.now) at }
{
    match pairs.get(at) {
        Some(pair) => Some(&pair.1),
        None => None,
    }
}

/// Puts a value in the place of that of the pair at the index, and returns that one.
pub fn replace_value_at<K, V: Drop>(
    pairs: &mut ChunkedList<(K, V)>,
    at: usize,
    value: V,
) -> Option<V>
    ensures value { result ≡ slice_get (values_of pairs.old) at }
    ensures pairs { pairs.new ≡ set_value_at pairs.old at value }
{
    match pairs.get_mut(at) {
        Some(pair) => Some(mem::replace(&mut pair.1, value)),
        None => None,
    }
}

/// Removes the pair at the index, and returns its value.
pub fn take_at<K: Drop, V: Drop>(pairs: &mut ChunkedList<(K, V)>, at: usize) -> Option<V>
    ensures value { result ≡ slice_get (values_of pairs.old) at }
    ensures pairs { pairs.new ≡ remove pairs.old at }
{
    match pairs.remove(at) {
        Some((_, value)) => Some(value),
        None => None,
    }
}
