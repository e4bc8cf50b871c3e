ghost use Rattle.std.specs.Prelude.{◌≡◌, ◌≤◌, ◌<◌, ◌+◌, ◌^◌, ◌++◌, [], ◌∷◌, IfSome, IfNone, IfOk, OnOk, OnErr, drop, flat_map, length, slice_get, take, vec_items};
ghost use Rattle.std.specs.Fn.{ComputesKey};
ghost use Rattle.std.specs.List.{HoldsAt, insert as list_insert, remove as list_remove};
ghost use Rattle.std.specs.List.Sorted.{IsBinarySearchResult, IsSearchInRange};
ghost use Rattle.std.specs.Vec.{vec_len};
ghost use Rattle.std.specs.declared.cmp.Ordering.{Ordering};
ghost use Rattle.std.specs.declared.option.Option.TheVariants.{Some};
ghost use Rattle.chunked_list.specs.Spots.{IsSpot, NoneEmpty, start_of};

use mesh_base::memory::Memory;
use std::alloc::Global;
use std::cmp::Ordering;

/// The length from which a chunk is split in two before an insertion.
const FULL: usize = 256;

/// The chunk of an index, and the index within the chunk.
#[derive(Clone, Copy)]
pub struct Spot {
    pub chunk: usize,
    pub at: usize,
}

/// Finds the chunk of the item at an index by the lengths of the chunks.
pub fn spot_of<T>(chunks: &[Vec<T>], index: usize) -> Option<Spot>
    ensures spot { IfSome result (λ s. IsSpot vec_items chunks.now index s.chunk s.at) }
    ensures none { IfNone result (length (flat_map vec_items chunks.now) ≤ index) }
{
    let mut chunk = 0;
    let mut at = index;
    while chunk < chunks.len() {
        let len = chunks[chunk].len();
        if at < len {
            return Some(Spot { chunk, at });
        }
        at -= len;
        chunk += 1;
    }
    None
}

/// Searches for the chunk by the first items of chunks, and then in that chunk.
pub fn search<T, F: FnMut(&T) -> Ordering>(chunks: &[Vec<T>], mut f: F) -> Result<usize, usize>
    requires fits { length (flat_map vec_items chunks.now) < 2 ^ 64 }
    requires filled { NoneEmpty vec_items chunks.now }
    requires callable { F.IsAlwaysCallable f }
    ensures bound { IsSearchInRange result (length (flat_map vec_items chunks.now)) }
    ensures position { (ord : T → Ordering) → ComputesKey F.FnMut ord f
        → IsBinarySearchResult ord (flat_map vec_items chunks.now) result }
{
    let mut low = 0;
    let mut high = chunks.len();
    while low < high {
        let middle = low + (high - low) / 2;
        if f(&chunks[middle][0]).is_gt() {
            high = middle;
        } else {
            low = middle + 1;
        }
    }
    if low == 0 {
        return Err(0);
    }
    let chunk = chunks[low - 1].as_slice();
    let start = start_of(chunks, low - 1);
    match chunk.binary_search_by(f) {
        Ok(at) => Ok(start + at),
        Err(at) => Err(start + at),
    }
}

/// Returns the number of items before a chunk.
fn start_of<T>(chunks: &[Vec<T>], chunk: usize) -> usize
    requires fits { length (flat_map vec_items chunks.now) < 2 ^ 64 }
    requires within { chunk ≤ length chunks.now }
    ensures { result ≡ start_of vec_items chunks.now chunk }
{
    let mut start = 0;
    let mut before = 0;
    while before < chunk {
        start += chunks[before].len();
        before += 1;
    }
    start
}

/// Inserts an item before the one at an index, after the split of a full chunk.
pub fn insert_in<T: Drop>(
    chunks: &mut Vec<Vec<T>>,
    alloc: Global,
    index: usize,
    item: T,
) -> Result<(), Memory>
    requires within { index ≤ length (flat_map vec_items chunks.old.items) }
    requires filled { NoneEmpty vec_items chunks.old.items }
    ensures filled { NoneEmpty vec_items chunks.new.items }
    ensures ok { OnOk result (flat_map vec_items chunks.new.items
        ≡ list_insert (flat_map vec_items chunks.old.items) index item) }
    ensures err { OnErr result (flat_map vec_items chunks.new.items
        ≡ flat_map vec_items chunks.old.items) }
{
    make_room(chunks, alloc, index)?;
    match spot_of(chunks.as_slice(), index) {
        Some(spot) => Ok(chunks[spot.chunk].insert(spot.at, item)?),
        None => push(chunks, alloc, item),
    }
}

/// Splits the chunk of the item at an index if it is full.
fn make_room<T: Drop>(chunks: &mut Vec<Vec<T>>, alloc: Global, index: usize) -> Result<(), Memory>
    requires { NoneEmpty vec_items chunks.old.items }
    ensures filled { NoneEmpty vec_items chunks.new.items }
    ensures same { flat_map vec_items chunks.new.items ≡ flat_map vec_items chunks.old.items }
{
    match spot_of(chunks.as_slice(), index) {
        Some(spot) => {
            if chunks[spot.chunk].len() < FULL {
                return Ok(());
            }
            split(chunks, alloc, spot.chunk)
        }
        None => Ok(()),
    }
}

/// Moves the second half of a chunk of two items or more to a new chunk behind it.
fn split<T: Drop>(chunks: &mut Vec<Vec<T>>, alloc: Global, chunk: usize) -> Result<(), Memory>
    requires within { chunk < length chunks.old.items }
    requires long { HoldsAt (λ c. 2 ≤ length (vec_items c)) chunks.old.items chunk }
    requires filled { NoneEmpty vec_items chunks.old.items }
    ensures filled { NoneEmpty vec_items chunks.new.items }
    ensures same { flat_map vec_items chunks.new.items ≡ flat_map vec_items chunks.old.items }
{
    chunks.insert(chunk + 1, Vec::new(alloc))?;
    let half = chunks[chunk].len() / 2;
    match cut(&mut chunks[chunk], half) {
        Ok(back) => {
            chunks[chunk + 1] = back;
            Ok(())
        }
        Err(_) => {
            chunks.remove(chunk + 1);
            Err(Memory)
        }
    }
}

/// Moves the items from an index on to a new chunk, and leaves no room behind the others, since
/// items that are inserted in ascending order go to the new chunk.
fn cut<T: Drop>(chunk: &mut Vec<T>, at: usize) -> Result<Vec<T>, Memory>
    requires { at ≤ vec_len chunk.old }
    ensures items { OnOk result (chunk.new.items ≡ take at chunk.old.items) }
    ensures len { OnOk result (vec_len chunk.new ≡ at) }
    ensures tail { IfOk result (λ back. back.items ≡ drop at chunk.old.items) }
    ensures tail_len { IfOk result (λ back. vec_len back + at ≡ vec_len chunk.old) }
    ensures err { OnErr result (chunk.new ≡ chunk.old) }
{
    let back = chunk.split_off(at)?;
    chunk.shrink_to_fit();
    Ok(back)
}

/// Appends an item to the last chunk, or in a new one if that is full. A new chunk has no room for
/// another item, since many lists have one.
fn push<T: Drop>(chunks: &mut Vec<Vec<T>>, alloc: Global, item: T) -> Result<(), Memory>
    requires { NoneEmpty vec_items chunks.old.items }
    ensures filled { NoneEmpty vec_items chunks.new.items }
    ensures ok { OnOk result (flat_map vec_items chunks.new.items
        ≡ flat_map vec_items chunks.old.items ++ item ∷ []) }
    ensures err { OnErr result (flat_map vec_items chunks.new.items
        ≡ flat_map vec_items chunks.old.items) }
{
    match open_chunk(chunks.as_slice()) {
        Some(last) => Ok(chunks[last].push(item)?),
        None => {
            let mut chunk = Vec::with_capacity(alloc, 1)?;
            chunk.push(item)?;
            chunks.reserve_exact(1)?;
            Ok(chunks.push(chunk)?)
        }
    }
}

/// Returns the index of the last chunk, if it has room for an item.
fn open_chunk<T>(chunks: &[Vec<T>]) -> Option<usize>
    ensures { IfSome result (λ last. last + 1 ≡ length chunks.now) }
{
    if chunks.is_empty() {
        return None;
    }
    let last = chunks.len() - 1;
    if chunks[last].len() < FULL {
        return Some(last);
    }
    None
}

/// Takes an item out of its chunk, and the chunk out if it has no other.
pub fn take_from<T: Drop>(chunks: &mut Vec<Vec<T>>, index: usize, spot: Spot) -> T
    requires spot { IsSpot vec_items chunks.old.items index spot.chunk spot.at }
    requires filled { NoneEmpty vec_items chunks.old.items }
    ensures filled { NoneEmpty vec_items chunks.new.items }
    ensures value { Some result ≡ slice_get (flat_map vec_items chunks.old.items) index }
    ensures items { flat_map vec_items chunks.new.items
        ≡ list_remove (flat_map vec_items chunks.old.items) index }
{
    let item = chunks[spot.chunk].remove(spot.at);
    if chunks[spot.chunk].is_empty() {
        chunks.remove(spot.chunk);
    }
    item
}

/// Returns the items of all chunks in order. A single chunk is returned as it is.
pub fn joined<T: Drop>(
    alloc: Global,
    count: usize,
    mut chunks: Vec<Vec<T>>,
) -> Result<Vec<T>, Memory>
    ensures { IfOk result (λ items. items.items ≡ flat_map vec_items chunks.items) }
{
    if chunks.len() == 1 {
        return Ok(chunks.remove(0));
    }
    let mut items = Vec::with_capacity(alloc, count)?;
    for mut chunk in chunks {
        items.append(&mut chunk)?;
    }
    Ok(items)
}
