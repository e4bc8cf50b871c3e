// Sorted lists of subscription ids.
ghost use Rattle.std.specs.Prelude.{◌≡◌, ◌<◌, ◌≤◌, ◌&&◌, ◌||◌, not, ℕ, nat_eq, [], length, true, OnOk, IfOk, IfErr};
ghost use Rattle.std.specs.List.{AllWithin, HoldsAt, remove};
ghost use Rattle.std.specs.declared.cmp.Ordering.TheVariants.{Greater, Less};
ghost use Rattle.mesh_base.specs.Places.{IsHit, IsGap};
ghost use Rattle.subscriptions.specs.DueIds.{Rises, id_cmp, is_among};

use mesh_base::memory::Memory;
use mesh_base::sub_id::SubId;
use std::alloc::Global;
use std::cmp::Ordering;
use std::marker::Model;

/// Ids in ascending order, each once. Contracts see them as a list.
#[derive(Drop)]
pub struct DueList {
    /// The ids from `start` on; those before it were removed. They are dropped once they outnumber
    /// the others.
    ids: Vec<SubId>,
    start: usize,
}

impl Model for DueList {
    ghost use Rattle.std.specs.Coded.{codes};
    ghost use Rattle.std.specs.Prelude.{◌≤◌, List, drop, length};
    ghost use Rattle.mesh_base.specs.declared.sub_id.SubId.{SubId as TheId};
    ghost use Rattle.subscriptions.specs.DueIds.{Rises};

    ghost Value = { List TheId };

    ghost coded = { Prim.hlevel (codes) };

    ghost view = { λ s. drop s.start s.ids.items };

    ghost invariant = { λ s. (s.start ≤ length s.ids.items) × Rises (drop s.start s.ids.items) };
}

impl DueList {
    pub fn new(alloc: Global) -> DueList
        ensures { result ≡ [] }
    {
        DueList {
            ids: Vec::new(alloc),
            start: 0,
        }
    }

    /// Returns the ids in ascending order.
    pub fn as_slice(&self) -> &[SubId]
        ensures value { result.now ≡ self.now }
        ensures rise { Rises self.now }
    {
        &self.ids[self.start..]
    }

    /// Whether the id is in the list.
    pub fn has(&self, id: SubId) -> bool
        ensures { result ≡ is_among id.0 self.now }
    {
        match place(self.as_slice(), id) {
            Ok(_) => true,
            Err(_) => false,
        }
    }

    /// Inserts the id, unless it is in the list. An id above all others is inserted without a
    /// search.
    pub fn put(&mut self, id: SubId) -> Result<(), Memory>
        ensures { OnOk result ((n : ℕ)
            → is_among n self.new ≡ (nat_eq n id.0 || is_among n self.old)) }
    {
        let end = self.as_slice().len();
        self.put_near(id, end)?;
        Ok(())
    }

    /// Does as `put`, without a search if the id belongs at the index `near`. Returns the index
    /// after the id, where the next greater id belongs.
    pub fn put_near(&mut self, id: SubId, near: usize) -> Result<usize, Memory>
        ensures { OnOk result ((n : ℕ)
            → is_among n self.new ≡ (nat_eq n id.0 || is_among n self.old)) }
    {
        match place_near(self.as_slice(), id, near) {
            Ok(at) => Ok(at + 1),
            Err(at) => {
                self.ids.insert(self.start + at, id)?;
                Ok(at + 1)
            }
        }
    }

    /// Removes the id, if it is in the list.
    pub fn take(&mut self, id: SubId)
        ensures { (n : ℕ) → is_among n self.new ≡ (not (nat_eq n id.0) && is_among n self.old) }
    {
        match place(self.as_slice(), id) {
            Ok(at) => self.take_at(at),
            Err(_) => {}
        }
    }

    // Removes the id at an index. The ids on its shorter side are moved.
    fn take_at(&mut self, at: usize)
        requires { at < length self.old }
        ensures { self.new ≡ remove self.old at }
    {
        if at < self.as_slice().len() / 2 {
            self.take_forward(at);
        } else {
            self.ids.remove(self.start + at);
        }
    }

    // Removes the id at an index by moving the ids before it up.
    fn take_forward(&mut self, at: usize)
        requires { at < length self.old }
        ensures { self.new ≡ remove self.old at }
    {
        let start = self.start + 1;
        self.ids[self.start..start + at].rotate_right(1);
        let left = self.ids.len() - start;
        if left < start {
            self.ids.rotate_left(start);
            self.ids.truncate(left);
            self.start = 0;
        } else {
            self.start = start;
        }
    }
}

/// Returns the index of the id, or as an error the index at which it would be inserted.
fn place(ids: &[SubId], id: SubId) -> Result<usize, usize>
    requires { Rises ids.now }
    ensures hit { IfOk result (IsHit (λ other. id_cmp other id) ids.now) }
    ensures gap { IfErr result (IsGap (λ other. id_cmp other id) ids.now) }
{
    ids.binary_search_by(|other| compare_ids(*other, id))
}

/// Does as `place`, without a search if the id belongs at the index `near`.
fn place_near(ids: &[SubId], id: SubId, near: usize) -> Result<usize, usize>
    requires { Rises ids.now }
    ensures hit { IfOk result (IsHit (λ other. id_cmp other id) ids.now) }
    ensures gap { IfErr result (IsGap (λ other. id_cmp other id) ids.now) }
{
    if has_rank(ids, id, near, Ordering::Equal) {
        return Ok(near);
    }
    if is_gap(ids, id, near) {
        return Err(near);
    }
    place(ids, id)
}

fn is_gap(ids: &[SubId], id: SubId, at: usize) -> bool
    requires { Rises ids.now }
    ensures { result ≡ true → IsGap (λ other. id_cmp other id) ids.now at }
{
    if !are_below(ids, id, at) {
        return false;
    }
    are_above(ids, id, at)
}

/// Whether the index is at most the length, and the ids before it are below the given id.
fn are_below(ids: &[SubId], id: SubId, at: usize) -> bool
    requires { Rises ids.now }
    ensures within { result ≡ true → at ≤ length ids.now }
    ensures below { result ≡ true
        → AllWithin (λ other. id_cmp other id ≡ Less) ids.now 0 at }
{
    if at == 0 {
        return true;
    }
    has_rank(ids, id, at - 1, Ordering::Less)
}

/// Whether the ids from the index on are above the given id.
fn are_above(ids: &[SubId], id: SubId, at: usize) -> bool
    requires { Rises ids.now }
    ensures { result ≡ true
        → AllWithin (λ other. id_cmp other id ≡ Greater) ids.now at (length ids.now) }
{
    if at >= ids.len() {
        return true;
    }
    has_rank(ids, id, at, Ordering::Greater)
}

/// Whether there is an id at the index, and it compares to the given id as `rank`.
fn has_rank(ids: &[SubId], id: SubId, at: usize, rank: Ordering) -> bool
    ensures within { result ≡ true → at < length ids.now }
    ensures level { result ≡ true → HoldsAt (λ other. id_cmp other id ≡ rank) ids.now at }
{
    match ids.get(at) {
        Some(other) => compare_ids(*other, id) == rank,
        None => false,
    }
}

fn compare_ids(a: SubId, b: SubId) -> Ordering
    ensures { result ≡ id_cmp a b }
{
    a.0.cmp(&b.0)
}
