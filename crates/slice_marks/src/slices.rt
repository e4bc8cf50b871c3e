//! The marks of slices by their keys, and the slices by those marks.
ghost use Rattle.std.specs.Prelude.{◌≡◌, ◌&&◌, ◌++◌, ◌∷◌, [], IfOk, OnOk, true, not, filter, if◌then◌else◌};
ghost use Rattle.std.specs.BTreeMap.{btree_map_len};
ghost use Rattle.mesh_base.specs.declared.key.ObjKey.{ObjKey};
ghost use Rattle.key_lists.specs.Keys.{Rises, is_key, keys_at};
ghost use Rattle.mark_graph.specs.RowMarks.{AddsRow, RemovesRow};
ghost use Rattle.mark_rules.specs.Marks.{has_mark, mark_cmp, same_mark};
ghost use Rattle.slice_marks.specs.Marked.{Agree, Leaves, OthersStay, is_read, marks_at, marks_read};

use crate::keys::{add_copy, keys_at, put_keys, take_keys};
use key_lists::key_list::KeyList;
use mark_graph::by_mark::{put_one, take_one};
use mark_graph::moves::MarkMoves;
use mark_graph::rows_by_mark::RowsByMark;
use mark_rules::marks::is_same_mark;
use mesh_base::copied::Copied;
use mesh_base::key::ObjKey;
use mesh_base::list::List;
use mesh_base::memory::Memory;
use std::alloc::Global;
use std::cmp::Ordering;
use std::collections::BTreeMap;
use view_types::mark::Mark;

/// The marks that the rows of slices read.
#[derive(Drop)]
pub struct SliceMarks {
    pub(crate) by_slice: BTreeMap<ObjKey, List<Mark>>,
    pub(crate) by_mark: BTreeMap<Mark, KeyList>,
    alloc: Global,
}

impl SliceMarks {
    /// Creates an empty set of slices.
    pub fn new(alloc: Global) -> SliceMarks
        ensures agree { Agree result }
        ensures none { (k : ObjKey) → marks_at result.by_slice k ≡ [] }
    {
        SliceMarks {
            by_slice: BTreeMap::new(alloc),
            by_mark: BTreeMap::new(alloc),
            alloc,
        }
    }

    /// Returns the keys of the slices that read the mark, in order.
    pub fn at(&self, mark: &Mark) -> &[ObjKey]
        ensures value { result.now ≡ keys_at mark_cmp self.now.by_mark mark.now }
        ensures rise { Rises (keys_at mark_cmp self.now.by_mark mark.now) }
    {
        keys_at(&self.by_mark, mark)
    }

    /// Returns the marks that a slice reads.
    pub fn of(&self, key: &ObjKey) -> &[Mark]
        ensures { result.now ≡ marks_at self.now.by_slice key.now }
    {
        match self.by_slice.get(key) {
            Some(marks) => marks.as_slice(),
            None => &[],
        }
    }

    /// Whether a slice reads the mark.
    pub fn is_read(&self, mark: &Mark) -> bool
        ensures { result ≡ is_read self.now.by_mark mark.now }
    {
        match self.at(mark).first() {
            Some(_) => true,
            None => false,
        }
    }

    /// Returns the number of marks that slices read.
    pub fn count(&self) -> usize
        ensures { result ≡ btree_map_len self.now.by_mark }
    {
        self.by_mark.len()
    }

    /// Returns the marks that slices read, in order.
    pub fn all(&self, alloc: Global) -> Result<List<Mark>, Memory>
        ensures { IfOk result (λ marks. marks ≡ marks_read self.now.by_mark) }
    {
        let mut marks = List::new(alloc);
        for mark in self.by_mark.keys() {
            if self.is_read(mark) {
                marks.add(mark.copy(alloc)?)?;
            }
        }
        Ok(marks)
    }

    /// Adds a row at each mark that slices read.
    pub fn put_row(&self, by: &mut RowsByMark<Mark>, row: u64) -> Result<(), Memory>
        ensures { OnOk result
            (AddsRow mark_cmp (has_mark (marks_read self.now.by_mark)) row by.old by.new) }
    {
        for mark in self.by_mark.keys() {
            self.put_if_read(by, mark, row)?;
        }
        Ok(())
    }

    /// Removes a row from each mark that slices read.
    pub fn take_row(&self, by: &mut RowsByMark<Mark>, row: u64)
        ensures { RemovesRow mark_cmp (has_mark (marks_read self.now.by_mark)) row by.old by.new }
    {
        for mark in self.by_mark.keys() {
            self.take_if_read(by, mark, row);
        }
    }

    /// Adds a row at a mark, if slices read it.
    fn put_if_read(&self, by: &mut RowsByMark<Mark>, mark: &Mark, row: u64) -> Result<(), Memory>
        ensures { OnOk result (AddsRow mark_cmp
            (λ m. is_read self.now.by_mark mark.now && same_mark mark.now m) row by.old by.new) }
    {
        if !self.is_read(mark) {
            return Ok(());
        }
        put_one(self.alloc, by, mark, row)?;
        Ok(())
    }

    /// Removes a row from a mark, if slices read it.
    fn take_if_read(&self, by: &mut RowsByMark<Mark>, mark: &Mark, row: u64)
        ensures { RemovesRow mark_cmp
            (λ m. is_read self.now.by_mark mark.now && same_mark mark.now m) row by.old by.new }
    {
        if self.is_read(mark) {
            take_one(by, mark, row);
        }
    }

    /// Sets the marks that the slice reads. Returns the marks that may have changed: all others are
    /// read as before. If one mark is added, removed or replaced, the marks that stay are not
    /// returned (no clause says so).
    pub fn put(&mut self, key: ObjKey, marks: List<Mark>) -> Result<List<Mark>, Memory>
        ensures agree { Agree self.old → OnOk result (Agree self.new) }
        ensures put { OnOk result ((k : ObjKey)
            → marks_at self.new.by_slice k
            ≡ (if is_key k key then marks else marks_at self.old.by_slice k)) }
        ensures moved { IfOk result (λ moved.
            OthersStay moved self.old.by_mark self.new.by_mark) }
    {
        if are_same(marks.as_slice(), self.of(&key)) {
            return Ok(List::new(self.alloc));
        }
        self.replace(key, marks)
    }

    fn replace(&mut self, key: ObjKey, marks: List<Mark>) -> Result<List<Mark>, Memory>
        ensures agree { Agree self.old → OnOk result (Agree self.new) }
        ensures put { OnOk result ((k : ObjKey)
            → marks_at self.new.by_slice k
            ≡ (if is_key k key then marks else marks_at self.old.by_slice k)) }
        ensures moved { IfOk result (λ moved.
            OthersStay moved self.old.by_mark self.new.by_mark) }
    {
        let mut moved = left_out(self.alloc, self.of(&key), marks.as_slice())?;
        take_keys(&mut self.by_mark, moved.as_slice(), &key);
        put_keys(
            self.alloc,
            &mut self.by_mark,
            marks.as_slice(),
            &key,
            &mut moved,
        )?;
        put_marks(&mut self.by_slice, key, marks)?;
        Ok(moved)
    }

    /// Removes the slice, and returns the marks that it read.
    pub fn take(&mut self, key: &ObjKey) -> List<Mark>
        ensures agree { Agree self.old → Agree self.new }
        ensures taken { (k : ObjKey)
            → marks_at self.new.by_slice k
            ≡ (if is_key k key.now then [] else marks_at self.old.by_slice k) }
        ensures moved { OthersStay result self.old.by_mark self.new.by_mark }
    {
        let marks = take_marks(self.alloc, &mut self.by_slice, key);
        take_keys(&mut self.by_mark, marks.as_slice(), key);
        marks
    }

    /// Splits marks by whether a slice reads them now. A mark that one slice no longer reads may be
    /// read by another.
    pub fn moves(&self, alloc: Global, marks: List<Mark>) -> Result<MarkMoves<Mark>, Memory>
        ensures gone { IfOk result (λ moves. moves.gone
            ≡ filter (λ mark. not (is_read self.now.by_mark mark)) marks) }
        ensures come { IfOk result (λ moves. moves.come
            ≡ filter (is_read self.now.by_mark) marks) }
    {
        let mut gone = List::new(alloc);
        let mut come = List::new(alloc);
        for mark in marks.into_vec() {
            if self.is_read(&mark) {
                come.add(mark)?;
            } else {
                gone.add(mark)?;
            }
        }
        Ok(MarkMoves { gone, come })
    }
}

/// Whether the marks are the same as before.
fn are_same(marks: &[Mark], before: &[Mark]) -> bool
    ensures { result ≡ true → marks.now ≡ before.now }
{
    match marks.cmp(before) {
        Ordering::Equal => true,
        _ => false,
    }
}

/// Returns the earlier marks that are no longer there, and maybe others: both lists are compared
/// side by side, and a mark that is not found at its expected index is returned.
fn left_out(alloc: Global, before: &[Mark], marks: &[Mark]) -> Result<List<Mark>, Memory>
    ensures { IfOk result (Leaves before.now marks.now) }
{
    let mut left = List::new(alloc);
    let mut at: usize = 0;
    let mut place: usize = 0;
    for mark in before {
        at = at.saturating_add(1);
        let stands = stands_at(marks, place, mark);
        leave_unless(alloc, stands, mark, &mut left)?;
        place = place_after(marks, place, stands, before.get(at));
    }
    Ok(left)
}

/// Whether the mark is at the index.
fn stands_at(marks: &[Mark], place: usize, mark: &Mark) -> bool
    ensures { result ≡ true → has_mark marks.now mark.now ≡ true }
{
    match marks.get(place) {
        Some(other) => is_same_mark(mark, other),
        None => false,
    }
}

/// Appends a copy of the mark, unless it was found.
fn leave_unless(
    alloc: Global,
    stands: bool,
    mark: &Mark,
    left: &mut List<Mark>,
) -> Result<(), Memory>
    ensures { OnOk result (left.new ≡ (if stands then left.old else left.old ++ mark.now ∷ [])) }
{
    if stands {
        return Ok(());
    }
    add_copy(alloc, left, mark)
}

/// Returns the index at which the next mark is expected: the same one if the next mark is there and
/// the last one was not found.
fn place_after(marks: &[Mark], place: usize, stood: bool, next: Option<&Mark>) -> usize {
    match next {
        Some(next) if !stood && stands_at(marks, place, next) => place,
        _ => place.saturating_add(1),
    }
}

/// Appends copies of marks to a list.
pub fn add_copies(alloc: Global, marks: &mut List<Mark>, others: &[Mark]) -> Result<(), Memory>
    ensures { OnOk result (marks.new ≡ marks.old ++ others.now) }
{
    for mark in others {
        add_copy(alloc, marks, mark)?;
    }
    Ok(())
}

fn put_marks(
    by_slice: &mut BTreeMap<ObjKey, List<Mark>>,
    key: ObjKey,
    marks: List<Mark>,
) -> Result<(), Memory>
    ensures { OnOk result ((k : ObjKey)
        → marks_at by_slice.new k ≡ (if is_key k key then marks else marks_at by_slice.old k)) }
{
    by_slice.insert(key, marks)?;
    Ok(())
}

fn take_marks(
    alloc: Global,
    by_slice: &mut BTreeMap<ObjKey, List<Mark>>,
    key: &ObjKey,
) -> List<Mark>
    ensures marks { result ≡ marks_at by_slice.old key.now }
    ensures taken { (k : ObjKey)
        → marks_at by_slice.new k ≡ (if is_key k key.now then [] else marks_at by_slice.old k) }
{
    match by_slice.remove(key) {
        Some(marks) => marks,
        None => List::new(alloc),
    }
}
