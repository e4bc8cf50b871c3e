// The rows and the Pods of the slices of a Service, updated slice by slice.
ghost use Rattle.std.specs.Prelude.{◌≡◌, ◌≤◌, ◌+◌, ◌++◌, [], true, false, Some, None, IfOk, IfSome, OnOk, if◌then◌else◌, is_some};
ghost use Rattle.std.specs.FinMap.{get};
ghost use Rattle.std.specs.List.{sum_by};
ghost use Rattle.std.specs.Option.{option_copied};
ghost use Rattle.key_lists.specs.Keys.{has_key, is_key};
ghost use Rattle.mesh_base.specs.declared.key.ObjKey.{ObjKey as TheKey};
ghost use Rattle.view_types.specs.declared.mark.Mark.TheVariants.{SlicesOf};
ghost use Rattle.view_rules.specs.Endpoints.{first_rows};
ghost use Rattle.view_rules.specs.PodRows.{row_for};
ghost use Rattle.mark_rules.specs.MarkLookups.{keys_at};
ghost use Rattle.mark_rules.specs.Reads.{cost, pods_of};
ghost use Rattle.endpoint_rows.specs.Before.{TellsBefore};
ghost use Rattle.endpoint_rows.specs.Kept.{Keeps, rows_of};
ghost use Rattle.slice_marks.specs.Marked.{Agree, OthersStay, marks_at};
ghost use Rattle.endpoint_index.specs.Given.{given_at, pods_at, rows_named, slice_at, steps_of};
ghost use Rattle.endpoint_index.specs.Slices.{AreEmpty, AreUpBut, SlicesStand};

use crate::service_port::PortSource;
use endpoint_rows::laws::slices_make_the_service;
use endpoint_rows::rows::EndpointRows;
use mark_rules::laws::keys_by_mark;
use mesh_base::copied::Copied;
use mesh_base::key::ObjKey;
use mesh_base::list::List;
use mesh_base::memory::Memory;
use mesh_base::steps::Steps;
use row_reads::references::add_pods;
use slice_marks::keys::has_key;
use slice_marks::slices::SliceMarks;
use std::alloc::Global;
use view_scratch::collect::{add_slice, slice_at};
use view_types::endpoint::EndpointRow;
use view_types::mark::Mark;
use view_types::slice::Slice;

/// The rows of each slice for a port, and the Pods that it names.
#[derive(Drop)]
pub struct KeptSlices {
    pub(crate) rows: EndpointRows,
    pub(crate) read: SliceMarks,
}

impl KeptSlices {
    /// Creates an empty set of slices.
    pub(crate) fn new(alloc: Global, exists: bool) -> KeptSlices
        ensures empty { AreEmpty result }
        ensures exists { result.rows.view.exists ≡ exists }
    {
        KeptSlices {
            rows: EndpointRows::new(alloc, exists),
            read: SliceMarks::new(alloc),
        }
    }

    /// Removes all slices. The rows of the view are unchanged until it is updated.
    pub(crate) fn restart(&mut self, alloc: Global, exists: bool) -> Result<(), Memory>
        ensures empty { Keeps self.old.rows → OnOk result (AreEmpty self.new) }
        ensures exists { OnOk result (self.new.rows.view.exists ≡ exists) }
        ensures rows { OnOk result (self.new.rows.view.rows ≡ self.old.rows.view.rows) }
    {
        self.read = SliceMarks::new(alloc);
        self.rows.restart(exists)
    }
}

/// Updates the slices under these keys, and the view. Returns the marks of Pods that these slices
/// named or name now. Any other Pod is named by the same slices as before.
pub(crate) fn bring_up<L>(
    source: &PortSource,
    touched: &[ObjKey],
    kept: &mut KeptSlices,
    steps: &mut Steps<L>,
) -> Result<List<Mark>, Memory>
    requires { source.now.from.now.store.now.spent ≡ false }
    ensures stands { Keeps kept.old.rows → Agree kept.old.read
        → AreUpBut touched.now source.now.from.now.config.now source.now.from.now.store.now.objects
        source.now.key.now (option_copied source.now.port.name) kept.old
        → OnOk result (SlicesStand source.now.from.now.config.now
        source.now.from.now.store.now.objects source.now.key.now kept.old.rows.view.exists
        (option_copied source.now.port.name) kept.new) }
    ensures notes { Keeps kept.old.rows → OnOk result (TellsBefore kept.old.rows.view.rows
        kept.new.rows.view.rows kept.new.rows.notes) }
    ensures moved { IfOk result (λ moved.
        OthersStay moved kept.old.read.by_mark kept.new.read.by_mark) }
    ensures steps { steps.new ≤ steps.old + sum_by (steps_of
        source.now.from.now.store.now.objects source.now.key.now) touched.now }
{
    slices_make_the_service();
    let moved = follow_slices(source, touched, kept, steps)?;
    kept.rows.settle()?;
    Ok(moved)
}

/// Updates the slices under these keys to the objects.
fn follow_slices<L>(
    source: &PortSource,
    touched: &[ObjKey],
    kept: &mut KeptSlices,
    steps: &mut Steps<L>,
) -> Result<List<Mark>, Memory>
    requires { source.now.from.now.store.now.spent ≡ false }
    ensures keeps { Keeps kept.old.rows → OnOk result (Keeps kept.new.rows) }
    ensures rows { OnOk result ((k : TheKey) → rows_of kept.new.rows.slices.by_slice k
        ≡ (if has_key k touched.now then first_rows (given_at source.now.from.now.config.now
        source.now.from.now.store.now.objects source.now.key.now
        (option_copied source.now.port.name) k)
        else rows_of kept.old.rows.slices.by_slice k)) }
    ensures view { OnOk result (kept.new.rows.view ≡ kept.old.rows.view) }
    ensures agree { Agree kept.old.read → OnOk result (Agree kept.new.read) }
    ensures pods { OnOk result ((k : TheKey) → marks_at kept.new.read.by_slice k
        ≡ (if has_key k touched.now
        then pods_at source.now.from.now.store.now.objects source.now.key.now k
        else marks_at kept.old.read.by_slice k)) }
    ensures moved { IfOk result (λ moved.
        OthersStay moved kept.old.read.by_mark kept.new.read.by_mark) }
    ensures steps { steps.new ≤ steps.old + sum_by (steps_of
        source.now.from.now.store.now.objects source.now.key.now) touched.now }
{
    let slices = source
        .from
        .store
        .slices_of(&source.key.ns, &source.key.name);
    let mut moved = List::new(source.from.alloc);
    for at in touched {
        let more = follow_slice(source, slices, at, kept, steps)?;
        append(&mut moved, more)?;
    }
    Ok(moved)
}

pub(crate) fn append(marks: &mut List<Mark>, more: List<Mark>) -> Result<(), Memory>
    ensures { OnOk result (marks.new ≡ marks.old ++ more) }
{
    for mark in more.into_vec() {
        marks.add(mark)?;
    }
    Ok(())
}

/// Updates the slice under a key to the objects. `slices` are the keys of the Service's slices.
fn follow_slice<L>(
    source: &PortSource,
    slices: &[ObjKey],
    at: &ObjKey,
    kept: &mut KeptSlices,
    steps: &mut Steps<L>,
) -> Result<List<Mark>, Memory>
    requires { slices.now ≡ keys_at source.now.from.now.store.now.objects
        (SlicesOf source.now.key.now.ns source.now.key.now.name) }
    ensures keeps { Keeps kept.old.rows → OnOk result (Keeps kept.new.rows) }
    ensures rows { OnOk result ((k : TheKey) → rows_of kept.new.rows.slices.by_slice k
        ≡ (if is_key k at.now then first_rows (given_at source.now.from.now.config.now
        source.now.from.now.store.now.objects source.now.key.now
        (option_copied source.now.port.name) at.now)
        else rows_of kept.old.rows.slices.by_slice k)) }
    ensures view { OnOk result (kept.new.rows.view ≡ kept.old.rows.view) }
    ensures agree { Agree kept.old.read → OnOk result (Agree kept.new.read) }
    ensures pods { OnOk result ((k : TheKey) → marks_at kept.new.read.by_slice k
        ≡ (if is_key k at.now
        then pods_at source.now.from.now.store.now.objects source.now.key.now at.now
        else marks_at kept.old.read.by_slice k)) }
    ensures moved { IfOk result (λ moved.
        OthersStay moved kept.old.read.by_mark kept.new.read.by_mark) }
    ensures steps { steps.new ≤ steps.old
        + steps_of source.now.from.now.store.now.objects source.now.key.now at.now }
{
    match slice_of(source, slices, at, steps) {
        Some(slice) => put_slice(source, at, slice, kept, steps),
        None => take_slice(at, kept),
    }
}

/// Returns the slice under a key, if it is among these keys of the Service's slices.
fn slice_of<'a, L>(
    source: &PortSource<'a>,
    slices: &[ObjKey],
    at: &ObjKey,
    steps: &mut Steps<L>,
) -> Option<&'a Slice>
    requires { slices.now ≡ keys_at source.now.from.now.store.now.objects
        (SlicesOf source.now.key.now.ns source.now.key.now.name) }
    ensures value { option_copied result
        ≡ slice_at source.now.from.now.store.now.objects source.now.key.now at.now }
    ensures there { IfSome result (λ slice. has_key at.now slices.now ≡ true) }
    ensures steps { steps.new ≤ steps.old + (if has_key at.now slices.now
        then (if is_some (get source.now.from.now.store.now.objects at.now) then 1 else 0)
        else 0) }
{
    keys_by_mark();
    source.from.store.stand_at_keys();
    if has_key(slices, at) {
        return slice_at(
            source.from.store,
            at,
            &source.key.ns,
            &source.key.name,
            steps,
        );
    }
    None
}

fn put_slice<L>(
    source: &PortSource,
    at: &ObjKey,
    slice: &Slice,
    kept: &mut KeptSlices,
    steps: &mut Steps<L>,
) -> Result<List<Mark>, Memory>
    ensures keeps { Keeps kept.old.rows → OnOk result (Keeps kept.new.rows) }
    ensures rows { OnOk result ((k : TheKey) → rows_of kept.new.rows.slices.by_slice k
        ≡ (if is_key k at.now then first_rows (rows_named (row_for source.now.from.now.config.now
        source.now.from.now.store.now.objects) (option_copied source.now.port.name)
        (Some slice.now)) else rows_of kept.old.rows.slices.by_slice k)) }
    ensures view { OnOk result (kept.new.rows.view ≡ kept.old.rows.view) }
    ensures agree { Agree kept.old.read → OnOk result (Agree kept.new.read) }
    ensures pods { OnOk result ((k : TheKey) → marks_at kept.new.read.by_slice k
        ≡ (if is_key k at.now then pods_of slice.now
        else marks_at kept.old.read.by_slice k)) }
    ensures moved { IfOk result (λ moved.
        OthersStay moved kept.old.read.by_mark kept.new.read.by_mark) }
    ensures steps { steps.new ≤ steps.old
        + cost source.now.from.now.store.now.objects (pods_of slice.now) }
{
    let alloc = source.from.alloc;
    let rows = rows_of_slice(source, slice, steps)?;
    kept.rows.put_slice(at.copy(alloc)?, rows)?;
    let mut pods = List::new(alloc);
    add_pods(&mut pods, slice)?;
    let moved = kept.read.put(at.copy(alloc)?, pods)?;
    Ok(moved)
}

fn take_slice(at: &ObjKey, kept: &mut KeptSlices) -> Result<List<Mark>, Memory>
    ensures keeps { Keeps kept.old.rows → OnOk result (Keeps kept.new.rows) }
    ensures rows { OnOk result ((k : TheKey) → rows_of kept.new.rows.slices.by_slice k
        ≡ (if is_key k at.now then [] else rows_of kept.old.rows.slices.by_slice k)) }
    ensures view { OnOk result (kept.new.rows.view ≡ kept.old.rows.view) }
    ensures agree { Agree kept.old.read → OnOk result (Agree kept.new.read) }
    ensures pods { OnOk result ((k : TheKey) → marks_at kept.new.read.by_slice k
        ≡ (if is_key k at.now then [] else marks_at kept.old.read.by_slice k)) }
    ensures moved { IfOk result (λ moved.
        OthersStay moved kept.old.read.by_mark kept.new.read.by_mark) }
{
    kept.rows.take_slice(at)?;
    Ok(kept.read.take(at))
}

/// Returns the rows of a slice at ports with the name.
fn rows_of_slice<L>(
    source: &PortSource,
    slice: &Slice,
    steps: &mut Steps<L>,
) -> Result<List<EndpointRow>, Memory>
    ensures value { IfOk result (λ rows. rows
        ≡ rows_named (row_for source.now.from.now.config.now source.now.from.now.store.now.objects)
        (option_copied source.now.port.name) (Some slice.now)) }
    ensures steps { steps.new ≤ steps.old
        + cost source.now.from.now.store.now.objects (pods_of slice.now) }
{
    let mut rows = List::new(source.from.alloc);
    if let Some(name) = source.port.name {
        add_slice(source.from, &mut rows, slice, name, steps)?;
    }
    Ok(rows)
}
