// What is stored for the endpoints of a port.
ghost use Rattle.std.specs.Prelude.{◌≡◌, ◌≤◌, ◌+◌, ◌-◌, ◌^◌, ◌++◌, ◌∷◌, true, false, min, IfOk, OnOk};
ghost use Rattle.std.specs.BTreeMap.{btree_map_len};
ghost use Rattle.std.specs.List.{flat_map};
ghost use Rattle.std.specs.Option.{option_copied};
ghost use Rattle.view_types.specs.Objects.{ObjectMap};
ghost use Rattle.view_types.specs.declared.mark.Mark.TheVariants.{SlicesOf};
ghost use Rattle.view_rules.specs.Endpoints.{slices_held};
ghost use Rattle.mark_rules.specs.Changes.{Leads};
ghost use Rattle.mark_rules.specs.Marks.{has_mark};
ghost use Rattle.mark_rules.specs.Reads.{cost, endpoint_reads, pods_of};
ghost use Rattle.endpoint_rows.specs.Kept.{Keeps};
ghost use Rattle.row_table.specs.AtMarks.{AddsAt, RemovesAt};
ghost use Rattle.row_table.specs.MarksAfter.{MarksFollow};
ghost use Rattle.slice_marks.specs.Marked.{KeysByMark, OthersStay, marks_read};
ghost use Rattle.endpoint_index.specs.Given.{IsPort, own_reads};
ghost use Rattle.endpoint_index.specs.Slices.{AreEmpty};
ghost use Rattle.endpoint_index.specs.Standing.{Stands, Tells, marks_in};

use crate::service_port::{PortSource, ServicePort, port_of};
use crate::slices::{KeptSlices, append, bring_up};
use crate::touched::touched_slices;
use mark_graph::moves::MarkMoves;
use mark_rules::keys::EndpointKey;
use mark_rules::laws::{keys_by_mark, rows_by_marks};
use mesh_base::copied::Copied;
use mesh_base::key::Kind;
use mesh_base::list::List;
use mesh_base::memory::Memory;
use mesh_base::same::Same;
use mesh_base::steps::Steps;
use mesh_base::text::Text;
use policy_rows::snapshot::Snapshot;
use row_reads::references::add_key;
use row_table::row_rule::MarksAfter;
use row_table::rows_at_marks::RowsAtMarks;
use slice_marks::slices::add_copies;
use std::alloc::Global;
use view_types::mark::Mark;

/// The endpoints of a port, by the slices that they come from, and the marks that they read.
#[derive(Drop)]
pub struct KeptEndpoints {
    pub(crate) slices: KeptSlices,
    /// The name of the port, if the Service has it.
    pub(crate) name: Option<Text>,
    /// The marks of the Service and of its slices.
    pub(crate) own: List<Mark>,
}

impl KeptEndpoints {
    /// Returns a list of the marks that the endpoints read.
    pub(crate) fn marks(&self, alloc: Global) -> Result<List<Mark>, Memory>
        ensures { IfOk result (λ marks. marks ≡ marks_in self.now) }
    {
        let mut marks = self.own.copy(alloc)?;
        let pods = self.slices.read.all(alloc)?;
        append(&mut marks, pods)?;
        Ok(marks)
    }

    /// Adds the row with this number at the marks that the endpoints read.
    pub(crate) fn watch(&self, at_marks: &mut RowsAtMarks, number: u64) -> Result<(), Memory>
        ensures { OnOk result
            (AddsAt (has_mark (marks_in self.now)) number at_marks.old at_marks.new) }
    {
        at_marks.put(self.own.as_slice(), number)?;
        self.slices.read.put_row(&mut at_marks.by_mark, number)
    }

    /// Removes the row with this number from the marks that the endpoints read.
    pub(crate) fn unwatch(&self, at_marks: &mut RowsAtMarks, number: u64)
        ensures { RemovesAt (has_mark (marks_in self.now)) number at_marks.old at_marks.new }
    {
        at_marks.take(self.own.as_slice(), number);
        self.slices.read.take_row(&mut at_marks.by_mark, number);
    }

    /// Returns roughly how many marks the endpoints read.
    fn count(&self) -> usize
        ensures { result ≡ min (btree_map_len self.now.slices.read.by_mark + 2) (2 ^ 64 - 1) }
    {
        self.slices.read.count().saturating_add(2)
    }
}

/// Computes the endpoints of a port, and what they read.
pub(crate) fn find<L>(
    from: &Snapshot,
    key: &EndpointKey,
    steps: &mut Steps<L>,
) -> Result<KeptEndpoints, Memory>
    requires { from.now.store.now.spent ≡ false }
    ensures stands { IfOk result
        (Stands from.now.config.now from.now.store.now.objects key.now) }
    ensures steps { steps.new ≤ steps.old + cost from.now.store.now.objects
        (endpoint_reads from.now.store.now.objects key.now) }
{
    let port = port_of(from.store, key, steps);
    let mut kept = KeptEndpoints {
        slices: KeptSlices::new(from.alloc, port.exists),
        name: None,
        own: List::new(from.alloc),
    };
    fill(&PortSource { from, key, port }, &mut kept, steps)?;
    Ok(kept)
}

/// Updates the endpoints of a port for a change with these marks, and notes the old rows where they
/// differ. Slices that the change does not affect are unchanged, unless the Service's port is
/// different, or the change has more marks than the endpoints read.
pub(crate) fn follow<L>(
    from: &Snapshot,
    key: &EndpointKey,
    changed: &[Mark],
    kept: &mut KeptEndpoints,
    steps: &mut Steps<L>,
) -> Result<MarksAfter, Memory>
    requires { from.now.store.now.spent ≡ false }
    ensures stands { OnOk result ((held : ObjectMap)
        → Stands from.now.config.now held key.now kept.old
        → Leads changed.now held from.now.store.now.objects
        → Stands from.now.config.now from.now.store.now.objects key.now kept.new) }
    ensures tells { Keeps kept.old.slices.rows → OnOk result (Tells kept.old kept.new) }
    ensures marks { IfOk result (λ marks.
        MarksFollow marks (marks_in kept.old) (marks_in kept.new)) }
    ensures steps { steps.new ≤ steps.old + cost from.now.store.now.objects
        (endpoint_reads from.now.store.now.objects key.now) }
{
    let port = port_of(from.store, key, steps);
    let source = PortSource { from, key, port };
    if changed.len() <= kept.count() && has_port(kept, &port) {
        return follow_in_place(&source, changed, kept, steps);
    }
    let before = kept.marks(from.alloc)?;
    find_again(&source, kept, steps)?;
    Ok(MarksAfter::Other(before))
}

/// Whether the endpoints are those of the port in the Service.
fn has_port(kept: &KeptEndpoints, port: &ServicePort) -> bool
    ensures { result ≡ true → (kept.now.slices.rows.view.exists ≡ port.now.exists)
        × (kept.now.name ≡ option_copied port.now.name) }
{
    kept.slices.rows.view().exists == port.exists && is_name(&kept.name, port.name)
}

fn is_name(kept: &Option<Text>, name: Option<&Text>) -> bool
    ensures { result ≡ true → kept.now ≡ option_copied name.entry }
{
    match (kept, name) {
        (Some(kept), Some(name)) => kept.is_same(name),
        (None, None) => true,
        _ => false,
    }
}

/// Updates the endpoints for a change that leaves the port unchanged.
fn follow_in_place<L>(
    source: &PortSource,
    changed: &[Mark],
    kept: &mut KeptEndpoints,
    steps: &mut Steps<L>,
) -> Result<MarksAfter, Memory>
    requires going { source.now.from.now.store.now.spent ≡ false }
    requires port { IsPort source.now.from.now.store.now.objects source.now.key.now
        source.now.port.exists (option_copied source.now.port.name) }
    requires exists { kept.old.slices.rows.view.exists ≡ source.now.port.exists }
    requires name { kept.old.name ≡ option_copied source.now.port.name }
    ensures stands { OnOk result ((held : ObjectMap)
        → Stands source.now.from.now.config.now held source.now.key.now kept.old
        → Leads changed.now held source.now.from.now.store.now.objects
        → Stands source.now.from.now.config.now source.now.from.now.store.now.objects
        source.now.key.now kept.new) }
    ensures tells { Keeps kept.old.slices.rows → OnOk result (Tells kept.old kept.new) }
    ensures marks { IfOk result (λ marks.
        MarksFollow marks (marks_in kept.old) (marks_in kept.new)) }
    ensures steps { steps.new ≤ steps.old + cost source.now.from.now.store.now.objects
        (SlicesOf source.now.key.now.ns source.now.key.now.name
        ∷ flat_map pods_of (slices_held source.now.from.now.store.now.objects
        source.now.key.now.ns source.now.key.now.name)) }
{
    keys_by_mark();
    rows_by_marks();
    source.from.store.stand_at_keys();
    let touched = touched_slices(source.from.alloc, &kept.slices.read, changed)?;
    let moved = bring_up(source, touched.as_slice(), &mut kept.slices, steps)?;
    marks_after(source.from.alloc, moved, kept)
}

/// Returns the changes of the marks, if all but these are read as before. The Service's own are
/// read in any case.
fn marks_after(alloc: Global, moved: List<Mark>, kept: &KeptEndpoints) -> Result<MarksAfter, Memory>
    ensures { IfOk result (λ after. (old : KeysByMark)
        → OthersStay moved old kept.now.slices.read.by_mark
        → MarksFollow after (kept.now.own ++ marks_read old) (marks_in kept.now)) }
{
    if moved.len() == 0 {
        return Ok(MarksAfter::Same);
    }
    let MarkMoves { gone, mut come } = kept.slices.read.moves(alloc, moved)?;
    add_copies(alloc, &mut come, kept.own.as_slice())?;
    Ok(MarksAfter::Moved(MarkMoves { gone, come }))
}

/// Computes the endpoints again, and notes the old rows where they differ.
fn find_again<L>(
    source: &PortSource,
    kept: &mut KeptEndpoints,
    steps: &mut Steps<L>,
) -> Result<(), Memory>
    requires going { source.now.from.now.store.now.spent ≡ false }
    requires port { IsPort source.now.from.now.store.now.objects source.now.key.now
        source.now.port.exists (option_copied source.now.port.name) }
    ensures stands { Keeps kept.old.slices.rows → OnOk result
        (Stands source.now.from.now.config.now source.now.from.now.store.now.objects
        source.now.key.now kept.new) }
    ensures tells { Keeps kept.old.slices.rows → OnOk result (Tells kept.old kept.new) }
    ensures steps { steps.new ≤ steps.old + cost source.now.from.now.store.now.objects
        (SlicesOf source.now.key.now.ns source.now.key.now.name
        ∷ flat_map pods_of (slices_held source.now.from.now.store.now.objects
        source.now.key.now.ns source.now.key.now.name)) }
{
    kept.slices.restart(source.from.alloc, source.port.exists)?;
    fill(source, kept, steps)
}

/// Computes the endpoints of a port without stored slices.
fn fill<L>(
    source: &PortSource,
    kept: &mut KeptEndpoints,
    steps: &mut Steps<L>,
) -> Result<(), Memory>
    requires going { source.now.from.now.store.now.spent ≡ false }
    requires port { IsPort source.now.from.now.store.now.objects source.now.key.now
        source.now.port.exists (option_copied source.now.port.name) }
    ensures stands { AreEmpty kept.old.slices
        → kept.old.slices.rows.view.exists ≡ source.now.port.exists → OnOk result
        (Stands source.now.from.now.config.now source.now.from.now.store.now.objects
        source.now.key.now kept.new) }
    ensures tells { AreEmpty kept.old.slices → OnOk result (Tells kept.old kept.new) }
    ensures steps { steps.new ≤ steps.old + cost source.now.from.now.store.now.objects
        (SlicesOf source.now.key.now.ns source.now.key.now.name
        ∷ flat_map pods_of (slices_held source.now.from.now.store.now.objects
        source.now.key.now.ns source.now.key.now.name)) }
{
    keys_by_mark();
    rows_by_marks();
    source.from.store.stand_at_keys();
    let slices = source
        .from
        .store
        .slices_of(&source.key.ns, &source.key.name);
    bring_up(source, slices, &mut kept.slices, steps)?;
    kept.name = copied(source.port.name)?;
    kept.own = own_marks(source.from.alloc, source.key)?;
    Ok(())
}

fn copied(name: Option<&Text>) -> Result<Option<Text>, Memory>
    ensures { IfOk result (λ copy. copy ≡ option_copied name.entry) }
{
    match name {
        Some(name) => Ok(Some(name.copy()?)),
        None => Ok(None),
    }
}

/// Returns the mark of the Service, and that of its slices.
fn own_marks(alloc: Global, key: &EndpointKey) -> Result<List<Mark>, Memory>
    ensures { IfOk result (λ marks. marks ≡ own_reads key.now) }
{
    let mut marks = List::new(alloc);
    add_key(&mut marks, Kind::Service, &key.ns, &key.name)?;
    marks.add(Mark::SlicesOf(key.ns.copy()?, key.name.copy()?))?;
    Ok(marks)
}
