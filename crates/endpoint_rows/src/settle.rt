//! Updates of the view to the rows of the slices.
ghost use Rattle.std.specs.Prelude.{◌≡◌, ◌++◌, IfOk, OnOk, None, Some, filter_map};
ghost use Rattle.std.specs.List.Sorted.{IsStrictlySortedBy};
ghost use Rattle.std.specs.Option.{option_copied, option_to_list};
ghost use Rattle.mesh_base.specs.Keyed.{IsKeyed};
ghost use Rattle.row_places.specs.Rows.{row_at};
ghost use Rattle.view_rules.specs.Endpoints.{pair_cmp, pair_of};
ghost use Rattle.view_rules.specs.Same.{same_option, same_row};
ghost use Rattle.view_types.specs.declared.endpoint.EndpointRow.{EndpointRow};
ghost use Rattle.view_diff.specs.Earlier.{IsByAddress};
ghost use Rattle.endpoint_rows.specs.Before.{AddsNote, note_of};
ghost use Rattle.endpoint_rows.specs.Kept.{Agree, Replaces, ReplacesAll, Rises, all_rows};

use crate::row_list::RowList;
use crate::slices::Slices;
use mesh_base::copied::Copied;
use mesh_base::list::List;
use mesh_base::memory::Memory;
use mesh_base::same::Same;
use net_cidr::ip::Ip;
use std::alloc::Global;
use view_types::endpoint::EndpointRow;

/// Updates the view at each of the pairs, which are in order, to the first row of the slices.
/// Returns the earlier rows at the pairs where the row has changed.
pub(crate) fn settle_all(
    slices: &Slices,
    pairs: &[(Ip, u16)],
    rows: &mut RowList,
) -> Result<List<(Ip, u16, Option<EndpointRow>)>, Memory>
    ensures rows { Agree slices.now → Rises rows.old
        → OnOk result (ReplacesAll pairs.now (all_rows slices.now.by_slice) rows.old
        rows.new) }
    ensures notes { Agree slices.now → Rises rows.old
        → IsKeyed pair_cmp (λ pair. pair) (λ pair. pair) pairs.now
        → IfOk result (λ notes. notes
        ≡ filter_map (note_of rows.old (all_rows slices.now.by_slice)) pairs.now) }
    ensures by_address { IsStrictlySortedBy pair_cmp pairs.now → IfOk result IsByAddress }
{
    let mut notes = List::new(slices.alloc);
    for pair in pairs {
        settle_one(slices, *pair, rows, &mut notes)?;
    }
    Ok(notes)
}

fn settle_one(
    slices: &Slices,
    pair: (Ip, u16),
    rows: &mut RowList,
    notes: &mut List<(Ip, u16, Option<EndpointRow>)>,
) -> Result<(), Memory>
    ensures rows { Agree slices.now → Rises rows.old
        → OnOk result (Replaces pair (row_at (all_rows slices.now.by_slice) pair) rows.old
        rows.new) }
    ensures notes { Agree slices.now
        → OnOk result (notes.new ≡ notes.old
        ++ option_to_list (note_of rows.old (all_rows slices.now.by_slice) pair)) }
    ensures adds { OnOk result (AddsNote pair notes.old notes.new) }
{
    let now = slices.first(&pair);
    if is_same(rows.at(&pair), now) {
        return Ok(());
    }
    let was = show(slices.alloc, rows, pair, now)?;
    notes.add((pair.0, pair.1, was))
}

fn is_same(was: Option<&EndpointRow>, now: Option<&EndpointRow>) -> bool
    ensures { result ≡ same_option same_row (option_copied was.entry) (option_copied now.entry) }
{
    match (was, now) {
        (Some(was), Some(now)) => same(was, now),
        (None, None) => true,
        _ => false,
    }
}

fn same(was: &EndpointRow, now: &EndpointRow) -> bool
    ensures { result ≡ same_row was.now now.now }
{
    was.is_same(now)
}

/// Sets the row at an address and port to a copy of this one, or removes it. Returns the earlier
/// row.
fn show(
    alloc: Global,
    rows: &mut RowList,
    pair: (Ip, u16),
    row: Option<&EndpointRow>,
) -> Result<Option<EndpointRow>, Memory>
    ensures rows { ((r : EndpointRow) → option_copied row.entry ≡ Some r → pair_of r ≡ pair)
        → OnOk result (Replaces pair (option_copied row.entry) rows.old rows.new) }
    ensures was { ((r : EndpointRow) → option_copied row.entry ≡ Some r → pair_of r ≡ pair)
        → IfOk result (λ was. was ≡ row_at rows.old pair) }
{
    match row {
        Some(row) => rows.put(row.copy(alloc)?),
        None => Ok(rows.take(&pair)),
    }
}
