// Edits of lists of routes in the order of their places.
ghost use Rattle.std.specs.Prelude.{◌≡◌, false, not, IfErr, IfOk, OnOk, filter, length};
ghost use Rattle.std.specs.FinMap.{insert};
ghost use Rattle.std.specs.List.{list_any};
ghost use Rattle.std.specs.List.Sorted.{IsSearchInRange};
ghost use Rattle.std.specs.Str.{bytes_eq};
ghost use Rattle.mesh_base.specs.Places.{IsGap, IsHit};
ghost use Rattle.view_rules.specs.ByKey.{put_all};
ghost use Rattle.view_rules.specs.Routes.{route_cmp};
ghost use Rattle.route_index.specs.Placed.{Rise, by_place, row_place};

use mesh_base::memory::Memory;
use mesh_base::text::Text;
use policy_rows::routes::{compare_created, compare_groups};
use std::cmp::Ordering;
use view_types::server_view::RouteRow;

/// Removes the routes with a name. Returns whether there was any.
pub(crate) fn take_named(rows: &mut Vec<RouteRow>, name: &Text) -> bool
    ensures gone { rows.new.items
        ≡ filter (λ row. not (bytes_eq name.now row.name)) rows.old.items }
    ensures same { result ≡ false → rows.new.items ≡ rows.old.items }
{
    if !has_named(rows.as_slice(), name) {
        return false;
    }
    rows.retain(|row| *name != row.name);
    true
}

fn has_named(rows: &[RouteRow], name: &Text) -> bool
    ensures { result ≡ list_any (λ row. bytes_eq name.now row.name) rows.now }
{
    rows.iter().any(|row| *name == row.name)
}

/// Inserts each route at its place. Returns whether there was any.
pub(crate) fn put_rows(rows: &mut Vec<RouteRow>, added: Vec<RouteRow>) -> Result<bool, Memory>
    ensures put { OnOk result (Rise rows.old.items
        → by_place rows.new.items
        ≡ put_all route_cmp row_place added.items (by_place rows.old.items)) }
    ensures rise { OnOk result (Rise rows.old.items → Rise rows.new.items) }
    ensures same { IfOk result (λ differs. differs ≡ false → rows.new.items ≡ rows.old.items) }
{
    if added.is_empty() {
        return Ok(false);
    }
    for row in added {
        put_row(rows, row)?;
    }
    Ok(true)
}

/// Inserts a route at its place, or replaces the route that is there.
fn put_row(rows: &mut Vec<RouteRow>, row: RouteRow) -> Result<(), Memory>
    ensures put { OnOk result (Rise rows.old.items
        → by_place rows.new.items ≡ insert (by_place rows.old.items) (row_place row) row) }
    ensures rise { OnOk result (Rise rows.old.items → Rise rows.new.items) }
{
    match place(rows.as_slice(), &row) {
        Ok(at) => {
            rows[at] = row;
            Ok(())
        }
        Err(at) => Ok(rows.insert(at, row)?),
    }
}

/// Returns the index of the route at the same place as `Ok`, or where to insert this one as `Err`.
fn place(rows: &[RouteRow], one: &RouteRow) -> Result<usize, usize>
    ensures within { IsSearchInRange result (length rows.now) }
    ensures hit { Rise rows.now → IfOk result
        (IsHit (λ row. route_cmp (row_place row) (row_place one.now)) rows.now) }
    ensures gap { Rise rows.now → IfErr result
        (IsGap (λ row. route_cmp (row_place row) (row_place one.now)) rows.now) }
{
    rows.binary_search_by(|row| compare_rows(row, one))
}

/// Compares the creation times, of which none is the last, then the names, and then the groups.
fn compare_rows(a: &RouteRow, b: &RouteRow) -> Ordering
    ensures { result ≡ route_cmp (row_place a.now) (row_place b.now) }
{
    match compare_created(&a.created, &b.created) {
        Ordering::Equal => match a.name.cmp(&b.name) {
            Ordering::Equal => compare_groups(a.kind, b.kind),
            other => other,
        },
        other => other,
    }
}
