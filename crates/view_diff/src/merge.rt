//! The differences between two lists of rows, found by one merge.
ghost use Rattle.std.specs.Prelude.{◌≡◌, ◌≢◌, ◌∷◌, ◌++◌, [], IfOk, OnOk, map, if◌then◌else◌};
ghost use Rattle.mesh_base.specs.Keyed.{IsKeyed};
ghost use Rattle.view_rules.specs.ByKey.{changed_from, gone_keys};
ghost use Rattle.view_diff.specs.Passing.{Passes};

use mesh_base::copied::Copied;
use mesh_base::list::List;
use mesh_base::memory::Memory;
use mesh_base::same::Same;
use row_places::keyed::KeyedRow;
use std::alloc::Global;
use std::cmp::Ordering;

/// The differences between two views.
#[derive(Drop)]
pub struct Changes<T, K> {
    /// The rows that are new or have changed.
    pub changed: List<T>,
    /// The keys whose rows were removed.
    pub gone: List<K>,
}

impl<T, K> Changes<T, K> {
    /// Creates an empty set of differences.
    pub fn new(alloc: Global) -> Changes<T, K>
        ensures { result ≡ record { changed = []; gone = [] } }
    {
        Changes {
            changed: List::new(alloc),
            gone: List::new(alloc),
        }
    }
}

/// Finds the differences. Both lists must be sorted by key, each key once.
pub fn find_changes<T: KeyedRow>(
    alloc: Global,
    old: &[T],
    new: &[T],
) -> Result<Changes<T, T::Key>, Memory>
    requires old { IsKeyed T.cmp T.key_of (λ row. row) old.now }
    requires new { IsKeyed T.cmp T.key_of (λ row. row) new.now }
    ensures changed { IfOk result (λ found. found.changed ≡ changed_from T.same old.now new.now) }
    ensures gone { IfOk result (λ found. found.gone ≡ gone_keys T.cmp T.key_of old.now new.now) }
{
    let mut found = Changes::new(alloc);
    let mut olds = old;
    let mut news = new;
    while !olds.is_empty() && !news.is_empty() {
        (olds, news) = pass(alloc, &mut found, olds, news)?;
    }
    add_gone(&mut found.gone, olds)?;
    add_changed(alloc, &mut found.changed, news)?;
    Ok(found)
}

/// Advances past the first row with the lesser key, or past both first rows if their keys are
/// equal.
fn pass<'a, T: KeyedRow>(
    alloc: Global,
    found: &mut Changes<T, T::Key>,
    olds: &'a [T],
    news: &'a [T],
) -> Result<(&'a [T], &'a [T]), Memory>
    requires old { IsKeyed T.cmp T.key_of (λ row. row) olds.now }
    requires new { IsKeyed T.cmp T.key_of (λ row. row) news.now }
    requires some_old { olds.now ≢ [] }
    requires some_new { news.now ≢ [] }
    ensures { IfOk result (λ rest. Passes T.cmp T.key_of T.same olds.now news.now rest.0.now
        rest.1.now found.old found.new) }
{
    let (was, olds_after) = first(olds);
    let (row, news_after) = first(news);
    match was.compare(row) {
        Ordering::Less => {
            found.gone.add(was.key()?)?;
            Ok((olds_after, news))
        }
        Ordering::Equal => {
            add_if_changed(alloc, &mut found.changed, was, row)?;
            Ok((olds_after, news_after))
        }
        Ordering::Greater => {
            found.changed.add(row.copy(alloc)?)?;
            Ok((olds, news_after))
        }
    }
}

fn first<'a, T>(rows: &'a [T]) -> (&'a T, &'a [T])
    requires { rows.now ≢ [] }
    ensures { rows.now ≡ result.0.now ∷ result.1.now }
{
    (&rows[0], &rows[1..])
}

/// Adds the new row, unless it is the same as the old one.
pub fn add_if_changed<T: KeyedRow>(
    alloc: Global,
    changed: &mut List<T>,
    was: &T,
    row: &T,
) -> Result<(), Memory>
    ensures { OnOk result (changed.new
        ≡ changed.old ++ (if T.same row.now was.now then [] else row.now ∷ [])) }
{
    if row.is_same(was) {
        return Ok(());
    }
    changed.add(row.copy(alloc)?)
}

fn add_gone<T: KeyedRow>(gone: &mut List<T::Key>, rows: &[T]) -> Result<(), Memory>
    ensures { OnOk result (gone.new ≡ gone.old ++ map T.key_of rows.now) }
{
    for row in rows {
        gone.add(row.key()?)?;
    }
    Ok(())
}

fn add_changed<T: KeyedRow>(alloc: Global, changed: &mut List<T>, rows: &[T]) -> Result<(), Memory>
    ensures { OnOk result (changed.new ≡ changed.old ++ rows.now) }
{
    for row in rows {
        changed.add(row.copy(alloc)?)?;
    }
    Ok(())
}
