// Rows in the order of their keys.
ghost use Rattle.std.specs.Prelude.{◌≡◌, OnOk, OnErr};
ghost use Rattle.std.specs.Ordering.{is_eq};
ghost use Rattle.view_rules.specs.InOrder.{in_order_by};

use crate::keyed::KeyedRow;
use mesh_base::memory::Memory;
use std::cmp::Ordering;

/// Sorts rows by key, and keeps the first row of each key. If memory runs out, the rows are
/// unchanged.
pub fn keep_first<T: KeyedRow>(rows: &mut Vec<T>) -> Result<(), Memory>
    ensures ok { OnOk result (rows.new.items ≡ in_order_by T.cmp T.key_of rows.old.items) }
    ensures err { OnErr result (rows.new.items ≡ rows.old.items) }
{
    rows.sort_by(|a, b| a.compare(b))?;
    rows.dedup_by(|row, kept| is_same_key(row, kept));
    Ok(())
}

fn is_same_key<T: KeyedRow>(a: &T, b: &T) -> bool
    ensures { result ≡ is_eq (T.cmp (T.key_of a.now) (T.key_of b.now)) }
{
    a.compare(b) == Ordering::Equal
}
