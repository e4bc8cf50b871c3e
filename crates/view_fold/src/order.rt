ghost use Rattle.std.specs.Prelude.{◌≡◌, OnOk, OnErr, reverse};
ghost use Rattle.view_rules.specs.InOrder.{in_order_by};

use mesh_base::memory::Memory;
use row_places::keyed::KeyedRow;
use row_places::order::keep_first;

/// Sorts rows by key. Of the rows with one key the last is kept. If memory runs out, the rows stay
/// as they were.
pub fn put_in_order<T: KeyedRow>(rows: &mut Vec<T>) -> Result<(), Memory>
    ensures ok { OnOk result
        (rows.new.items ≡ in_order_by T.cmp T.key_of (reverse rows.old.items)) }
    ensures err { OnErr result (rows.new.items ≡ rows.old.items) }
{
    rows.reverse();
    match keep_first(rows) {
        Ok(()) => Ok(()),
        Err(e) => {
            rows.reverse();
            Err(e)
        }
    }
}
