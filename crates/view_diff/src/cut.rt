ghost use Rattle.std.specs.Prelude.{◌≡◌, ◌≤◌, IfOk};
ghost use Rattle.view_rules.specs.Batch.{in_pieces};

use mesh_base::list::List;
use mesh_base::memory::Memory;
use std::alloc::Global;
use std::mem;

/// Splits the items into pieces of `size` items each. The last piece may have fewer.
pub fn in_pieces<T: Drop>(
    alloc: Global,
    items: List<T>,
    size: usize,
) -> Result<List<List<T>>, Memory>
    requires { 1 ≤ size }
    ensures { IfOk result (λ pieces. pieces ≡ in_pieces size items) }
{
    let mut pieces = List::new(alloc);
    let mut piece = List::new(alloc);
    for item in items.into_vec() {
        piece.add(item)?;
        if piece.len() == size {
            pieces.add(mem::replace(&mut piece, List::new(alloc)))?;
        }
    }
    if piece.len() != 0 {
        pieces.add(piece)?;
    }
    Ok(pieces)
}
