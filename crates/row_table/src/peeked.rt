// The row that a peek returns.
ghost use Rattle.std.specs.Prelude.{◌≡◌, IfOk};
ghost use Rattle.row_table.specs.PeekedRow.{peeked_row};

use mesh_base::copied::Copied;
use mesh_base::memory::Memory;
use std::alloc::Global;

/// A row, either borrowed from the index that keeps it, or made for one call.
#[derive(Drop)]
pub enum Peeked<'a, R> {
    Kept(&'a R),
    Made(R),
}

impl<R> Peeked<'_, R> {
    pub fn row(&self) -> &R
        ensures { result.now ≡ peeked_row self.now }
    {
        match self {
            Peeked::Kept(row) => row,
            Peeked::Made(row) => row,
        }
    }
}

impl<R: Copied> Peeked<'_, R> {
    /// Returns the row by value. A kept row is copied.
    pub fn into_row(self, alloc: Global) -> Result<R, Memory>
        ensures { IfOk result (λ row. row ≡ peeked_row self.entry) }
    {
        match self {
            Peeked::Kept(row) => row.copy(alloc),
            Peeked::Made(row) => Ok(row),
        }
    }
}
