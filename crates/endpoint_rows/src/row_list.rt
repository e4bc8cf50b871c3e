//! Rows in the order of their addresses and ports.
ghost use Rattle.std.specs.Prelude.{◌≡◌, [], IfOk, None, OnOk, Some};
ghost use Rattle.std.specs.Option.{option_copied};
ghost use Rattle.mesh_base.specs.Keyed.{IsKeyed};
ghost use Rattle.row_places.specs.Rows.{row_at};
ghost use Rattle.view_rules.specs.Endpoints.{first_rows, pair_cmp, pair_of};
ghost use Rattle.endpoint_rows.specs.Kept.{Replaces};

use mesh_base::list::List;
use mesh_base::memory::Memory;
use net_cidr::ip::Ip;
use row_places::order::keep_first;
use row_places::place::{place, row_at};
use std::alloc::Global;
use std::marker::Model;
use std::mem;
use view_types::endpoint::EndpointRow;

/// Rows in order, each address and port once. Contracts see them as a list.
#[derive(Drop)]
pub struct RowList {
    rows: Vec<EndpointRow>,
}

impl Model for RowList {
    ghost use Rattle.std.specs.Prelude.{List};
    ghost use Rattle.std.specs.Coded.{coded_list};
    ghost use Rattle.mesh_base.specs.Keyed.{IsKeyed};
    ghost use Rattle.view_rules.specs.Endpoints.{pair_cmp, pair_of};
    ghost use Rattle.view_types.specs.contracts.endpoint.EndpointRow as the_row;
    ghost use Rattle.view_types.specs.declared.endpoint.EndpointRow.{EndpointRow};

    ghost Value = { List EndpointRow };

    ghost coded = { coded_list the_row.the_row.coded };

    ghost view = { λ s. s.rows.items };

    ghost invariant = { λ s. IsKeyed pair_cmp pair_of (λ row. row) s.rows.items };
}

impl RowList {
    pub fn new(alloc: Global) -> RowList
        ensures { result ≡ [] }
    {
        RowList {
            rows: Vec::new(alloc),
        }
    }

    /// Creates a list from rows that are in order.
    pub fn of(rows: List<EndpointRow>) -> RowList
        requires { IsKeyed pair_cmp pair_of (λ row. row) rows }
        ensures { result ≡ rows }
    {
        RowList {
            rows: rows.into_vec(),
        }
    }

    /// Creates a list from rows in any order. Of the rows with the same address and port the first
    /// is kept.
    pub fn of_first(rows: List<EndpointRow>) -> Result<RowList, Memory>
        ensures { IfOk result (λ first. first ≡ first_rows rows) }
    {
        let mut rows = rows.into_vec();
        keep_first(&mut rows)?;
        Ok(RowList { rows })
    }

    pub fn into_list(self) -> List<EndpointRow>
        ensures value { result ≡ self }
        ensures rise { IsKeyed pair_cmp pair_of (λ row. row) self }
    {
        let RowList { rows } = self;
        List::from_vec(rows)
    }

    pub fn as_slice(&self) -> &[EndpointRow]
        ensures value { result.now ≡ self.now }
        ensures rise { IsKeyed pair_cmp pair_of (λ row. row) self.now }
    {
        self.rows.as_slice()
    }

    /// Returns the row at an address and port.
    pub fn at(&self, pair: &(Ip, u16)) -> Option<&EndpointRow>
        ensures { option_copied result ≡ row_at self.now pair.now }
    {
        row_at(self.rows.as_slice(), pair)
    }

    /// Inserts a row at its address and port. Returns the row that was there.
    pub fn put(&mut self, row: EndpointRow) -> Result<Option<EndpointRow>, Memory>
        ensures put { OnOk result (Replaces (pair_of row) (Some row) self.old self.new) }
        ensures was { IfOk result (λ was. was ≡ row_at self.old (pair_of row)) }
    {
        match place(self.rows.as_slice(), &(row.ip, row.port)) {
            Ok(at) => Ok(Some(mem::replace(&mut self.rows[at], row))),
            Err(at) => {
                self.rows.insert(at, row)?;
                Ok(None)
            }
        }
    }

    /// Removes the row at an address and port, and returns it.
    pub fn take(&mut self, pair: &(Ip, u16)) -> Option<EndpointRow>
        ensures taken { Replaces pair.now None self.old self.new }
        ensures was { result ≡ row_at self.old pair.now }
    {
        match place(self.rows.as_slice(), pair) {
            Ok(at) => Some(self.rows.remove(at)),
            Err(_) => None,
        }
    }
}
