//! The rows of a Service's port.
ghost use Rattle.std.specs.Prelude.{◌≡◌, [], OnOk, if◌then◌else◌};
ghost use Rattle.std.proofs.Props.{props};
ghost use Rattle.mesh_base.specs.declared.key.ObjKey.{ObjKey};
ghost use Rattle.key_lists.specs.Keys.{is_key};
ghost use Rattle.mesh_base.specs.Keyed.{IsKeyed};
ghost use Rattle.view_diff.specs.Earlier.{IsByAddress};
ghost use Rattle.view_rules.specs.Endpoints.{first_rows, pair_cmp, pair_of};

use crate::pairs::{add_pairs, in_order};
use crate::row_list::RowList;
use crate::settle::settle_all;
use crate::slices::Slices;
use mesh_base::key::ObjKey;
use mesh_base::list::List;
use mesh_base::memory::Memory;
use net_cidr::ip::Ip;
use std::alloc::Global;
use std::mem;
use view_types::endpoint::{EndpointRow, EndpointView};

/// The rows that slices give, and the view of them. Slices are put and removed one after another,
/// and then `settle` updates the view once.
#[derive(Drop)]
pub struct EndpointRows {
    pub(crate) slices: Slices,
    pub(crate) view: EndpointView,
    /// The addresses and ports of the slices that were put or removed since the last update of the
    /// view.
    pub(crate) touched: List<(Ip, u16)>,
    pub(crate) notes: List<(Ip, u16, Option<EndpointRow>)>,
    alloc: Global,
    ghost rise: { IsKeyed pair_cmp pair_of (λ row. row) view.rows },
    ghost by_address: { IsByAddress notes } by { Prim.hlevel props },
}

impl EndpointRows {
    ghost use Rattle.endpoint_rows.specs.Before.{TellsBefore};
    ghost use Rattle.endpoint_rows.specs.Kept.{Keeps, all_rows, rows_of};

    /// Creates the rows of a Service without slices.
    pub fn new(alloc: Global, exists: bool) -> EndpointRows
        ensures keeps { Keeps result }
        ensures none { (k : ObjKey) → rows_of result.slices.by_slice k ≡ [] }
        ensures view { result.view ≡ record { exists = exists; rows = [] } }
    {
        EndpointRows {
            slices: Slices::new(alloc),
            view: EndpointView {
                exists,
                rows: List::new(alloc),
            },
            touched: List::new(alloc),
            notes: List::new(alloc),
            alloc,
        }
    }

    /// Replaces the rows of a slice by these, which are in the order of their places in the slice.
    pub fn put_slice(&mut self, key: ObjKey, rows: List<EndpointRow>) -> Result<(), Memory>
        ensures keeps { Keeps self.old → OnOk result (Keeps self.new) }
        ensures put { OnOk result ((k : ObjKey)
            → rows_of self.new.slices.by_slice k
            ≡ (if is_key k key then first_rows rows else rows_of self.old.slices.by_slice k)) }
        ensures view { self.new.view ≡ self.old.view }
        ensures notes { self.new.notes ≡ self.old.notes }
    {
        let rows = RowList::of_first(rows)?;
        self.take_slice(&key)?;
        add_pairs(&mut self.touched, rows.as_slice())?;
        self.slices.put(key, rows)
    }

    /// Removes the rows of a slice.
    pub fn take_slice(&mut self, key: &ObjKey) -> Result<(), Memory>
        ensures keeps { Keeps self.old → OnOk result (Keeps self.new) }
        ensures taken { OnOk result ((k : ObjKey)
            → rows_of self.new.slices.by_slice k
            ≡ (if is_key k key.now then [] else rows_of self.old.slices.by_slice k)) }
        ensures view { self.new.view ≡ self.old.view }
        ensures notes { self.new.notes ≡ self.old.notes }
    {
        let rows = self.slices.take(key);
        add_pairs(&mut self.touched, rows.as_slice())
    }

    /// Removes the rows of all slices. The Service exists from then on, or does not, as `exists`
    /// says.
    pub fn restart(&mut self, exists: bool) -> Result<(), Memory>
        ensures keeps { Keeps self.old → OnOk result (Keeps self.new) }
        ensures none { OnOk result ((k : ObjKey) → rows_of self.new.slices.by_slice k ≡ []) }
        ensures view { OnOk result (self.new.view
            ≡ record { exists = exists; rows = self.old.view.rows }) }
        ensures notes { self.new.notes ≡ self.old.notes }
    {
        self.slices = Slices::new(self.alloc);
        self.view.exists = exists;
        add_pairs(&mut self.touched, self.view.rows.as_slice())
    }

    /// Updates the view to the rows of the slices.
    pub fn settle(&mut self) -> Result<(), Memory>
        ensures keeps { Keeps self.old → OnOk result (Keeps self.new) }
        ensures slices { self.new.slices ≡ self.old.slices }
        ensures touched { OnOk result (self.new.touched ≡ []) }
        ensures view { Keeps self.old → OnOk result (self.new.view ≡ record {
          exists = self.old.view.exists;
          rows = first_rows (all_rows self.old.slices.by_slice);
        }) }
        ensures notes { Keeps self.old → OnOk result
            (TellsBefore self.old.view.rows self.new.view.rows self.new.notes) }
    {
        let touched = mem::replace(&mut self.touched, List::new(self.alloc));
        let touched = in_order(touched)?;
        let mut rows = RowList::of(mem::replace(&mut self.view.rows, List::new(self.alloc)));
        self.notes = settle_all(&self.slices, touched.as_slice(), &mut rows)?;
        self.view.rows = rows.into_list();
        Ok(())
    }

    /// Returns the view as of the last update.
    pub fn view(&self) -> &EndpointView
        ensures { result.now ≡ self.now.view }
    {
        &self.view
    }

    /// Returns the view as an owned value.
    pub fn into_view(self) -> EndpointView
        ensures { result ≡ self.view }
    {
        self.view
    }

    /// Returns the addresses and ports whose rows the last update changed, each with the row that
    /// was there before.
    pub fn before(&self) -> &[(Ip, u16, Option<EndpointRow>)]
        ensures value { result.now ≡ self.now.notes }
        ensures by_address { IsByAddress result.now }
    {
        self.notes.as_slice()
    }
}
