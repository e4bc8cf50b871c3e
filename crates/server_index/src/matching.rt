// The Servers that match a port, by their names.
ghost use Rattle.std.proofs.Props.{props};
ghost use Rattle.std.specs.Prelude.{◌≡◌, ℕ, false, true, List, None, IfOk, OnOk, if◌then◌else◌, is_some, option_map, slice_get};
ghost use Rattle.std.specs.BTreeMap.{IsOrdered, get};
ghost use Rattle.std.specs.Cmp.Lexicographic.{slice_cmp};
ghost use Rattle.std.specs.Ordering.{eq_by_cmp, nat_cmp};
ghost use Rattle.server_index.specs.Probes.{may_have, probe_of};

use crate::name_filter::{NameFilter, probe_of};
use chunked_map::map::ChunkedMap;
use mesh_base::memory::Memory;
use mesh_base::same::Same;
use mesh_base::text::Text;
use std::alloc::Global;
use view_types::policy::{Policy, Protocol};

/// The Servers that match a port, by their names, each with its protocol and its policy, and a
/// filter that has each name.
#[derive(Drop)]
pub struct Matching {
    by_name: ChunkedMap<Text, (Protocol, Policy)>,
    names: NameFilter,
    ghost ordered: { IsOrdered (slice_cmp nat_cmp) by_name } by { Prim.hlevel props },
    ghost named: { (name : List ℕ) → is_some (get (slice_cmp nat_cmp) by_name name) ≡ true
        → may_have names (probe_of name) ≡ true } by { Prim.hlevel props },
}

impl Matching {
    pub(crate) fn new(alloc: Global) -> Matching
        ensures { (name : List ℕ) → get (slice_cmp nat_cmp) result.by_name name ≡ None }
    {
        Matching {
            by_name: ChunkedMap::new(alloc),
            names: NameFilter::new(),
        }
    }

    /// Puts a Server with this name and these terms, or removes it if there are none. Returns
    /// whether anything differs then.
    pub(crate) fn put(
        &mut self,
        name: &Text,
        terms: Option<(Protocol, Policy)>,
    ) -> Result<bool, Memory>
        ensures put { OnOk result ((other : List ℕ)
            → get (slice_cmp nat_cmp) self.new.by_name other
            ≡ (if eq_by_cmp (slice_cmp nat_cmp) name.now other then terms
            else get (slice_cmp nat_cmp) self.old.by_name other)) }
        ensures same { IfOk result (λ differs. differs ≡ false → self.new ≡ self.old) }
    {
        if self.at(name).is_same(&terms) {
            return Ok(false);
        }
        match terms {
            Some(terms) => {
                self.names.insert(probe_of(name.as_bytes()));
                self.by_name.insert(name.copy()?, terms)?;
                Ok(true)
            }
            None => {
                self.by_name.remove(name);
                Ok(true)
            }
        }
    }

    fn at(&self, name: &Text) -> Option<(Protocol, Policy)>
        ensures { result ≡ get (slice_cmp nat_cmp) self.now.by_name name.now }
    {
        self.by_name.get(name).copied()
    }

    /// Returns the filter of the names.
    pub(crate) fn names(&self) -> &NameFilter
        ensures { result.now ≡ self.now.names }
    {
        &self.names
    }

    /// Returns the Server with the least name.
    pub(crate) fn first(&self) -> Option<(&Text, &(Protocol, Policy))>
        ensures { option_map (λ p. (p.0.now, p.1.now)) result
            ≡ slice_get self.now.by_name.entries 0 }
    {
        self.by_name.first_key_value()
    }
}
