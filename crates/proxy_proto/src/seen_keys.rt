//! The keys of map entries that were read so far.
ghost use Rattle.std.specs.Prelude.{◌≡◌, ◌&&◌, ◌||◌, ◌==◌, ℕ, List, not, IfOk, OnOk};
ghost use Rattle.std.specs.Str.{bytes_eq};
ghost use Rattle.proto_wire.specs.Given.{view_record, view_value};
ghost use Rattle.proxy_proto.specs.Faults.{fault_if, key_of};
ghost use Rattle.proxy_proto.specs.Given.{Checks};
ghost use Rattle.proxy_proto.specs.MetKeys.{is_met, is_map};
ghost use Rattle.proxy_proto.specs.declared.fault.ProtoFault.TheVariants.{Repeated};

use crate::fault::ProtoFault;
use crate::look_up::{body, chunk_in, records_in};
use crate::table::Label;
use mesh_base::memory::Memory;
use proto_wire::scan::{RecRef, ValueRef};
use std::alloc::Global;
use std::collections::BTreeSet;

/// Keys of entries, each with the number of its field.
pub type Keys<'a> = BTreeSet<(u32, &'a [u8])>;

/// Adds a key. Returns whether it is new.
fn add<'a>(keys: &mut Keys<'a>, field: u32, key: &'a [u8]) -> Result<bool, Memory>
    ensures new { IfOk result (λ added. added ≡ not (is_met keys.old field key.now)) }
    ensures keys { OnOk result
        ((n : ℕ) (other : List ℕ) → is_met keys.new n other
        ≡ ((field == n && bytes_eq key.now other) || is_met keys.old n other)) }
{
    Ok(keys.insert((field, key))?)
}

fn key_of<'a>(alloc: Global, value: ValueRef<'a>) -> Result<&'a [u8], Memory>
    ensures { IfOk result (λ key. key.now ≡ key_of (view_value value.entry)) }
{
    let entry = records_in(alloc, body(value))?;
    Ok(chunk_in(&entry, 1))
}

/// Adds the key of a map entry. Returns the fault if it was there.
pub fn meet<'a>(
    alloc: Global,
    keys: &mut Keys<'a>,
    label: Label,
    met: &RecRef<'a>,
) -> Result<(), ProtoFault>
    ensures fault { Checks result
        (fault_if
        (is_map label && is_met keys.old met.now.number (key_of (view_record met.now).value))
        (Repeated met.now.number)) }
    ensures keys { OnOk result ((n : ℕ) (other : List ℕ) → is_met keys.new n other
        ≡ ((is_map label
        && (met.now.number == n && bytes_eq (key_of (view_record met.now).value) other))
        || is_met keys.old n other)) }
{
    if !matches!(label, Label::Map) {
        return Ok(());
    }
    let key = key_of(alloc, met.value)?;
    if add(keys, met.number, key)? {
        Ok(())
    } else {
        Err(ProtoFault::Repeated { field: met.number })
    }
}
