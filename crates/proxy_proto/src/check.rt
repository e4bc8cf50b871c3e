//! The first fault of a message.
ghost use Rattle.std.specs.Prelude.{◌≡◌, ◌++◌, [], ◌∷◌, map, OnOk, Some, Ok, Option, Result};
ghost use Rattle.proto_wire.specs.Given.{view_record, view_value, view_scan};
ghost use Rattle.proxy_proto.specs.Faults.{fault_at, record_fault, value_fault, end_fault};
ghost use Rattle.proxy_proto.specs.Given.{Checks};
ghost use Rattle.proxy_proto.specs.MetKeys.{AreMet};
ghost use Rattle.proxy_proto.specs.NestedFaults.{seen_as, nested_in};

use crate::fault::ProtoFault;
use crate::field::{absent, find_field, is_one_more, no_choice};
use crate::look_up::is_string;
use crate::seen_keys::{Keys, meet};
use crate::table::{Field, FieldKind, Schema, fields};
use crate::whole::whole;
use proto_wire::scan::{RecRef, Scanned, ValueRef, scan};
use std::alloc::Global;
use std::collections::BTreeSet;

/// Returns the first fault of a message in which messages nest at most this deep.
#[cycle(check)]
pub fn check(alloc: Global, depth: usize, schema: Schema, bytes: &[u8]) -> Result<(), ProtoFault>
    ensures { Checks result (fault_at depth schema bytes.now) }
{
    if depth == 0 {
        return Ok(());
    }
    let found = scan(alloc, bytes)?;
    let fields = fields(schema);
    let mut keys = BTreeSet::new(alloc);
    for i in 0..found.records.len() {
        let seen = &found.records[..i];
        check_record(alloc, depth - 1, fields, seen, &mut keys, &found.records[i])?;
    }
    finish(alloc, schema, fields, &found)
}

#[cycle(check)]
fn check_record<'a>(
    alloc: Global,
    depth: usize,
    fields: &[Field],
    seen: &[RecRef<'a>],
    keys: &mut Keys<'a>,
    next: &RecRef<'a>,
) -> Result<(), ProtoFault>
    requires { AreMet fields.now keys.old (map view_record seen.now) }
    ensures fault { Checks result
        (record_fault (fault_at depth) fields.now (map view_record seen.now)
        (view_record next.now)) }
    ensures keys { OnOk result
        (AreMet fields.now keys.new (map view_record seen.now ++ view_record next.now ∷ [])) }
{
    let Some(field) = find_field(fields, next.number) else {
        return Ok(());
    };
    if is_one_more(fields, seen, next.number, field.1) {
        return Err(ProtoFault::Repeated { field: next.number });
    }
    check_value(alloc, depth, next.number, field.2, next.value)?;
    meet(alloc, keys, field.1, next)
}

#[cycle(check)]
fn check_value(
    alloc: Global,
    depth: usize,
    number: u32,
    kind: FieldKind,
    value: ValueRef<'_>,
) -> Result<(), ProtoFault>
    ensures { Checks result (value_fault (fault_at depth) number kind (view_value value.entry)) }
{
    match look(number, kind, value)? {
        None => Ok(()),
        Some((schema, bytes)) => check(alloc, depth, schema, bytes),
    }
}

/// Returns the message that a value holds, if it holds one, or the fault of the value itself.
fn look<'a>(
    number: u32,
    kind: FieldKind,
    value: ValueRef<'a>,
) -> Result<Option<(Schema, &'a [u8])>, ProtoFault>
    ensures { seen_as result ≡ nested_in number kind (view_value value.entry) }
{
    match (kind, value) {
        (FieldKind::Number(most), ValueRef::Varint(n)) => {
            if n > most {
                return Err(ProtoFault::Range { field: number });
            }
            Ok(None)
        }
        (FieldKind::Fixed32, ValueRef::Fixed32(_)) => Ok(None),
        (FieldKind::Fixed64, ValueRef::Fixed64(_)) => Ok(None),
        (FieldKind::Text, ValueRef::Chunk(bytes)) => {
            if !is_string(bytes) {
                return Err(ProtoFault::NotUtf8 { field: number });
            }
            Ok(None)
        }
        (FieldKind::Message(schema), ValueRef::Chunk(bytes)) => Ok(Some((schema, bytes))),
        _ => Err(ProtoFault::WrongWire { field: number }),
    }
}

/// Returns the fault after the readable records.
fn finish(
    alloc: Global,
    schema: Schema,
    fields: &[Field],
    found: &Scanned<'_>,
) -> Result<(), ProtoFault>
    ensures { Checks result (end_fault schema fields.now (view_scan found.now)) }
{
    if let Some(fault) = found.fault {
        return Err(ProtoFault::Wire(fault));
    }
    if let Some(fault) = whole(alloc, schema, &found.records)? {
        return Err(fault);
    }
    if let Some(fault) = absent(fields, &found.records) {
        return Err(fault);
    }
    if let Some(fault) = no_choice(fields, &found.records) {
        return Err(fault);
    }
    Ok(())
}
