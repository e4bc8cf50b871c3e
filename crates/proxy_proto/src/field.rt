//! Checks of the fields among a message's records.
ghost use Rattle.std.specs.Prelude.{◌≡◌, map};
ghost use Rattle.proto_wire.specs.Given.{view_record};
ghost use Rattle.proxy_proto.specs.Faults.{field_at, is_required, has_choice, has_choices, is_repeated, absent_fault, choice_fault};

use crate::fault::ProtoFault;
use crate::look_up::is_there;
use crate::table::{Field, Label};
use proto_wire::scan::RecRef;

pub fn find_field(fields: &[Field], number: u32) -> Option<Field>
    ensures { result ≡ field_at number fields.now }
{
    for field in fields {
        if field.0 == number {
            return Some(*field);
        }
    }
    None
}

fn has_member(fields: &[Field], records: &[RecRef<'_>]) -> bool
    ensures { result ≡ has_choice fields.now (map view_record records.now) }
{
    for field in fields {
        if matches!(field.1, Label::Choice) && is_there(records, field.0) {
            return true;
        }
    }
    false
}

/// Whether one more record with this field number would be too many. It goes over the earlier
/// records only if their number is limited, so at most twice for each field of the message.
pub fn is_one_more(fields: &[Field], seen: &[RecRef<'_>], number: u32, label: Label) -> bool
    ensures { result ≡ is_repeated fields.now (map view_record seen.now) number label }
{
    match label {
        Label::Single => is_there(seen, number),
        Label::Required => is_there(seen, number),
        Label::Choice => has_member(fields, seen),
        Label::Repeated => false,
        Label::Map => false,
    }
}

fn is_needed(label: Label) -> bool
    ensures { result ≡ is_required label }
{
    matches!(label, Label::Required)
}

/// Returns the fault of the first required field that is missing.
pub fn absent(fields: &[Field], records: &[RecRef<'_>]) -> Option<ProtoFault>
    ensures { result ≡ absent_fault fields.now (map view_record records.now) }
{
    for field in fields {
        if is_needed(field.1) && !is_there(records, field.0) {
            return Some(ProtoFault::Absent { field: field.0 });
        }
    }
    None
}

fn is_choosing(fields: &[Field]) -> bool
    ensures { result ≡ has_choices fields.now }
{
    for field in fields {
        if matches!(field.1, Label::Choice) {
            return true;
        }
    }
    false
}

/// Returns the fault of a choice without a member.
pub fn no_choice(fields: &[Field], records: &[RecRef<'_>]) -> Option<ProtoFault>
    ensures { result ≡ choice_fault fields.now (map view_record records.now) }
{
    if is_choosing(fields) && !has_member(fields, records) {
        return Some(ProtoFault::NoChoice);
    }
    None
}
