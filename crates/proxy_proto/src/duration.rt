//! Durations: whole seconds, and the remaining nanoseconds.
ghost use Rattle.std.specs.Prelude.{◌≡◌, ◌++◌, map, IfOk, OnOk};
ghost use Rattle.proto_wire.specs.Given.{view_record};
ghost use Rattle.proto_wire.specs.Wire.{spelling};
ghost use Rattle.proxy_proto.specs.FieldRecords.{optional_field};
ghost use Rattle.proxy_proto.specs.LookUps.{nanoseconds_in, optional_in};
ghost use Rattle.proxy_proto.specs.ProfileReading.{duration_in};
ghost use Rattle.proxy_proto.specs.Profiles.{duration_records};

use crate::fields::put_number_field;
use crate::look_up::{body, number_in, records_in, value_at};
use mesh_base::memory::Memory;
use proto_wire::front::FrontBytes;
use proto_wire::scan::RecRef;
use proto_wire::writing::put_head;
use std::alloc::Global;

/// Nanoseconds per second.
const SECOND: u64 = 1_000_000_000;

#[tactic(auto, using(proto_wire::proofs::Spellings::spellings), unfolding(crate::specs::Profiles::duration_records))]
fn put_nanoseconds(out: &mut FrontBytes, nanoseconds: u64) -> Result<(), Memory>
    ensures { OnOk result (out.new ≡ spelling (duration_records nanoseconds) ++ out.old) }
{
    put_number_field(out, 2, nanoseconds % SECOND)?;
    put_number_field(out, 1, nanoseconds / SECOND)
}

/// Writes a duration in nanoseconds, if it is present.
#[tactic(auto, using(proto_wire::proofs::Spellings::spellings))]
pub fn put_duration(out: &mut FrontBytes, field: u32, duration: Option<u64>) -> Result<(), Memory>
    ensures { OnOk result
        (out.new ≡ spelling (optional_field field duration_records duration) ++ out.old) }
{
    let Some(nanoseconds) = duration else {
        return Ok(());
    };
    let end = out.len();
    put_nanoseconds(out, nanoseconds)?;
    put_head(out, field, end)
}

/// Returns a duration of any length, in nanoseconds.
pub fn nanoseconds_in(records: &[RecRef<'_>]) -> u128
    ensures { result ≡ nanoseconds_in (map view_record records.now) }
{
    number_in(records, 1) as u128 * SECOND as u128 + number_in(records, 2) as u128
}

#[tactic(auto, unfolding(crate::specs::ProfileReading::duration_in))]
fn duration_in(records: &[RecRef<'_>]) -> u64
    ensures { result ≡ duration_in (map view_record records.now) }
{
    let whole = nanoseconds_in(records);
    if whole < 1 << 63 { whole as u64 } else { 0 }
}

/// Reads the duration in a field, in nanoseconds.
pub fn read_duration(
    alloc: Global,
    records: &[RecRef<'_>],
    number: u32,
) -> Result<Option<u64>, Memory>
    ensures { IfOk result
        (λ duration. duration ≡ optional_in number duration_in (map view_record records.now)) }
{
    let Some(value) = value_at(records, number) else {
        return Ok(None);
    };
    let duration = records_in(alloc, body(value))?;
    Ok(Some(duration_in(&duration)))
}
