//! Reading nested messages.
ghost use Rattle.std.specs.Prelude.{◌≡◌, List, map, IfOk};
ghost use Rattle.proto_wire.specs.declared.record.Rec.{Rec};
ghost use Rattle.proto_wire.specs.Given.{view_record};
ghost use Rattle.proxy_proto.specs.LookUps.{records_in, inside, each_message};

use crate::look_up::{body, inside, records_in};
use mesh_base::list::List;
use mesh_base::memory::Memory;
use proto_wire::scan::RecRef;
use std::alloc::Global;

/// A type that can be read from the records of a message. The records are checked before; a value
/// is defined for others, too.
pub trait FromRecords: Sized + Drop {
    ghost said: { List Rec → Self };

    fn read(alloc: Global, records: &[RecRef<'_>]) -> Result<Self, Memory>
        ensures { IfOk result (λ x. x ≡ said (map view_record records.now)) };
}

/// Reads a message from its bytes.
pub fn read_bytes<T: FromRecords>(alloc: Global, bytes: &[u8]) -> Result<T, Memory>
    ensures { IfOk result (λ x. x ≡ T.said (records_in bytes.now)) }
{
    let records = records_in(alloc, bytes)?;
    T::read(alloc, &records)
}

/// Reads the message in a field.
pub fn read_in<T: FromRecords>(
    alloc: Global,
    records: &[RecRef<'_>],
    number: u32,
) -> Result<T, Memory>
    ensures { IfOk result (λ x. x ≡ T.said (inside number (map view_record records.now))) }
{
    let records = inside(alloc, records, number)?;
    T::read(alloc, &records)
}

/// Reads the messages in a repeated field.
pub fn read_each<T: FromRecords>(
    alloc: Global,
    records: &[RecRef<'_>],
    number: u32,
) -> Result<List<T>, Memory>
    ensures { IfOk result (λ xs. xs ≡ each_message number T.said (map view_record records.now)) }
{
    let mut parts = List::new(alloc);
    for record in records {
        if record.number == number {
            parts.add(read_bytes(alloc, body(record.value))?)?;
        }
    }
    Ok(parts)
}
