ghost use Rattle.std.specs.Prelude.{◌≡◌, ◌++◌, List, OnOk};
ghost use Rattle.proto_wire.specs.declared.record.Rec.{Rec};
ghost use Rattle.proto_wire.specs.Wire.{spelled, spelling};
ghost use Rattle.proxy_proto.specs.FieldRecords.{chunk, each_field};

use mesh_base::memory::Memory;
use proto_wire::front::FrontBytes;
use proto_wire::writing::put_head;

/// A type that is written as a nested message.
pub trait Part: Sized {
    /// The records that the value is written as.
    ghost records: { Self → List Rec };

    /// Writes the records from the last to the first, each before the bytes already written.
    fn write(&self, out: &mut FrontBytes) -> Result<(), Memory>
        ensures { OnOk result (out.new ≡ spelling (records self.now) ++ out.old) };
}

/// Writes a message in a field.
pub fn write_in<T: Part>(out: &mut FrontBytes, field: u32, part: &T) -> Result<(), Memory>
    ensures { OnOk result
        (out.new ≡ spelled (chunk field (spelling (T.records part.now))) ++ out.old) }
{
    let end = out.len();
    part.write(out)?;
    put_head(out, field, end)
}

/// Writes the messages of a repeated field.
#[tactic(auto, using(proto_wire::proofs::Spellings::spellings))]
pub fn write_each<T: Part>(out: &mut FrontBytes, field: u32, parts: &[T]) -> Result<(), Memory>
    ensures { OnOk result (out.new ≡ spelling (each_field field T.records parts.now) ++ out.old) }
{
    for at in (0..parts.len()).rev() {
        write_in(out, field, &parts[at])?;
    }
    Ok(())
}
