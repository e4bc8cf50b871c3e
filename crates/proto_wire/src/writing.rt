//! Writes records in the canonical encoding. A message is written from its last record to its
//! first. Its length is known when its head is written, and no message is copied.
ghost use Rattle.std.specs.Prelude.{◌≡◌, ◌+◌, ◌*◌, ◌^◌, ◌<◌, ◌++◌, ℕ, List, length, OnOk};
ghost use Rattle.proto_wire.specs.Wire.{spelled, varint, varint_up_to};
ghost use Rattle.proto_wire.specs.declared.record.WireValue.TheVariants.{Varint, Fixed64, Fixed32, Chunk};

use crate::front::FrontBytes;
use mesh_base::memory::Memory;

/// Writes the shortest varint of a number, with at most `more` bytes before its last one.
#[tactic(auto, using(crate::proofs::Varints::varints))]
fn put_varint_of(out: &mut FrontBytes, more: u32, number: u64) -> Result<(), Memory>
    requires { number < 2 * 128 ^ more }
    ensures { OnOk result (out.new ≡ varint_up_to more number ++ out.old) }
{
    if number < 128 {
        return out.put(&[number as u8]);
    }
    put_varint_of(out, more - 1, number / 128)?;
    out.put(&[(number % 128) as u8 + 128])
}

/// Writes the shortest varint of a number.
pub fn put_varint(out: &mut FrontBytes, number: u64) -> Result<(), Memory>
    ensures { OnOk result (out.new ≡ varint number ++ out.old) }
{
    put_varint_of(out, 9, number)
}

/// Writes the number of a field and its wire type.
fn put_tag(out: &mut FrontBytes, field: u32, wire_type: u64) -> Result<(), Memory>
    requires { wire_type < 8 }
    ensures { OnOk result (out.new ≡ varint (field * 8 + wire_type) ++ out.old) }
{
    put_varint(out, field as u64 * 8 + wire_type)
}

/// Writes a varint record.
#[tactic(auto, using(crate::proofs::Spellings::spellings), unfolding(crate::specs::Wire::spelled))]
pub fn put_number(out: &mut FrontBytes, field: u32, number: u64) -> Result<(), Memory>
    ensures { OnOk result
        (out.new ≡ spelled (record { number = field; value = Varint number }) ++ out.old) }
{
    put_varint(out, number)?;
    put_tag(out, field, 0)
}

/// Writes a record of eight bytes, the lowest first.
#[tactic(auto, using(crate::proofs::Spellings::spellings), unfolding(crate::specs::Wire::spelled))]
pub fn put_fixed64(out: &mut FrontBytes, field: u32, number: u64) -> Result<(), Memory>
    ensures { OnOk result
        (out.new ≡ spelled (record { number = field; value = Fixed64 number }) ++ out.old) }
{
    out.put(&number.to_le_bytes())?;
    put_tag(out, field, 1)
}

/// Writes a record of four bytes, the lowest first.
#[tactic(auto, using(crate::proofs::Spellings::spellings), unfolding(crate::specs::Wire::spelled))]
pub fn put_fixed32(out: &mut FrontBytes, field: u32, number: u32) -> Result<(), Memory>
    ensures { OnOk result
        (out.new ≡ spelled (record { number = field; value = Fixed32 number }) ++ out.old) }
{
    out.put(&number.to_le_bytes())?;
    put_tag(out, field, 5)
}

/// Writes a record of a string, bytes or a nested message.
#[tactic(auto, using(crate::proofs::Spellings::spellings), unfolding(crate::specs::Wire::spelled))]
pub fn put_chunk(out: &mut FrontBytes, field: u32, bytes: &[u8]) -> Result<(), Memory>
    ensures { OnOk result
        (out.new ≡ spelled (record { number = field; value = Chunk bytes.now }) ++ out.old) }
{
    out.put(bytes)?;
    put_varint(out, bytes.len() as u64)?;
    put_tag(out, field, 2)
}

/// Writes the head of a record for the message before the last `end` bytes.
pub fn put_head(out: &mut FrontBytes, field: u32, end: usize) -> Result<(), Memory>
    ensures { OnOk result
        ((body rest : List ℕ) → out.old ≡ body ++ rest → length rest ≡ end
        → out.new ≡ spelled (record { number = field; value = Chunk body }) ++ rest) }
{
    let len = out.len().saturating_sub(end);
    put_varint(out, len as u64)?;
    put_tag(out, field, 2)
}
