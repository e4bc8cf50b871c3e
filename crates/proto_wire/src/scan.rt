//! Reads records strictly: each sequence of bytes has its records, or one error.
ghost use Rattle.std.specs.Prelude.{◌≡◌, ◌<◌, map, IfOk};
ghost use Rattle.std.specs.Int.{w32, w64};
ghost use Rattle.proto_wire.specs.Wire.{byte_in, varint_in, fixed_in, chunk_in, value_in, record_in, scan_of, records_of};
ghost use Rattle.proto_wire.specs.Given.{Gives, IsAs, view_value, view_record, view_scan};

use crate::fault::WireFault;
use crate::record::{Rec, WireValue};
use bytes::Bytes;
use mesh_base::list::List;
use mesh_base::memory::Memory;
use std::alloc::Global;

/// The value of a record. A chunk is borrowed from the message.
#[derive(Clone, Copy)]
pub enum ValueRef<'a> {
    Varint(u64),
    Fixed64(u64),
    Fixed32(u32),
    /// A string, bytes or a nested message.
    Chunk(&'a [u8]),
}

/// A record, borrowed from the message.
#[derive(Clone, Copy)]
pub struct RecRef<'a> {
    pub number: u32,
    pub value: ValueRef<'a>,
}

/// The records before the first malformed one, and its error.
#[derive(Drop)]
pub struct Scanned<'a> {
    pub records: Vec<RecRef<'a>>,
    pub fault: Option<WireFault>,
}

fn byte(at: u64, bytes: &[u8]) -> Result<(u8, &[u8]), WireFault>
    ensures reads { IsAs (λ x. (x.0, x.1.now)) result (byte_in at bytes.now) }
    ensures small { IfOk result (λ x. x.0 < 256) }
{
    match bytes {
        [] => Err(WireFault::Truncated { at }),
        [first, rest @ ..] => Ok((*first, rest)),
    }
}

fn varint(at: u64, bytes: &[u8]) -> Result<(u64, &[u8]), WireFault>
    ensures { IsAs (λ x. (x.0, x.1.now)) result (varint_in 9 at bytes.now) }
{
    let mut value: u64 = 0;
    let mut scale: u64 = 1;
    let mut rest = bytes;
    for _ in 0..9u32 {
        let (first, after) = byte(at, rest)?;
        if first < 128 {
            return Ok((value + scale * first as u64, after));
        }
        value += scale * (first as u64 - 128);
        scale *= 128;
        rest = after;
    }
    let (last, after) = byte(at, rest)?;
    if last < 2 {
        Ok((value + scale * last as u64, after))
    } else {
        Err(WireFault::LongVarint { at })
    }
}

fn fixed32(at: u64, bytes: &[u8]) -> Result<(u32, &[u8]), WireFault>
    ensures { IsAs (λ x. (x.0, x.1.now)) result (fixed_in w32 at bytes.now) }
{
    if bytes.len() < 4 {
        return Err(WireFault::Truncated { at });
    }
    let (front, rest) = bytes.split_at(4);
    let number = u32::from_le_bytes([front[0], front[1], front[2], front[3]]);
    Ok((number, rest))
}

fn fixed64(at: u64, bytes: &[u8]) -> Result<(u64, &[u8]), WireFault>
    ensures { IsAs (λ x. (x.0, x.1.now)) result (fixed_in w64 at bytes.now) }
{
    if bytes.len() < 8 {
        return Err(WireFault::Truncated { at });
    }
    let (front, rest) = bytes.split_at(8);
    let number = u64::from_le_bytes([
        front[0], front[1], front[2], front[3], front[4], front[5], front[6], front[7],
    ]);
    Ok((number, rest))
}

#[tactic(auto, unfolding(crate::specs::Wire::chunk_in))]
fn chunk(at: u64, bytes: &[u8]) -> Result<(&[u8], &[u8]), WireFault>
    ensures { IsAs (λ x. (x.0.now, x.1.now)) result (chunk_in at bytes.now) }
{
    let (len, rest) = varint(at, bytes)?;
    if (rest.len() as u64) < len {
        return Err(WireFault::Truncated { at });
    }
    Ok(rest.split_at(len as usize))
}

#[tactic(auto, unfolding(crate::specs::Wire::value_in))]
fn value(kind: u64, at: u64, bytes: &[u8]) -> Result<(ValueRef<'_>, &[u8]), WireFault>
    ensures { IsAs (λ x. (view_value x.0, x.1.now)) result (value_in kind at bytes.now) }
{
    if kind == 0 {
        let (number, rest) = varint(at, bytes)?;
        return Ok((ValueRef::Varint(number), rest));
    }
    if kind == 1 {
        let (number, rest) = fixed64(at, bytes)?;
        return Ok((ValueRef::Fixed64(number), rest));
    }
    if kind == 2 {
        let (text, rest) = chunk(at, bytes)?;
        return Ok((ValueRef::Chunk(text), rest));
    }
    if kind == 5 {
        let (number, rest) = fixed32(at, bytes)?;
        return Ok((ValueRef::Fixed32(number), rest));
    }
    Err(WireFault::BadTag { at })
}

#[tactic(auto, unfolding(crate::specs::Wire::record_in))]
fn record(at: u64, bytes: &[u8]) -> Result<(RecRef<'_>, &[u8]), WireFault>
    ensures { IsAs (λ x. (view_record x.0, x.1.now)) result (record_in at bytes.now) }
{
    let (tag, rest) = varint(at, bytes)?;
    if tag < 8 || tag / 8 > 536_870_911 {
        return Err(WireFault::BadTag { at });
    }
    let (value, rest) = value(tag % 8, at, rest)?;
    Ok((
        RecRef {
            number: (tag / 8) as u32,
            value,
        },
        rest,
    ))
}

/// Returns the records before the first malformed one, and its error. No bytes are copied.
pub fn scan(alloc: Global, bytes: &[u8]) -> Result<Scanned<'_>, Memory>
    ensures { IfOk result (λ scanned. view_scan scanned ≡ scan_of bytes.now) }
{
    let mut records = Vec::new(alloc);
    let mut rest = bytes;
    for _ in 0..bytes.len() {
        if rest.is_empty() {
            break;
        }
        let at = bytes.len().saturating_sub(rest.len()) as u64;
        match record(at, rest) {
            Err(fault) => {
                return Ok(Scanned {
                    records,
                    fault: Some(fault),
                });
            }
            Ok((found, after)) => {
                records.push(found)?;
                rest = after;
            }
        }
    }
    Ok(Scanned {
        records,
        fault: None,
    })
}

impl RecRef<'_> {
    /// Copies the record.
    pub fn to_rec(&self, alloc: Global) -> Result<Rec, Memory>
        ensures { IfOk result (λ r. r ≡ view_record self.now) }
    {
        let value = match self.value {
            ValueRef::Varint(number) => WireValue::Varint(number),
            ValueRef::Fixed64(number) => WireValue::Fixed64(number),
            ValueRef::Fixed32(number) => WireValue::Fixed32(number),
            ValueRef::Chunk(bytes) => WireValue::Chunk(Bytes::copy_from_slice(alloc, bytes)?),
        };
        Ok(Rec {
            number: self.number,
            value,
        })
    }
}

fn to_recs(alloc: Global, records: &[RecRef<'_>]) -> Result<List<Rec>, Memory>
    ensures { IfOk result (λ rs. rs ≡ map view_record records.now) }
{
    let mut all = Vec::with_capacity(alloc, records.len())?;
    for record in records {
        all.push(record.to_rec(alloc)?)?;
    }
    Ok(List::from_vec(all))
}

/// Returns the records of a message, or its first error. If there is one, no bytes are copied.
pub fn records(alloc: Global, bytes: &[u8]) -> Result<List<Rec>, WireFault>
    ensures { Gives result (records_of bytes.now) }
{
    let scanned = scan(alloc, bytes)?;
    match scanned.fault {
        Some(fault) => Err(fault),
        None => Ok(to_recs(alloc, &scanned.records)?),
    }
}
