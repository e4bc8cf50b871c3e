//! Reading response matches.
ghost use Rattle.std.specs.Prelude.{◌≡◌, map, IfOk};
ghost use Rattle.proto_wire.specs.Given.{view_record};
ghost use Rattle.proxy_proto.specs.LookUps.{each_in};
ghost use Rattle.proxy_proto.specs.ProfileReading.{response_match_from, response_match_in};

use crate::look_up::{body, chunk_in, inside, is_there, records_in, u16_in};
use mesh_base::boxed::Boxed;
use mesh_base::list::List;
use mesh_base::memory::Memory;
use proto_wire::scan::RecRef;
use std::alloc::Global;
use view_types::profile::RespMatch;

/// Reads a match in which matches nest at most this deep.
#[cycle(read_response)]
#[tactic(auto, unfolding(crate::specs::ProfileReading::response_match_in))]
pub fn read_response_match(alloc: Global, depth: usize, bytes: &[u8]) -> Result<RespMatch, Memory>
    ensures { IfOk result (λ m. m ≡ response_match_in depth bytes.now) }
{
    if depth == 0 {
        return Ok(RespMatch::Status(0, 0));
    }
    let records = records_in(alloc, bytes)?;
    choose(alloc, depth - 1, &records)
}

/// Reads the member of the choice that is present.
#[cycle(read_response)]
fn choose(alloc: Global, depth: usize, records: &[RecRef<'_>]) -> Result<RespMatch, Memory>
    ensures { IfOk result
        (λ m. m ≡ response_match_from (response_match_in depth) (map view_record records.now)) }
{
    if is_there(records, 1) {
        let seq = inside(alloc, records, 1)?;
        return Ok(RespMatch::All(read_parts(alloc, depth, &seq)?));
    }
    if is_there(records, 2) {
        let seq = inside(alloc, records, 2)?;
        return Ok(RespMatch::Any(read_parts(alloc, depth, &seq)?));
    }
    if is_there(records, 3) {
        let part = read_response_match(alloc, depth, chunk_in(records, 3))?;
        return Ok(RespMatch::Not(Boxed::new(alloc, part)?));
    }
    let range = inside(alloc, records, 4)?;
    Ok(RespMatch::Status(u16_in(&range, 1), u16_in(&range, 2)))
}

/// Reads a list of matches.
#[cycle(read_response)]
fn read_parts(
    alloc: Global,
    depth: usize,
    records: &[RecRef<'_>],
) -> Result<List<RespMatch>, Memory>
    ensures { IfOk result
        (λ parts. parts ≡ each_in 1 (response_match_in depth) (map view_record records.now)) }
{
    let mut parts = List::new(alloc);
    for record in records {
        if record.number == 1 {
            parts.add(read_response_match(alloc, depth, body(record.value))?)?;
        }
    }
    Ok(parts)
}
