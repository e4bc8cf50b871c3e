//! Reading request matches.
ghost use Rattle.std.specs.Prelude.{◌≡◌, map, IfOk};
ghost use Rattle.proto_wire.specs.Given.{view_record};
ghost use Rattle.proxy_proto.specs.LookUps.{each_in};
ghost use Rattle.proxy_proto.specs.ProfileReading.{request_match_from, request_match_in};

use crate::look_up::{body, chunk_in, inside, is_there, records_in, text_in};
use mesh_base::boxed::Boxed;
use mesh_base::list::List;
use mesh_base::memory::Memory;
use mesh_base::text::Text;
use proto_wire::scan::RecRef;
use std::alloc::Global;
use view_types::profile::ReqMatch;

/// Reads a match in which matches nest at most this deep.
#[cycle(read_request)]
#[tactic(auto, unfolding(crate::specs::ProfileReading::request_match_in))]
pub fn read_request_match(alloc: Global, depth: usize, bytes: &[u8]) -> Result<ReqMatch, Memory>
    ensures { IfOk result (λ m. m ≡ request_match_in depth bytes.now) }
{
    if depth == 0 {
        return Ok(ReqMatch::Method(Text::from_str(alloc, "")?));
    }
    let records = records_in(alloc, bytes)?;
    choose(alloc, depth - 1, &records)
}

/// Reads the member of the choice that is present.
#[cycle(read_request)]
fn choose(alloc: Global, depth: usize, records: &[RecRef<'_>]) -> Result<ReqMatch, Memory>
    ensures { IfOk result
        (λ m. m ≡ request_match_from (request_match_in depth) (map view_record records.now)) }
{
    if is_there(records, 1) {
        let seq = inside(alloc, records, 1)?;
        return Ok(ReqMatch::All(read_parts(alloc, depth, &seq)?));
    }
    if is_there(records, 2) {
        let seq = inside(alloc, records, 2)?;
        return Ok(ReqMatch::Any(read_parts(alloc, depth, &seq)?));
    }
    if is_there(records, 3) {
        let part = read_request_match(alloc, depth, chunk_in(records, 3))?;
        return Ok(ReqMatch::Not(Boxed::new(alloc, part)?));
    }
    if is_there(records, 4) {
        let path = inside(alloc, records, 4)?;
        return Ok(ReqMatch::Path(text_in(alloc, &path, 1)?));
    }
    let method = inside(alloc, records, 5)?;
    Ok(ReqMatch::Method(text_in(alloc, &method, 1)?))
}

/// Reads a list of matches.
#[cycle(read_request)]
fn read_parts(alloc: Global, depth: usize, records: &[RecRef<'_>]) -> Result<List<ReqMatch>, Memory>
    ensures { IfOk result
        (λ parts. parts ≡ each_in 1 (request_match_in depth) (map view_record records.now)) }
{
    let mut parts = List::new(alloc);
    for record in records {
        if record.number == 1 {
            parts.add(read_request_match(alloc, depth, body(record.value))?)?;
        }
    }
    Ok(parts)
}
