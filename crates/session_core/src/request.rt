// Reads the request of a link.
ghost use Rattle.std.specs.Prelude.{◌≡◌, ◌++◌, List, ℕ, None, Ok};
ghost use Rattle.proto_wire.specs.Frames.{head_of};
ghost use Rattle.proxy_proto.specs.RequestReading.{request_of};
ghost use Rattle.session_core.specs.Requests.{GivesPhase};
ghost use Rattle.session_core.specs.Phases.{asked_before, asked_in};

use crate::session::SessionFault;
use proto_wire::fault::WireFault;
use proto_wire::unframer::Unframer;
use proxy_proto::fault::ProtoFault;
use proxy_proto::request::read_request;
use std::alloc::Global;
use view_types::config::Config;
use view_types::query::{Method, Query};

// Reads the request of a complete message, which these bytes follow.
fn read_before(
    alloc: Global,
    config: &Config,
    method: Method,
    message: &[u8],
    after: &[u8],
) -> Result<Option<Query>, SessionFault>
    ensures { GivesPhase result
        (asked_before (request_of config.now method message.now) after.now) }
{
    match read_request(alloc, method, message, config) {
        Ok(query) => {
            if after.is_empty() {
                Ok(Some(query))
            } else {
                Err(SessionFault::Extra)
            }
        }
        Err(ProtoFault::Memory) => Err(SessionFault::Memory),
        Err(fault) => Err(SessionFault::Proto(fault)),
    }
}

/// Processes a piece of a request frame. Returns None while the frame is not complete.
pub fn read_piece(
    alloc: Global,
    config: &Config,
    method: Method,
    frames: &mut Unframer,
    piece: &[u8],
) -> Result<Option<Query>, SessionFault>
    ensures gives { (rest : List ℕ) → frames.old.part ≡ Ok rest
        → GivesPhase result (asked_in config.now method
        (head_of frames.old.limit (rest ++ piece.now))) }
    ensures part { (rest : List ℕ) → frames.old.part ≡ Ok rest → result ≡ Ok None
        → frames.new.part ≡ Ok (rest ++ piece.now) }
    ensures limit { frames.new.limit ≡ frames.old.limit }
{
    match frames.take(piece) {
        Ok(Some((message, after))) => {
            read_before(alloc, config, method, message.as_slice(), after)
        }
        Ok(None) => Ok(None),
        Err(WireFault::Memory) => Err(SessionFault::Memory),
        Err(fault) => Err(SessionFault::Proto(ProtoFault::Wire(fault))),
    }
}
