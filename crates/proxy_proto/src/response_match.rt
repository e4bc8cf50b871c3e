//! Response matches as messages.
ghost use Rattle.std.specs.Prelude.{◌≡◌, ◌++◌, map, OnOk};
ghost use Rattle.proto_wire.specs.Wire.{spelling};
ghost use Rattle.proxy_proto.specs.Profiles.{range_records, seq_records, response_match_records};

use crate::fields::put_number_field;
use crate::part::Part;
use mesh_base::memory::Memory;
use proto_wire::front::FrontBytes;
use proto_wire::writing::put_head;
use view_types::profile::RespMatch;

#[tactic(auto, using(proto_wire::proofs::Spellings::spellings))]
fn put_range(out: &mut FrontBytes, low: u16, high: u16) -> Result<(), Memory>
    ensures { OnOk result (out.new ≡ spelling (range_records low high) ++ out.old) }
{
    put_number_field(out, 2, high as u64)?;
    put_number_field(out, 1, low as u64)
}

impl Part for RespMatch {
    ghost records = { response_match_records };

    #[cycle(write_response)]
    #[tactic(auto, using(proto_wire::proofs::Spellings::spellings))]
    fn write(&self, out: &mut FrontBytes) -> Result<(), Memory> {
        let end = out.len();
        match self {
            RespMatch::All(parts) => {
                write_response_parts(out, parts.as_slice())?;
                put_head(out, 1, end)
            }
            RespMatch::Any(parts) => {
                write_response_parts(out, parts.as_slice())?;
                put_head(out, 2, end)
            }
            RespMatch::Not(part) => {
                part.get().write(out)?;
                put_head(out, 3, end)
            }
            RespMatch::Status(low, high) => {
                put_range(out, *low, *high)?;
                put_head(out, 4, end)
            }
        }
    }
}

#[cycle(write_response)]
#[tactic(auto, using(proto_wire::proofs::Spellings::spellings))]
fn write_response_parts(out: &mut FrontBytes, parts: &[RespMatch]) -> Result<(), Memory>
    ensures { OnOk result
        (out.new ≡ spelling (seq_records (map response_match_records parts.now)) ++ out.old) }
{
    for at in (0..parts.len()).rev() {
        let end = out.len();
        parts[at].write(out)?;
        put_head(out, 1, end)?;
    }
    Ok(())
}
