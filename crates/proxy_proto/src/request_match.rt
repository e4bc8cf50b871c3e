//! Request matches as messages.
ghost use Rattle.std.specs.Prelude.{◌≡◌, ◌++◌, [], ◌∷◌, map, OnOk};
ghost use Rattle.proto_wire.specs.Wire.{spelling};
ghost use Rattle.proxy_proto.specs.FieldRecords.{chunk, text_field};
ghost use Rattle.proxy_proto.specs.Profiles.{seq_records, request_match_records};

use crate::fields::put_text_field;
use crate::part::Part;
use mesh_base::memory::Memory;
use proto_wire::front::FrontBytes;
use proto_wire::writing::put_head;
use view_types::profile::ReqMatch;

/// Writes a message of one string in a field.
#[tactic(auto, using(proto_wire::proofs::Spellings::spellings))]
fn put_text_message(out: &mut FrontBytes, field: u32, text: &[u8]) -> Result<(), Memory>
    ensures { OnOk result
        (out.new ≡ spelling (chunk field (spelling (text_field 1 text.now)) ∷ []) ++ out.old) }
{
    let end = out.len();
    put_text_field(out, 1, text)?;
    put_head(out, field, end)
}

impl Part for ReqMatch {
    ghost records = { request_match_records };

    #[cycle(write_request)]
    #[tactic(auto, using(proto_wire::proofs::Spellings::spellings))]
    fn write(&self, out: &mut FrontBytes) -> Result<(), Memory> {
        let end = out.len();
        match self {
            ReqMatch::All(parts) => {
                write_request_parts(out, parts.as_slice())?;
                put_head(out, 1, end)
            }
            ReqMatch::Any(parts) => {
                write_request_parts(out, parts.as_slice())?;
                put_head(out, 2, end)
            }
            ReqMatch::Not(part) => {
                part.get().write(out)?;
                put_head(out, 3, end)
            }
            ReqMatch::Path(regex) => put_text_message(out, 4, regex.as_bytes()),
            ReqMatch::Method(name) => put_text_message(out, 5, name.as_bytes()),
        }
    }
}

#[cycle(write_request)]
#[tactic(auto, using(proto_wire::proofs::Spellings::spellings))]
fn write_request_parts(out: &mut FrontBytes, parts: &[ReqMatch]) -> Result<(), Memory>
    ensures { OnOk result
        (out.new ≡ spelling (seq_records (map request_match_records parts.now)) ++ out.old) }
{
    for at in (0..parts.len()).rev() {
        let end = out.len();
        parts[at].write(out)?;
        put_head(out, 1, end)?;
    }
    Ok(())
}
