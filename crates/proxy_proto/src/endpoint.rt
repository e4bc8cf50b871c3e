//! Endpoints as messages.
ghost use Rattle.std.specs.Prelude.{◌≡◌, ◌++◌, ◌/◌, ◌%◌, ◌^◌, OnOk};
ghost use Rattle.proto_wire.specs.Wire.{spelled, spelling};
ghost use Rattle.proxy_proto.specs.FieldRecords.{chunk, optional_field, number_field};
ghost use Rattle.proxy_proto.specs.Endpoints.{half_records, ip_records, address_records, label_records, identity_records, h2_field, hint_records, hint_field, row_records};

use crate::fields::{put_fixed64_field, put_number_field, put_text_field};
use crate::part::{Part, write_each, write_in};
use mesh_base::memory::Memory;
use mesh_base::text::Text;
use net_cidr::ip::Ip;
use proto_wire::front::FrontBytes;
use proto_wire::writing::{put_chunk, put_fixed32, put_head};
use view_types::endpoint::EndpointRow;

/// The weight of the high half of an IPv6 address, which is sent as two 64-bit numbers.
pub const HALF: u128 = 1 << 64;

#[tactic(auto, using(proto_wire::proofs::Spellings::spellings))]
fn put_halves(out: &mut FrontBytes, number: u128) -> Result<(), Memory>
    ensures { OnOk result
        (out.new ≡ spelling (half_records (number / 2 ^ 64) (number % 2 ^ 64)) ++ out.old) }
{
    put_fixed64_field(out, 2, (number % HALF) as u64)?;
    put_fixed64_field(out, 1, (number / HALF) as u64)
}

fn put_v6(out: &mut FrontBytes, number: u128) -> Result<(), Memory>
    ensures { OnOk result
        (out.new
        ≡ spelled (chunk 2 (spelling (half_records (number / 2 ^ 64) (number % 2 ^ 64))))
        ++ out.old) }
{
    let end = out.len();
    put_halves(out, number)?;
    put_head(out, 2, end)
}

impl Part for Ip {
    ghost records = { ip_records };

    #[tactic(auto, using(proto_wire::proofs::Spellings::spellings), unfolding(crate::specs::Endpoints::ip_records))]
    fn write(&self, out: &mut FrontBytes) -> Result<(), Memory> {
        match *self {
            Ip::V4(number) => put_fixed32(out, 1, number),
            Ip::V6(number) => put_v6(out, number),
        }
    }
}

impl Part for (Ip, u16) {
    ghost records = { λ pair. address_records pair.0 pair.1 };

    #[tactic(auto, using(proto_wire::proofs::Spellings::spellings), unfolding(crate::specs::Endpoints::address_records))]
    fn write(&self, out: &mut FrontBytes) -> Result<(), Memory> {
        put_number_field(out, 2, self.1 as u64)?;
        write_in(out, 1, &self.0)
    }
}

impl Part for (Text, Text) {
    ghost records = { label_records };

    #[tactic(auto, using(proto_wire::proofs::Spellings::spellings), unfolding(crate::specs::Endpoints::label_records))]
    fn write(&self, out: &mut FrontBytes) -> Result<(), Memory> {
        put_chunk(out, 2, self.1.as_bytes())?;
        put_chunk(out, 1, self.0.as_bytes())
    }
}

/// Whether an endpoint accepts HTTP/2, and the port at which its proxy accepts tunnelled
/// connections.
#[derive(Clone, Copy)]
pub struct Hint {
    pub h2: bool,
    pub tunnel: Option<u16>,
}

impl Part for Hint {
    ghost records = { λ hint. hint_records hint.h2 hint.tunnel };

    #[tactic(auto, using(proto_wire::proofs::Spellings::spellings), unfolding(crate::specs::Endpoints::hint_records))]
    fn write(&self, out: &mut FrontBytes) -> Result<(), Memory> {
        put_tunnel(out, self.tunnel)?;
        put_h2(out, self.h2)
    }
}

#[tactic(auto, using(proto_wire::proofs::Spellings::spellings))]
fn put_h2(out: &mut FrontBytes, h2: bool) -> Result<(), Memory>
    ensures { OnOk result (out.new ≡ spelling (h2_field h2) ++ out.old) }
{
    if !h2 {
        return Ok(());
    }
    put_chunk(out, 1, &[])
}

#[tactic(auto, using(proto_wire::proofs::Spellings::spellings))]
fn put_tunnel(out: &mut FrontBytes, tunnel: Option<u16>) -> Result<(), Memory>
    ensures { OnOk result
        (out.new ≡ spelling (optional_field 2 (number_field 1) tunnel) ++ out.old) }
{
    let Some(port) = tunnel else {
        return Ok(());
    };
    let end = out.len();
    put_number_field(out, 1, port as u64)?;
    put_head(out, 2, end)
}

/// Writes a hint, and nothing for one without contents.
#[tactic(auto, using(proto_wire::proofs::Spellings::spellings), unfolding(crate::specs::Endpoints::hint_field))]
fn put_hint(out: &mut FrontBytes, hint: Hint) -> Result<(), Memory>
    ensures { OnOk result (out.new ≡ spelling (hint_field hint.h2 hint.tunnel) ++ out.old) }
{
    if !hint.h2 && hint.tunnel.is_none() {
        return Ok(());
    }
    write_in(out, 6, &hint)
}

#[tactic(auto, using(proto_wire::proofs::Spellings::spellings), unfolding(crate::specs::Endpoints::identity_records))]
fn put_name(out: &mut FrontBytes, name: &Text) -> Result<(), Memory>
    ensures { OnOk result (out.new ≡ spelling (identity_records name.now) ++ out.old) }
{
    let end = out.len();
    put_text_field(out, 1, name.as_bytes())?;
    put_head(out, 1, end)
}

#[tactic(auto, using(proto_wire::proofs::Spellings::spellings))]
fn put_identity(out: &mut FrontBytes, identity: &Option<Text>) -> Result<(), Memory>
    ensures { OnOk result
        (out.new ≡ spelling (optional_field 5 identity_records identity.now) ++ out.old) }
{
    let Some(name) = identity else {
        return Ok(());
    };
    let end = out.len();
    put_name(out, name)?;
    put_head(out, 5, end)
}

impl Part for EndpointRow {
    ghost records = { row_records };

    #[tactic(auto, using(proto_wire::proofs::Spellings::spellings), unfolding(crate::specs::Endpoints::row_records))]
    fn write(&self, out: &mut FrontBytes) -> Result<(), Memory> {
        let address = (self.ip, self.port);
        let hint = Hint {
            h2: self.h2,
            tunnel: self.tunnel,
        };
        put_hint(out, hint)?;
        put_identity(out, &self.identity)?;
        write_each(out, 4, self.labels.entries())?;
        put_number_field(out, 3, self.weight as u64)?;
        write_in(out, 1, &address)
    }
}
