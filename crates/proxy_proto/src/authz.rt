//! Authorizations as messages.
ghost use Rattle.std.specs.Prelude.{◌≡◌, ◌++◌, OnOk};
ghost use Rattle.proto_wire.specs.Wire.{spelling};
ghost use Rattle.proxy_proto.specs.Authorizations.{net_records, block_records, clients_records, authn_records, authz_key_records, authz_records};

use crate::fields::{put_bool_field, put_number_field, put_text_field, put_texts};
use crate::part::{Part, write_each, write_in};
use mesh_base::list::List;
use mesh_base::memory::Memory;
use mesh_base::text::Text;
use net_cidr::block::Block;
use net_cidr::net::Net;
use proto_wire::front::FrontBytes;
use proto_wire::writing::{put_chunk, put_head};
use view_types::server_view::{Authn, AuthzKind, AuthzRow};

impl Part for Net {
    ghost records = { net_records };

    #[tactic(auto, using(proto_wire::proofs::Spellings::spellings), unfolding(crate::specs::Authorizations::net_records))]
    fn write(&self, out: &mut FrontBytes) -> Result<(), Memory> {
        put_number_field(out, 2, self.bits as u64)?;
        write_in(out, 1, &self.base)
    }
}

impl Part for Block {
    ghost records = { block_records };

    #[tactic(auto, using(proto_wire::proofs::Spellings::spellings), unfolding(crate::specs::Authorizations::block_records))]
    fn write(&self, out: &mut FrontBytes) -> Result<(), Memory> {
        write_each(out, 2, self.except.as_slice())?;
        write_in(out, 1, &self.net)
    }
}

#[tactic(auto, using(proto_wire::proofs::Spellings::spellings), unfolding(crate::specs::Authorizations::clients_records))]
fn put_clients(
    out: &mut FrontBytes,
    ids: &List<Text>,
    suffixes: &List<Text>,
    everyone: bool,
) -> Result<(), Memory>
    ensures { OnOk result
        (out.new ≡ spelling (clients_records ids.now suffixes.now everyone) ++ out.old) }
{
    put_bool_field(out, 3, everyone)?;
    put_texts(out, 2, suffixes.as_slice())?;
    put_texts(out, 1, ids.as_slice())
}

impl Part for Authn {
    ghost records = { authn_records };

    #[tactic(auto, using(proto_wire::proofs::Spellings::spellings), unfolding(crate::specs::Authorizations::authn_records))]
    fn write(&self, out: &mut FrontBytes) -> Result<(), Memory> {
        match self {
            Authn::Anyone => put_chunk(out, 1, &[]),
            Authn::AnyTls => put_chunk(out, 2, &[]),
            Authn::Clients {
                ids,
                suffixes,
                everyone,
            } => {
                let end = out.len();
                put_clients(out, ids, suffixes, *everyone)?;
                put_head(out, 3, end)
            }
        }
    }
}

impl Part for AuthzRow {
    ghost records = { authz_records };

    #[tactic(auto, using(proto_wire::proofs::Spellings::spellings), unfolding(crate::specs::Authorizations::authz_records))]
    fn write(&self, out: &mut FrontBytes) -> Result<(), Memory> {
        write_in(out, 4, &self.authn)?;
        write_each(out, 3, self.blocks.as_slice())?;
        put_text_field(out, 2, self.name.as_bytes())?;
        put_number_field(out, 1, self.kind.number() as u64)
    }
}

impl Part for (AuthzKind, Text) {
    ghost records = { authz_key_records };

    #[tactic(auto, using(proto_wire::proofs::Spellings::spellings), unfolding(crate::specs::Authorizations::authz_key_records))]
    fn write(&self, out: &mut FrontBytes) -> Result<(), Memory> {
        put_text_field(out, 2, self.1.as_bytes())?;
        put_number_field(out, 1, self.0.number() as u64)
    }
}
