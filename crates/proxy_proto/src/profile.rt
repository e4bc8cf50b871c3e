//! Profiles as messages.
ghost use Rattle.std.specs.Prelude.{◌≡◌, ◌++◌, codes, OnOk};
ghost use Rattle.proto_wire.specs.Wire.{spelled, spelling};
ghost use Rattle.proxy_proto.specs.FieldRecords.{chunk, optional_field};
ghost use Rattle.proxy_proto.specs.Endpoints.{label_records, row_records};
ghost use Rattle.proxy_proto.specs.Profiles.{class_records, route_records, override_records, profile_records};

use crate::duration::put_duration;
use crate::fields::{put_bool_field, put_number_field, put_text_field};
use crate::part::{Part, write_each, write_in};
use mesh_base::boxed::Boxed;
use mesh_base::memory::Memory;
use mesh_base::text::Text;
use proto_wire::front::FrontBytes;
use proto_wire::writing::{put_chunk, put_head};
use view_types::endpoint::EndpointRow;
use view_types::outbound::ProfileView;
use view_types::profile::{Override, ProfileRoute, RespClass};

impl Part for RespClass {
    ghost records = { class_records };

    #[tactic(auto, using(proto_wire::proofs::Spellings::spellings), unfolding(crate::specs::Profiles::class_records))]
    fn write(&self, out: &mut FrontBytes) -> Result<(), Memory> {
        put_bool_field(out, 2, self.failure)?;
        write_in(out, 1, &self.condition)
    }
}

#[tactic(auto, using(proto_wire::proofs::Spellings::spellings), unfolding(crate::specs::Endpoints::label_records))]
fn put_route_label(out: &mut FrontBytes, name: &Text) -> Result<(), Memory>
    ensures { OnOk result
        (out.new ≡ spelling (label_records (codes "route", name.now)) ++ out.old) }
{
    put_chunk(out, 2, name.as_bytes())?;
    put_chunk(out, 1, b"route")
}

/// Writes the label that names a route.
fn put_route_name(out: &mut FrontBytes, name: &Text) -> Result<(), Memory>
    ensures { OnOk result
        (out.new
        ≡ spelled (chunk 3 (spelling (label_records (codes "route", name.now)))) ++ out.old) }
{
    let end = out.len();
    put_route_label(out, name)?;
    put_head(out, 3, end)
}

impl Part for ProfileRoute {
    ghost records = { route_records };

    #[tactic(auto, using(proto_wire::proofs::Spellings::spellings), unfolding(crate::specs::Profiles::route_records))]
    fn write(&self, out: &mut FrontBytes) -> Result<(), Memory> {
        put_duration(out, 5, self.timeout)?;
        put_bool_field(out, 4, self.retryable)?;
        put_route_name(out, &self.name)?;
        write_each(out, 2, self.classes.as_slice())?;
        write_in(out, 1, &self.condition)
    }
}

impl Part for Override {
    ghost records = { override_records };

    #[tactic(auto, using(proto_wire::proofs::Spellings::spellings), unfolding(crate::specs::Profiles::override_records))]
    fn write(&self, out: &mut FrontBytes) -> Result<(), Memory> {
        put_number_field(out, 2, self.weight as u64)?;
        put_text_field(out, 1, self.authority.as_bytes())
    }
}

#[tactic(auto, using(proto_wire::proofs::Spellings::spellings))]
fn put_endpoint(out: &mut FrontBytes, endpoint: &Option<Boxed<EndpointRow>>) -> Result<(), Memory>
    ensures { OnOk result
        (out.new ≡ spelling (optional_field 6 row_records endpoint.now) ++ out.old) }
{
    match endpoint {
        Some(row) => write_in(out, 6, row.get()),
        None => Ok(()),
    }
}

impl Part for ProfileView {
    ghost records = { profile_records };

    #[tactic(auto, using(proto_wire::proofs::Spellings::spellings), unfolding(crate::specs::Profiles::profile_records))]
    fn write(&self, out: &mut FrontBytes) -> Result<(), Memory> {
        put_endpoint(out, &self.endpoint)?;
        put_text_field(out, 5, self.fqn.as_bytes())?;
        put_bool_field(out, 4, self.opaque)?;
        write_each(out, 3, self.overrides.as_slice())?;
        write_each(out, 1, self.routes.as_slice())
    }
}
