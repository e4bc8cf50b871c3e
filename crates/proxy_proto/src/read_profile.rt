//! Reading profiles.
ghost use Rattle.std.specs.Prelude.{◌≡◌, map, codes, IfOk};
ghost use Rattle.proto_wire.specs.Given.{view_record};
ghost use Rattle.proxy_proto.specs.EndpointReading.{label_in, row_in};
ghost use Rattle.proxy_proto.specs.LookUps.{each_message, optional_in};
ghost use Rattle.proxy_proto.specs.ProfileReading.{class_in, label_named, route_in, override_in, profile_in};

use crate::duration::read_duration;
use crate::from_records::{FromRecords, read_bytes, read_each};
use crate::look_up::{body, chunk_in, flag_in, text_in, u32_in, value_at};
use crate::read_request_match::read_request_match;
use crate::read_response_match::read_response_match;
use mesh_base::boxed::Boxed;
use mesh_base::memory::Memory;
use mesh_base::text::Text;
use proto_wire::scan::RecRef;
use std::alloc::Global;
use view_types::endpoint::EndpointRow;
use view_types::outbound::ProfileView;
use view_types::profile::{Override, ProfileRoute, RespClass};

impl FromRecords for RespClass {
    ghost said = { class_in };

    #[tactic(auto, unfolding(crate::specs::ProfileReading::class_in))]
    fn read(alloc: Global, records: &[RecRef<'_>]) -> Result<RespClass, Memory> {
        let condition = chunk_in(records, 1);
        Ok(RespClass {
            condition: read_response_match(alloc, condition.len() + 1, condition)?,
            failure: flag_in(records, 2),
        })
    }
}

fn label_named(alloc: Global, labels: &[(Text, Text)], key: &[u8]) -> Result<Text, Memory>
    ensures { IfOk result (λ value. value ≡ label_named key.now labels.now) }
{
    for label in labels {
        if label.0.as_bytes() == key {
            return label.1.copy();
        }
    }
    Text::from_str(alloc, "")
}

fn read_name(alloc: Global, records: &[RecRef<'_>]) -> Result<Text, Memory>
    ensures { IfOk result
        (λ name.
        name
        ≡ label_named (codes "route") (each_message 3 label_in (map view_record records.now))) }
{
    let labels = read_each::<(Text, Text)>(alloc, records, 3)?;
    label_named(alloc, labels.as_slice(), b"route")
}

impl FromRecords for ProfileRoute {
    ghost said = { route_in };

    #[tactic(auto, unfolding(crate::specs::ProfileReading::route_in))]
    fn read(alloc: Global, records: &[RecRef<'_>]) -> Result<ProfileRoute, Memory> {
        let condition = chunk_in(records, 1);
        Ok(ProfileRoute {
            name: read_name(alloc, records)?,
            condition: read_request_match(alloc, condition.len() + 1, condition)?,
            classes: read_each::<RespClass>(alloc, records, 2)?,
            retryable: flag_in(records, 4),
            timeout: read_duration(alloc, records, 5)?,
        })
    }
}

impl FromRecords for Override {
    ghost said = { override_in };

    #[tactic(auto, unfolding(crate::specs::ProfileReading::override_in))]
    fn read(alloc: Global, records: &[RecRef<'_>]) -> Result<Override, Memory> {
        Ok(Override {
            authority: text_in(alloc, records, 1)?,
            weight: u32_in(records, 2),
        })
    }
}

fn read_endpoint(
    alloc: Global,
    records: &[RecRef<'_>],
) -> Result<Option<Boxed<EndpointRow>>, Memory>
    ensures { IfOk result (λ row. row ≡ optional_in 6 row_in (map view_record records.now)) }
{
    match value_at(records, 6) {
        Some(value) => {
            let row = read_bytes::<EndpointRow>(alloc, body(value))?;
            Ok(Some(Boxed::new(alloc, row)?))
        }
        None => Ok(None),
    }
}

impl FromRecords for ProfileView {
    ghost said = { profile_in };

    #[tactic(auto, unfolding(crate::specs::ProfileReading::profile_in))]
    fn read(alloc: Global, records: &[RecRef<'_>]) -> Result<ProfileView, Memory> {
        Ok(ProfileView {
            fqn: text_in(alloc, records, 5)?,
            opaque: flag_in(records, 4),
            routes: read_each::<ProfileRoute>(alloc, records, 1)?,
            overrides: read_each::<Override>(alloc, records, 3)?,
            endpoint: read_endpoint(alloc, records)?,
        })
    }
}
