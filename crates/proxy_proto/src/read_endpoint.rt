//! Reading endpoints.
ghost use Rattle.std.specs.Prelude.{◌≡◌, map, if◌then◌else◌, is_some, IfOk, OnOk};
ghost use Rattle.std.specs.Cmp.Lexicographic.{slice_cmp};
ghost use Rattle.std.specs.Ordering.{nat_cmp};
ghost use Rattle.std.specs.FinMap.{get, insert, from_entries};
ghost use Rattle.proto_wire.specs.Given.{view_record};
ghost use Rattle.proxy_proto.specs.EndpointReading.{ip_in, pair_in, label_in, labels_in, identity_in, tunnel_in, row_in};

use crate::endpoint::HALF;
use crate::from_records::{FromRecords, read_each, read_in};
use crate::look_up::{
    body, fixed64_in, inside, is_there, optional_text_in, records_in, text_in, u16_in, u32_in,
    value_at,
};
use mesh_base::labels::Labels;
use mesh_base::memory::Memory;
use mesh_base::text::Text;
use net_cidr::ip::Ip;
use proto_wire::scan::{RecRef, ValueRef};
use std::alloc::Global;
use std::cmp::Ordering;
use view_types::endpoint::EndpointRow;

impl FromRecords for Ip {
    ghost said = { ip_in };

    #[tactic(auto, unfolding(crate::specs::EndpointReading::ip_in))]
    fn read(alloc: Global, records: &[RecRef<'_>]) -> Result<Ip, Memory> {
        if let Some(ValueRef::Fixed32(number)) = value_at(records, 1) {
            return Ok(Ip::V4(number));
        }
        let halves = inside(alloc, records, 2)?;
        let high = fixed64_in(&halves, 1) as u128;
        let low = fixed64_in(&halves, 2) as u128;
        Ok(Ip::V6(high * HALF + low))
    }
}

impl FromRecords for (Ip, u16) {
    ghost said = { pair_in };

    #[tactic(auto, unfolding(crate::specs::EndpointReading::pair_in))]
    fn read(alloc: Global, records: &[RecRef<'_>]) -> Result<(Ip, u16), Memory> {
        let ip = read_in::<Ip>(alloc, records, 1)?;
        Ok((ip, u16_in(records, 2)))
    }
}

impl FromRecords for (Text, Text) {
    ghost said = { label_in };

    #[tactic(auto, unfolding(crate::specs::EndpointReading::label_in))]
    fn read(alloc: Global, records: &[RecRef<'_>]) -> Result<(Text, Text), Memory> {
        let key = text_in(alloc, records, 1)?;
        let value = text_in(alloc, records, 2)?;
        Ok((key, value))
    }
}

fn put_new(labels: &mut Labels, key: Text, value: Text) -> Result<(), Memory>
    ensures { OnOk result
        (labels.new
        ≡ (if is_some (get labels.old key) then labels.old else insert labels.old key value)) }
{
    if labels.get(key.as_bytes()).is_some() {
        return Ok(());
    }
    labels.put(key, value)
}

fn compare_keys(a: &(Text, Text), b: &(Text, Text)) -> Ordering
    ensures { result ≡ slice_cmp nat_cmp a.now.0 b.now.0 }
{
    a.0.as_bytes().cmp(b.0.as_bytes())
}

/// Sorts pairs by key, so that labels are built by appending.
fn put_in_order(pairs: &mut Vec<(Text, Text)>) -> Result<(), Memory>
    ensures { OnOk result
        (from_entries {R = slice_cmp nat_cmp} pairs.new.items ≡ from_entries pairs.old.items) }
{
    pairs.sort_by(|a, b| compare_keys(a, b))?;
    Ok(())
}

/// Builds labels from pairs. Of pairs with the same key the first is used.
fn labels_of(alloc: Global, pairs: Vec<(Text, Text)>) -> Result<Labels, Memory>
    ensures { IfOk result (λ labels. labels ≡ from_entries pairs.items) }
{
    let mut pairs = pairs;
    put_in_order(&mut pairs)?;
    let mut labels = Labels::new(alloc);
    for (key, value) in pairs {
        put_new(&mut labels, key, value)?;
    }
    Ok(labels)
}

fn read_labels(alloc: Global, records: &[RecRef<'_>], number: u32) -> Result<Labels, Memory>
    ensures { IfOk result (λ labels. labels ≡ labels_in number (map view_record records.now)) }
{
    let pairs = read_each::<(Text, Text)>(alloc, records, number)?;
    labels_of(alloc, pairs.into_vec())
}

#[tactic(auto, unfolding(crate::specs::EndpointReading::identity_in))]
fn read_identity(alloc: Global, records: &[RecRef<'_>]) -> Result<Option<Text>, Memory>
    ensures { IfOk result (λ identity. identity ≡ identity_in (map view_record records.now)) }
{
    let dns_like = inside(alloc, records, 1)?;
    optional_text_in(alloc, &dns_like, 1)
}

#[tactic(auto, unfolding(crate::specs::EndpointReading::tunnel_in))]
fn read_tunnel(alloc: Global, records: &[RecRef<'_>]) -> Result<Option<u16>, Memory>
    ensures { IfOk result (λ tunnel. tunnel ≡ tunnel_in (map view_record records.now)) }
{
    let Some(value) = value_at(records, 2) else {
        return Ok(None);
    };
    let transport = records_in(alloc, body(value))?;
    Ok(Some(u16_in(&transport, 1)))
}

impl FromRecords for EndpointRow {
    ghost said = { row_in };

    #[tactic(auto, unfolding(crate::specs::EndpointReading::row_in))]
    fn read(alloc: Global, records: &[RecRef<'_>]) -> Result<EndpointRow, Memory> {
        let address = inside(alloc, records, 1)?;
        let identity = inside(alloc, records, 5)?;
        let hint = inside(alloc, records, 6)?;
        Ok(EndpointRow {
            ip: read_in::<Ip>(alloc, &address, 1)?,
            port: u16_in(&address, 2),
            weight: u32_in(records, 3),
            labels: read_labels(alloc, records, 4)?,
            identity: read_identity(alloc, &identity)?,
            tunnel: read_tunnel(alloc, &hint)?,
            h2: is_there(&hint, 1),
        })
    }
}
