//! Reading authorizations.
ghost use Rattle.std.specs.Prelude.{◌≡◌, ◌≤◌, ◌*◌, ◌/◌, ◌^◌, map, IfOk};
ghost use Rattle.net_cidr.specs.Network.{net_round, width};
ghost use Rattle.proto_wire.specs.Given.{view_record};
ghost use Rattle.proxy_proto.specs.AuthorizationReading.{net_from, net_in, block_in, clients_in, authn_in, authz_kind, authz_in, authz_key_in};

use crate::from_records::{FromRecords, read_each, read_in};
use crate::look_up::{flag_in, inside, is_there, number_in, text_in, texts_in};
use mesh_base::memory::Memory;
use mesh_base::text::Text;
use net_cidr::block::Block;
use net_cidr::ip::Ip;
use net_cidr::net::Net;
use proto_wire::scan::RecRef;
use std::alloc::Global;
use view_types::server_view::{Authn, AuthzKind, AuthzRow};

/// Returns the number with its low bits set to 0.
fn masked(number: u128, rest: u8) -> u128
    requires { rest ≤ 128 }
    ensures value { result ≡ number / 2 ^ rest * 2 ^ rest }
    ensures below { result ≤ number }
{
    if rest == 128 {
        0
    } else {
        (number >> rest) << rest
    }
}

/// Returns the network of an address with a prefix of this many bits.
fn net_round(ip: Ip, bits: u8) -> Net
    requires { bits ≤ width ip }
    ensures { result ≡ net_round ip bits }
{
    let base = match ip {
        Ip::V4(number) => Ip::V4(masked(u128::from(number), 32 - bits) as u32),
        Ip::V6(number) => Ip::V6(masked(number, 128 - bits)),
    };
    Net { base, bits }
}

fn width(ip: Ip) -> u8
    ensures value { result ≡ width ip }
    ensures within { result ≤ 128 }
{
    match ip {
        Ip::V4(_) => 32,
        Ip::V6(_) => 128,
    }
}

/// Returns the network of an address with a prefix of this many bits, or of 0 bits if the address
/// is shorter.
fn net_from(ip: Ip, bits: u64) -> Net
    ensures { result ≡ net_from ip bits }
{
    if bits > u64::from(width(ip)) {
        return net_round(ip, 0);
    }
    net_round(ip, bits as u8)
}

impl FromRecords for Net {
    ghost said = { net_in };

    #[tactic(auto, unfolding(crate::specs::AuthorizationReading::net_in))]
    fn read(alloc: Global, records: &[RecRef<'_>]) -> Result<Net, Memory> {
        let ip = read_in::<Ip>(alloc, records, 1)?;
        Ok(net_from(ip, number_in(records, 2)))
    }
}

impl FromRecords for Block {
    ghost said = { block_in };

    #[tactic(auto, unfolding(crate::specs::AuthorizationReading::block_in))]
    fn read(alloc: Global, records: &[RecRef<'_>]) -> Result<Block, Memory> {
        Ok(Block {
            net: read_in::<Net>(alloc, records, 1)?,
            except: read_each::<Net>(alloc, records, 2)?,
        })
    }
}

#[tactic(auto, unfolding(crate::specs::AuthorizationReading::clients_in))]
fn read_clients(alloc: Global, records: &[RecRef<'_>]) -> Result<Authn, Memory>
    ensures { IfOk result (λ authn. authn ≡ clients_in (map view_record records.now)) }
{
    Ok(Authn::Clients {
        ids: texts_in(alloc, records, 1)?,
        suffixes: texts_in(alloc, records, 2)?,
        everyone: flag_in(records, 3),
    })
}

impl FromRecords for Authn {
    ghost said = { authn_in };

    #[tactic(auto, unfolding(crate::specs::AuthorizationReading::authn_in))]
    fn read(alloc: Global, records: &[RecRef<'_>]) -> Result<Authn, Memory> {
        if is_there(records, 1) {
            return Ok(Authn::Anyone);
        }
        if is_there(records, 2) {
            return Ok(Authn::AnyTls);
        }
        let clients = inside(alloc, records, 3)?;
        read_clients(alloc, &clients)
    }
}

fn authz_kind(number: u64) -> AuthzKind
    ensures { result ≡ authz_kind number }
{
    match number {
        1 => AuthzKind::ServerAuthorization,
        _ => AuthzKind::AuthorizationPolicy,
    }
}

impl FromRecords for AuthzRow {
    ghost said = { authz_in };

    #[tactic(auto, unfolding(crate::specs::AuthorizationReading::authz_in))]
    fn read(alloc: Global, records: &[RecRef<'_>]) -> Result<AuthzRow, Memory> {
        Ok(AuthzRow {
            kind: authz_kind(number_in(records, 1)),
            name: text_in(alloc, records, 2)?,
            blocks: read_each::<Block>(alloc, records, 3)?,
            authn: read_in::<Authn>(alloc, records, 4)?,
        })
    }
}

impl FromRecords for (AuthzKind, Text) {
    ghost said = { authz_key_in };

    #[tactic(auto, unfolding(crate::specs::AuthorizationReading::authz_key_in))]
    fn read(alloc: Global, records: &[RecRef<'_>]) -> Result<(AuthzKind, Text), Memory> {
        Ok((
            authz_kind(number_in(records, 1)),
            text_in(alloc, records, 2)?,
        ))
    }
}
