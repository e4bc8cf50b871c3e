// The rows that admit a client.
ghost use Rattle.std.specs.Prelude.{◌≡◌};
ghost use Rattle.std.specs.List.{list_any};
ghost use Rattle.std.specs.Option.{option_copied};
ghost use Rattle.std.specs.Str.{bytes_eq};
ghost use Rattle.request_rules.specs.Admits.{authn_holds, ends_after, has_tls, is_listed, row_admits};
ghost use Rattle.request_rules.specs.Networks.{block_holds};
ghost use Rattle.request_sim.specs.Decision.{first_admitting};

use mesh_base::text::Text;
use net_cidr::block::Block;
use net_cidr::ip::Ip;
use request_rules::laws::block_holds_decides;
use view_types::request::{ClientTls, Request};
use view_types::server_view::{Authn, AuthzRow};

/// Returns the first row that admits the client.
pub(crate) fn first_admitting<'a>(rows: &'a [AuthzRow], request: &Request) -> Option<&'a AuthzRow>
    ensures { option_copied result ≡ first_admitting request.now rows.now }
{
    rows.iter().find(|row| row_admits(request, row))
}

fn row_admits(request: &Request, row: &AuthzRow) -> bool
    ensures { result ≡ row_admits request.now.client request.now.tls row.now }
{
    any_block_holds(row.blocks.as_slice(), request.client) && authn_holds(&row.authn, &request.tls)
}

fn any_block_holds(blocks: &[Block], ip: Ip) -> bool
    ensures { result ≡ list_any (block_holds ip) blocks.now }
{
    blocks.iter().any(|block| block_holds(block, ip))
}

fn block_holds(block: &Block, ip: Ip) -> bool
    ensures { result ≡ block_holds ip block.now }
{
    block_holds_decides();
    block.holds(ip)
}

fn authn_holds(authn: &Authn, tls: &ClientTls) -> bool
    ensures { result ≡ authn_holds authn.now tls.now }
{
    match authn {
        Authn::Anyone => true,
        Authn::AnyTls => has_tls(tls),
        Authn::Clients {
            ids,
            suffixes,
            everyone,
        } => is_listed(ids.as_slice(), suffixes.as_slice(), *everyone, tls),
    }
}

fn has_tls(tls: &ClientTls) -> bool
    ensures { result ≡ has_tls tls.now }
{
    match tls {
        ClientTls::Plain => false,
        _ => true,
    }
}

fn is_listed(ids: &[Text], suffixes: &[Text], everyone: bool, tls: &ClientTls) -> bool
    ensures { result ≡ is_listed ids.now suffixes.now everyone tls.now }
{
    match tls {
        ClientTls::Identity(identity) => {
            everyone || has_id(ids, identity) || has_suffix(suffixes, identity)
        }
        _ => false,
    }
}

fn has_id(ids: &[Text], identity: &Text) -> bool
    ensures { result ≡ list_any (λ id. bytes_eq id identity.now) ids.now }
{
    ids.iter().any(|id| is_same(id, identity))
}

fn is_same(id: &Text, identity: &Text) -> bool
    ensures { result ≡ bytes_eq id.now identity.now }
{
    *id == *identity
}

fn has_suffix(suffixes: &[Text], identity: &Text) -> bool
    ensures { result ≡ list_any (ends_after identity.now) suffixes.now }
{
    suffixes.iter().any(|suffix| ends_after(identity, suffix))
}

fn ends_after(identity: &Text, suffix: &Text) -> bool
    ensures { result ≡ ends_after identity.now suffix.now }
{
    let (identity, suffix) = (identity.as_bytes(), suffix.as_bytes());
    suffix.len() < identity.len() && identity.ends_with(suffix)
}
