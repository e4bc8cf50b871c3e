//! Routes as messages.
ghost use Rattle.std.specs.Prelude.{◌≡◌, ◌++◌, OnOk};
ghost use Rattle.proto_wire.specs.Wire.{spelled, spelling};
ghost use Rattle.proxy_proto.specs.FieldRecords.{chunk, each_field};
ghost use Rattle.proxy_proto.specs.Routes.{path_number, path_text, path_records, name_records, match_records, value_records, headers_records, redirect_records, filter_records, backend_records, rule_records, route_number, http_route_records};

use crate::duration::put_duration;
use crate::fields::{
    put_bool_field, put_number_field, put_optional_number, put_optional_text, put_text_field,
    put_texts,
};
use crate::part::{Part, write_each, write_in};
use mesh_base::key::Kind;
use mesh_base::list::List;
use mesh_base::memory::Memory;
use mesh_base::text::Text;
use proto_wire::front::FrontBytes;
use proto_wire::writing::put_head;
use view_types::route::{Filter, HttpMatch, NameMatch, PathMatch};
use view_types::server_view::{BackendRow, RouteRow, RuleRow};

fn path_number(path: &PathMatch) -> u64
    ensures { result ≡ path_number path.now }
{
    match path {
        PathMatch::Exact(_) => 1,
        PathMatch::Prefix(_) => 2,
        PathMatch::Regex(_) => 3,
    }
}

fn path_text(path: &PathMatch) -> &[u8]
    ensures { result.now ≡ path_text path.now }
{
    match path {
        PathMatch::Exact(text) => text.as_bytes(),
        PathMatch::Prefix(text) => text.as_bytes(),
        PathMatch::Regex(text) => text.as_bytes(),
    }
}

impl Part for PathMatch {
    ghost records = { path_records };

    #[tactic(auto, using(proto_wire::proofs::Spellings::spellings), unfolding(crate::specs::Routes::path_records))]
    fn write(&self, out: &mut FrontBytes) -> Result<(), Memory> {
        put_text_field(out, 2, path_text(self))?;
        put_number_field(out, 1, path_number(self))
    }
}

impl Part for NameMatch {
    ghost records = { name_records };

    #[tactic(auto, using(proto_wire::proofs::Spellings::spellings), unfolding(crate::specs::Routes::name_records))]
    fn write(&self, out: &mut FrontBytes) -> Result<(), Memory> {
        put_bool_field(out, 3, self.regex)?;
        put_text_field(out, 2, self.value.as_bytes())?;
        put_text_field(out, 1, self.name.as_bytes())
    }
}

impl Part for HttpMatch {
    ghost records = { match_records };

    #[tactic(auto, using(proto_wire::proofs::Spellings::spellings), unfolding(crate::specs::Routes::match_records))]
    fn write(&self, out: &mut FrontBytes) -> Result<(), Memory> {
        put_optional_text(out, 4, &self.method)?;
        write_each(out, 3, self.query.as_slice())?;
        write_each(out, 2, self.headers.as_slice())?;
        write_in(out, 1, &self.path)
    }
}

/// Writes a header's name and value. This differs from the `Part` of a pair of strings, which is
/// the entry of a map.
#[tactic(auto, using(proto_wire::proofs::Spellings::spellings), unfolding(crate::specs::Routes::value_records))]
fn put_value(out: &mut FrontBytes, pair: &(Text, Text)) -> Result<(), Memory>
    ensures { OnOk result (out.new ≡ spelling (value_records pair.now) ++ out.old) }
{
    put_text_field(out, 2, pair.1.as_bytes())?;
    put_text_field(out, 1, pair.0.as_bytes())
}

fn put_value_in(out: &mut FrontBytes, field: u32, pair: &(Text, Text)) -> Result<(), Memory>
    ensures { OnOk result
        (out.new ≡ spelled (chunk field (spelling (value_records pair.now))) ++ out.old) }
{
    let end = out.len();
    put_value(out, pair)?;
    put_head(out, field, end)
}

#[tactic(auto, using(proto_wire::proofs::Spellings::spellings))]
fn put_values(out: &mut FrontBytes, field: u32, pairs: &[(Text, Text)]) -> Result<(), Memory>
    ensures { OnOk result
        (out.new ≡ spelling (each_field field value_records pairs.now) ++ out.old) }
{
    for at in (0..pairs.len()).rev() {
        put_value_in(out, field, &pairs[at])?;
    }
    Ok(())
}

#[tactic(auto, using(proto_wire::proofs::Spellings::spellings), unfolding(crate::specs::Routes::headers_records))]
fn put_headers(
    out: &mut FrontBytes,
    add: &List<(Text, Text)>,
    set: &List<(Text, Text)>,
    remove: &List<Text>,
) -> Result<(), Memory>
    ensures { OnOk result
        (out.new ≡ spelling (headers_records add.now set.now remove.now) ++ out.old) }
{
    put_texts(out, 3, remove.as_slice())?;
    put_values(out, 2, set.as_slice())?;
    put_values(out, 1, add.as_slice())
}

#[tactic(auto, using(proto_wire::proofs::Spellings::spellings), unfolding(crate::specs::Routes::redirect_records))]
fn put_redirect(
    out: &mut FrontBytes,
    scheme: &Option<Text>,
    host: &Option<Text>,
    port: Option<u16>,
    status: u16,
) -> Result<(), Memory>
    ensures { OnOk result
        (out.new ≡ spelling (redirect_records scheme.now host.now port status) ++ out.old) }
{
    put_number_field(out, 4, status as u64)?;
    put_optional_number(out, 3, port)?;
    put_optional_text(out, 2, host)?;
    put_optional_text(out, 1, scheme)
}

impl Part for Filter {
    ghost records = { filter_records };

    #[tactic(auto, using(proto_wire::proofs::Spellings::spellings), unfolding(crate::specs::Routes::filter_records))]
    fn write(&self, out: &mut FrontBytes) -> Result<(), Memory> {
        let end = out.len();
        match self {
            Filter::Headers { add, set, remove } => {
                put_headers(out, add, set, remove)?;
                put_head(out, 1, end)
            }
            Filter::Redirect {
                scheme,
                host,
                port,
                status,
            } => {
                put_redirect(out, scheme, host, *port, *status)?;
                put_head(out, 2, end)
            }
        }
    }
}

impl Part for BackendRow {
    ghost records = { backend_records };

    #[tactic(auto, using(proto_wire::proofs::Spellings::spellings), unfolding(crate::specs::Routes::backend_records))]
    fn write(&self, out: &mut FrontBytes) -> Result<(), Memory> {
        put_bool_field(out, 5, self.missing)?;
        put_number_field(out, 4, self.weight as u64)?;
        put_number_field(out, 3, self.port as u64)?;
        put_text_field(out, 2, self.name.as_bytes())?;
        put_text_field(out, 1, self.ns.as_bytes())
    }
}

impl Part for RuleRow {
    ghost records = { rule_records };

    #[tactic(auto, using(proto_wire::proofs::Spellings::spellings), unfolding(crate::specs::Routes::rule_records))]
    fn write(&self, out: &mut FrontBytes) -> Result<(), Memory> {
        put_duration(out, 5, self.backend_timeout)?;
        put_duration(out, 4, self.request_timeout)?;
        write_each(out, 3, self.backends.as_slice())?;
        write_each(out, 2, self.filters.as_slice())?;
        write_each(out, 1, self.matches.as_slice())
    }
}

/// Returns the number of a kind of routes, and 0 for any other kind.
fn route_number(kind: Kind) -> u64
    ensures { result ≡ route_number kind }
{
    match kind {
        Kind::LinkerdRoute => 1,
        Kind::GatewayRoute => 2,
        _ => 0,
    }
}

impl Part for RouteRow {
    ghost records = { http_route_records };

    #[tactic(auto, using(proto_wire::proofs::Spellings::spellings), unfolding(crate::specs::Routes::http_route_records))]
    fn write(&self, out: &mut FrontBytes) -> Result<(), Memory> {
        write_each(out, 6, self.authz.as_slice())?;
        write_each(out, 5, self.rules.as_slice())?;
        put_texts(out, 4, self.hosts.as_slice())?;
        put_optional_text(out, 3, &self.created)?;
        put_text_field(out, 2, self.name.as_bytes())?;
        put_number_field(out, 1, route_number(self.kind))
    }
}
