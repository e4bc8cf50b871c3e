//! Reading routes.
ghost use Rattle.std.specs.Prelude.{◌≡◌, map, IfOk};
ghost use Rattle.proto_wire.specs.Given.{view_record};
ghost use Rattle.proxy_proto.specs.RouteReading.{path_from, path_in, name_in, match_in, headers_in, redirect_in, filter_in, backend_in, rule_in, route_kind, http_route_in};

use crate::duration::read_duration;
use crate::from_records::{FromRecords, read_each, read_in};
use crate::look_up::{
    flag_in, inside, is_there, number_in, optional_text_in, optional_u16_in, text_in, texts_in,
    u16_in, u32_in,
};
use mesh_base::key::Kind;
use mesh_base::memory::Memory;
use mesh_base::text::Text;
use proto_wire::scan::RecRef;
use std::alloc::Global;
use view_types::route::{Filter, HttpMatch, NameMatch, PathMatch};
use view_types::server_view::{AuthzRow, BackendRow, RouteRow, RuleRow};

fn path_from(number: u64, text: Text) -> PathMatch
    ensures { result ≡ path_from number text }
{
    match number {
        1 => PathMatch::Exact(text),
        2 => PathMatch::Prefix(text),
        _ => PathMatch::Regex(text),
    }
}

impl FromRecords for PathMatch {
    ghost said = { path_in };

    #[tactic(auto, unfolding(crate::specs::RouteReading::path_in))]
    fn read(alloc: Global, records: &[RecRef<'_>]) -> Result<PathMatch, Memory> {
        let text = text_in(alloc, records, 2)?;
        Ok(path_from(number_in(records, 1), text))
    }
}

impl FromRecords for NameMatch {
    ghost said = { name_in };

    #[tactic(auto, unfolding(crate::specs::RouteReading::name_in))]
    fn read(alloc: Global, records: &[RecRef<'_>]) -> Result<NameMatch, Memory> {
        Ok(NameMatch {
            name: text_in(alloc, records, 1)?,
            value: text_in(alloc, records, 2)?,
            regex: flag_in(records, 3),
        })
    }
}

impl FromRecords for HttpMatch {
    ghost said = { match_in };

    #[tactic(auto, unfolding(crate::specs::RouteReading::match_in))]
    fn read(alloc: Global, records: &[RecRef<'_>]) -> Result<HttpMatch, Memory> {
        Ok(HttpMatch {
            path: read_in::<PathMatch>(alloc, records, 1)?,
            headers: read_each::<NameMatch>(alloc, records, 2)?,
            query: read_each::<NameMatch>(alloc, records, 3)?,
            method: optional_text_in(alloc, records, 4)?,
        })
    }
}

#[tactic(auto, unfolding(crate::specs::RouteReading::headers_in))]
fn read_headers(alloc: Global, records: &[RecRef<'_>]) -> Result<Filter, Memory>
    ensures { IfOk result (λ filter. filter ≡ headers_in (map view_record records.now)) }
{
    Ok(Filter::Headers {
        add: read_each::<(Text, Text)>(alloc, records, 1)?,
        set: read_each::<(Text, Text)>(alloc, records, 2)?,
        remove: texts_in(alloc, records, 3)?,
    })
}

#[tactic(auto, unfolding(crate::specs::RouteReading::redirect_in))]
fn read_redirect(alloc: Global, records: &[RecRef<'_>]) -> Result<Filter, Memory>
    ensures { IfOk result (λ filter. filter ≡ redirect_in (map view_record records.now)) }
{
    Ok(Filter::Redirect {
        scheme: optional_text_in(alloc, records, 1)?,
        host: optional_text_in(alloc, records, 2)?,
        port: optional_u16_in(records, 3),
        status: u16_in(records, 4),
    })
}

impl FromRecords for Filter {
    ghost said = { filter_in };

    #[tactic(auto, unfolding(crate::specs::RouteReading::filter_in))]
    fn read(alloc: Global, records: &[RecRef<'_>]) -> Result<Filter, Memory> {
        if is_there(records, 1) {
            let change = inside(alloc, records, 1)?;
            return read_headers(alloc, &change);
        }
        let redirect = inside(alloc, records, 2)?;
        read_redirect(alloc, &redirect)
    }
}

impl FromRecords for BackendRow {
    ghost said = { backend_in };

    #[tactic(auto, unfolding(crate::specs::RouteReading::backend_in))]
    fn read(alloc: Global, records: &[RecRef<'_>]) -> Result<BackendRow, Memory> {
        Ok(BackendRow {
            ns: text_in(alloc, records, 1)?,
            name: text_in(alloc, records, 2)?,
            port: u16_in(records, 3),
            weight: u32_in(records, 4),
            missing: flag_in(records, 5),
        })
    }
}

impl FromRecords for RuleRow {
    ghost said = { rule_in };

    #[tactic(auto, unfolding(crate::specs::RouteReading::rule_in))]
    fn read(alloc: Global, records: &[RecRef<'_>]) -> Result<RuleRow, Memory> {
        Ok(RuleRow {
            matches: read_each::<HttpMatch>(alloc, records, 1)?,
            filters: read_each::<Filter>(alloc, records, 2)?,
            backends: read_each::<BackendRow>(alloc, records, 3)?,
            request_timeout: read_duration(alloc, records, 4)?,
            backend_timeout: read_duration(alloc, records, 5)?,
        })
    }
}

fn route_kind(number: u64) -> Kind
    ensures { result ≡ route_kind number }
{
    match number {
        1 => Kind::LinkerdRoute,
        _ => Kind::GatewayRoute,
    }
}

impl FromRecords for RouteRow {
    ghost said = { http_route_in };

    #[tactic(auto, unfolding(crate::specs::RouteReading::http_route_in))]
    fn read(alloc: Global, records: &[RecRef<'_>]) -> Result<RouteRow, Memory> {
        Ok(RouteRow {
            kind: route_kind(number_in(records, 1)),
            name: text_in(alloc, records, 2)?,
            created: optional_text_in(alloc, records, 3)?,
            hosts: texts_in(alloc, records, 4)?,
            rules: read_each::<RuleRow>(alloc, records, 5)?,
            authz: read_each::<AuthzRow>(alloc, records, 6)?,
        })
    }
}
