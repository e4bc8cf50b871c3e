ghost use Rattle.std.specs.Prelude.{◌≡◌};
ghost use Rattle.k8s_meta.specs.Spots.{◌·◌, Reads, seen};
ghost use Rattle.k8s_meta.specs.declared.key.Key.TheVariants as keys;
ghost use Rattle.route_objects.specs.Filters.{filter_at, header_at, headers_at, kept_filter, redirect_at};

use k8s_meta::fault::ReadFault;
use k8s_meta::key::Key;
use k8s_meta::place::Place;
use k8s_meta::reader::Reader;
use k8s_meta::words::{AnyText, Filled, Number16, PORT};
use mesh_base::text::Text;
use view_types::route::Filter;

const STATUS: Number16 = Number16 {
    low: 100,
    high: 999,
};

/// A filter of a rule, or None if it is not of one of the two supported types.
pub struct RuleFilter;

impl Reader for RuleFilter {
    type Made = Option<Filter>;

    ghost reading = { λ _. filter_at };

    #[tactic(auto, unfolding(k8s_meta::specs::Spots::then, crate::specs::Filters::filter_at))]
    fn read<'a>(&self, place: &'a Place<'a>) -> Result<Option<Filter>, ReadFault> {
        place.object()?;
        let kind = place.required(Key::Type, &AnyText)?;
        let headers = headers_of(place)?;
        let redirect = redirect_of(place)?;
        Ok(kept_filter(kind.as_str(), headers, redirect))
    }
}

fn kept_filter(kind: &str, headers: Filter, redirect: Filter) -> Option<Filter>
    ensures { result ≡ kept_filter kind.now headers redirect }
{
    if kind == "RequestHeaderModifier" {
        Some(headers)
    } else if kind == "RequestRedirect" {
        Some(redirect)
    } else {
        None
    }
}

/// Reads the headers that a filter adds, sets and removes.
#[tactic(auto, unfolding(k8s_meta::specs::Spots::then, crate::specs::Filters::headers_at))]
pub fn headers_of<'a>(filter: &'a Place<'a>) -> Result<Filter, ReadFault>
    ensures { Reads result (headers_at ((seen filter.now) · keys.RequestHeaderModifier)) }
{
    let modifier = filter.part(Key::RequestHeaderModifier)?;
    let add = modifier.each(Key::Add, &Header)?;
    let set = modifier.each(Key::Set, &Header)?;
    let remove = modifier.each(Key::Remove, &AnyText)?;
    Ok(Filter::Headers { add, set, remove })
}

#[tactic(auto, unfolding(k8s_meta::specs::Spots::then, crate::specs::Filters::redirect_at))]
fn redirect_of<'a>(filter: &'a Place<'a>) -> Result<Filter, ReadFault>
    ensures { Reads result (redirect_at ((seen filter.now) · keys.RequestRedirect)) }
{
    let redirect = filter.part(Key::RequestRedirect)?;
    let scheme = redirect.default(Key::Scheme, &Filled(AnyText), None)?;
    let host = redirect.default(Key::Hostname, &Filled(AnyText), None)?;
    let port = redirect.optional(Key::Port, &PORT)?;
    let status = redirect.default(Key::StatusCode, &STATUS, 302)?;
    Ok(Filter::Redirect {
        scheme,
        host,
        port,
        status,
    })
}

/// The name and the value of a header.
struct Header;

impl Reader for Header {
    type Made = (Text, Text);

    ghost reading = { λ _. header_at };

    #[tactic(auto, unfolding(k8s_meta::specs::Spots::then, crate::specs::Filters::header_at))]
    fn read<'a>(&self, place: &'a Place<'a>) -> Result<(Text, Text), ReadFault> {
        place.object()?;
        let name = place.required(Key::Name, &AnyText)?;
        let value = place.required(Key::Value, &AnyText)?;
        Ok((name, value))
    }
}
