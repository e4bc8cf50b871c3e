ghost use Rattle.std.specs.Prelude.{◌≡◌};
ghost use Rattle.serde_json.specs.View.{items_view, view};
ghost use Rattle.k8s_meta.specs.Spots.{◌·◌, Reads, seen};
ghost use Rattle.k8s_meta.specs.declared.key.Key.TheVariants as keys;
ghost use Rattle.watch_events.specs.Given.{Gives};
ghost use Rattle.watch_events.specs.Reading.{of_query};
ghost use Rattle.watch_events.specs.Simulations.{client_tls, http_at, identity_at, pair_at, pair_from, pairs_at, request_at};

use crate::fault::query_fault;
use crate::line::LineFault;
use crate::query::Workload;
use k8s_meta::fault::ReadFault;
use k8s_meta::key::Key;
use k8s_meta::place::Place;
use k8s_meta::reader::Reader;
use k8s_meta::words::{Address, AnyText, Flag, PORT};
use mesh_base::list::List;
use mesh_base::text::Text;
use serde_json::Value;
use std::alloc::Global;
use view_types::request::{ClientTls, HttpRequest, Request};

/// A list of exactly two strings.
#[derive(Clone, Copy)]
struct Pair;

impl Reader for Pair {
    type Made = (Text, Text);

    ghost reading = { λ _. pair_at };

    #[tactic(auto, unfolding(k8s_meta::specs::Spots::then, crate::specs::Simulations::pair_at))]
    fn read<'a>(&self, place: &'a Place<'a>) -> Result<(Text, Text), ReadFault> {
        let items = place.list()?;
        pair_of(place, items)
    }
}

/// Returns the two strings, if there are two items.
#[tactic(auto, unfolding(k8s_meta::specs::Spots::then))]
fn pair_of<'a>(place: &'a Place<'a>, items: &'a [Value]) -> Result<(Text, Text), ReadFault>
    ensures { Reads result (pair_from (seen place.now).at (items_view items.now)) }
{
    let [name, value] = items else {
        return Err(place.wrong_type());
    };
    let name = AnyText.read(&place.item(0, name))?;
    let value = AnyText.read(&place.item(1, value))?;
    Ok((name, value))
}

/// Reads the headers of a request. A fault is at the list, not at an entry.
#[tactic(auto, unfolding(crate::specs::Simulations::pairs_at))]
fn read_headers<'a>(http: &'a Place<'a>) -> Result<List<(Text, Text)>, ReadFault>
    ensures { Reads result (pairs_at ((seen http.now) · keys.Headers)) }
{
    match http.each(Key::Headers, &Pair) {
        Ok(headers) => Ok(headers),
        Err(ReadFault::Memory) => Err(ReadFault::Memory),
        Err(_) => Err(http.member(Key::Headers).wrong_type()),
    }
}

/// The HTTP part of a request. A further control line reads it as `required` or `optional` at its
/// own place.
#[derive(Clone, Copy)]
pub struct HttpPart;

impl Reader for HttpPart {
    type Made = HttpRequest;

    ghost reading = { λ _. http_at };

    #[tactic(auto, unfolding(k8s_meta::specs::Spots::then, crate::specs::Simulations::http_at))]
    fn read<'a>(&self, place: &'a Place<'a>) -> Result<HttpRequest, ReadFault> {
        place.object()?;
        let method = place.text_or(Key::Method, &AnyText, "GET")?;
        let path = place.text_or(Key::Path, &AnyText, "/")?;
        let host = place.text_or(Key::Host, &AnyText, "")?;
        let query = place.text_or(Key::Query, &AnyText, "")?;
        let headers = read_headers(place)?;
        Ok(HttpRequest {
            method,
            path,
            host,
            query,
            headers,
        })
    }
}

/// Reads the HTTP part of a request, with the path `at`. A fault is that of a control line.
pub fn read_http(alloc: Global, value: &Value, at: &str) -> Result<HttpRequest, LineFault>
    ensures { Gives result (of_query (http_at record { at = at.now; value = view value.now })) }
{
    match HttpPart.read(&Place::top(alloc, value, at)) {
        Ok(request) => Ok(request),
        Err(fault) => Err(query_fault(fault)),
    }
}

/// The name in a client's certificate, which is not empty.
#[derive(Clone, Copy)]
struct ClientName;

impl Reader for ClientName {
    type Made = Text;

    ghost reading = { λ _. identity_at };

    #[tactic(auto, unfolding(k8s_meta::specs::Spots::then, crate::specs::Simulations::identity_at))]
    fn read<'a>(&self, place: &'a Place<'a>) -> Result<Text, ReadFault> {
        let text = place.text()?;
        if text.is_empty() {
            return Err(place.bad_name());
        }
        Ok(Text::from_str(place.alloc(), text)?)
    }
}

fn client_tls(identity: Option<Text>, tls: bool) -> ClientTls
    ensures { result ≡ client_tls identity tls }
{
    match identity {
        Some(identity) => ClientTls::Identity(identity),
        None => {
            if tls {
                ClientTls::Anonymous
            } else {
                ClientTls::Plain
            }
        }
    }
}

/// Reads the request that a control line simulates.
#[tactic(auto, unfolding(k8s_meta::specs::Spots::then, crate::specs::Simulations::request_at))]
pub fn read_request<'a>(line: &'a Place<'a>) -> Result<Request, ReadFault>
    ensures { Reads result (request_at (seen line.now)) }
{
    let (ns, pod) = line.required(Key::Workload, &Workload)?;
    let port = line.required(Key::Port, &PORT)?;
    let client = line.required(Key::Client, &Address)?;
    let identity = line.optional(Key::Identity, &ClientName)?;
    let tls = line.default(Key::Tls, &Flag, false)?;
    let http = line.optional(Key::Http, &HttpPart)?;
    Ok(Request {
        ns,
        pod,
        port,
        client,
        tls: client_tls(identity, tls),
        http,
    })
}
