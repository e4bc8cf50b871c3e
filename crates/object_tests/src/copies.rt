use crate::told::{put_line, told};
use mesh_base::key::{Kind, ObjKey};
use mesh_base::list::List;
use mesh_base::memory::Memory;
use mesh_base::text::Text;
use net_cidr::ip::Ip;
use net_cidr::packed_ip::PackedIp;
use row_file::TrialFault;
use std::alloc::Global;
use view_types::authn::RefKind;
use view_types::mark::Mark;
use view_types::request::{ClientTls, HttpRequest, Request};
use view_types::route::ParentKind;

fn http_request(alloc: Global) -> Result<HttpRequest, Memory> {
    let mut headers = List::new(alloc);
    headers.add((Text::from_str(alloc, "x")?, Text::from_str(alloc, "y")?))?;
    Ok(HttpRequest {
        method: Text::from_str(alloc, "GET")?,
        path: Text::from_str(alloc, "/")?,
        host: Text::from_str(alloc, "web")?,
        query: Text::from_str(alloc, "a=b")?,
        headers,
    })
}

fn bare_request(alloc: Global, tls: ClientTls) -> Result<Request, Memory> {
    Ok(Request {
        ns: Text::from_str(alloc, "app")?,
        pod: Text::from_str(alloc, "web-1")?,
        port: 1,
        client: Ip::V6(1),
        tls,
        http: None,
    })
}

/// A request of each kind of client.
fn requests(alloc: Global) -> Result<List<Request>, Memory> {
    let mut requests = List::new(alloc);
    let identity = ClientTls::Identity(Text::from_str(alloc, "id")?);
    requests.add(Request {
        port: 8080,
        client: Ip::V4(1),
        http: Some(http_request(alloc)?),
        ..bare_request(alloc, identity)?
    })?;
    requests.add(bare_request(alloc, ClientTls::Plain)?)?;
    requests.add(bare_request(alloc, ClientTls::Anonymous)?)?;
    Ok(requests)
}

/// A mark of each kind.
fn marks(alloc: Global) -> Result<List<Mark>, Memory> {
    let ns = Text::from_str(alloc, "app")?;
    let name = Text::from_str(alloc, "web")?;
    let ip = PackedIp::new(Ip::V4(1));
    let key = ObjKey {
        kind: Kind::Pod,
        ns: ns.copy()?,
        name: Text::from_str(alloc, "web-1")?,
    };
    let mut marks = List::new(alloc);
    marks.add(Mark::Obj(key))?;
    marks.add(Mark::SlicesOf(ns.copy()?, name.copy()?))?;
    marks.add(Mark::ServersIn(ns.copy()?))?;
    marks.add(Mark::ServerAuthzIn(ns.copy()?))?;
    marks.add(Mark::PolicyOn(ns.copy()?, RefKind::Server, name.copy()?))?;
    marks.add(Mark::RouteOn(ns, ParentKind::Service, name))?;
    marks.add(Mark::IpService(ip))?;
    marks.add(Mark::IpPod(ip))?;
    Ok(marks)
}

/// Writes values of a type that no other row reads, each with its copy if that is another.
pub fn copies(alloc: Global, word: &str, out: &mut String) -> Result<(), TrialFault> {
    match word {
        "requests" => {
            for request in requests(alloc)?.as_slice() {
                put_line(out, told(alloc, request)?.as_str())?;
            }
            Ok(())
        }
        "marks" => {
            for mark in marks(alloc)?.as_slice() {
                put_line(out, told(alloc, mark)?.as_str())?;
            }
            Ok(())
        }
        _ => Err(TrialFault::new("no type has this name")),
    }
}
