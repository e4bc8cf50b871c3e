ghost use Rattle.std.specs.Prelude.{◌≡◌, IfOk};

use mesh_base::copied::Copied;
use mesh_base::list::List;
use mesh_base::memory::Memory;
use mesh_base::text::Text;
use net_cidr::ip::Ip;
use std::alloc::Global;

/// How a client is authenticated.
#[derive(Drop)]
pub enum ClientTls {
    Plain,
    Anonymous,
    /// Not empty.
    Identity(Text),
}

/// The HTTP part of a simulated request.
#[derive(Drop)]
pub struct HttpRequest {
    pub method: Text,
    pub path: Text,
    pub host: Text,
    pub query: Text,
    pub headers: List<(Text, Text)>,
}

/// A simulated request to a port of a Pod.
#[derive(Drop)]
pub struct Request {
    pub ns: Text,
    pub pod: Text,
    pub port: u16,
    pub client: Ip,
    pub tls: ClientTls,
    pub http: Option<HttpRequest>,
}

impl Copied for ClientTls {
    fn copy(&self, _alloc: Global) -> Result<ClientTls, Memory> {
        match self {
            ClientTls::Plain => Ok(ClientTls::Plain),
            ClientTls::Anonymous => Ok(ClientTls::Anonymous),
            ClientTls::Identity(text) => Ok(ClientTls::Identity(text.copy()?)),
        }
    }
}

impl Copied for HttpRequest {
    fn copy(&self, alloc: Global) -> Result<HttpRequest, Memory> {
        Ok(HttpRequest {
            method: self.method.copy()?,
            path: self.path.copy()?,
            host: self.host.copy()?,
            query: self.query.copy()?,
            headers: self.headers.copy(alloc)?,
        })
    }
}

impl Copied for Request {
    fn copy(&self, alloc: Global) -> Result<Request, Memory> {
        Ok(Request {
            ns: self.ns.copy()?,
            pod: self.pod.copy()?,
            port: self.port,
            client: self.client,
            tls: self.tls.copy(alloc)?,
            http: self.http.copy(alloc)?,
        })
    }
}
