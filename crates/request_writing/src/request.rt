//! The contents of requests, by the fields of their messages.
use mesh_base::text::Text;
use net_cidr::ip::Ip;

/// A `GetDestination`: the target of a `Get` or `GetProfile` client. The field `scheme` is omitted.
#[derive(Drop)]
pub struct GetDestination {
    /// The name of a Service or an address, with or without a port.
    pub path: Text,
    /// The context token of the client, as JSON. It may be empty.
    pub token: Text,
}

/// A `PortSpec`: a port of a Pod.
#[derive(Drop)]
pub struct PortSpec {
    /// The Pod, as `namespace:pod`.
    pub workload: Text,
    /// The port. Port 0 is refused.
    pub port: u16,
}

/// A `TrafficSpec`: where traffic goes. The field `source_workload` is omitted.
#[derive(Drop)]
pub enum TrafficSpec {
    Addr { ip: Ip, port: u16 },
    /// A target, like the path of `GetDestination`.
    Authority(Text),
}

/// A request of a client, by the method that answers it.
#[derive(Drop)]
pub enum ClientRequest {
    Get(GetDestination),
    GetProfile(GetDestination),
    WatchPort(PortSpec),
    Watch(TrafficSpec),
    WatchPort2(PortSpec),
}
