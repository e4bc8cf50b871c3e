//! The fields of each message type, as in `docs/proxy.proto`.
ghost use Rattle.std.specs.Prelude.{◌≡◌};
ghost use Rattle.proxy_proto.specs.Tables.{fields_of};

use crate::table::FieldKind::{Fixed32, Fixed64, Message, Number, Text};
use crate::table::Label::{Choice, Map, Repeated, Required, Single};

/// The message types. Map entries have types of their own, and so do lists of matches, one for each
/// kind of match.
#[derive(Clone, Copy)]
pub enum Schema {
    Update,
    WeightedAddrSet,
    AddrSet,
    NoEndpoints,
    WeightedAddr,
    MetricLabel,
    TcpAddress,
    IpAddress,
    Ipv6,
    TlsIdentity,
    DnsLikeIdentity,
    ProtocolHint,
    Empty,
    OpaqueTransport,
    DestinationProfile,
    ProfileRoute,
    RequestMatch,
    RequestSeq,
    PathRegex,
    HttpMethod,
    ResponseClass,
    ResponseMatch,
    ResponseSeq,
    StatusRange,
    WeightedDst,
    Duration,
    IpNetwork,
    Server,
    Authz,
    Network,
    Authn,
    Clients,
    HttpRoute,
    RouteRule,
    HttpMatch,
    PathMatch,
    NameMatch,
    Filter,
    HeaderChange,
    NameValue,
    Redirect,
    OutboundPolicy,
    ServicePolicy,
    Forward,
    Backend,
    GetDestination,
    PortSpec,
    TrafficSpec,
    ServerUpdate,
    AuthzSet,
    AuthzKeys,
    AuthzKey,
}

/// How often a field may occur.
#[derive(Clone, Copy)]
pub enum Label {
    /// At most once.
    Single,
    /// Exactly once.
    Required,
    /// The field is a member of the message's choice, exactly one of which occurs, once.
    Choice,
    Repeated,
    /// Any number of entries, whose keys differ.
    Map,
}

/// The type of a field.
#[derive(Clone, Copy)]
pub enum FieldKind {
    /// A number up to this one.
    Number(u64),
    Fixed32,
    Fixed64,
    Text,
    Message(Schema),
}

/// A field: its number, how often it may occur, and its type.
#[derive(Clone, Copy)]
pub struct Field(pub u32, pub Label, pub FieldKind);

const UINT64: FieldKind = Number(18_446_744_073_709_551_615);

const BOOL: FieldKind = UINT64;

const UINT32: FieldKind = Number(4_294_967_295);
/// A port, or a status code.
const UINT16: FieldKind = Number(65_535);

const NANOSECONDS: FieldKind = Number(999_999_999);

/// An enum of protocols.
const PROTOCOL: FieldKind = Number(6);

const POLICY: FieldKind = Number(6);

const ONE_OF_TWO: FieldKind = Number(2);

const ONE_OF_THREE: FieldKind = Number(3);

const UPDATE: [Field; 3] = [
    Field(1, Choice, Message(Schema::WeightedAddrSet)),
    Field(2, Choice, Message(Schema::AddrSet)),
    Field(3, Choice, Message(Schema::NoEndpoints)),
];

const WEIGHTED_ADDR_SET: [Field; 1] = [Field(1, Repeated, Message(Schema::WeightedAddr))];

const ADDR_SET: [Field; 1] = [Field(1, Repeated, Message(Schema::TcpAddress))];

const NO_ENDPOINTS: [Field; 1] = [Field(1, Single, BOOL)];

const WEIGHTED_ADDR: [Field; 5] = [
    Field(1, Required, Message(Schema::TcpAddress)),
    Field(3, Single, UINT32),
    Field(4, Map, Message(Schema::MetricLabel)),
    Field(5, Single, Message(Schema::TlsIdentity)),
    Field(6, Single, Message(Schema::ProtocolHint)),
];

const METRIC_LABEL: [Field; 2] = [Field(1, Single, Text), Field(2, Single, Text)];

const TCP_ADDRESS: [Field; 2] = [
    Field(1, Required, Message(Schema::IpAddress)),
    Field(2, Single, UINT16),
];

const IP_ADDRESS: [Field; 2] = [
    Field(1, Choice, Fixed32),
    Field(2, Choice, Message(Schema::Ipv6)),
];

const IPV6: [Field; 2] = [Field(1, Single, Fixed64), Field(2, Single, Fixed64)];

const TLS_IDENTITY: [Field; 1] = [Field(1, Required, Message(Schema::DnsLikeIdentity))];

const DNS_LIKE_IDENTITY: [Field; 1] = [Field(1, Single, Text)];

const PROTOCOL_HINT: [Field; 2] = [
    Field(1, Single, Message(Schema::Empty)),
    Field(2, Single, Message(Schema::OpaqueTransport)),
];

const EMPTY: [Field; 0] = [];

const OPAQUE_TRANSPORT: [Field; 1] = [Field(1, Single, UINT16)];

const DESTINATION_PROFILE: [Field; 5] = [
    Field(1, Repeated, Message(Schema::ProfileRoute)),
    Field(3, Repeated, Message(Schema::WeightedDst)),
    Field(4, Single, BOOL),
    Field(5, Single, Text),
    Field(6, Single, Message(Schema::WeightedAddr)),
];

const PROFILE_ROUTE: [Field; 5] = [
    Field(1, Required, Message(Schema::RequestMatch)),
    Field(2, Repeated, Message(Schema::ResponseClass)),
    Field(3, Map, Message(Schema::MetricLabel)),
    Field(4, Single, BOOL),
    Field(5, Single, Message(Schema::Duration)),
];

const REQUEST_MATCH: [Field; 5] = [
    Field(1, Choice, Message(Schema::RequestSeq)),
    Field(2, Choice, Message(Schema::RequestSeq)),
    Field(3, Choice, Message(Schema::RequestMatch)),
    Field(4, Choice, Message(Schema::PathRegex)),
    Field(5, Choice, Message(Schema::HttpMethod)),
];

const REQUEST_SEQ: [Field; 1] = [Field(1, Repeated, Message(Schema::RequestMatch))];

const PATH_REGEX: [Field; 1] = [Field(1, Single, Text)];

const HTTP_METHOD: [Field; 1] = [Field(1, Single, Text)];

const RESPONSE_CLASS: [Field; 2] = [
    Field(1, Required, Message(Schema::ResponseMatch)),
    Field(2, Single, BOOL),
];

const RESPONSE_MATCH: [Field; 4] = [
    Field(1, Choice, Message(Schema::ResponseSeq)),
    Field(2, Choice, Message(Schema::ResponseSeq)),
    Field(3, Choice, Message(Schema::ResponseMatch)),
    Field(4, Choice, Message(Schema::StatusRange)),
];

const RESPONSE_SEQ: [Field; 1] = [Field(1, Repeated, Message(Schema::ResponseMatch))];

const STATUS_RANGE: [Field; 2] = [Field(1, Single, UINT16), Field(2, Single, UINT16)];

const WEIGHTED_DST: [Field; 2] = [Field(1, Single, Text), Field(2, Single, UINT32)];

const DURATION: [Field; 2] = [Field(1, Single, UINT64), Field(2, Single, NANOSECONDS)];

const IP_NETWORK: [Field; 2] = [
    Field(1, Required, Message(Schema::IpAddress)),
    Field(2, Single, UINT32),
];

const SERVER: [Field; 6] = [
    Field(1, Single, PROTOCOL),
    Field(2, Single, POLICY),
    Field(3, Single, Text),
    Field(4, Repeated, Message(Schema::Authz)),
    Field(5, Repeated, Message(Schema::HttpRoute)),
    Field(6, Repeated, Text),
];

const AUTHZ: [Field; 4] = [
    Field(1, Single, ONE_OF_TWO),
    Field(2, Single, Text),
    Field(3, Repeated, Message(Schema::Network)),
    Field(4, Required, Message(Schema::Authn)),
];

const NETWORK: [Field; 2] = [
    Field(1, Required, Message(Schema::IpNetwork)),
    Field(2, Repeated, Message(Schema::IpNetwork)),
];

const AUTHN: [Field; 3] = [
    Field(1, Choice, Message(Schema::Empty)),
    Field(2, Choice, Message(Schema::Empty)),
    Field(3, Choice, Message(Schema::Clients)),
];

const CLIENTS: [Field; 3] = [
    Field(1, Repeated, Text),
    Field(2, Repeated, Text),
    Field(3, Single, BOOL),
];

const HTTP_ROUTE: [Field; 6] = [
    Field(1, Single, ONE_OF_TWO),
    Field(2, Single, Text),
    Field(3, Single, Text),
    Field(4, Repeated, Text),
    Field(5, Repeated, Message(Schema::RouteRule)),
    Field(6, Repeated, Message(Schema::Authz)),
];

const ROUTE_RULE: [Field; 5] = [
    Field(1, Repeated, Message(Schema::HttpMatch)),
    Field(2, Repeated, Message(Schema::Filter)),
    Field(3, Repeated, Message(Schema::Backend)),
    Field(4, Single, Message(Schema::Duration)),
    Field(5, Single, Message(Schema::Duration)),
];

const HTTP_MATCH: [Field; 4] = [
    Field(1, Required, Message(Schema::PathMatch)),
    Field(2, Repeated, Message(Schema::NameMatch)),
    Field(3, Repeated, Message(Schema::NameMatch)),
    Field(4, Single, Text),
];

const PATH_MATCH: [Field; 2] = [Field(1, Single, ONE_OF_THREE), Field(2, Single, Text)];

const NAME_MATCH: [Field; 3] = [
    Field(1, Single, Text),
    Field(2, Single, Text),
    Field(3, Single, BOOL),
];

const FILTER: [Field; 2] = [
    Field(1, Choice, Message(Schema::HeaderChange)),
    Field(2, Choice, Message(Schema::Redirect)),
];

const HEADER_CHANGE: [Field; 3] = [
    Field(1, Repeated, Message(Schema::NameValue)),
    Field(2, Repeated, Message(Schema::NameValue)),
    Field(3, Repeated, Text),
];

const NAME_VALUE: [Field; 2] = [Field(1, Single, Text), Field(2, Single, Text)];

const REDIRECT: [Field; 4] = [
    Field(1, Single, Text),
    Field(2, Single, Text),
    Field(3, Single, UINT16),
    Field(4, Single, UINT16),
];

const OUTBOUND_POLICY: [Field; 3] = [
    Field(1, Choice, Message(Schema::Empty)),
    Field(2, Choice, Message(Schema::ServicePolicy)),
    Field(3, Choice, Message(Schema::Forward)),
];

const SERVICE_POLICY: [Field; 5] = [
    Field(1, Single, Text),
    Field(2, Single, Text),
    Field(3, Single, UINT16),
    Field(4, Single, BOOL),
    Field(5, Repeated, Message(Schema::HttpRoute)),
];

const FORWARD: [Field; 2] = [
    Field(1, Required, Message(Schema::WeightedAddr)),
    Field(2, Single, BOOL),
];

const BACKEND: [Field; 5] = [
    Field(1, Single, Text),
    Field(2, Single, Text),
    Field(3, Single, UINT16),
    Field(4, Single, UINT32),
    Field(5, Single, BOOL),
];

const GET_DESTINATION: [Field; 3] = [
    Field(1, Single, Text),
    Field(2, Single, Text),
    Field(3, Single, Text),
];

const PORT_SPEC: [Field; 2] = [Field(1, Single, Text), Field(2, Single, UINT16)];

const TRAFFIC_SPEC: [Field; 3] = [
    Field(1, Single, Text),
    Field(2, Choice, Message(Schema::TcpAddress)),
    Field(3, Choice, Text),
];

const SERVER_UPDATE: [Field; 3] = [
    Field(1, Choice, Message(Schema::Server)),
    Field(2, Choice, Message(Schema::AuthzSet)),
    Field(3, Choice, Message(Schema::AuthzKeys)),
];

const AUTHZ_SET: [Field; 1] = [Field(1, Repeated, Message(Schema::Authz))];

const AUTHZ_KEYS: [Field; 1] = [Field(1, Repeated, Message(Schema::AuthzKey))];

const AUTHZ_KEY: [Field; 2] = [Field(1, Single, ONE_OF_TWO), Field(2, Single, Text)];

/// Returns the fields of a message type.
pub fn fields(schema: Schema) -> &'static [Field]
    ensures { result.now ≡ fields_of schema }
{
    match schema {
        Schema::Update => &UPDATE,
        Schema::WeightedAddrSet => &WEIGHTED_ADDR_SET,
        Schema::AddrSet => &ADDR_SET,
        Schema::NoEndpoints => &NO_ENDPOINTS,
        Schema::WeightedAddr => &WEIGHTED_ADDR,
        Schema::MetricLabel => &METRIC_LABEL,
        Schema::TcpAddress => &TCP_ADDRESS,
        Schema::IpAddress => &IP_ADDRESS,
        Schema::Ipv6 => &IPV6,
        Schema::TlsIdentity => &TLS_IDENTITY,
        Schema::DnsLikeIdentity => &DNS_LIKE_IDENTITY,
        Schema::ProtocolHint => &PROTOCOL_HINT,
        Schema::Empty => &EMPTY,
        Schema::OpaqueTransport => &OPAQUE_TRANSPORT,
        Schema::DestinationProfile => &DESTINATION_PROFILE,
        Schema::ProfileRoute => &PROFILE_ROUTE,
        Schema::RequestMatch => &REQUEST_MATCH,
        Schema::RequestSeq => &REQUEST_SEQ,
        Schema::PathRegex => &PATH_REGEX,
        Schema::HttpMethod => &HTTP_METHOD,
        Schema::ResponseClass => &RESPONSE_CLASS,
        Schema::ResponseMatch => &RESPONSE_MATCH,
        Schema::ResponseSeq => &RESPONSE_SEQ,
        Schema::StatusRange => &STATUS_RANGE,
        Schema::WeightedDst => &WEIGHTED_DST,
        Schema::Duration => &DURATION,
        Schema::IpNetwork => &IP_NETWORK,
        Schema::Server => &SERVER,
        Schema::Authz => &AUTHZ,
        Schema::Network => &NETWORK,
        Schema::Authn => &AUTHN,
        Schema::Clients => &CLIENTS,
        Schema::HttpRoute => &HTTP_ROUTE,
        Schema::RouteRule => &ROUTE_RULE,
        Schema::HttpMatch => &HTTP_MATCH,
        Schema::PathMatch => &PATH_MATCH,
        Schema::NameMatch => &NAME_MATCH,
        Schema::Filter => &FILTER,
        Schema::HeaderChange => &HEADER_CHANGE,
        Schema::NameValue => &NAME_VALUE,
        Schema::Redirect => &REDIRECT,
        Schema::OutboundPolicy => &OUTBOUND_POLICY,
        Schema::ServicePolicy => &SERVICE_POLICY,
        Schema::Forward => &FORWARD,
        Schema::Backend => &BACKEND,
        Schema::GetDestination => &GET_DESTINATION,
        Schema::PortSpec => &PORT_SPEC,
        Schema::TrafficSpec => &TRAFFIC_SPEC,
        Schema::ServerUpdate => &SERVER_UPDATE,
        Schema::AuthzSet => &AUTHZ_SET,
        Schema::AuthzKeys => &AUTHZ_KEYS,
        Schema::AuthzKey => &AUTHZ_KEY,
    }
}
