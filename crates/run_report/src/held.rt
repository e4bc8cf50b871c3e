// The number of held objects, by kind.
use mesh_base::key::Kind;
use std::fmt;
use std::fmt::{Display, Formatter};

const KINDS: usize = 11;

// The kinds, with their names in Kubernetes.
static NAMES: [(Kind, &str); KINDS] = [
    (Kind::Pod, "Pod"),
    (Kind::Service, "Service"),
    (Kind::EndpointSlice, "EndpointSlice"),
    (Kind::ServiceProfile, "ServiceProfile"),
    (Kind::Server, "Server"),
    (Kind::ServerAuthorization, "ServerAuthorization"),
    (Kind::AuthorizationPolicy, "AuthorizationPolicy"),
    (Kind::MeshTLSAuthentication, "MeshTLSAuthentication"),
    (Kind::NetworkAuthentication, "NetworkAuthentication"),
    (Kind::LinkerdRoute, "HTTPRoute of policy.linkerd.io"),
    (Kind::GatewayRoute, "HTTPRoute of gateway.networking.k8s.io"),
];

fn name_at(place: usize) -> &'static str {
    match NAMES.get(place) {
        Some((_, name)) => name,
        None => "",
    }
}

/// The number of held objects of each kind.
#[derive(Clone, Copy)]
pub struct HeldObjects {
    counts: [u64; KINDS],
}

impl HeldObjects {
    /// No objects.
    pub const NONE: HeldObjects = HeldObjects { counts: [0; KINDS] };

    /// Counts an object of a kind.
    pub fn add(&mut self, kind: Kind) {
        for (place, (named, _)) in NAMES.iter().enumerate() {
            if *named == kind {
                self.counts[place] = self.counts[place].saturating_add(1);
            }
        }
    }

    /// Returns the number of held objects.
    pub fn total(&self) -> u64 {
        let mut total: u64 = 0;
        for count in &self.counts {
            total = total.saturating_add(*count);
        }
        total
    }
}

/// Formats the kinds that are held with their numbers of objects, such as `Pod (1), Service (2)`.
impl Display for HeldObjects {
    fn fmt<W: fmt::Write>(&self, f: &mut Formatter<W>) -> fmt::Result {
        let mut before = "";
        for (place, count) in self.counts.iter().enumerate() {
            if *count > 0 {
                write!(f, "{before}{} ({})", name_at(place), *count)?;
                before = ", ";
            }
        }
        Ok(())
    }
}
