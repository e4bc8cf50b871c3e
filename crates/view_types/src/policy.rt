ghost use Rattle.std.specs.Prelude.{◌≡◌, ◌↔◌, IsTrue};

use mesh_base::same::Same;

/// What a server admits when no authorization decides.
#[derive(Clone, Copy, PartialEq, Eq)]
pub enum Policy {
    AllUnauthenticated,
    AllAuthenticated,
    ClusterUnauthenticated,
    ClusterAuthenticated,
    Deny,
    Audit,
}

/// The protocol of a server.
#[derive(Clone, Copy, PartialEq, Eq)]
pub enum Protocol {
    Unknown,
    Http1,
    Http2,
    Grpc,
    Opaque,
    Tls,
}

impl Same for Policy {
    fn is_same(&self, other: &Policy) -> bool {
        *self == *other
    }
}

impl Same for Protocol {
    fn is_same(&self, other: &Protocol) -> bool {
        *self == *other
    }
}
