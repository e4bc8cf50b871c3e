// Where the last object of each kind was found, set or removed.
ghost use Rattle.std.specs.Prelude.{◌≡◌, ◌<◌};
ghost use Rattle.mesh_base.specs.KeyOrder.{kind_place};

use mesh_base::key::Kind;
use std::cell::Cell;

/// The index at which the last object of each kind was found, set or removed. Calls in the order of
/// the keys find each object, or the place of a new one, at this index or the next one, without a
/// search. It is a hint: no clause reads it.
#[derive(Drop)]
pub struct LastPlaces {
    of_kinds: [Cell<usize>; 11],
}

impl LastPlaces {
    pub fn new() -> LastPlaces {
        LastPlaces {
            of_kinds: [
                Cell::new(0),
                Cell::new(0),
                Cell::new(0),
                Cell::new(0),
                Cell::new(0),
                Cell::new(0),
                Cell::new(0),
                Cell::new(0),
                Cell::new(0),
                Cell::new(0),
                Cell::new(0),
            ],
        }
    }

    /// Returns the index for a kind.
    pub fn of(&self, kind: Kind) -> &Cell<usize> {
        &self.of_kinds[place_of(kind)]
    }
}

/// Returns the position of the kind among the kinds.
pub fn place_of(kind: Kind) -> usize
    ensures place { result ≡ kind_place kind }
    ensures bound { result < 11 }
{
    match kind {
        Kind::Pod => 0,
        Kind::Service => 1,
        Kind::EndpointSlice => 2,
        Kind::ServiceProfile => 3,
        Kind::Server => 4,
        Kind::ServerAuthorization => 5,
        Kind::AuthorizationPolicy => 6,
        Kind::MeshTLSAuthentication => 7,
        Kind::NetworkAuthentication => 8,
        Kind::LinkerdRoute => 9,
        Kind::GatewayRoute => 10,
    }
}
