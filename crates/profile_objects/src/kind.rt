ghost use Rattle.std.specs.Prelude.{◌≡◌, List as Items, Result};
ghost use Rattle.k8s_meta.specs.Spots.{Reads, seen};
ghost use Rattle.profile_objects.specs.Matches.{MatchKind as Kind};

use k8s_meta::fault::ReadFault;
use k8s_meta::place::Place;
use mesh_base::boxed::Boxed;
use mesh_base::list::List;

/// A kind of match: its own members, and how matches of the kind are combined.
pub trait MatchKind {
    type Made: Drop;

    ghost kind: { Self → Kind Self.Made };

    fn own<'a>(&self, place: &'a Place<'a>) -> Result<List<Self::Made>, ReadFault>
        ensures { Reads result ((kind self.now).own (seen place.now)) };

    /// Combines parts that must all match.
    fn all(&self, parts: List<Self::Made>) -> Self::Made
        ensures { result ≡ (kind self.now).all parts };

    /// Combines parts of which one must match.
    fn any(&self, parts: List<Self::Made>) -> Self::Made
        ensures { result ≡ (kind self.now).any parts };

    /// Negates a part.
    fn negated(&self, part: Boxed<Self::Made>) -> Self::Made
        ensures { result ≡ (kind self.now).negated part };
}
