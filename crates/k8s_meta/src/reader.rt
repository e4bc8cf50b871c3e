ghost use Rattle.std.specs.Prelude.{Result};
ghost use Rattle.k8s_meta.specs.Spots.{Spot, Reads, seen};
ghost use Rattle.k8s_meta.specs.declared.fault.ReadFault.{ReadFault as Fault};

use crate::fault::ReadFault;
use crate::place::Place;

/// A word of the member tables, which reads the value at a place.
pub trait Reader {
    type Made: Drop;

    /// The definition of what is read at a spot.
    ghost reading: { Self → Spot → Result Self.Made Fault };

    fn read<'a>(&self, place: &'a Place<'a>) -> Result<Self::Made, ReadFault>
        ensures { Reads result (reading self.now (seen place.now)) };
}
