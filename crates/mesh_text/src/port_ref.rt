ghost use Rattle.k8s_meta.specs.Spots.{Reads, seen};
ghost use Rattle.mesh_text.specs.PortRefs.{port_name, port_number, port_ref_at};

use k8s_meta::fault::{ReadFault, What};
use k8s_meta::place::Place;
use k8s_meta::reader::Reader;
use k8s_meta::words::PORT;
use mesh_base::text::Text;
use view_types::server::PortRef;

/// A port by its name or its number.
pub struct NameOrNumber;

impl Reader for NameOrNumber {
    type Made = PortRef;

    ghost reading = { λ _. port_ref_at };

    #[tactic(auto, unfolding(crate::specs::PortRefs::port_ref_at))]
    fn read<'a>(&self, place: &'a Place<'a>) -> Result<PortRef, ReadFault> {
        match place.as_text() {
            Some(text) => port_name(place, text),
            None => port_number(place),
        }
    }
}

fn port_name<'a>(place: &'a Place<'a>, text: &str) -> Result<PortRef, ReadFault>
    ensures { Reads result (port_name (seen place.now).at text.now) }
{
    if text.is_empty() {
        return Err(place.bad_value(What::Shape));
    }
    let name = Text::from_str(place.alloc(), text)?;
    Ok(PortRef::Named(name))
}

#[tactic(auto, unfolding(k8s_meta::specs::Spots::then))]
fn port_number<'a>(place: &'a Place<'a>) -> Result<PortRef, ReadFault>
    ensures { Reads result (port_number (seen place.now)) }
{
    let number = PORT.read(place)?;
    Ok(PortRef::Number(number))
}
