ghost use Rattle.std.specs.Prelude.{◌≡◌, IfOk};
ghost use Rattle.mesh_text.specs.Methods.{is_method, method};

use http::Method;
use http::method::MethodError;
use k8s_meta::fault::{ReadFault, What};
use k8s_meta::place::Place;
use k8s_meta::reader::Reader;
use mesh_base::memory::Memory;
use mesh_base::text::Text;
use std::alloc::Global;

/// A request method, which is a token (RFC 9110, section 9.1).
#[derive(Clone, Copy)]
pub struct MethodText;

impl Reader for MethodText {
    type Made = Text;

    ghost reading = { λ _. method };

    #[tactic(auto, unfolding(k8s_meta::specs::Spots::then, crate::specs::Methods::method))]
    fn read<'a>(&self, place: &'a Place<'a>) -> Result<Text, ReadFault> {
        let text = place.text()?;
        if is_method(place.alloc(), text)? {
            Ok(Text::from_str(place.alloc(), text)?)
        } else {
            Err(place.bad_value(What::Method))
        }
    }
}

#[tactic(auto, using(crate::proofs::Tokens::invalid, crate::proofs::Tokens::valid))]
fn is_method(alloc: Global, text: &str) -> Result<bool, Memory>
    ensures { IfOk result (λ b. b ≡ is_method text.now) }
{
    match Method::from_bytes(alloc, text.as_bytes()) {
        Ok(_) => Ok(true),
        Err(MethodError::Invalid) => Ok(false),
        Err(MethodError::OutOfMemory) => Err(Memory),
    }
}
