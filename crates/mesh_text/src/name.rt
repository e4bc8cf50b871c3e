ghost use Rattle.std.specs.Prelude.{◌≡◌, IfOk, IsTrue};
ghost use Rattle.k8s_meta.specs.Scalars.{is_name};
ghost use Rattle.mesh_text.specs.Names.{is_dotless};

use k8s_meta::names::is_label_within;
use mesh_base::memory::Memory;
use mesh_base::text::Text;
use std::alloc::Global;

/// Whether the bytes are a possible name without a dot.
#[tactic(auto, unfolding(crate::specs::Names::is_dotless))]
pub fn is_dotless(text: &[u8]) -> bool
    ensures { result ≡ is_dotless text.now }
{
    is_label_within(text, 253)
}

/// Converts a name to a string.
pub fn name_text(alloc: Global, name: &[u8]) -> Result<Text, Memory>
    requires { IsTrue (is_name name.now) }
    ensures { IfOk result (λ text. text ≡ name.now) }
{
    let Ok(text) = str::from_utf8(name) else {
        unreachable!()
    };
    Text::from_str(alloc, text)
}
