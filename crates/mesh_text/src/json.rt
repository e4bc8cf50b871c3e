ghost use Rattle.std.specs.Prelude.{◌≡◌, IfOk, option_map};
ghost use Rattle.serde_json.specs.View.{view};
ghost use Rattle.mesh_text.specs.Json.{json_of};

use mesh_base::memory::Memory;
use serde_json::Value;
use std::alloc::Global;

/// Parses the bytes as JSON. None if they are not valid JSON.
#[tactic(auto, unfolding(crate::specs::Json::json_of))]
pub fn read_json(alloc: Global, bytes: &[u8]) -> Result<Option<Value>, Memory>
    ensures { IfOk result (λ value. option_map view value ≡ json_of bytes.now) }
{
    match Value::from_slice(alloc, bytes) {
        Ok(value) => Ok(Some(value)),
        Err(error) => {
            if error.is_memory() {
                Err(Memory)
            } else {
                Ok(None)
            }
        }
    }
}
