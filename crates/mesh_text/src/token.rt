ghost use Rattle.std.specs.Prelude.{◌≡◌, IfOk};
ghost use Rattle.serde_json.specs.View.{view};
ghost use Rattle.mesh_text.specs.Contexts.{context_of, text_at};

use crate::json::read_json;
use mesh_base::memory::Memory;
use mesh_base::text::Text;
use serde_json::Value;
use std::alloc::Global;
use view_types::query::Context;

/// Reads a context token: the members `ns` and `nodeName` of a JSON object, each None unless it is
/// a string. Both are None for other bytes.
#[tactic(auto, unfolding(crate::specs::Contexts::context_of))]
pub fn read_context(alloc: Global, token: &[u8]) -> Result<Context, Memory>
    ensures { IfOk result (λ ctx. ctx ≡ context_of token.now) }
{
    match read_json(alloc, token)? {
        Some(value) => Ok(Context {
            ns: text_at(alloc, &value, "ns")?,
            node: text_at(alloc, &value, "nodeName")?,
        }),
        None => Ok(Context {
            ns: None,
            node: None,
        }),
    }
}

fn text_at(alloc: Global, value: &Value, key: &str) -> Result<Option<Text>, Memory>
    ensures { IfOk result (λ text. text ≡ text_at key.now (view value.now)) }
{
    let Some(member) = value.get(key) else {
        return Ok(None);
    };
    match member.as_str() {
        Some(text) => Ok(Some(Text::from_str(alloc, text)?)),
        None => Ok(None),
    }
}
