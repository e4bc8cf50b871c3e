ghost use Rattle.std.specs.Prelude.{◌≡◌, Some, option_map};
ghost use Rattle.serde_json.specs.View.{view};
ghost use Rattle.k8s_meta.specs.Words.{if_utf8, string_in};

use serde_json::Value;

/// Returns the string, or None if the value is not a string.
#[tactic(auto, unfolding(crate::specs::Words::string_in))]
pub fn string_in(value: &Value) -> Option<&str>
    ensures { option_map (λ s. s.now) result ≡ string_in (view value.now) }
{
    match value.as_str() {
        Some(text) => Some(same_text(text)),
        None => None,
    }
}

/// Returns the string unchanged: a `str` is UTF-8.
fn same_text(text: &str) -> &str
    ensures { Some result.now ≡ if_utf8 text.now }
{
    text
}
