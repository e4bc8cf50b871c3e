ghost use Rattle.std.specs.Prelude.{◌≡◌};
ghost use Rattle.mesh_text.specs.Groups.{is_core};

/// Whether the string is the API group of the core kinds, which is written in two ways.
pub fn is_core(group: &str) -> bool
    ensures { result ≡ is_core group.now }
{
    group.is_empty() || group == "core"
}
