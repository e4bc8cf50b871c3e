ghost use Rattle.std.specs.Prelude.{◌≡◌, ◌++◌, OnOk, option_to_list};

use mesh_base::list::List;
use mesh_base::memory::Memory;

/// Appends a part, if there is one.
pub fn add_some<T: Drop>(parts: &mut List<T>, part: Option<T>) -> Result<(), Memory>
    ensures { OnOk result (parts.new ≡ parts.old ++ option_to_list part) }
{
    match part {
        Some(part) => parts.add(part),
        None => Ok(()),
    }
}
