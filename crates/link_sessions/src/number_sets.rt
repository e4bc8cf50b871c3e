// Sets of numbers of links.
ghost use Rattle.std.specs.Prelude.{OnOk};
ghost use Rattle.std.specs.BTreeSet.{Updates, contains};
ghost use Rattle.std.specs.Ordering.{nat_cmp};
ghost use Rattle.link_sessions.specs.Sets.{IsFirstFrom};

use mesh_base::memory::Memory;
use std::collections::BTreeSet;

/// Returns the least number in a set that is not below `from`.
pub fn first_from(numbers: &BTreeSet<u32>, from: u32) -> Option<u32>
    ensures { IsFirstFrom (contains nat_cmp numbers.now) from result }
{
    numbers.range(from..).next().copied()
}

/// Inserts a number into a set, or removes it.
pub fn set_member(numbers: &mut BTreeSet<u32>, number: u32, is_member: bool) -> Result<(), Memory>
    ensures { OnOk result (Updates nat_cmp numbers.old numbers.new number is_member) }
{
    if is_member {
        numbers.insert(number)?;
    } else {
        numbers.remove(&number);
    }
    Ok(())
}
