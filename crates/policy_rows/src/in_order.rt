ghost use Rattle.std.specs.Prelude.{◌≡◌, IfOk};
ghost use Rattle.std.specs.Cmp.Lexicographic.{slice_cmp};
ghost use Rattle.std.specs.Ordering.{is_eq, nat_cmp};
ghost use Rattle.view_rules.specs.InOrder.{in_byte_order};

use mesh_base::list::List;
use mesh_base::memory::Memory;
use mesh_base::text::Text;
use std::cmp::Ordering;

/// Sorts the strings in byte order, and removes duplicates.
pub(crate) fn in_byte_order(strings: Vec<Text>) -> Result<List<Text>, Memory>
    ensures { IfOk result (λ list. list ≡ in_byte_order strings.items) }
{
    let mut strings = strings;
    strings.sort_by(|a, b| compare_strings(a, b))?;
    strings.dedup_by(|string, kept| is_same_string(string, kept));
    Ok(List::from_vec(strings))
}

fn compare_strings(a: &Text, b: &Text) -> Ordering
    ensures { result ≡ slice_cmp nat_cmp a.now b.now }
{
    a.cmp(b)
}

fn is_same_string(a: &Text, b: &Text) -> bool
    ensures { result ≡ is_eq (slice_cmp nat_cmp a.now b.now) }
{
    compare_strings(a, b) == Ordering::Equal
}
