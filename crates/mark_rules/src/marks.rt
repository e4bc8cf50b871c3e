ghost use Rattle.std.specs.Prelude.{◌≡◌};
ghost use Rattle.mark_rules.specs.Marks.{has_mark, mark_cmp, meets, same_mark};

use std::cmp::Ordering;
use view_types::mark::Mark;

/// Compares marks of one variant by their fields, and others by their variants.
pub fn compare_marks(a: &Mark, b: &Mark) -> Ordering
    ensures { result ≡ mark_cmp a.now b.now }
{
    a.cmp(b)
}

/// Whether two marks are the same.
pub fn is_same_mark(a: &Mark, b: &Mark) -> bool
    ensures { result ≡ same_mark a.now b.now }
{
    compare_marks(a, b) == Ordering::Equal
}

/// Whether the list contains the mark.
pub fn has_mark(marks: &[Mark], mark: &Mark) -> bool
    ensures { result ≡ has_mark marks.now mark.now }
{
    marks.iter().any(|other| is_same_mark(mark, other))
}

/// Whether the two lists share a mark.
pub fn meets(asked: &[Mark], changed: &[Mark]) -> bool
    ensures { result ≡ meets asked.now changed.now }
{
    asked.iter().any(|mark| has_mark(changed, mark))
}
