ghost use Rattle.std.specs.Prelude.{◌≡◌};
ghost use Rattle.std.specs.Cmp.Lexicographic.{slice_cmp};
ghost use Rattle.std.specs.Ordering.{is_gt, nat_cmp};
ghost use Rattle.route_match.specs.Matching.{merit, path_merit, trimmed};

use view_types::route::{HttpMatch, PathMatch};

/// Returns the merit of a match: the greater the better, the first number first.
pub(crate) fn merit(item: &HttpMatch) -> [usize; 5]
    ensures { result ≡ merit item.now }
{
    let (class, length) = path_merit(&item.path);
    [
        class,
        length,
        item.method.is_some() as usize,
        item.headers.len(),
        item.query.len(),
    ]
}

pub(crate) fn is_more(merit: &[usize; 5], other: &[usize; 5]) -> bool
    ensures { result ≡ is_gt (slice_cmp nat_cmp merit.now other.now) }
{
    merit.as_slice().cmp(other.as_slice()).is_gt()
}

fn path_merit(path: &PathMatch) -> (usize, usize)
    ensures { result ≡ path_merit path.now }
{
    match path {
        PathMatch::Exact(_) => (2, 0),
        PathMatch::Prefix(string) => (1, trimmed(string.as_bytes()).len()),
        PathMatch::Regex(_) => (0, 0),
    }
}

/// Returns a prefix without its last `/`.
pub(crate) fn trimmed(prefix: &[u8]) -> &[u8]
    ensures { result.now ≡ trimmed prefix.now }
{
    match prefix {
        [front @ .., b'/'] => front,
        _ => prefix,
    }
}
