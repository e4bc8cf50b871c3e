/// Why there is no best match.
#[derive(Clone, Copy, Debug, PartialEq, Eq)]
pub enum MatchFault {
    Memory,
    /// A regular expression of the match at these indexes is refused.
    Refused {
        route: usize,
        rule: usize,
        item: usize,
    },
}
