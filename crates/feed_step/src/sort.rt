ghost use Rattle.std.specs.Prelude.{◌≡◌};
ghost use Rattle.feed_step.specs.Sorts.{sort_in};

use watch_events::line::Line;

/// What a line asks for. A program that answers each line of some sorts needs no more of it.
#[derive(Clone, Copy, Debug, PartialEq, Eq, Drop)]
pub enum Sort {
    /// Nothing: the line is blank.
    Nothing,
    /// An event is to be applied.
    Event,
    /// A subscription is to begin or to end, or is to be sent what it is due.
    Subscription,
    /// The verdict on a request is to be returned.
    Verdict,
    /// A server is to end.
    Stop,
}

/// Returns what a line asks for.
pub fn sort_of(line: &Line) -> Sort
    ensures { result ≡ sort_in line.now }
{
    match line {
        Line::Blank => Sort::Nothing,
        Line::Event(_) => Sort::Event,
        Line::Subscribe { .. } | Line::Cancel { .. } | Line::Drain { .. } => Sort::Subscription,
        Line::Simulate(_) => Sort::Verdict,
        Line::Stop => Sort::Stop,
    }
}
