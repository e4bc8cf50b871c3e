// The counts of links.
use run_report::write_number;
use std::fmt;
use std::fmt::{Display, Formatter};

/// The counts of links. The counts of their traffic saturate.
#[derive(Clone, Copy, PartialEq, Eq)]
pub struct LinkCounts {
    /// The open links.
    pub links: u64,
    /// The open links whose first line names feeds.
    pub feeds: u64,
    /// The other open links on which something was written: only subscriptions are sent anything.
    pub subscriptions: u64,
    /// The lines read from feeds.
    pub lines: u64,
    /// The frames that were written completely.
    pub frames: u64,
}

impl Display for LinkCounts {
    fn fmt<W: fmt::Write>(&self, f: &mut Formatter<W>) -> fmt::Result {
        write_number(f, self.links, "link")?;
        f.write_str(", ")?;
        write_number(f, self.feeds, "feed")?;
        f.write_str(", ")?;
        write_number(f, self.subscriptions, "subscription")?;
        f.write_str(", ")?;
        write_number(f, self.lines, "line")?;
        f.write_str(", ")?;
        write_number(f, self.frames, "frame")
    }
}
