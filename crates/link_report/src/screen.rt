// A line of a terminal that is overwritten.
use crate::counts::LinkCounts;
use crate::tally::LinkTally;
use run_report::{EachSecond, StartTime};
use std::alloc::Global;
use std::io::{Cursor, Write};
use std::time::Clock;

const WIDTH: usize = 160;

/// A line of a terminal that shows the counts of links, at most once in each second after the
/// first.
#[derive(Drop)]
pub struct LinkScreen<C, W> {
    pub(crate) tally: LinkTally,
    due: EachSecond<C>,
    pub screen: W,
    // The longest line that was shown.
    width: usize,
}

impl<C: Clock, W: Write> LinkScreen<C, W> {
    pub fn new(alloc: Global, clock: C, start: StartTime, screen: W) -> LinkScreen<C, W> {
        LinkScreen {
            tally: LinkTally::new(alloc),
            due: EachSecond::new(clock, start),
            screen,
            width: 0,
        }
    }

    /// Returns the traffic of the links so far.
    pub fn counts(&self) -> LinkCounts {
        self.tally.counts()
    }

    // Shows the counts if a second has passed since they were last shown.
    pub(crate) fn show(&mut self) {
        if self.due.is_due() {
            self.show_line();
        }
    }

    // Writes the counts over the previous line, with one write.
    fn show_line(&mut self) {
        let mut line = [b' '; WIDTH];
        let mut cursor = Cursor::new(line.as_mut_slice());
        let counts = self.counts();
        if write!(cursor, "\rlinkerd_cli serve: {counts}").is_err() {
            return;
        }
        let len = cursor.position() as usize;
        self.width = self.width.max(len);
        let _ = self.screen.write_all(line.get(..self.width).unwrap_or(b""));
    }

    // Clears the line.
    pub(crate) fn clear(&mut self) {
        if self.width == 0 {
            return;
        }
        let mut line = [b' '; WIDTH];
        line[0] = b'\r';
        let _ = self.screen.write_all(line.get(..self.width).unwrap_or(b""));
        let _ = self.screen.write_all(b"\r");
        self.width = 0;
    }
}
