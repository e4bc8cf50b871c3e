// The progress of a run, on a line of a terminal that is overwritten.
use crate::clock::{EachSecond, StartTime};
use crate::command::Command;
use std::fmt;
use std::fmt::{Display, Formatter};
use std::io::{Cursor, Write};
use std::time::Clock;

// Spaces that overwrite the longest line, between two carriage returns.
const CLEARED: &[u8] = b"\r                                     \r";

// Clears the line of a terminal.
pub(crate) fn clear_line<W: Write>(screen: &mut W) {
    let _ = screen.write_all(CLEARED);
}

// Writes the line for a number of bytes read, with one write.
fn show_line<W: Write>(screen: &mut W, command: Command, bytes: u64) {
    let mut line = [0; 64];
    let mut cursor = Cursor::new(line.as_mut_slice());
    let name = command.name();
    if write!(cursor, "\rlinkerd_cli {name}: {} read", Megabytes(bytes)).is_err() {
        return;
    }
    let len = cursor.position() as usize;
    let _ = screen.write_all(line.get(..len).unwrap_or(b""));
}

/// A line of a terminal with the bytes read, updated at most once in each second after the first.
#[derive(Drop)]
pub struct Progress<C, W> {
    due: EachSecond<C>,
    command: Command,
    pub screen: W,
}

impl<C: Clock, W: Write> Progress<C, W> {
    pub fn new(clock: C, start: StartTime, command: Command, screen: W) -> Progress<C, W> {
        Progress {
            due: EachSecond::new(clock, start),
            command,
            screen,
        }
    }

    /// Shows the number of bytes read, if an update is due.
    pub fn show(&mut self, bytes: u64) {
        if self.due.is_due() {
            show_line(&mut self.screen, self.command, bytes);
        }
    }

    /// Clears the line.
    pub fn clear(&mut self) {
        if self.due.was_due() {
            clear_line(&mut self.screen);
        }
    }
}

// A number of bytes in megabytes (10^6 bytes), rounded down to tenths.
#[derive(Clone, Copy, Drop)]
pub(crate) struct Megabytes(pub(crate) u64);

impl Display for Megabytes {
    fn fmt<W: fmt::Write>(&self, f: &mut Formatter<W>) -> fmt::Result {
        let tenths = self.0 / 100_000;
        write!(f, "{}.{} MB", tenths / 10, tenths % 10)
    }
}
