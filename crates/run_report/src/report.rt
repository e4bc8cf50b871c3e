// The report at the end of a run.
use crate::cause::Hint;
use crate::command::{Command, CommandLine};
use crate::feed::FeedNotes;
use crate::held::HeldObjects;
use crate::input::InputCounts;
use crate::missing_kinds::MissingKinds;
use crate::output::OutputCounts;
use crate::refusals::OutputNotes;
use line_run::Status;
use mesh_base::limits::Limits;
use std::fmt::{Display, Formatter};
use std::io::ErrorKind;
use std::time::Duration;
use std::{fmt, io};

/// The counts, the records and the duration of a run.
#[derive(Clone, Copy)]
pub struct Run<'a> {
    pub command_line: CommandLine<'a>,
    pub read: InputCounts,
    pub feed: &'a FeedNotes,
    pub written: OutputCounts,
    pub output: &'a OutputNotes,
    /// The objects that a replay holds at its end.
    pub held: HeldObjects,
    /// None if the clock failed.
    pub elapsed: Option<Duration>,
}

/// The report at the end: failures, warnings, and on a terminal one line of counts.
#[derive(Clone, Copy, Drop)]
pub struct Report<'a> {
    pub status: Status,
    /// The error of the system, if reading or writing failed.
    pub error: Option<io::Error>,
    /// None if no command was run.
    pub run: Option<Run<'a>>,
    /// Whether standard error is a terminal.
    pub is_terminal: bool,
}

impl Report<'_> {
    // Whether the reader of standard output has closed it.
    fn is_closed(&self) -> bool {
        match self.error {
            Some(error) => {
                self.status == Status::WriteFault && error.kind() == ErrorKind::BrokenPipe
            }
            None => false,
        }
    }

    fn write_failure<W: fmt::Write>(&self, what: &str, f: &mut Formatter<W>) -> fmt::Result {
        match self.error {
            Some(error) => write!(f, "linkerd_cli: {what} failed: {error}\n"),
            None => write!(f, "linkerd_cli: {what} failed\n"),
        }
    }

    fn write_cause<W: fmt::Write>(&self, f: &mut Formatter<W>) -> fmt::Result {
        match self.status {
            Status::Done | Status::SomeRefused | Status::Usage => Ok(()),
            Status::Memory => f.write_str("linkerd_cli: out of memory\n"),
            Status::ReadFault => self.write_failure("reading standard input", f),
            Status::WriteFault if self.is_closed() => {
                f.write_str("linkerd_cli: standard output was closed\n")
            }
            Status::WriteFault => self.write_failure("writing standard output", f),
            Status::InputTooLong => {
                let limit = Limits::USUAL.input;
                write!(
                    f,
                    "linkerd_cli: standard input has the limit of {limit} bytes or more\n"
                )
            }
        }
    }
}

impl Display for Report<'_> {
    fn fmt<W: fmt::Write>(&self, f: &mut Formatter<W>) -> fmt::Result {
        self.write_cause(f)?;
        let Some(run) = &self.run else {
            return Ok(());
        };
        if self.is_closed() {
            return Ok(());
        }
        run.write_refused(f)?;
        run.write_feed(self.status, f)?;
        if self.is_terminal {
            run.write_whole(f)?;
        }
        Ok(())
    }
}

impl Run<'_> {
    fn write_refused<W: fmt::Write>(&self, f: &mut Formatter<W>) -> fmt::Result {
        let Some(first) = self.output.first_refused() else {
            return Ok(());
        };
        let refused = self.written.refused();
        f.write_str("linkerd_cli: warning: ")?;
        write_number(f, refused, "line")?;
        f.write_str(if refused == 1 {
            " was refused"
        } else {
            " were refused"
        })?;
        if refused > 1 && self.written.not_json > 0 {
            write!(f, ", {} as NotJson", self.written.not_json)?;
        }
        write!(f, ", the first is {first}\n")
    }

    // Returns the hint on the first refused line.
    fn hint(&self) -> Option<Hint<'_>> {
        let first = self.output.first_refused()?;
        self.feed.lines.hint(&first)
    }

    // Writes warnings about missing kinds and mistakes in a feed.
    fn write_feed<W: fmt::Write>(&self, status: Status, f: &mut Formatter<W>) -> fmt::Result {
        if !self.command_line.command.reads_feed() {
            return Ok(());
        }
        if let Some(hint) = self.hint() {
            return write!(f, "{hint}");
        }
        if let Some(list) = &self.feed.lines.list {
            write!(f, "{list}")?;
        }
        let is_whole = status == Status::Done || status == Status::SomeRefused;
        if !is_whole || self.feed.lines.is_unsure {
            return Ok(());
        }
        if self.command_line.command == Command::Replay {
            self.write_unsubscribed(f)
        } else {
            self.write_missing_kinds(f)
        }
    }

    // Reports that a feed has no subscriptions and no simulations.
    fn write_unsubscribed<W: fmt::Write>(&self, f: &mut Formatter<W>) -> fmt::Result {
        if self.feed.lines.has_request {
            return Ok(());
        }
        f.write_str("linkerd_cli: no line subscribed or simulated, so nothing was sent: ")?;
        if self.held.total() == 0 {
            f.write_str("no object is held\n")
        } else {
            write!(f, "held are {}\n", self.held)
        }
    }

    fn write_missing_kinds<W: fmt::Write>(&self, f: &mut Formatter<W>) -> fmt::Result {
        let missing = MissingKinds::of(self.command_line, &self.feed.lines.kinds);
        if missing.is_some() {
            write!(f, "{missing}")
        } else {
            Ok(())
        }
    }

    fn write_whole<W: fmt::Write>(&self, f: &mut Formatter<W>) -> fmt::Result {
        write!(f, "linkerd_cli {}: ", self.command_line.command.name())?;
        if self.read.was_asked {
            self.write_counts(f)?;
        }
        self.write_time(f)
    }

    fn write_counts<W: fmt::Write>(&self, f: &mut Formatter<W>) -> fmt::Result {
        write_number(f, self.read.lines.count, "line")?;
        write!(f, ", {} refused, ", self.written.refused())?;
        if self.command_line.command == Command::Replay {
            write_number(f, self.written.frames(), "frame")?;
            f.write_str(", ")?;
            write_number(f, self.output.verdicts, "verdict")?;
            f.write_str(", ")?;
            write_number(f, self.held.total(), "object")?;
            f.write_str(" held")?;
        } else {
            write_number(f, self.written.frames(), "view")?;
        }
        f.write_str(", ")
    }

    fn write_time<W: fmt::Write>(&self, f: &mut Formatter<W>) -> fmt::Result {
        match self.elapsed {
            Some(elapsed) => {
                let hundredths = elapsed.subsec_millis() / 10;
                write!(f, "{}.{hundredths:02} s\n", elapsed.as_secs())
            }
            None => f.write_str("time unknown\n"),
        }
    }
}

/// Writes a number and the name of a thing, as "1 line" or "2 lines".
pub fn write_number<W: fmt::Write>(f: &mut Formatter<W>, number: u64, thing: &str) -> fmt::Result {
    if number == 1 {
        write!(f, "1 {thing}")
    } else {
        write!(f, "{number} {thing}s")
    }
}
