ghost use Rattle.std.specs.Prelude.{◌≡◌, IfOk, Result};
ghost use Rattle.std.specs.Option.{option_copied};
ghost use Rattle.line_run.specs.Rows.{row_of};
ghost use Rattle.k8s_meta.specs.Spots.{Spot, seen};
ghost use Rattle.watch_events.specs.Given.{Gives};
ghost use Rattle.watch_events.specs.Lawful.{IsLawfulLine};
ghost use Rattle.watch_events.specs.Lines.{is_blank, is_blank_byte, line_at, line_of, row_says, text_by, text_line};
ghost use Rattle.watch_events.specs.declared.line.Line.TheVariants as lines;
ghost use Rattle.watch_events.specs.declared.line.LineFault.{LineFault as Fault};

use crate::control::read_control;
use crate::event::Event;
use crate::form::{Form, read_form};
use crate::laws::lines_are_lawful;
use crate::line::{Line, LineFault};
use crate::plain::PlainKinds;
use k8s_meta::place::Place;
use mesh_base::limits::Limits;
use mesh_text::json::read_json;
use std::alloc::Global;
use view_types::config::Config;

/// How the value of a line is read: what `read_row_by` is given.
///
/// `read` calls `read_form` with a table of kinds, or `read_line_at` where no kind is added. Before
/// either it may look for a control line of its own.
pub trait LineReader {
    type Line: Drop;

    /// The contents of a blank line.
    ghost blank: { Self.Line };

    /// The definition of what the value of a line says.
    ghost reading: { Self → Spot → Result Self.Line Fault };

    fn blank(&self) -> Self::Line
        ensures { result ≡ blank };

    fn read<'a>(&self, line: &'a Place<'a>) -> Result<Self::Line, LineFault>
        ensures { Gives result (reading self.now (seen line.now)) };
}

/// Reads the value of a line about the kinds of objects that are held.
#[tactic(auto, unfolding(crate::specs::Reading::then, crate::specs::Lines::line_at))]
pub fn read_line_at<'a>(config: &Config, line: &'a Place<'a>) -> Result<Line, LineFault>
    ensures { Gives result (line_at config.now (seen line.now)) }
{
    match read_form(&PlainKinds, line)? {
        Form::Set { object, .. } => Ok(Line::Event(Event::Set(object))),
        Form::Delete { key, .. } => Ok(Line::Event(Event::Delete(key))),
        Form::Relist { kind, items } => Ok(Line::Event(Event::Relist { kind, items })),
        Form::Bookmark => Ok(Line::Event(Event::Bookmark)),
        Form::Control => read_control(config, line),
    }
}

/// The lines about the kinds of objects that are held.
#[derive(Clone, Copy)]
struct PlainLines<'c> {
    config: &'c Config,
}

impl LineReader for PlainLines<'_> {
    type Line = Line;

    ghost blank = { lines.Blank };

    ghost reading = { λ reader. line_at reader.config.now };

    fn blank(&self) -> Line {
        Line::Blank
    }

    fn read<'a>(&self, line: &'a Place<'a>) -> Result<Line, LineFault> {
        read_line_at(self.config, line)
    }
}

fn is_blank_byte(byte: u8) -> bool
    ensures { result ≡ is_blank_byte byte }
{
    byte == b' ' || byte == b'\t' || byte == b'\r'
}

fn is_blank(line: &[u8]) -> bool
    ensures { result ≡ is_blank line.now }
{
    line.iter().all(|byte| is_blank_byte(*byte))
}

fn read_text_by<R: LineReader>(alloc: Global, line: &[u8], reader: &R) -> Result<R::Line, LineFault>
    ensures { Gives result (text_by R.blank (R.reading reader.now) line.now) }
{
    if is_blank(line) {
        return Ok(reader.blank());
    }
    match read_json(alloc, line)? {
        Some(value) => reader.read(&Place::top(alloc, &value, "")),
        None => Err(LineFault::NotJson),
    }
}

/// Reads a row: a line, or None for one that is longer than the limit. Returns its first fault.
pub fn read_row_by<R: LineReader>(
    alloc: Global,
    row: Option<&[u8]>,
    reader: &R,
) -> Result<R::Line, LineFault>
    ensures { Gives result (row_says (text_by R.blank (R.reading reader.now))
        (option_copied row.entry)) }
{
    match row {
        Some(line) => read_text_by(alloc, line, reader),
        None => Err(LineFault::TooLong),
    }
}

#[tactic(auto, unfolding(crate::specs::Lines::text_line))]
fn read_here(alloc: Global, row: Option<&[u8]>, config: &Config) -> Result<Line, LineFault>
    ensures { Gives result (row_says (text_line config.now) (option_copied row.entry)) }
{
    read_row_by(alloc, row, &PlainLines { config })
}

/// Reads a row of lines about the kinds of objects that are held, as `read_row_by`.
pub fn read_row(alloc: Global, row: Option<&[u8]>, config: &Config) -> Result<Line, LineFault>
    ensures value { Gives result (row_says (text_line config.now) (option_copied row.entry)) }
    ensures lawful { IfOk result IsLawfulLine }
{
    lines_are_lawful();
    read_here(alloc, row, config)
}

/// Returns the row of a line: None if it is longer than the limit.
pub fn row_of<'a>(line: &'a [u8], limits: &Limits) -> Option<&'a [u8]>
    ensures { option_copied result ≡ row_of limits.now.line line.now }
{
    if line.len() as u64 <= limits.line {
        Some(line)
    } else {
        None
    }
}

/// Reads a line. Returns its first fault.
pub fn read_line(
    alloc: Global,
    line: &[u8],
    config: &Config,
    limits: &Limits,
) -> Result<Line, LineFault>
    ensures value { Gives result (line_of config.now limits.now line.now) }
    ensures lawful { IfOk result IsLawfulLine }
{
    read_row(alloc, row_of(line, limits), config)
}
