ghost use Rattle.std.specs.Prelude.{◌≡◌, IfOk, IfSome, Option as TheOption, Result as TheResult};
ghost use Rattle.std.specs.Option.{option_copied};
ghost use Rattle.mesh_base.specs.declared.limits.Limits.{Limits};
ghost use Rattle.watch_events.specs.Lawful.{IsLawfulLine};
ghost use Rattle.route_match.specs.Matching.{Pat};
ghost use Rattle.view_types.specs.Objects.{ObjectMap};
ghost use Rattle.feed_history.specs.Program.{has_place_in_replay};
ghost use Rattle.feed_step.specs.Reading.{IsUnread};

use feed_history::refusal::Refusal;
use mesh_base::memory::Memory;
use std::alloc::Global;
use view_types::config::Config;
use watch_events::event::Event;
use watch_events::line::{Line, LineFault};
use watch_events::read::read_row;

/// Reads the rows of a feed as a program does, which may complete a line by the objects that the
/// machine holds. The reader then keeps what it needs of them, and is told of each accepted event.
pub trait RowReader {
    ghost use Rattle.line_run.specs.Rows.{Row};
    ghost use Rattle.feed_history.specs.Events.{objects_after};
    ghost use Rattle.feed_history.specs.Program.{Program};
    ghost use Rattle.feed_history.specs.declared.refusal.Refusal.{Refusal as TheRefusal};
    ghost use Rattle.watch_events.specs.declared.event.Event.{Event as TheEvent};
    ghost use Rattle.watch_events.specs.declared.line.Line.{Line as TheLine};

    /// What is kept of an event until it is accepted.
    type Note: Drop;

    /// The program, under these limits and with these patterns.
    ghost program: { Self → Limits → Pat → Program };

    /// What the reader keeps is that of these objects.
    ghost follows: { Self → ObjectMap → Type 0 };

    /// What rows say, if it depends on the rows alone and each line but `stop` has a place.
    ghost alone: { Self → TheOption (Row → TheResult TheLine TheRefusal) };

    /// The note is that of this event.
    ghost notes: { Self → TheEvent → Self.Note → Type 0 };

    /// Reads a row. Returns the refusal of one that cannot be read.
    fn read(&self, alloc: Global, row: Option<&[u8]>) -> Result<Result<Line, Refusal>, Memory>
        ensures over { (limits : Limits) (pat : Pat) (held : ObjectMap) → follows self.now held
            → IfOk result (λ read.
            read ≡ (program self.now limits pat).reads held (option_copied row.entry)) }
        ensures alone { IfSome (alone self.now) (λ reads.
            IfOk result (λ read. read ≡ reads (option_copied row.entry))) }
        ensures lawful { IfOk result (λ read. IfOk read IsLawfulLine) };

    /// Whether a line has a place in the program.
    fn has_place(&self, line: &Line) -> bool
        ensures place { (limits : Limits) (pat : Pat)
            → result ≡ (program self.now limits pat).has_place line.now }
        ensures alone { IfSome (alone self.now) (λ reads.
            result ≡ has_place_in_replay line.now) };

    /// Returns what is to be kept of an event, before the machine is given it.
    fn note(&self, event: &Event) -> Result<Self::Note, Memory>
        ensures { IfOk result (notes self.now event.now) };

    /// Keeps what was noted of an event, which was accepted.
    fn take(&mut self, note: Self::Note)
        ensures follows { (held : ObjectMap) (event : TheEvent) → follows self.old held
            → notes self.old event note → follows self.new (objects_after held event) }
        ensures program { (limits : Limits) (pat : Pat)
            → program self.new limits pat ≡ program self.old limits pat }
        ensures alone { alone self.new ≡ alone self.old };
}

/// Reads each row by itself, as `replay` does.
#[derive(Drop)]
pub struct Plain<'c> {
    pub config: &'c Config,
}

// Whether a line has a place in a replay.
fn has_place(line: &Line) -> bool
    ensures { result ≡ has_place_in_replay line.now }
{
    !matches!(line, Line::Stop)
}

// Returns the refusal of a row that cannot be read.
fn unread(fault: LineFault) -> Result<Result<Line, Refusal>, Memory>
    ensures { IfOk result (IsUnread fault) }
{
    match fault {
        LineFault::Memory => Err(Memory),
        fault => Ok(Err(Refusal::Line(fault))),
    }
}

impl RowReader for Plain<'_> {
    ghost use Rattle.std.specs.Prelude.{Some};
    ghost use Rattle.watch_events.specs.Lines.{row_says, text_line};
    ghost use Rattle.feed_history.specs.Program.{refused_unread, replay_of};

    type Note = ();

    ghost program = { λ plain limits pat. replay_of plain.config.now limits pat };

    ghost follows = { λ plain held. Unit {0} };

    ghost alone = { λ plain. Some (λ row.
        refused_unread (row_says (text_line plain.config.now) row)) };

    ghost notes = { λ plain event note. Unit {0} };

    fn read(&self, alloc: Global, row: Option<&[u8]>) -> Result<Result<Line, Refusal>, Memory> {
        match read_row(alloc, row, self.config) {
            Ok(line) => Ok(Ok(line)),
            Err(fault) => unread(fault),
        }
    }

    fn has_place(&self, line: &Line) -> bool {
        has_place(line)
    }

    fn note(&self, _event: &Event) -> Result<(), Memory> {
        Ok(())
    }

    fn take(&mut self, _note: ()) {}
}
