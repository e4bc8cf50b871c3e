ghost use Rattle.std.specs.Prelude.{◌≡◌, ◌≢◌, IfOk, Ok, OnOk, Some};
ghost use Rattle.std.specs.Option.{option_copied};
ghost use Rattle.mesh_base.specs.declared.limits.Limits.{Limits};
ghost use Rattle.view_types.specs.declared.config.Config.{Config as TheConfig};
ghost use Rattle.watch_events.specs.Lawful.{IsLawfulEvent, IsLawfulLine};
ghost use Rattle.watch_events.specs.Lines.{row_says, text_line};
ghost use Rattle.watch_events.specs.declared.line.Line.TheVariants as lines;
ghost use Rattle.diagnosis.specs.Stand.{Takes};

use crate::apply::apply;
use feed_history::refusal::Refusal;
use mesh_base::memory::Memory;
use object_store::store::Store;
use std::alloc::Global;
use view_types::config::Config;
use watch_events::event::Event;
use watch_events::line::{Line, LineFault};
use watch_events::read::read_row;

// Each function returns why the line is refused, or None.

fn take_event(store: &mut Store, event: Event) -> Result<Option<Refusal>, Memory>
    requires { IsLawfulEvent event }
    ensures { IfOk result (λ refusal.
        (config : TheConfig) (limits : Limits)
        → Takes config limits (Ok (lines.Event event)) refusal store.old store.new) }
{
    match apply(store, event)? {
        None => Ok(None),
        Some(fault) => Ok(Some(Refusal::Hub(fault))),
    }
}

// Applies events. Lines about subscriptions and requests have no effect.
fn take_line(store: &mut Store, line: Line) -> Result<Option<Refusal>, Memory>
    requires { IsLawfulLine line }
    ensures { IfOk result (λ refusal.
        (config : TheConfig) (limits : Limits)
        → Takes config limits (Ok line) refusal store.old store.new) }
{
    match line {
        Line::Event(event) => take_event(store, event),
        Line::Stop => Ok(Some(Refusal::NotHere)),
        _ => Ok(None),
    }
}

// Returns the refusal of a line that cannot be read.
fn unread(fault: LineFault) -> Result<Option<Refusal>, Memory>
    ensures refuses { IfOk result (λ refusal. refusal ≡ Some (Refusal.Line fault)) }
    ensures told { OnOk result (fault ≢ LineFault.Memory) }
{
    match fault {
        LineFault::Memory => Err(Memory),
        fault => Ok(Some(Refusal::Line(fault))),
    }
}

/// Processes a row. Returns why it is refused, or None.
pub(crate) fn take_row(
    alloc: Global,
    config: &Config,
    store: &mut Store,
    row: Option<&[u8]>,
) -> Result<Option<Refusal>, Memory>
    ensures { IfOk result (λ refusal.
        (limits : Limits) → Takes config.now limits (row_says (text_line config.now)
        (option_copied row.entry)) refusal store.old store.new) }
{
    match read_row(alloc, row, config) {
        Ok(line) => take_line(store, line),
        Err(fault) => unread(fault),
    }
}
