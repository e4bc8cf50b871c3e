// The answers to lines.
ghost use Rattle.std.specs.Prelude.{◌≢◌, IfOk, IfSome, OnOk};
ghost use Rattle.feed_history.specs.Text.{refused_line};
ghost use Rattle.feed_history.specs.declared.refusal.Refusal.TheVariants as refusals;
ghost use Rattle.serve_rules.specs.FedLines.{ok_line};
ghost use Rattle.fed_hub.specs.LineSteps.{HasByte, IsItem};

use feed_history::refusal::Refusal;
use feed_history::text::push_refused;
use mesh_base::list::List;
use mesh_base::memory::Memory;
use std::alloc::Global;
use watch_events::line::LineFault;

/// Returns the answer to an accepted line.
pub(crate) fn accepted(alloc: Global, number: u64) -> Result<Option<List<u8>>, Memory>
    ensures item { IfOk result (IsItem (ok_line number)) }
    ensures some { IfOk result (λ item. IfSome item HasByte) }
{
    let text = format!(in alloc; "ok {number}\n")?;
    Ok(Some(List::from_vec(text.into_bytes())))
}

/// Returns the answer to a refused line.
pub(crate) fn refused(
    alloc: Global,
    number: u64,
    refusal: Refusal,
) -> Result<Option<List<u8>>, Memory>
    ensures item { IfOk result (IsItem (refused_line number refusal)) }
    ensures some { IfOk result (λ item. IfSome item HasByte) }
{
    let mut out = Vec::new(alloc);
    push_refused(alloc, &mut out, number, &refusal)?;
    Ok(Some(List::from_vec(out)))
}

/// Returns the answer to a line that cannot be read.
pub(crate) fn unread(
    alloc: Global,
    number: u64,
    fault: LineFault,
) -> Result<Option<List<u8>>, Memory>
    ensures item { IfOk result (IsItem (refused_line number (refusals.Line fault))) }
    ensures some { IfOk result (λ item. IfSome item HasByte) }
    ensures memory { OnOk result (fault ≢ LineFault.Memory) }
{
    match fault {
        LineFault::Memory => Err(Memory),
        fault => refused(alloc, number, Refusal::Line(fault)),
    }
}
