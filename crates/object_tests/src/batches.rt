ghost use Rattle.std.specs.Prelude.{IfOk, Some};
ghost use Rattle.std.specs.Option.{option_copied};
ghost use Rattle.view_rules.specs.Fold.{IsOrderly, IsOrderlyIfShown};

use crate::told::put_line;
use mesh_base::copied::Copied;
use mesh_base::labels::Labels;
use mesh_base::limits::Limits;
use mesh_base::list::List;
use mesh_base::memory::Memory;
use mesh_base::same::Same;
use net_cidr::ip::Ip;
use row_file::TrialFault;
use std::alloc::Global;
use view_diff::views::batch;
use view_fold::folding::Fold;
use view_types::endpoint::{EndpointRow, EndpointView};
use view_types::message::Message;
use view_types::view::View;

/// The message that adds so many addresses from the first on.
fn addresses(alloc: Global, first: u32, count: u32, weight: u32) -> Result<Message, Memory> {
    let mut rows = List::new(alloc);
    for number in first..first.saturating_add(count) {
        rows.add(EndpointRow {
            ip: Ip::V4(number),
            port: 8080,
            weight,
            labels: Labels::new(alloc),
            identity: None,
            tunnel: None,
            h2: false,
        })?;
    }
    Ok(Message::Add(rows))
}

/// The message of a line `no Service` or `FIRST COUNT WEIGHT`.
fn message_of(alloc: Global, words: &str) -> Result<Message, TrialFault> {
    if words == "no Service" {
        return Ok(Message::NoEndpoints(false));
    }
    let (first, rest) = words.split_once(' ').unwrap_or((words, ""));
    let (count, weight) = rest.split_once(' ').unwrap_or((rest, ""));
    Ok(addresses(
        alloc,
        first.parse::<u32>()?,
        count.parse::<u32>()?,
        weight.parse::<u32>()?,
    )?)
}

/// What a subscriber sees who is sent the message alone.
fn shown(alloc: Global, message: Message) -> Result<EndpointView, Memory>
    ensures { IfOk result IsOrderly }
{
    let mut fold = Fold::new();
    fold.take(alloc, message)?;
    match fold.view() {
        Some(View::Endpoints(view)) => view.copy(alloc),
        _ => Err(Memory),
    }
}

fn view_of(alloc: Global, words: &str) -> Result<View, TrialFault>
    ensures { IfOk result (λ view. IsOrderlyIfShown (Some view)) }
{
    let message = message_of(alloc, words)?;
    Ok(View::Endpoints(shown(alloc, message)?))
}

fn put_message(alloc: Global, message: &Message, out: &mut String) -> Result<(), TrialFault> {
    let text = match message {
        Message::Add(rows) => {
            let count = rows.len();
            format!(in alloc; "adds {count}")?
        }
        Message::Remove(pairs) => {
            let count = pairs.len();
            format!(in alloc; "removes {count}")?
        }
        _ => String::from_str(alloc, "no endpoints")?,
    };
    put_line(out, text.as_str())
}

/// Puts each message from a view to another, and folds it.
fn send(
    alloc: Global,
    fold: &mut Fold,
    old: Option<&View>,
    new: &View,
    out: &mut String,
) -> Result<(), TrialFault>
    requires old { IsOrderlyIfShown (option_copied old) }
    requires new { IsOrderlyIfShown (Some new.now) }
{
    for message in batch(alloc, old, new, &Limits::USUAL)?.into_vec() {
        put_message(alloc, &message, out)?;
        fold.take(alloc, message)?;
    }
    Ok(())
}

/// Writes the messages from the view of the first line of the input to that of the second, and
/// whether who sees the one sees the other after them. The first line may be `nothing`.
pub fn batch_between(alloc: Global, input: &str, out: &mut String) -> Result<(), TrialFault> {
    let Some((old, new)) = input.trim_end().split_once('\n') else {
        return Err(TrialFault::new("two views are missing"));
    };
    let new = view_of(alloc, new)?;
    let mut fold = Fold::new();
    if old == "nothing" {
        send(alloc, &mut fold, None, &new, out)?;
    } else {
        let old = view_of(alloc, old)?;
        send(alloc, &mut fold, None, &old, &mut String::new(alloc))?;
        send(alloc, &mut fold, Some(&old), &new, out)?;
    }
    let text = match fold.view() {
        Some(seen) if seen.is_same(&new) => "shows the view",
        _ => "shows another view",
    };
    put_line(out, text)
}
