// Which sockets are ready, and how long to wait for them.
ghost use Rattle.std.specs.Prelude.{◌≡◌, ◌++◌, ◌+◌, ◌*◌, ◌≤◌, ◌<◌, ℕ, length, vec_len, vec_capacity};
ghost use Rattle.mio.specs.Events.{items, capacity as events_capacity};
ghost use Rattle.mio_edge.specs.Numbers.{Numbered};
ghost use Rattle.mio_edge.specs.Shown.{events_of, longest_wait, readable_of, shown_of, writable_of};
ghost use Rattle.std.specs.Option.{option_map};
ghost use Rattle.std.specs.Duration.{as_nanos};

use crate::bound::LISTENER;
use mesh_links::call::LinkEvent;
use mio::event::Event;
use mio::{Events, Poll};
use std::io;
use std::sync::Wait;
use std::time::Duration;

/// When the next connection is accepted.
#[derive(Clone, Copy, Debug, PartialEq, Eq)]
pub(crate) enum Accepting {
    /// When the listener is ready: no connection is waiting.
    AtEvent,
    /// In the next poll: connections may be waiting.
    Now,
    /// In the next poll, which waits at most a second: a connection could not be accepted.
    Soon,
}

/// Returns how long a poll waits, or None to wait until something is ready.
pub(crate) fn limit(wait: bool, accepting: Accepting) -> Option<Duration>
    ensures { option_map as_nanos result ≡ longest_wait wait accepting }
{
    match accepting {
        _ if !wait => Some(Duration::ZERO),
        Accepting::AtEvent => None,
        Accepting::Now => Some(Duration::ZERO),
        Accepting::Soon => Some(Duration::from_secs(1)),
    }
}

/// Waits until something is ready, or to the limit. It may wait forever, so it requires a handle.
pub(crate) fn wait_for<R: Wait>(
    _rt: &R,
    poll: &mut Poll,
    ready: &mut Events,
    limit: Option<Duration>,
) -> io::Result<()>
    ensures count { length (items ready.new) ≤ events_capacity ready.old }
    ensures capacity { events_capacity ready.new ≡ events_capacity ready.old }
{
    poll.poll(ready, limit)
}

/// Whether the listener is ready.
pub(crate) fn has_listener(ready: &Events) -> bool {
    ready.iter().any(|event| event.token() == LISTENER)
}

/// Appends the events of all links that are ready.
pub(crate) fn show_all(ready: &Events, shown: &mut Vec<LinkEvent>)
    requires room { vec_len shown.old + 2 * length (items ready.now) ≤ vec_capacity shown.old }
    ensures items { shown.new.items ≡ shown.old.items ++ shown_of (items ready.now) }
    ensures len { vec_len shown.new ≤ vec_len shown.old + 2 * length (items ready.now) }
    ensures numbered { (first : ℕ) (last : ℕ) → Numbered first last shown.old.items
        → Numbered first last shown.new.items }
{
    for event in ready.iter() {
        show(event, shown);
    }
}

/// Appends the events of one link. An error is shown as both events, a closed side as its own.
fn show(event: &Event, shown: &mut Vec<LinkEvent>)
    requires room { vec_len shown.old + 2 ≤ vec_capacity shown.old }
    ensures items { shown.new.items ≡ shown.old.items ++ events_of event.now }
    ensures len { vec_len shown.new ≤ vec_len shown.old + 2 }
    ensures capacity { vec_capacity shown.new ≡ vec_capacity shown.old }
    ensures numbered { (first : ℕ) (last : ℕ) → Numbered first last shown.old.items
        → Numbered first last shown.new.items }
{
    let token = event.token();
    if token == LISTENER {
        return;
    }
    let Ok(link) = u32::try_from(token.0) else {
        return;
    };
    show_readable(event, link, shown);
    show_writable(event, link, shown);
}

fn show_readable(event: &Event, link: u32, shown: &mut Vec<LinkEvent>)
    requires room { vec_len shown.old < vec_capacity shown.old }
    ensures items { shown.new.items ≡ shown.old.items ++ readable_of link event.now }
    ensures len { vec_len shown.new ≤ vec_len shown.old + 1 }
    ensures capacity { vec_capacity shown.new ≡ vec_capacity shown.old }
    ensures numbered { (first : ℕ) (last : ℕ) → Numbered first last shown.old.items
        → Numbered first last shown.new.items }
{
    if event.is_readable() || event.is_read_closed() || event.is_error() {
        shown.push_reserved(LinkEvent::Readable(link));
    }
}

fn show_writable(event: &Event, link: u32, shown: &mut Vec<LinkEvent>)
    requires room { vec_len shown.old < vec_capacity shown.old }
    ensures items { shown.new.items ≡ shown.old.items ++ writable_of link event.now }
    ensures len { vec_len shown.new ≤ vec_len shown.old + 1 }
    ensures capacity { vec_capacity shown.new ≡ vec_capacity shown.old }
    ensures numbered { (first : ℕ) (last : ℕ) → Numbered first last shown.old.items
        → Numbered first last shown.new.items }
{
    if event.is_writable() || event.is_write_closed() || event.is_error() {
        shown.push_reserved(LinkEvent::Writable(link));
    }
}
