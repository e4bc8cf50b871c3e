// The carried streams.
ghost use Rattle.std.specs.Prelude.{◌≡◌, ◌<◌, ◌==◌, OnErr, OnOk, IfSome, length};
ghost use Rattle.std.specs.List.{position_from};
ghost use Rattle.std.specs.Option.{option_copied};
ghost use Rattle.feed_history.specs.Ids.{in_place};
ghost use Rattle.view_relay.specs.Relays.{one_more, stream_at, stream_of};

use crate::same::same_query;
use crate::stream::Stream;
use mesh_base::memory::Memory;
use std::alloc::Global;
use view_types::message::Message;
use view_types::query::Query;

/// Returns the stream with the id.
pub(crate) fn stream_at(streams: &[Stream], id: u32) -> Option<&Stream>
    ensures { option_copied result ≡ stream_at id streams.now }
{
    streams.iter().find(|stream| stream.id() == id)
}

// Returns the place of the stream with the id.
fn place_of(streams: &[Stream], id: u32) -> Option<usize>
    ensures at { result ≡ position_from (λ stream. stream.id == id) 0 streams.now }
    ensures within { IfSome result (λ at. at < length streams.now) }
{
    streams.iter().position(|stream| stream.id() == id)
}

/// Adds a message to the stream with the id, if there is one.
pub(crate) fn take_message(
    alloc: Global,
    streams: &mut [Stream],
    id: u32,
    message: Message,
) -> Result<(), Memory>
    ensures ok { OnOk result
        (streams.new ≡ in_place (λ stream. stream.id) id (one_more message) streams.old) }
    ensures err { OnErr result (streams.new ≡ streams.old) }
{
    match place_of(streams, id) {
        Some(at) => streams[at].take(alloc, message),
        None => Ok(()),
    }
}

/// Returns the place of the first stream with the query.
pub(crate) fn stream_of(streams: &[Stream], query: &Query) -> Option<usize>
    ensures { result ≡ stream_of query.now streams.now }
{
    streams
        .iter()
        .position(|stream| same_query(stream.query(), query))
}
