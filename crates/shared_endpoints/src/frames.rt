//! The frames of one stream.
ghost use Rattle.std.specs.Prelude.{◌≡◌, ◌≤◌, Some, IfOk, OnErr, OnOk, true};
ghost use Rattle.feed_history.specs.Drains.{IsOrMemory, frames_within};
ghost use Rattle.view_rules.specs.Batch.{endpoint_batch};
ghost use Rattle.view_rules.specs.Fold.{IsOrderly};
ghost use Rattle.key_streams.specs.Streams.{AreRight, HasSame, SetsShown, ShowSame, has_stream, shown_for};
ghost use Rattle.shared_endpoints.specs.Sharing.{encoding};

use bytes::Bytes;
use feed_history::frames::frames_within;
use feed_history::refusal::HubFault;
use key_streams::streams::KeyStreams;
use mesh_base::limits::Limits;
use mesh_base::list::List;
use mesh_base::memory::Memory;
use std::alloc::Global;
use view_types::endpoint::EndpointView;

/// Returns the frames that bring a subscriber from the endpoints that it was last shown to the
/// current ones. If this fails, what subscribers were shown stays as it was.
pub(crate) fn drain(
    alloc: Global,
    streams: &mut KeyStreams<List<Bytes>>,
    id: u64,
    now: &EndpointView,
    limits: &Limits,
) -> Result<List<Bytes>, HubFault>
    requires limit { 1 ≤ limits.now.frame_addrs }
    requires now { IsOrderly now.now }
    ensures frames { AreRight (encoding limits.now now.now) now.now streams.old
        → IsOrMemory (frames_within limits.now.message
        (endpoint_batch (shown_for streams.old id now.now) now.now limits.now)) result }
    ensures shown { has_stream streams.old id ≡ true
        → OnOk result (SetsShown now.now id (Some now.now) streams.old streams.new) }
    ensures right { AreRight (encoding limits.now now.now) now.now streams.old
        → AreRight (encoding limits.now now.now) now.now streams.new }
    ensures open { HasSame streams.old streams.new }
    ensures kept { OnErr result (ShowSame now.now streams.old streams.new) }
{
    let frames = shared_frames(alloc, streams, id, now, limits)?;
    streams.catch_up(id, now.exists)?;
    Ok(frames)
}

// The frames of a stream, which are kept for other subscribers that were last shown the same.
fn shared_frames(
    alloc: Global,
    streams: &mut KeyStreams<List<Bytes>>,
    id: u64,
    now: &EndpointView,
    limits: &Limits,
) -> Result<List<Bytes>, HubFault>
    requires limit { 1 ≤ limits.now.frame_addrs }
    requires now { IsOrderly now.now }
    ensures frames { AreRight (encoding limits.now now.now) now.now streams.old
        → IsOrMemory (frames_within limits.now.message
        (endpoint_batch (shown_for streams.old id now.now) now.now limits.now)) result }
    ensures right { AreRight (encoding limits.now now.now) now.now streams.old
        → AreRight (encoding limits.now now.now) now.now streams.new }
    ensures open { HasSame streams.old streams.new }
    ensures same { ShowSame now.now streams.old streams.new }
{
    if let Some(frames) = streams.encoding(id) {
        return Ok(copy_frames(alloc, frames)?);
    }
    let frames = new_frames(alloc, streams, id, now, limits)?;
    streams.keep(id, copy_frames(alloc, &frames)?);
    Ok(frames)
}

fn new_frames(
    alloc: Global,
    streams: &KeyStreams<List<Bytes>>,
    id: u64,
    now: &EndpointView,
    limits: &Limits,
) -> Result<List<Bytes>, HubFault>
    requires limit { 1 ≤ limits.now.frame_addrs }
    requires now { IsOrderly now.now }
    ensures { IsOrMemory (frames_within limits.now.message
        (endpoint_batch (shown_for streams.now id now.now) now.now limits.now)) result }
{
    let messages = streams.messages(alloc, id, now, limits)?;
    frames_within(alloc, limits.message, messages.as_slice())
}

// Copies a list of frames. The copies share their bytes.
fn copy_frames(alloc: Global, frames: &List<Bytes>) -> Result<List<Bytes>, Memory>
    ensures { IfOk result (λ copy. copy ≡ frames.now) }
{
    let mut copy = List::new(alloc);
    for frame in frames.as_slice() {
        copy.add(frame.clone()?)?;
    }
    Ok(copy)
}
