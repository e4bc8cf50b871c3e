// The state of a link's input.
use crate::feed::Feed;
use crate::session::{Ask, SessionFault};
use mesh_base::list::List;
use proto_wire::unframer::Unframer;
use view_types::query::Method;

/// What a session keeps in place of the bytes of its link.
#[derive(Drop)]
pub enum State {
    /// The path line is not complete. These are all bytes so far.
    Opening(List<u8>),
    /// The link is a feed.
    Feeding(Feed),
    /// The request is not complete.
    Asking(Method, Unframer),
    /// The request is valid, and nothing may follow it.
    Asked,
    /// The empty piece was read.
    Ended,
    /// Each further piece has this fault as its result.
    Fault(SessionFault),
}

/// The result of a piece.
#[derive(Drop)]
pub struct Step {
    pub asks: List<Ask>,
    pub state: State,
}
