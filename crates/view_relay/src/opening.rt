// The bytes that open a stream.
ghost use Rattle.std.specs.Prelude.{◌≡◌, slice_get};
ghost use Rattle.session_core.specs.Phases.{phase_of};
ghost use Rattle.session_core.specs.Pieces.{answer_to, given_first};
ghost use Rattle.session_core.specs.States.{Answers};
ghost use Rattle.view_relay.specs.Accepted.{opened};
ghost use Rattle.view_relay.specs.Given.{Gives};
ghost use Rattle.view_relay.specs.Openings.{first_query};

use crate::fault::RelayFault;
use mesh_base::limits::Limits;
use mesh_base::list::List;
use session_core::link::Session;
use session_core::session::{Ask, SessionFault};
use std::alloc::Global;
use view_types::config::Config;
use view_types::query::Query;

fn first_of(asks: List<Ask>) -> Option<Ask>
    ensures { result ≡ slice_get asks 0 }
{
    asks.into_vec().into_iter().next()
}

// Returns the query of the first request, if it is a subscription.
fn query_in(asks: List<Ask>) -> Result<Query, RelayFault>
    ensures { result ≡ first_query asks }
{
    match first_of(asks) {
        Some(Ask::Subscribe(query)) => Ok(query),
        _ => Err(RelayFault::NotOpen),
    }
}

// Returns what the bytes request.
fn asks_of(
    alloc: Global,
    config: &Config,
    limits: &Limits,
    bytes: &[u8],
) -> Result<List<Ask>, SessionFault>
    ensures { Answers result (answer_to config.now limits.now given_first bytes.now) }
{
    let Ok(mut session) = Session::new(alloc, config, limits) else {
        return Err(SessionFault::Memory);
    };
    session.feed(bytes)
}

/// Returns the query that the bytes request.
#[tactic(auto, using(crate::proofs::Openings::opens, crate::proofs::Openings::refused))]
pub(crate) fn open(
    alloc: Global,
    config: &Config,
    limits: &Limits,
    bytes: &[u8],
) -> Result<Query, RelayFault>
    ensures { Gives result (opened (phase_of config.now limits.now bytes.now)) }
{
    match asks_of(alloc, config, limits, bytes) {
        Ok(asks) => query_in(asks),
        Err(SessionFault::Memory) => Err(RelayFault::Memory),
        Err(fault) => Err(RelayFault::Session(fault)),
    }
}
