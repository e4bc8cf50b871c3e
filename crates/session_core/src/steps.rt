// The effect of a piece on the state of a session.
ghost use Rattle.std.specs.Prelude.{◌≡◌, ◌≢◌, ◌+◌, ◌<◌, ℕ, true, false, length, take, drop, List, [], ◌∷◌, ◌++◌, Ok, Err, Some, IfOk, IfSome, IfNone};
ghost use Rattle.line_run.specs.Rows.{NoBreak, rows_of};
ghost use Rattle.mesh_base.specs.declared.limits.Limits.{Limits};
ghost use Rattle.view_types.specs.declared.config.Config.{Config};
ghost use Rattle.session_core.specs.Paths.{first_line};
ghost use Rattle.session_core.specs.Pieces.{Given, asks_in, given_next, line_asks};
ghost use Rattle.session_core.specs.Phases.{Phase, phase_of};
ghost use Rattle.session_core.specs.States.{Begins, Cuts, Feeds, Keeps, Opens, Steps, ToFeed, ToRequest};
ghost use Rattle.session_core.specs.declared.session.Ask.TheVariants as asks;
ghost use Rattle.session_core.specs.declared.session.Path.TheVariants as paths;
ghost use Rattle.session_core.specs.declared.session.SessionFault.{SessionFault};
ghost use Rattle.session_core.specs.declared.state.State.TheVariants as states;

use crate::feed::Feed;
use crate::path::path_of;
use crate::request::read_piece;
use crate::session::{Ask, Path, SessionFault};
use crate::state::{State, Step};
use line_run::Cutter;
use memchr::memchr;
use mesh_base::limits::Limits;
use mesh_base::list::List;
use mesh_base::memory::Memory;
use proto_wire::unframer::Unframer;
use std::alloc::Global;
use view_types::config::Config;
use view_types::query::Method;

const LINE_FEED: u8 = b'\n';

// A path line is shorter than this.
const PATH_BOUND: usize = 128;

fn one(alloc: Global, ask: Ask) -> Result<List<Ask>, Memory>
    ensures { IfOk result (λ made. made ≡ ask ∷ []) }
{
    let mut asks = List::new(alloc);
    asks.add(ask)?;
    Ok(asks)
}

// ---- a piece of a request

fn ask_on(
    alloc: Global,
    config: &Config,
    method: Method,
    mut frames: Unframer,
    piece: &[u8],
) -> Result<Step, SessionFault>
    ensures { (limits : Limits) (given next : Given) (rest : List ℕ) → frames.part ≡ Ok rest
        → frames.limit ≡ limits.request
        → ToRequest config.now limits given next method (rest ++ piece.now)
        → Steps config.now limits given next result }
{
    match read_piece(alloc, config, method, &mut frames, piece) {
        Ok(Some(query)) => {
            let Ok(asks) = one(alloc, Ask::Subscribe(query)) else {
                return Err(SessionFault::Memory);
            };
            Ok(Step {
                asks,
                state: State::Asked,
            })
        }
        Ok(None) => Ok(Step {
            asks: List::new(alloc),
            state: State::Asking(method, frames),
        }),
        Err(fault) => Err(fault),
    }
}

// ---- a piece of a feed

fn feed_on(
    alloc: Global,
    limits: &Limits,
    mut feed: Feed,
    mut asks: List<Ask>,
    piece: &[u8],
) -> Result<Step, SessionFault>
    ensures { (config : Config) (given next : Given) (text : List ℕ)
        → Cuts limits.now.line text feed
        → ToFeed config limits.now given next text piece.now asks
        → Steps config limits.now given next result }
{
    if !feed.has_room(piece.len() as u64) {
        return Err(SessionFault::Memory);
    }
    let Ok(()) = feed.take(alloc, limits.line, piece, &mut asks) else {
        return Err(SessionFault::Memory);
    };
    Ok(Step {
        asks,
        state: State::Feeding(feed),
    })
}

fn begin_feed(alloc: Global, limits: &Limits, rest: &[u8]) -> Result<Step, SessionFault>
    ensures { (config : Config) (given next : Given)
        → Begins config limits.now given next (Some paths.Feed) rest.now
        → Steps config limits.now given next result }
{
    let Ok(asks) = one(alloc, Ask::FeedBegins) else {
        return Err(SessionFault::Memory);
    };
    feed_on(alloc, limits, Feed::new(alloc), asks, rest)
}

// ---- a piece of the path line

// Processes the bytes after the path line.
fn begin(
    alloc: Global,
    config: &Config,
    limits: &Limits,
    path: Path,
    rest: &[u8],
) -> Result<Step, SessionFault>
    ensures { (given next : Given) → Begins config.now limits.now given next (Some path) rest.now
        → Steps config.now limits.now given next result }
{
    match path {
        Path::Feed => begin_feed(alloc, limits, rest),
        Path::Asks(method) => {
            let frames = Unframer::new(alloc, limits.request);
            ask_on(alloc, config, method, frames, rest)
        }
    }
}

// Returns the index of the first LF.
fn first_break(bytes: &[u8]) -> Option<usize>
    ensures within { IfSome result (λ at. at < length bytes.now) }
    ensures cut { IfSome result
        (λ at. bytes.now ≡ take at bytes.now ++ 10 ∷ drop (at + 1) bytes.now) }
    ensures line { IfSome result (λ at. NoBreak (take at bytes.now)) }
    ensures none { IfNone result (NoBreak bytes.now) }
{
    memchr(LINE_FEED, bytes)
}

// Appends bytes up to the first LF to the path line, and returns those after it; without an LF it
// appends all bytes and returns None.
fn fill_path<'a>(part: &mut List<u8>, piece: &'a [u8]) -> Result<Option<&'a [u8]>, Memory>
    ensures path { IfOk result (λ found.
        IfSome found (λ rest. NoBreak part.old
        → first_line (part.old ++ piece.now) ≡ Some (part.new, rest.now))) }
    ensures part { IfOk result (λ found. IfNone found (part.new ≡ part.old ++ piece.now)) }
    ensures none { IfOk result (λ found. IfNone found (NoBreak part.old → NoBreak part.new)) }
{
    match first_break(piece) {
        Some(at) => {
            part.extend_from_slice(&piece[..at])?;
            Ok(Some(&piece[at + 1..]))
        }
        None => {
            part.extend_from_slice(piece)?;
            Ok(None)
        }
    }
}

fn open_on(
    alloc: Global,
    config: &Config,
    limits: &Limits,
    mut part: List<u8>,
    piece: &[u8],
) -> Result<Step, SessionFault>
    ensures { (given next : Given) → Opens part given → next.ended ≡ false
        → next.bytes ≡ part ++ piece.now
        → Steps config.now limits.now given next result }
{
    let Ok(found) = fill_path(&mut part, piece) else {
        return Err(SessionFault::Memory);
    };
    let Some(rest) = found else {
        if part.len() < PATH_BOUND {
            return Ok(Step {
                asks: List::new(alloc),
                state: State::Opening(part),
            });
        }
        return Err(SessionFault::BadPath);
    };
    match path_of(part.as_slice()) {
        Some(path) => begin(alloc, config, limits, path, rest),
        None => Err(SessionFault::BadPath),
    }
}

// ---- any piece that isn't empty

fn more(
    alloc: Global,
    config: &Config,
    limits: &Limits,
    state: State,
    piece: &[u8],
) -> Result<Step, SessionFault>
    ensures steps { (given : Given) → Keeps config.now limits.now state given → piece.now ≢ []
        → Steps config.now limits.now given (given_next given piece.now) result }
    ensures fault { (fault : SessionFault) → state ≡ states.Fault fault → result ≡ Err fault }
{
    match state {
        State::Opening(part) => open_on(alloc, config, limits, part, piece),
        State::Feeding(feed) => feed_on(alloc, limits, feed, List::new(alloc), piece),
        State::Asking(method, frames) => ask_on(alloc, config, method, frames, piece),
        State::Asked => Err(SessionFault::Extra),
        State::Ended => Ok(Step {
            asks: List::new(alloc),
            state: State::Ended,
        }),
        State::Fault(fault) => Err(fault),
    }
}

// ---- the empty piece

// Returns the step at the end of the input, if the only request that the end adds is `Ended`.
fn end_one(alloc: Global) -> Result<Step, SessionFault>
    ensures { (config : Config) (limits : Limits) (given : Given) (phase : Phase)
        → given.ended ≡ false → phase_of config limits given.bytes ≡ Ok phase
        → asks_in limits.line true phase ≡ asks_in limits.line false phase ++ asks.Ended ∷ []
        → Steps config limits given (record given { ended = true }) result }
{
    let Ok(asks) = one(alloc, Ask::Ended) else {
        return Err(SessionFault::Memory);
    };
    Ok(Step {
        asks,
        state: State::Ended,
    })
}

fn last_asks(alloc: Global, limit: u64, mut feed: Feed) -> Result<List<Ask>, Memory>
    ensures { IfOk result (λ made.
        made ≡ line_asks feed.lines (rows_of limit feed.part) ++ asks.Ended ∷ []) }
{
    if !feed.has_room(1) {
        return Err(Memory);
    }
    let mut asks = List::new(alloc);
    feed.end(alloc, limit, &mut asks)?;
    asks.add(Ask::Ended)?;
    Ok(asks)
}

fn end_feed(alloc: Global, limits: &Limits, feed: Feed) -> Result<Step, SessionFault>
    ensures { (config : Config) (given : Given) → Feeds config limits.now feed given
        → Steps config limits.now given (record given { ended = true }) result }
{
    let Ok(asks) = last_asks(alloc, limits.line, feed) else {
        return Err(SessionFault::Memory);
    };
    Ok(Step {
        asks,
        state: State::Ended,
    })
}

fn end(alloc: Global, limits: &Limits, state: State) -> Result<Step, SessionFault>
    ensures steps { (config : Config) (given : Given) → Keeps config limits.now state given
        → Steps config limits.now given (record given { ended = true }) result }
    ensures fault { (fault : SessionFault) → state ≡ states.Fault fault → result ≡ Err fault }
{
    match state {
        State::Opening(_part) => end_one(alloc),
        State::Feeding(feed) => end_feed(alloc, limits, feed),
        State::Asking(_method, _frames) => end_one(alloc),
        State::Asked => end_one(alloc),
        State::Ended => Ok(Step {
            asks: List::new(alloc),
            state: State::Ended,
        }),
        State::Fault(fault) => Err(fault),
    }
}

/// Returns the effect of a piece on a state. The empty piece is the end of the input.
pub fn step(
    alloc: Global,
    config: &Config,
    limits: &Limits,
    state: State,
    piece: &[u8],
) -> Result<Step, SessionFault>
    ensures steps { (given : Given) → Keeps config.now limits.now state given
        → Steps config.now limits.now given (given_next given piece.now) result }
    ensures fault { (fault : SessionFault) → state ≡ states.Fault fault → result ≡ Err fault }
{
    if piece.is_empty() {
        end(alloc, limits, state)
    } else {
        more(alloc, config, limits, state, piece)
    }
}
