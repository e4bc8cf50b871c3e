ghost use Rattle.std.specs.Prelude.{◌≡◌, ◌++◌, IfOk, map};
ghost use Rattle.std.specs.List.{list_any};
ghost use Rattle.k8s_meta.specs.Spots.{seen};
ghost use Rattle.watch_events.specs.Given.{Gives};
ghost use Rattle.watch_events.specs.declared.line.Line.TheVariants as lines;
ghost use Rattle.grpc_feed.specs.FeedKinds.{held_as};
ghost use Rattle.grpc_feed.specs.FeedLines.{is_reserved_key, line_as, line_at, relist_of, unless_reserved};
ghost use Rattle.grpc_feed.specs.declared.feed_line.FeedLine.TheVariants as feed;

use crate::kinds::{FeedKind, FeedKinds, FeedObject, is_lowered};
use crate::routes::Routes;
use k8s_meta::place::Place;
use mesh_base::key::{Kind, ObjKey};
use mesh_base::list::List;
use mesh_base::memory::Memory;
use std::alloc::Global;
use view_types::config::Config;
use view_types::object::Object;
use watch_events::control::read_control;
use watch_events::event::Event;
use watch_events::form::{Form, read_form};
use watch_events::line::{Line, LineFault};
use watch_events::read::LineReader;

/// The contents of a line of a feed with GRPCRoutes.
#[derive(Drop)]
pub enum FeedLine {
    Line(Line),
    /// It is about an HTTPRoute with a name of a lowered GRPCRoute.
    Reserved,
}

/// The lines of a feed with GRPCRoutes, over the routes held.
#[derive(Clone, Copy)]
pub struct FeedLines<'c> {
    pub config: &'c Config,
    pub routes: &'c Routes,
}

impl LineReader for FeedLines<'_> {
    type Line = FeedLine;

    ghost blank = { feed.Line lines.Blank };

    ghost reading = { λ reader. line_at reader.config.now reader.routes.now };

    fn blank(&self) -> FeedLine {
        FeedLine::Line(Line::Blank)
    }

    #[tactic(auto, unfolding(watch_events::specs::Reading::then, crate::specs::FeedLines::line_at))]
    fn read<'a>(&self, line: &'a Place<'a>) -> Result<FeedLine, LineFault> {
        match read_form(&FeedKinds, line)? {
            Form::Set { object, .. } => {
                let FeedObject { object, reserved } = object;
                Ok(unless_reserved(reserved, Event::Set(object)))
            }
            Form::Delete { kind, key } => {
                let reserved = is_reserved_key(kind, &key);
                Ok(unless_reserved(reserved, Event::Delete(key)))
            }
            Form::Relist { kind, items } => {
                Ok(read_list(line.alloc(), self.routes, kind, items)?)
            }
            Form::Bookmark => Ok(FeedLine::Line(Line::Event(Event::Bookmark))),
            Form::Control => Ok(FeedLine::Line(read_control(self.config, line)?)),
        }
    }
}

fn is_reserved_key(kind: FeedKind, key: &ObjKey) -> bool
    ensures { result ≡ is_reserved_key kind key.now }
{
    match kind {
        FeedKind::GrpcRoute => false,
        FeedKind::Held(_) => is_lowered(key),
    }
}

fn unless_reserved(reserved: bool, event: Event) -> FeedLine
    ensures { result ≡ unless_reserved reserved event }
{
    if reserved {
        FeedLine::Reserved
    } else {
        FeedLine::Line(Line::Event(event))
    }
}

fn read_list(
    alloc: Global,
    routes: &Routes,
    kind: FeedKind,
    items: List<FeedObject>,
) -> Result<FeedLine, Memory>
    ensures { IfOk result (λ line. line
        ≡ unless_reserved (list_any (λ item. item.reserved) items)
        (relist_of kind routes.now items)) }
{
    let reserved = has_reserved(items.as_slice());
    let mut objects = objects_of(alloc, items)?;
    routes.add_kept(alloc, kind, &mut objects)?;
    let relist = Event::Relist {
        kind: held_as(kind),
        items: objects,
    };
    Ok(unless_reserved(reserved, relist))
}

fn has_reserved(items: &[FeedObject]) -> bool
    ensures { result ≡ list_any (λ item. item.reserved) items.now }
{
    items.iter().any(|item| item.reserved)
}

fn objects_of(alloc: Global, items: List<FeedObject>) -> Result<List<Object>, Memory>
    ensures { IfOk result (λ objects. objects ≡ map (λ item. item.object) items) }
{
    let mut objects = List::new(alloc);
    for item in items.into_vec() {
        let FeedObject { object, .. } = item;
        objects.add(object)?;
    }
    Ok(objects)
}

fn held_as(kind: FeedKind) -> Kind
    ensures { result ≡ held_as kind }
{
    match kind {
        FeedKind::GrpcRoute => Kind::GatewayRoute,
        FeedKind::Held(kind) => kind,
    }
}
