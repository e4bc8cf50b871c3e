ghost use Rattle.std.specs.Prelude.{◌≡◌, false, true, Err, IfOk, IsErr, OnErr, OnOk, Result};
ghost use Rattle.std.specs.FinMap as map;
ghost use Rattle.std.specs.Option.{option_copied};
ghost use Rattle.line_run.specs.Rows.{Row};
ghost use Rattle.feed_history.specs.Events.{objects_after};
ghost use Rattle.view_types.specs.Objects.{ObjectMap, key_of};
ghost use Rattle.watch_events.specs.Lawful.{IsLawfulEvent};
ghost use Rattle.watch_events.specs.Lines.{row_says, text_by};
ghost use Rattle.watch_events.specs.declared.line.Line.TheVariants as lines;
ghost use Rattle.watch_events.specs.declared.line.LineFault.TheVariants as line_faults;
ghost use Rattle.grpc_feed.specs.FeedLines.{grpc_line, grpc_row, line_at, unless_refused};
ghost use Rattle.grpc_feed.specs.Given.{GivesGrpc};
ghost use Rattle.grpc_feed.specs.Routes.{Follows};
ghost use Rattle.grpc_feed.specs.declared.fault.GrpcFault.TheVariants as faults;

use crate::fault::GrpcFault;
use crate::feed_line::{FeedLine, FeedLines};
use crate::kinds::is_gateway_route;
use crate::routes::Routes;
use mesh_base::copied::Copied;
use mesh_base::limits::Limits;
use mesh_base::list::List;
use mesh_base::memory::Memory;
use std::alloc::Global;
use view_types::config::Config;
use view_types::object::Object;
use watch_events::event::Event;
use watch_events::line::{Line, LineFault};
use watch_events::read::{read_row_by, row_of};

/// Reads the lines of a feed with GRPCRoutes, and follows the HTTPRoutes that are held, which lists
/// of either kind of routes are completed with.
#[derive(Drop)]
pub struct Lowering {
    config: Config,
    limits: Limits,
    routes: Routes,
    spent: bool,
}

impl Lowering {
    /// Creates one for a feed of which nothing is held.
    pub fn new(alloc: Global, config: &Config, limits: &Limits) -> Result<Lowering, Memory>
        ensures follows { IfOk result (λ made. Follows made.routes map.empty) }
        ensures config { IfOk result (λ made. made.config ≡ config.now) }
        ensures limits { IfOk result (λ made. made.limits ≡ limits.now) }
        ensures fresh { IfOk result (λ made. made.spent ≡ false) }
    {
        Ok(Lowering {
            config: config.copy(alloc)?,
            limits: *limits,
            routes: Routes::new(alloc),
            spent: false,
        })
    }

    /// Reads a line, over the routes that it follows. Returns its first fault, and only if it has
    /// none that it is reserved.
    pub fn read(&self, alloc: Global, line: &[u8]) -> Result<Line, GrpcFault>
        ensures value { (held : ObjectMap) → Follows self.now.routes held
            → GivesGrpc result (grpc_line self.now.config self.now.limits held line.now) }
        ensures spent { self.now.spent ≡ true → result ≡ Err (faults.Line line_faults.Memory) }
    {
        self.read_row(alloc, row_of(line, &self.limits))
    }

    /// Reads a row: a line, or None for one that is longer than the limit.
    pub fn read_row(&self, alloc: Global, row: Option<&[u8]>) -> Result<Line, GrpcFault>
        ensures value { (held : ObjectMap) → Follows self.now.routes held
            → GivesGrpc result (grpc_row self.now.config held (option_copied row.entry)) }
        ensures spent { self.now.spent ≡ true → result ≡ Err (faults.Line line_faults.Memory) }
    {
        if self.spent {
            return Err(GrpcFault::Line(LineFault::Memory));
        }
        read_over(alloc, &self.config, &self.routes, row)
    }

    /// Follows the routes over an event that was accepted. Out of memory, it is spent, and answers
    /// `Memory` from then on.
    pub fn accepted(&mut self, alloc: Global, event: &Event) -> Result<(), Memory>
        requires { IsLawfulEvent event.now }
        ensures follows { (held : ObjectMap) → Follows self.old.routes held
            → OnOk result (Follows self.new.routes (objects_after held event.now)) }
        ensures config { self.new.config ≡ self.old.config }
        ensures limits { self.new.limits ≡ self.old.limits }
        ensures spent { OnErr result (self.new.spent ≡ true) }
        ensures was_spent { self.old.spent ≡ true → IsErr result }
        ensures stays { OnOk result (self.new.spent ≡ false) }
    {
        if self.spent {
            return Err(Memory);
        }
        match follow(alloc, &mut self.routes, event) {
            Ok(()) => Ok(()),
            Err(_) => {
                self.spent = true;
                Err(Memory)
            }
        }
    }
}

fn read_over(
    alloc: Global,
    config: &Config,
    routes: &Routes,
    row: Option<&[u8]>,
) -> Result<Line, GrpcFault>
    ensures { GivesGrpc result (grpc_row config.now routes.now (option_copied row.entry)) }
{
    match read_row_by(alloc, row, &FeedLines { config, routes }) {
        Ok(FeedLine::Line(line)) => Ok(line),
        Ok(FeedLine::Reserved) => Err(GrpcFault::Reserved),
        Err(fault) => Err(GrpcFault::Line(fault)),
    }
}

/// Follows the routes over an event.
fn follow(alloc: Global, routes: &mut Routes, event: &Event) -> Result<(), Memory>
    requires { IsLawfulEvent event.now }
    ensures { (held : ObjectMap) → Follows routes.old held
        → OnOk result (Follows routes.new (objects_after held event.now)) }
{
    match event {
        Event::Set(object) => follow_set(alloc, routes, object),
        Event::Delete(key) => {
            routes.remove(key);
            Ok(())
        }
        Event::Relist { kind, items } => {
            if is_gateway_route(*kind) {
                *routes = Routes::copy_of(alloc, items)?;
            }
            Ok(())
        }
        Event::Bookmark => Ok(()),
    }
}

fn follow_set(alloc: Global, routes: &mut Routes, object: &Object) -> Result<(), Memory>
    ensures { (held : ObjectMap) → Follows routes.old held
        → OnOk result (Follows routes.new (map.insert held (key_of object.now) object.now)) }
{
    if is_gateway_route(object.kind()) {
        routes.set(object.copy(alloc)?)?;
    }
    Ok(())
}
