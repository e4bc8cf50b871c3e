ghost use Rattle.std.specs.Prelude.{◌≡◌, Err, option_and_then};
ghost use Rattle.k8s_meta.specs.Scalars.{number};
ghost use Rattle.k8s_meta.specs.Spots.{◌·◌, seen};
ghost use Rattle.k8s_meta.specs.Words.{choice, object, required, string_in};
ghost use Rattle.k8s_meta.specs.declared.key.Key.TheVariants as keys;
ghost use Rattle.watch_events.specs.Controls.{cancellation_of, control_of, control_word, drain_of, query_of, simulation_of, subscription_of};
ghost use Rattle.watch_events.specs.Given.{Fails, Gives, GivesAs};
ghost use Rattle.watch_events.specs.Queries.{method_of};
ghost use Rattle.watch_events.specs.Reading.{of_query};
ghost use Rattle.watch_events.specs.declared.line.Line.{Line as Said};
ghost use Rattle.watch_events.specs.declared.line.LineFault.TheVariants.{BadQuery};

use crate::fault::query_fault;
use crate::line::{Line, LineFault};
use crate::method::MethodWord;
use crate::query::{read_get, read_port, read_port_rows, read_profile, read_traffic};
use crate::simulation::read_request;
use k8s_meta::choice::Choice;
use k8s_meta::key::Key;
use k8s_meta::place::Place;
use k8s_meta::words::Number32;
use mesh_base::sub_id::SubId;
use view_types::config::Config;
use view_types::query::{Method, Query};

/// The kind of a control line.
#[derive(Clone, Copy)]
pub enum ControlWord {
    Subscribe,
    Cancel,
    Drain,
    Simulate,
    Stop,
}

fn control_word(word: &str) -> Option<ControlWord>
    ensures { result ≡ control_word word.now }
{
    if word == "subscribe" {
        Some(ControlWord::Subscribe)
    } else if word == "cancel" {
        Some(ControlWord::Cancel)
    } else if word == "drain" {
        Some(ControlWord::Drain)
    } else if word == "simulate" {
        Some(ControlWord::Simulate)
    } else if word == "stop" {
        Some(ControlWord::Stop)
    } else {
        None
    }
}

const ID: Number32 = Number32 {
    low: 0,
    high: 4_294_967_295,
};

fn read_id<'a>(line: &'a Place<'a>) -> Result<u32, LineFault>
    ensures { Gives result (of_query (required (number 0 4294967295) ((seen line.now) · keys.Id))) }
{
    match line.required(Key::Id, &ID) {
        Ok(id) => Ok(id),
        Err(fault) => Err(query_fault(fault)),
    }
}

fn query_in<'a>(line: &'a Place<'a>) -> Result<Place<'a>, LineFault>
    ensures { GivesAs seen result (of_query (required object ((seen line.now) · keys.Query))) }
{
    match line.required_part(Key::Query) {
        Ok(query) => Ok(query),
        Err(fault) => Err(query_fault(fault)),
    }
}

fn read_method<'a>(query: &'a Place<'a>) -> Result<Method, LineFault>
    ensures { Gives result
        (of_query (required (choice method_of) ((seen query.now) · keys.Method))) }
{
    match query.required(Key::Method, &Choice(MethodWord)) {
        Ok(method) => Ok(method),
        Err(fault) => Err(query_fault(fault)),
    }
}

fn read_query<'a>(config: &Config, method: Method, query: &'a Place<'a>) -> Result<Query, LineFault>
    ensures { Gives result (query_of config.now method (seen query.now)) }
{
    let read = match method {
        Method::Get => read_get(config, query),
        Method::GetProfile => read_profile(config, query),
        Method::WatchPort => read_port(query),
        Method::Watch => read_traffic(config, query),
        Method::WatchPort2 => read_port_rows(query),
    };
    match read {
        Ok(query) => Ok(query),
        Err(fault) => Err(query_fault(fault)),
    }
}

#[tactic(auto, unfolding(crate::specs::Reading::then, crate::specs::Controls::subscription_of))]
fn read_subscription<'a>(config: &Config, line: &'a Place<'a>) -> Result<Line, LineFault>
    ensures { Gives result (subscription_of config.now (seen line.now)) }
{
    let id = read_id(line)?;
    let query = query_in(line)?;
    let method = read_method(&query)?;
    let query = read_query(config, method, &query)?;
    Ok(Line::Subscribe {
        id: SubId(id),
        query,
    })
}

#[tactic(auto, unfolding(crate::specs::Reading::then, crate::specs::Controls::cancellation_of))]
fn read_cancellation<'a>(line: &'a Place<'a>) -> Result<Line, LineFault>
    ensures { Gives result (cancellation_of (seen line.now)) }
{
    let id = read_id(line)?;
    Ok(Line::Cancel { id: SubId(id) })
}

#[tactic(auto, unfolding(crate::specs::Reading::then, crate::specs::Controls::drain_of))]
fn read_drain<'a>(line: &'a Place<'a>) -> Result<Line, LineFault>
    ensures { Gives result (drain_of (seen line.now)) }
{
    let id = read_id(line)?;
    Ok(Line::Drain { id: SubId(id) })
}

#[tactic(auto, unfolding(crate::specs::Reading::then, crate::specs::Controls::simulation_of))]
fn read_simulation<'a>(line: &'a Place<'a>) -> Result<Line, LineFault>
    ensures { Gives result (simulation_of (seen line.now)) }
{
    match read_request(line) {
        Ok(request) => Ok(Line::Simulate(request)),
        Err(fault) => Err(query_fault(fault)),
    }
}

fn word_of<'a>(line: &'a Place<'a>) -> Option<ControlWord>
    ensures { result ≡ option_and_then control_word
        (string_in ((seen line.now) · keys.Control).value) }
{
    match line.member(Key::Control).as_text() {
        Some(word) => control_word(word),
        None => None,
    }
}

fn no_word<'a>(line: &'a Place<'a>) -> LineFault
    ensures { Fails {A = Said} result (Err (BadQuery ((seen line.now) · keys.Control).at)) }
{
    query_fault(line.member(Key::Control).wrong_type())
}

/// Reads a control line.
pub fn read_control<'a>(config: &Config, line: &'a Place<'a>) -> Result<Line, LineFault>
    ensures { Gives result (control_of config.now (seen line.now)) }
{
    match word_of(line) {
        None => Err(no_word(line)),
        Some(ControlWord::Subscribe) => read_subscription(config, line),
        Some(ControlWord::Cancel) => read_cancellation(line),
        Some(ControlWord::Drain) => read_drain(line),
        Some(ControlWord::Simulate) => read_simulation(line),
        Some(ControlWord::Stop) => Ok(Line::Stop),
    }
}
