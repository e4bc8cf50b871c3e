//! Tests of the readers, the store, the views and the messages, as rows of the files in `data`: the
//! objects of the documentation, faults of each member, external test vectors, and each call once
//! with enough memory.
//!
//! Depends on mesh_text, k8s_core, policy_objects, profile_objects, route_objects, object_store,
//! view_scratch, view_diff, view_fold and proxy_proto, and on row_file for the rows. The first word
//! of a row names the call.
#![tactic(auto)]

mod batches;
mod copies;
mod messages;
mod objects;
mod show;
mod store;
mod texts;
mod told;
mod views;

use row_file::{Row, Trial, TrialFault};
use std::alloc::Global;
use std::process::ExitCode;

#[derive(Drop)]
struct Calls;

impl Trial for Calls {
    fn run(&mut self, alloc: Global, row: &Row, out: &mut String) -> Result<(), TrialFault> {
        let (call, word) = row.call();
        let input = row.input.as_str();
        match call {
            "object" => objects::object(alloc, word, input, out),
            "objects" => objects::objects(alloc, word, input, out),
            "message" => messages::message(alloc, word, input, out),
            "frame" => messages::frame(alloc, word, input, out),
            "request" => messages::request(alloc, word, input, out),
            "view" => views::view(alloc, word, input, out),
            "store" => store::store(alloc, input, out),
            "batch" => batches::batch_between(alloc, input, out),
            "copies" => copies::copies(alloc, word, out),
            "config" => texts::config(alloc, out),
            _ => texts::texts(alloc, call, input, out),
        }
    }
}

fn main(rt: HostRuntime) -> ExitCode {
    row_file::run(&rt, &mut Calls)
}
