//! Tests of the base crates, as rows of the files in `data`: external test vectors, and each call
//! once with enough memory.
//!
//! Depends on mesh_base, mesh_outside, chunked_list, chunked_map, line_run, net_cidr, label_select,
//! k8s_meta and proto_wire, and on row_file for the rows. The first word of a row names the call.
#![tactic(auto)]

mod chunks;
mod frames;
mod k8s;
mod lines;
mod maps;
mod networks;
mod outside;
mod selectors;
mod texts;
mod wire;

use row_file::{Row, Trial, TrialFault};
use std::alloc::Global;
use std::process::ExitCode;

#[derive(Drop)]
struct Calls;

/// The answer to a line of a table.
fn answer(alloc: Global, call: &str, line: &str) -> Result<String, TrialFault> {
    match call {
        "address" => networks::address(alloc, line),
        "network" => networks::network(alloc, line),
        "holds" => networks::holds(alloc, line),
        "duration" => k8s::duration(alloc, line),
        "quantity" => k8s::quantity(alloc, line),
        "selector" => selectors::selector(alloc, line),
        "records" => wire::records_in(alloc, line),
        "scan" => wire::scan_of(alloc, line),
        "varint" => wire::varint(alloc, line),
        "stream" => frames::stream(alloc, line),
        "copies" => texts::copies(alloc, line),
        "many_copies" => texts::many_copies(alloc, line),
        "strings" => texts::strings(alloc, line),
        _ => Err(TrialFault::new("no call has this name")),
    }
}

impl Trial for Calls {
    fn run(&mut self, alloc: Global, row: &Row, out: &mut String) -> Result<(), TrialFault> {
        let (call, word) = row.call();
        let input = row.input.as_str();
        match call {
            "order" => return networks::order(input, out),
            "ports" => return k8s::ports(alloc, input, out),
            "fields" => return wire::fields(alloc, input, out),
            "take" => return frames::take(alloc, input, out),
            "lines" => return lines::lines(alloc, row, out),
            "long_line" => return lines::long_line(alloc, input, out),
            "list" => return chunks::list(alloc, input, out),
            "map" => return maps::map(alloc, input, out),
            "sink" => return outside::sink(alloc, word, input, out),
            "source" => return outside::source(word, input, out),
            "patterns" => return outside::patterns(alloc, word, input, out),
            "cutter" => return outside::cutter(alloc, out),
            _ => {}
        }
        for line in input.lines() {
            let answer = answer(alloc, call, line)?;
            write!(out, "{answer}\n")?;
        }
        Ok(())
    }
}

fn main(rt: HostRuntime) -> ExitCode {
    row_file::run(&rt, &mut Calls)
}
