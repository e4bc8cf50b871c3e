//! Tests of the marks that rows read, over a store of objects, and of the rows at marks.
//!
//! Depends on row_reads, on mark_graph, on watch_events for the objects, and on row_file for the
//! rows in data/. `queries` collects the marks of all rows of a query; its contract cites `query_reads`
//! of mark_rules. So the rows on ports compare the definition of what a query reads. A row begins with the word
//! - `objects`: the input is the events of objects that are held from there on;
//! - `reads` and a key, or `ports` and a Pod: the output is the marks that are read;
//! - `marks`: the input is steps, and the output the rows at marks.
#![tactic(auto)]

mod names;
mod queries;
mod reads;
mod rows;

use crate::reads::{push_port, push_reads, store_of};
use crate::rows::push_rows;
use mesh_base::memory::Memory;
use object_store::store::Store;
use row_file::{Row, Trial, TrialFault, run};
use std::alloc::Global;
use std::process::ExitCode;
use view_types::config::Config;

#[derive(Drop)]
struct Marks {
    config: Config,
    store: Store,
}

impl Trial for Marks {
    fn run(&mut self, alloc: Global, row: &Row, out: &mut String) -> Result<(), TrialFault> {
        match row.call() {
            ("objects", _) => {
                self.store = store_of(alloc, &self.config, row.input.as_str())?;
                writeln!(out, "{} objects", self.store.len())?;
                Ok(())
            }
            ("reads", key) => push_reads(alloc, &self.config, &self.store, key, out),
            ("ports", pod) => push_port(alloc, &self.config, &self.store, pod, out),
            ("marks", _) => push_rows(alloc, row.input.as_str(), out),
            _ => Err(TrialFault::new("no call has this word")),
        }
    }
}

fn new_marks(alloc: Global) -> Result<Marks, Memory> {
    Ok(Marks {
        config: Config::usual(alloc)?,
        store: Store::new(alloc, 100),
    })
}

fn main(rt: HostRuntime) -> ExitCode {
    match new_marks(rt.alloc()) {
        Ok(mut marks) => run(&rt, &mut marks),
        Err(_) => ExitCode::FAILURE,
    }
}
