//! Messages on standard error: errors of the command line, failures, mistakes in a feed, and on a
//! terminal the progress and the counts of a run.
//!
//! Depends on line_run for the statuses, and on mesh_outside for the source and the sink whose
//! bytes are counted. `InputTally` and `OutputTally` meet the contracts of `Source` and `Sink`.
//! `specs/Counts` defines the counts of the input, and `specs/Written` those of the output.
#![tactic(auto)]

mod argument_words;
mod cause;
mod clock;
mod command;
mod errors;
mod feed;
mod front;
mod held;
mod input;
mod json;
mod kinds;
mod lines;
mod missing_kinds;
mod nearest;
mod open_line;
mod options;
mod output;
mod printable;
mod progress;
mod refusals;
mod report;
mod server;
mod usage;
mod words;

pub use clock::{EachSecond, StartTime};
pub use command::{Command, CommandLine};
pub use errors::{ErrorKeeper, LastError};
pub use feed::FeedNotes;
pub use held::HeldObjects;
pub use input::{InputCounts, InputTally};
pub use lines::LineCount;
pub use output::{OutputCounts, OutputTally};
pub use progress::Progress;
pub use refusals::OutputNotes;
pub use report::{Report, Run, write_number};
pub use server::ServerNote;
pub use usage::{USAGE, USAGE_LINE};
pub use words::{CommandReader, WrongWords};
