ghost use Rattle.std.specs.Prelude.{Some};
ghost use Rattle.watch_events.specs.FaultText.{line_fault_text};

use crate::line::LineFault;
use std::fmt;

impl fmt::Display for LineFault {
    ghost output = { λ fault. Some (line_fault_text fault) };

    fn fmt<W: fmt::Write>(&self, f: &mut fmt::Formatter<W>) -> fmt::Result {
        match self {
            LineFault::Memory => Ok(()),
            LineFault::TooLong => write!(f, "TooLong"),
            LineFault::NotJson => write!(f, "NotJson"),
            LineFault::NoForm => write!(f, "NoForm"),
            LineFault::UnknownType => write!(f, "UnknownType"),
            LineFault::ErrorEvent => write!(f, "ErrorEvent"),
            LineFault::UnknownKind => write!(f, "UnknownKind"),
            LineFault::Object(fault) => write!(f, "{fault}"),
            LineFault::RepeatedItem { place } => {
                let place = *place;
                write!(f, "RepeatedItem {place}")
            }
            LineFault::BadQuery { path } => {
                let path = path.as_str();
                write!(f, "BadQuery {path}")
            }
        }
    }
}
