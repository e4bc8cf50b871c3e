ghost use Rattle.std.specs.Prelude.{Some};
ghost use Rattle.k8s_meta.specs.FaultText.{what_text, read_fault_text};

use crate::fault::{ReadFault, What};
use std::fmt;

impl fmt::Display for What {
    ghost output = { λ what. Some (what_text what) };

    fn fmt<W: fmt::Write>(&self, f: &mut fmt::Formatter<W>) -> fmt::Result {
        match self {
            What::Address => write!(f, "Address"),
            What::Network => write!(f, "Network"),
            What::Range => write!(f, "Range"),
            What::Choice => write!(f, "Choice"),
            What::Duration => write!(f, "Duration"),
            What::Quantity => write!(f, "Quantity"),
            What::Method => write!(f, "Method"),
            What::Shape => write!(f, "Shape"),
            What::TwoReferences => write!(f, "TwoReferences"),
        }
    }
}

impl fmt::Display for ReadFault {
    ghost output = { λ fault. Some (read_fault_text fault) };

    fn fmt<W: fmt::Write>(&self, f: &mut fmt::Formatter<W>) -> fmt::Result {
        match self {
            ReadFault::Memory => Ok(()),
            ReadFault::Missing { path } => {
                let path = path.as_str();
                write!(f, "Missing {path}")
            }
            ReadFault::WrongType { path } => {
                let path = path.as_str();
                write!(f, "WrongType {path}")
            }
            ReadFault::BadName { path } => {
                let path = path.as_str();
                write!(f, "BadName {path}")
            }
            ReadFault::BadValue { path, what } => {
                let path = path.as_str();
                let what = *what;
                write!(f, "BadValue {path} {what}")
            }
        }
    }
}
