ghost use Rattle.std.specs.Prelude.{◌≡◌, Some};
ghost use Rattle.output_fold.specs.FaultText.{fold_fault_text, proto_fault_text, wire_fault_text};
ghost use Rattle.output_fold.specs.Given.{fold_fault};
ghost use Rattle.output_fold.specs.declared.fault.FoldFault.TheVariants.{Memory};

use mesh_base::memory;
use proto_wire::fault::WireFault;
use proxy_proto::fault::ProtoFault;
use std::fmt;

/// Why a line, or the frame in it, cannot be read.
#[derive(Clone, Copy, Debug, PartialEq, Eq)]
pub enum FoldFault {
    Memory,
    /// The line is longer than the limit.
    TooLong,
    /// The line is not one that `replay` writes.
    NotLine,
    /// The frame is marked as compressed.
    Compressed,
    /// The message in the frame cannot be read. The fault is never out of memory.
    Message(ProtoFault),
}

impl From<memory::Memory> for FoldFault {
    ghost from_gives = { λ _ e. e ≡ Memory };

    fn from(_e: memory::Memory) -> FoldFault {
        FoldFault::Memory
    }
}

impl From<ProtoFault> for FoldFault {
    ghost from_gives = { λ fault e. e ≡ fold_fault fault };

    fn from(fault: ProtoFault) -> FoldFault {
        match fault {
            ProtoFault::Memory => FoldFault::Memory,
            fault => FoldFault::Message(fault),
        }
    }
}

// Formats a fault of the wire format.
#[derive(Clone, Copy, Drop)]
struct WireText(WireFault);

impl fmt::Display for WireText {
    ghost output = { λ text. Some (wire_fault_text text.0) };

    fn fmt<W: fmt::Write>(&self, f: &mut fmt::Formatter<W>) -> fmt::Result {
        match self.0 {
            WireFault::Memory => Ok(()),
            WireFault::Truncated { at } => write!(f, "Truncated {at}"),
            WireFault::BadTag { at } => write!(f, "BadTag {at}"),
            WireFault::LongVarint { at } => write!(f, "LongVarint {at}"),
            WireFault::Compressed => write!(f, "Compressed"),
            WireFault::TooLong { len } => write!(f, "TooLong {len}"),
        }
    }
}

/// Formats the fault of a message. Also for a command that refuses messages in lines of its own.
#[derive(Clone, Copy, Drop)]
pub struct ProtoText(pub ProtoFault);

impl fmt::Display for ProtoText {
    ghost output = { λ text. Some (proto_fault_text text.0) };

    fn fmt<W: fmt::Write>(&self, f: &mut fmt::Formatter<W>) -> fmt::Result {
        match self.0 {
            ProtoFault::Memory => Ok(()),
            ProtoFault::Wire(fault) => {
                let fault = WireText(fault);
                write!(f, "Wire {fault}")
            }
            ProtoFault::Repeated { field } => write!(f, "Repeated {field}"),
            ProtoFault::WrongWire { field } => write!(f, "WrongWire {field}"),
            ProtoFault::NotUtf8 { field } => write!(f, "NotUtf8 {field}"),
            ProtoFault::Range { field } => write!(f, "Range {field}"),
            ProtoFault::Absent { field } => write!(f, "Absent {field}"),
            ProtoFault::NoChoice => write!(f, "NoChoice"),
            ProtoFault::BadAuthority => write!(f, "BadAuthority"),
            ProtoFault::BadWorkload => write!(f, "BadWorkload"),
        }
    }
}

impl fmt::Display for FoldFault {
    ghost output = { λ fault. Some (fold_fault_text fault) };

    fn fmt<W: fmt::Write>(&self, f: &mut fmt::Formatter<W>) -> fmt::Result {
        match *self {
            FoldFault::Memory => Ok(()),
            FoldFault::TooLong => write!(f, "TooLong"),
            FoldFault::NotLine => write!(f, "NotLine"),
            FoldFault::Compressed => write!(f, "Compressed"),
            FoldFault::Message(fault) => {
                let fault = ProtoText(fault);
                write!(f, "{fault}")
            }
        }
    }
}
