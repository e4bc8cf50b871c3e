// Why calls and lines of a relay are refused.
ghost use Rattle.std.specs.Prelude.{◌≡◌, Some};
ghost use Rattle.view_relay.specs.Relayed.{frame_fault_text, relay_fault_text, row_fault_text, session_fault_text};
ghost use Rattle.view_relay.specs.declared.fault.RelayFault.TheVariants.{Memory};
ghost use Rattle.view_relay.specs.declared.fault.RowFault.TheVariants.{Refused};

use mesh_base::memory;
use output_fold::fault::ProtoText;
use proto_wire::fault::WireFault;
use proxy_proto::fault::ProtoFault;
use session_core::session::SessionFault;
use std::alloc::AllocError;
use std::fmt;

/// Why a call of a relay is refused.
#[derive(Clone, Copy, Debug, PartialEq, Eq)]
pub enum RelayFault {
    Memory,
    /// The id is not above `last`, the greatest accepted id of its kind.
    IdOrder { last: u32 },
    /// The limit on the carried streams, or that on the live clients, is reached. `live` is their
    /// number.
    TooManySubs { live: u32 },
    /// The bytes that open the stream are refused. This is never out of memory.
    Session(SessionFault),
    /// The bytes request nothing: they are not complete, or they begin a feed.
    NotOpen,
    /// No stream with the client's query is carried.
    NoStream,
    /// The bytes are not one frame, or its message is longer than the limit.
    NotLine,
    /// The frame is marked as compressed. A relay returns no other fault of the wire format here.
    Wire(WireFault),
    /// No stream is carried under the id, or no client is live under it.
    NoSuchId { id: u32 },
    /// The message in the frame cannot be read. This is never out of memory.
    Proto(ProtoFault),
    /// A message is longer than the limit; `bytes` is its length. Its client has ended.
    Oversize { bytes: u64 },
}

/// Why a line of a relay is refused.
#[derive(Clone, Copy, Debug, PartialEq, Eq)]
pub enum RowFault {
    /// It is longer than the limit.
    TooLong,
    /// It has none of the forms, or its call is refused.
    Refused(RelayFault),
}

impl From<memory::Memory> for RelayFault {
    ghost from_gives = { λ _ e. e ≡ Memory };

    fn from(_e: memory::Memory) -> RelayFault {
        RelayFault::Memory
    }
}

impl From<AllocError> for RelayFault {
    ghost from_gives = { λ _ e. e ≡ Memory };

    fn from(_e: AllocError) -> RelayFault {
        RelayFault::Memory
    }
}

impl From<RelayFault> for RowFault {
    ghost from_gives = { λ fault e. e ≡ Refused fault };

    fn from(fault: RelayFault) -> RowFault {
        RowFault::Refused(fault)
    }
}

// Formats the fault of a frame.
#[derive(Clone, Copy, Drop)]
struct FrameText(ProtoFault);

impl fmt::Display for FrameText {
    ghost output = { λ text. Some (frame_fault_text text.0) };

    fn fmt<W: fmt::Write>(&self, f: &mut fmt::Formatter<W>) -> fmt::Result {
        match self.0 {
            ProtoFault::Wire(WireFault::Compressed) => write!(f, "Compressed"),
            fault => {
                let fault = ProtoText(fault);
                write!(f, "{fault}")
            }
        }
    }
}

// Formats the fault of the bytes of an opening.
#[derive(Clone, Copy, Drop)]
struct SessionText(SessionFault);

impl fmt::Display for SessionText {
    ghost output = { λ text. Some (session_fault_text text.0) };

    fn fmt<W: fmt::Write>(&self, f: &mut fmt::Formatter<W>) -> fmt::Result {
        match self.0 {
            SessionFault::Memory => Ok(()),
            SessionFault::BadPath => write!(f, "BadPath"),
            SessionFault::Proto(fault) => {
                let fault = FrameText(fault);
                write!(f, "{fault}")
            }
            SessionFault::Extra => write!(f, "Extra"),
        }
    }
}

impl fmt::Display for RelayFault {
    ghost output = { λ fault. Some (relay_fault_text fault) };

    fn fmt<W: fmt::Write>(&self, f: &mut fmt::Formatter<W>) -> fmt::Result {
        match *self {
            RelayFault::Memory => Ok(()),
            RelayFault::IdOrder { last } => write!(f, "IdOrder {last}"),
            RelayFault::TooManySubs { live } => write!(f, "TooManySubs {live}"),
            RelayFault::Session(fault) => {
                let fault = SessionText(fault);
                write!(f, "{fault}")
            }
            RelayFault::NotOpen => write!(f, "NotOpen"),
            RelayFault::NoStream => write!(f, "NoStream"),
            RelayFault::NotLine => write!(f, "NotLine"),
            RelayFault::Wire(fault) => {
                let fault = FrameText(ProtoFault::Wire(fault));
                write!(f, "{fault}")
            }
            RelayFault::NoSuchId { id } => write!(f, "NoSuchId {id}"),
            RelayFault::Proto(fault) => {
                let fault = ProtoText(fault);
                write!(f, "{fault}")
            }
            RelayFault::Oversize { .. } => Ok(()),
        }
    }
}

impl fmt::Display for RowFault {
    ghost output = { λ fault. Some (row_fault_text fault) };

    fn fmt<W: fmt::Write>(&self, f: &mut fmt::Formatter<W>) -> fmt::Result {
        match *self {
            RowFault::TooLong => write!(f, "TooLong"),
            RowFault::Refused(fault) => write!(f, "{fault}"),
        }
    }
}
