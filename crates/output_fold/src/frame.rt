ghost use Rattle.std.specs.Prelude.{◌≡◌};
ghost use Rattle.output_fold.specs.Given.{Gives, GivesAs, IsAs};
ghost use Rattle.output_fold.specs.Lines.{bytes_of, frame_message, message_in};

use crate::fault::FoldFault;
use hex::FromHexError;
use proxy_proto::reading::read_message;
use std::alloc::Global;
use view_types::message::Message;
use view_types::query::Method;

/// Returns the bytes that the hex writes. Also for a command that must know them before it knows
/// what they are bytes of.
pub fn bytes_of(alloc: Global, hex: &[u8]) -> Result<Vec<u8>, FoldFault>
    ensures { GivesAs (λ bytes. bytes.items) result (bytes_of hex.now) }
{
    match hex::decode(alloc, hex) {
        Ok(bytes) => Ok(bytes),
        Err(FromHexError::OutOfMemory) => Err(FoldFault::Memory),
        Err(_) => Err(FoldFault::NotLine),
    }
}

/// Returns the message in bytes that are one frame, and not compressed. Also for a command that
/// knows the method of a message only once it has the message.
#[tactic(auto, using(crate::proofs::Frames::is_one, crate::proofs::Frames::not_one))]
pub fn message_in(bytes: &[u8]) -> Result<&[u8], FoldFault>
    ensures { IsAs (λ message. message.now) result (message_in bytes.now) }
{
    if bytes.is_empty() {
        return Err(FoldFault::NotLine);
    }
    if bytes[0] != 0 {
        return Err(FoldFault::Compressed);
    }
    let [_, a, b, c, d, message @ ..] = bytes else {
        return Err(FoldFault::NotLine);
    };
    let len = u32::from_be_bytes([*a, *b, *c, *d]);
    if message.len() != len as usize {
        return Err(FoldFault::NotLine);
    }
    Ok(message)
}

/// Returns the message in the frame of the hex.
pub(crate) fn read_frame(alloc: Global, method: Method, hex: &[u8]) -> Result<Message, FoldFault>
    ensures { Gives result (frame_message method hex.now) }
{
    let bytes = bytes_of(alloc, hex)?;
    let message = message_in(&bytes)?;
    Ok(read_message(alloc, method, message)?)
}
