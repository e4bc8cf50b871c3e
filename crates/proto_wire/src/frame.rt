ghost use Rattle.std.specs.Prelude.{◌≡◌, ◌<◌, ◌^◌, length, IfOk, IfErr};
ghost use Rattle.proto_wire.specs.Frames.{frame_of};

use crate::fault::WireFault;
use bytes::Bytes;
use mesh_base::memory::Memory;
use std::alloc::Global;

/// Returns the frame of a message. The only error is out of memory.
pub fn frame(alloc: Global, message: &[u8]) -> Result<Bytes, WireFault>
    requires { length message.now < 2 ^ 32 }
    ensures ok { IfOk result (λ bytes. bytes ≡ frame_of message.now) }
    ensures err { IfErr result (λ fault. fault ≡ WireFault.Memory) }
{
    match framed(alloc, message) {
        Ok(bytes) => Ok(bytes),
        Err(_) => Err(WireFault::Memory),
    }
}

fn framed(alloc: Global, message: &[u8]) -> Result<Bytes, Memory>
    requires { length message.now < 2 ^ 32 }
    ensures { IfOk result (λ bytes. bytes ≡ frame_of message.now) }
{
    let mut out = Vec::with_capacity(alloc, message.len() + 5)?;
    out.push(0)?;
    out.extend_from_slice(&(message.len() as u32).to_be_bytes())?;
    out.extend_from_slice(message)?;
    Ok(Bytes::from_vec(out)?)
}
