ghost use Rattle.std.specs.Prelude.{◌≡◌, ◌++◌, IfOk, OnOk, flat_map};
ghost use Rattle.std.specs.String.{string_bytes};
ghost use Rattle.hex.specs.Hex.{encode_lower};
ghost use Rattle.feed_history.specs.Text.{frame_line};

use bytes::Bytes;
use mesh_base::list::List;
use std::alloc::{AllocError, Global};

/// A writer of frames. It keeps the hex of the last frame, since subscribers that were last shown
/// the same are sent the same frames.
#[derive(Drop)]
pub struct FrameWriter {
    pub alloc: Global,
    last: Bytes,
    hex: String,
    ghost of_last: { string_bytes hex ≡ encode_lower last },
}

impl FrameWriter {
    /// Creates a writer that has written no frame.
    #[tactic(auto, unfolding(hex::specs::Hex::encode_with))]
    pub fn new(alloc: Global) -> FrameWriter {
        FrameWriter {
            alloc,
            last: Bytes::new(),
            hex: String::new(alloc),
        }
    }

    // Records this frame as the last one.
    fn keep(&mut self, frame: &Bytes) -> Result<(), AllocError>
        ensures { OnOk result (self.new.last ≡ frame.now) }
    {
        if self.last == *frame {
            return Ok(());
        }
        let hex = hex::encode(self.alloc, frame.as_slice())?;
        let last = frame.clone()?;
        *self = FrameWriter {
            alloc: self.alloc,
            last,
            hex,
        };
        Ok(())
    }

    // Returns the hex of a frame.
    fn hex(&mut self, frame: &Bytes) -> Result<&str, AllocError>
        ensures { IfOk result (λ hex. hex.now ≡ encode_lower frame.now) }
    {
        self.keep(frame)?;
        Ok(self.hex.as_str())
    }
}

// Appends `frame <id> <hex>`.
fn push_frame(
    writer: &mut FrameWriter,
    out: &mut Vec<u8>,
    id: u32,
    frame: &Bytes,
) -> Result<(), AllocError>
    ensures { OnOk result (out.new.items ≡ out.old.items ++ frame_line id frame.now) }
{
    let head = format!(in writer.alloc; "frame {id} ")?;
    let hex = writer.hex(frame)?;
    out.extend_from_slice(head.as_bytes())?;
    out.extend_from_slice(hex.as_bytes())?;
    Ok(out.push(b'\n')?)
}

/// Appends `frame <id> <hex>` for each frame.
pub(crate) fn push_frames(
    writer: &mut FrameWriter,
    out: &mut Vec<u8>,
    id: u32,
    frames: &List<Bytes>,
) -> Result<(), AllocError>
    ensures { OnOk result (out.new.items ≡ out.old.items ++ flat_map (frame_line id) frames.now) }
{
    for frame in frames.as_slice() {
        push_frame(writer, out, id, frame)?;
    }
    Ok(())
}
