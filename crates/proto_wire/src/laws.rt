ghost use Rattle.std.specs.Prelude.{◌≡◌, ◌<◌, ◌≤◌, ◌^◌, ◌++◌, ◌↔◌, ℕ, List, [], length, Some, None, Ok};
ghost use Rattle.std.specs.List.{AllByRecursion, concat};
ghost use Rattle.proto_wire.specs.declared.record.Rec.{Rec};
ghost use Rattle.proto_wire.specs.declared.fault.WireFault.{WireFault};
ghost use Rattle.proto_wire.specs.Wire.{Fits, spelling, scan_of, records_of};
ghost use Rattle.proto_wire.specs.Frames.{frame_of, frames_of, first_frame, Frames, after_messages, frames_in, MakeUp};
ghost use Rattle.proto_wire.specs.Unframing.{all_messages, answers, all_answers};

/// The scan of encoded records returns the same records, without an error.
pub fn reads_back()
    ensures { (rs : List Rec) → AllByRecursion Fits rs
        → scan_of (spelling rs) ≡ record { records = rs; fault = None } }
{}

/// Encoded records are read as the same records, without an error.
pub fn records_come_back()
    ensures { (rs : List Rec) → AllByRecursion Fits rs → records_of (spelling rs) ≡ Ok rs }
{}

/// A frame before any bytes is read as its message, and these bytes are left.
pub fn frames_come_apart()
    ensures { (message after : List ℕ) → length message < 2 ^ 32
        → first_frame (frame_of message ++ after) ≡ Some (message, after) }
{}

/// Frames before any bytes are read as their messages, followed by the messages of these bytes.
pub fn frames_come_back(limit: u32)
    ensures whole { (messages : List (List ℕ))
        → AllByRecursion (λ message. length message ≤ limit) messages
        → frames_in limit (frames_of messages)
        ≡ record { messages = messages; fault = None; rest = [] } }
    ensures before { (messages : List (List ℕ)) (more : List ℕ)
        → AllByRecursion (λ message. length message ≤ limit) messages
        → frames_in limit (frames_of messages ++ more)
        ≡ after_messages messages (frames_in limit more) }
{
    let _ = limit;
}

/// The messages, the error and the rest of a stream are the only ones that make it up.
pub fn streams_are_made_up(limit: u32, stream: &[u8])
    ensures { (f : Frames) → (f ≡ frames_in limit stream.now) ↔ MakeUp limit stream.now f }
{
    let _ = limit;
    let _ = stream;
}

/// A longer stream holds the messages of its prefix, followed by those of the rest of the prefix
/// and the bytes added. An error of the prefix remains.
pub fn fronts_stay()
    ensures joined { (limit : ℕ) (front more : List ℕ)
        → let f = frames_in limit front in
        frames_in limit (front ++ more)
        ≡ after_messages f.messages (frames_in limit (f.rest ++ more)) }
    ensures fault { (limit : ℕ) (front more : List ℕ) (fault : WireFault)
        → let f = frames_in limit front in
        f.fault ≡ Some fault
        → frames_in limit (front ++ more)
        ≡ record { messages = f.messages; fault = Some fault; rest = f.rest ++ more } }
{}

/// The messages of a stream do not depend on where it is cut into pieces. Unless out of memory, the
/// results of the pieces are all its messages together, or end with its first error.
pub fn cutting_is_free()
    ensures { (limit : ℕ) (pieces : List (List ℕ))
        → all_answers (answers (record { limit = limit; part = Ok [] }) pieces)
        ≡ all_messages (frames_in limit (concat pieces)) }
{}
