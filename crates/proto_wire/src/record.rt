use bytes::Bytes;

/// The value of a record.
#[derive(Drop)]
pub enum WireValue {
    Varint(u64),
    Fixed64(u64),
    Fixed32(u32),
    /// A string, bytes or a nested message.
    Chunk(Bytes),
}

/// A record: a field number and a value.
#[derive(Drop)]
pub struct Rec {
    /// From 1 to 536870911.
    pub number: u32,
    pub value: WireValue,
}
