use parfield::{Hash16, Kind};

/// A packet of a file.
#[derive(Clone, Copy)]
pub struct StoredPacket {
    /// The offset in the file.
    pub at: u64,
    /// The length of the whole packet in bytes, its header included.
    pub length: u64,
    /// The recovery set ID.
    pub set: Hash16,
    /// The kind of the packet.
    pub kind: Kind,
    /// The part of its body that is held.
    pub body: StoredBody,
}

/// The part of a packet's body that is held.
#[derive(Clone, Copy)]
pub enum StoredBody {
    /// The whole body, at this place of the bytes that are held.
    Whole { place: usize, size: usize },
    /// Its first four bytes, filled with zeros if it is shorter, and its length in bytes.
    Front { first: [u8; 4], len: u64 },
}
