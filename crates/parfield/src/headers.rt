use crate::hash16::Hash16;
use crate::kind::Kind;

/// The header of a packet.
#[derive(Clone, Copy, Debug, PartialEq, Eq)]
pub struct Header {
    /// The length of the whole packet in bytes, its header included.
    pub length: u64,
    /// The MD5 of the packet's bytes from offset 32 to its end.
    pub hash: Hash16,
    /// The recovery set ID.
    pub set: Hash16,
    /// The kind of the packet: what it is for.
    pub kind: Kind,
}

/// Why bytes don't begin with a packet header: the first reason that applies.
#[derive(Clone, Copy, Debug, PartialEq, Eq)]
pub enum HeaderFault {
    /// There are fewer than 64 bytes.
    Short,
    /// They do not begin with the magic sequence.
    NoMagic,
    /// The length is below 64 or not a multiple of 4.
    BadLength,
}

/// A packet in the bytes that it was found in.
#[derive(Clone, Copy, Debug, PartialEq, Eq)]
pub struct Packet<'a> {
    /// The packet's offset in the bytes.
    pub at: usize,
    /// The length of the whole packet in bytes, its header included.
    pub length: u64,
    /// The recovery set ID.
    pub set: Hash16,
    /// The kind of the packet: what it is for.
    pub kind: Kind,
    /// The packet body: the part of the bytes after the header.
    pub body: &'a [u8],
}
