ghost use Rattle.std.specs.Prelude.{◌≡◌, ◌+◌, ◌≤◌, IsTrue, length, drop, is_ok, is_some, slice_range, IfOk, IfErr, IfSome};
ghost use Rattle.parfield.specs.Packet.{has_header, header_of, IsFirstFault, begins_packet, packet_of, packet_view, length_field};

use crate::hash16::Hash16;
use crate::headers::{Header, HeaderFault, Packet};
use crate::kind::Kind;
use byteorder::{ByteOrder, LittleEndian};
use md5::{Digest, Md5};

/// The eight bytes that each packet begins with.
pub const MAGIC: [u8; 8] = *b"PAR2\0PKT";

/// Reads the header that the bytes begin with, or returns the first reason why there is none.
pub fn header(bytes: &[u8]) -> Result<Header, HeaderFault>
    ensures found { is_ok result ≡ has_header bytes.now }
    ensures fields { IfOk result (λ head. head ≡ header_of bytes.now) }
    ensures fault { IfErr result (IsFirstFault bytes.now) }
{
    if bytes.len() < 64 {
        return Err(HeaderFault::Short);
    }
    if field_at::<8>(bytes, 0) != MAGIC {
        return Err(HeaderFault::NoMagic);
    }
    let length = length_of(bytes);
    if length < 64 || length % 4 != 0 {
        return Err(HeaderFault::BadLength);
    }
    Ok(Header {
        length,
        hash: Hash16(field_at(bytes, 16)),
        set: Hash16(field_at(bytes, 32)),
        kind: Kind::of_type(field_at(bytes, 48)),
    })
}

/// Returns the packet that begins at this offset, or `None` if none does: if there is no header,
/// the packet isn't all there, or its MD5 is wrong.
pub fn packet_at(bytes: &[u8], at: usize) -> Option<Packet<'_>>
    ensures found { is_some result ≡ begins_packet (drop at bytes.now) }
    ensures packet { IfSome result (λ packet.
        packet_view packet ≡ packet_of at (drop at bytes.now)) }
{
    let rest = bytes.get(at..)?;
    match header(rest) {
        Ok(head) => packet_of_header(rest, at, head),
        Err(_) => None,
    }
}

// Returns the packet that the bytes begin with, after its header was read; `None` if the packet
// isn't all there or its MD5 is wrong.
fn packet_of_header(bytes: &[u8], at: usize, head: Header) -> Option<Packet<'_>>
    requires header { IsTrue (has_header bytes.now) }
    requires fields { head ≡ header_of bytes.now }
    ensures found { is_some result ≡ begins_packet bytes.now }
    ensures packet { IfSome result (λ packet. packet_view packet ≡ packet_of at bytes.now) }
{
    if head.length > bytes.len() as u64 {
        return None;
    }
    let end = head.length as usize;
    if Md5::digest(&bytes[32..end]) != head.hash.0 {
        return None;
    }
    Some(Packet {
        at,
        length: head.length,
        set: head.set,
        kind: head.kind,
        body: &bytes[64..end],
    })
}

// Reads the length field of a header.
fn length_of(bytes: &[u8]) -> u64
    requires { 64 ≤ length bytes.now }
    ensures { result ≡ length_field bytes.now }
{
    LittleEndian::read_u64(&bytes[8..16])
}

/// Copies the bytes of a field that begins at this offset.
pub fn field_at<const N: usize>(bytes: &[u8], at: usize) -> [u8; N]
    requires { at + N ≤ length bytes.now }
    ensures { result ≡ slice_range bytes.now at (at + N) }
{
    let mut field = [0; N];
    field.copy_from_slice(&bytes[at..at + N]);
    field
}
