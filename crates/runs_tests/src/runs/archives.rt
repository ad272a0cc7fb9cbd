// Packet files by name.
use crate::runs::checks::{must, there};
use crate::runs::packet_files::PACKET_FILES;
use crate::runs::rows::cut;
use std::process::Abort;

// A number above that of the packet files.
const MOST: u32 = 100;

// Returns the length of the first line of bytes.
fn line_of(bytes: &[u8]) -> usize {
    let mut end = 0usize;
    for byte in bytes {
        if *byte == b'\n' {
            return end;
        }
        end = end.saturating_add(1);
    }
    end
}

// Returns the bytes before and after an offset.
fn cut_at(rt: &impl Abort, bytes: &'static [u8], at: usize) -> (&'static [u8], &'static [u8]) {
    there(rt, "bytes", bytes.split_at_checked(at))
}

/// Returns the bytes of the packet file with this name.
pub fn packet_file(rt: &impl Abort, name: &str) -> &'static [u8] {
    let mut rest = PACKET_FILES;
    for _ in 0..MOST {
        let (line, behind) = cut_at(rt, rest, line_of(rest));
        let (found, size) = cut(rt, must(rt, std::str::from_utf8(line)), " ");
        let (_, behind) = cut_at(rt, behind, 1);
        let (bytes, behind) = cut_at(rt, behind, must(rt, size.parse::<usize>()));
        if found == name {
            return bytes;
        }
        rest = behind;
    }
    rt.panic("too many packet files")
}
