// Runs in which each read and each write fails in turn.
use crate::runs::archives::packet_file;
use crate::runs::checks::{has_ended, is_same, is_text, must};
use crate::runs::rows::{Row, cut, replaced};
use crate::runs::running::{Outcome, READS, ROOMY, Reads, Room, ran};
use std::process::Abort;

// Checks that the run of a row ended with a read error in the file at this path, after some first
// lines of the text, or none if it is a packet file.
fn has_failed(rt: &(impl Abort + AllocGlobal), ran: &Outcome, row: &Row<'_>, path: &str) {
    let text = ran.out.text();
    let whole = if path.ends_with(".par2") {
        ""
    } else {
        row.text
    };
    let line = replaced(rt, "parv: read fault in PATH\n", "PATH", path);
    is_text(rt, &row.words, &ran.line, line.as_str());
    let is_front = whole.as_bytes().starts_with(text);
    let ends_a_line = text.is_empty() || text.ends_with(b"\n");
    let found = (ran.status, is_front, ends_a_line);
    is_same(rt, &row.words, &found, &(6, true, true));
}

// Checks that a run ends with the error of the file at this path for each read of it, and that
// these reads are enough for `least` bytes.
fn reads_fail(
    rt: &(impl Abort + AllocGlobal),
    row: &Row<'_>,
    piece: usize,
    path: &str,
    least: usize,
) {
    let packets = path.ends_with(".par2");
    let mut handed = 0usize;
    for failing in 1..1000u64 {
        let reads = Reads {
            piece,
            packets,
            failing,
        };
        let ran = ran(rt, row, reads, ROOMY);
        if ran.line.is_empty() {
            has_ended(rt, &ran, row);
            return is_same(rt, &row.words, &(handed >= least), &true);
        }
        has_failed(rt, &ran, row, path);
        handed = handed.saturating_add(piece);
    }
    rt.panic("reads without end")
}

// Checks that a run writes as much of its text as the sink takes, and that it ends with a write
// error unless that is the whole text.
fn writes(rt: &(impl Abort + AllocGlobal), row: &Row<'_>, room: Room) {
    let ran = ran(rt, row, READS, room);
    match row.text.get(..room.bytes) {
        Some(text) if text.len() < row.text.len() => {
            let line = "parv: write fault\n";
            let status = 6;
            has_ended(
                rt,
                &ran,
                &Row {
                    text,
                    line,
                    status,
                    ..*row
                },
            );
        }
        _ => has_ended(rt, &ran, row),
    }
}

/// Checks the ends of a row by each failing read of its packet file `v.par2` and of its scanned
/// file, in reads of 1 byte and of 64, and by a sink for each number of bytes.
pub fn fails_in_turn(rt: &(impl Abort + AllocGlobal), row: &Row<'_>) {
    let (path, least) = cut(rt, row.failing, " ");
    let least = must(rt, least.parse::<usize>());
    for piece in [1usize, 64] {
        reads_fail(
            rt,
            row,
            piece,
            "v.par2",
            packet_file(rt, row.packets.trim()).len(),
        );
        reads_fail(rt, row, piece, path, least);
    }
    for bytes in 0..row.text.len() {
        for takes_zero in [false, true] {
            let piece = 5;
            writes(
                rt,
                row,
                Room {
                    bytes,
                    piece,
                    takes_zero,
                },
            );
        }
    }
}
