// Runs of command lines over files in memory.
ghost use Rattle.parplan.specs.Commands.{LimitIsNotZero};

use crate::runs::archives::packet_file;
use crate::runs::checks::must;
use crate::runs::rows::{Row, cut, words_of};
use parfield::Text;
use parreport::{End, MemSink, Plan, RunFault, Status, ending, plan, reads_scanned, run, run_end};
use parshelf::{MemShelf, Shelf};
use std::process::Abort;

/// The end of a command line: its exit status, its output, and the line for standard error.
#[derive(Drop)]
pub struct Outcome {
    pub status: u8,
    pub out: MemSink,
    pub line: Vec<u8>,
}

/// The greatest number of bytes of a read, whether a read of the packet files fails or else one of
/// the scanned files, and the number of that read. No read has the number 0.
#[derive(Clone, Copy)]
pub struct Reads {
    pub piece: usize,
    pub packets: bool,
    pub failing: u64,
}

/// Reads of at most 7 bytes, of which none fails.
pub const READS: Reads = Reads {
    piece: 7,
    packets: false,
    failing: 0,
};

/// How many bytes fit into a sink in memory, how many it takes at once, and whether it takes none
/// or fails when it is full.
#[derive(Clone, Copy)]
pub struct Room {
    pub bytes: usize,
    pub piece: usize,
    pub takes_zero: bool,
}

/// A sink that is large enough for each test, and takes one byte at a time.
pub const ROOMY: Room = Room {
    bytes: 4096,
    piece: 1,
    takes_zero: false,
};

// Returns the bytes that a word stands for: those of a packet file with this name, or of a scanned
// file. Before a plus there may be bytes that come first, and how often: `x*3+` for three.
fn bytes_of(rt: &(impl Abort + AllocGlobal), word: &str, packets: bool) -> Vec<u8> {
    let (before, name) = word.split_once("+").unwrap_or(("*0", word));
    let (first, times) = cut(rt, before, "*");
    let times = must(rt, times.parse::<usize>());
    let mut bytes = must(rt, first.as_bytes().repeat(rt.alloc(), times));
    let own: &[u8] = if packets {
        packet_file(rt, name)
    } else if name == "''" {
        b""
    } else {
        name.as_bytes()
    };
    must(rt, bytes.extend_from_slice(own));
    bytes
}

// Returns the files that words stand for, which are packet files or else scanned files.
fn shelf_in(rt: &(impl Abort + AllocGlobal), words: &str, packets: bool, reads: Reads) -> MemShelf {
    let mut files = Vec::new(rt.alloc());
    for word in words.split_whitespace() {
        must(rt, files.push(bytes_of(rt, word, packets)));
    }
    files.truncate(9);
    let failing = if packets == reads.packets {
        reads.failing
    } else {
        0
    };
    let failing = must(rt, Vec::from_array(rt.alloc(), [failing]));
    MemShelf::new(files, reads.piece.max(1), failing)
}

// Runs a plan over the files of a row. Ends the test if it names another number of files.
fn answer_of(
    rt: &(impl Abort + AllocGlobal),
    plan: &Plan,
    row: &Row<'_>,
    reads: Reads,
    out: &mut MemSink,
) -> Result<Status, RunFault>
    requires { LimitIsNotZero plan.now.command }
{
    let mut packets = shelf_in(rt, row.packets, true, reads);
    let mut scanned = shelf_in(rt, row.scanned, false, reads);
    if packets.count() as usize != plan.packets.len() {
        rt.panic("another number of packet files");
    }
    if reads_scanned(plan.command) && scanned.count() as usize != plan.scanned.len() {
        rt.panic("another number of scanned files");
    }
    run(rt.alloc(), plan, &mut packets, &mut scanned, out)
}

// Returns the outcome with this end, which is about this argument, and this output.
fn outcome_of(
    rt: &(impl Abort + AllocGlobal),
    end: &End,
    argument: Option<&Text>,
    out: MemSink,
) -> Outcome {
    let argument = match argument {
        Some(argument) => argument.as_str(),
        None => "",
    };
    let (status, line) = must(rt, ending(rt.alloc(), end, argument));
    Outcome { status, out, line }
}

/// Runs the command line of a row over its files, with a sink of this capacity.
pub fn ran(rt: &(impl Abort + AllocGlobal), row: &Row<'_>, reads: Reads, room: Room) -> Outcome {
    let piece = room.piece.max(1);
    let mut out = must(
        rt,
        MemSink::new(rt.alloc(), room.bytes, piece, room.takes_zero),
    );
    match plan(rt.alloc(), &words_of(rt, row.words)) {
        Ok(plan) => {
            let answer = answer_of(rt, &plan, row, reads, &mut out);
            let (end, argument) = run_end(&plan, answer);
            outcome_of(rt, &end, argument, out)
        }
        Err(fault) => outcome_of(rt, &End::Plan(fault), None, out),
    }
}
