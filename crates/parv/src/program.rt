ghost use Rattle.std.specs.Prelude.{map, string_bytes};
ghost use Rattle.parv.specs.Performed.{Performs};

use parplan::{plan, words_after_program};
use parreport::{End, PlanFault, Sink, WriteSink, ending, files_to_scan, run_opened};
use parshelf::{DiskShelf, OpenFault};
use std::alloc::AllocError;
use std::fs::{File, Files};
use std::{env, io};

/// The result of a command line.
#[derive(Drop)]
pub struct Performed {
    /// The exit status and the line for standard error, unless memory for the line was refused. A
    /// run that ended without an error has an empty line, which takes none.
    pub told: Result<(u8, Vec<u8>), AllocError>,
    /// The files that the plan was run over, if there is a plan.
    pub run: Option<Run>,
}

/// The files that a plan was run over, or the reason why they were not opened.
#[derive(Drop)]
pub struct Run {
    /// The packet files.
    pub packets: Result<DiskShelf, OpenFault>,
    /// The scanned files; if the packet files were not opened, the same reason.
    pub scanned: Result<DiskShelf, OpenFault>,
}

/// Runs the command line, and returns the exit status and the line for standard error. It fails if
/// memory for these is refused.
pub fn perform(rt: &HostRuntime) -> Result<(u8, Vec<u8>), AllocError> {
    let args = match env::args(rt) {
        Ok(args) => args,
        Err(error) if error.kind() == io::ErrorKind::OutOfMemory => return Err(AllocError),
        Err(_) => return ending(rt.alloc(), &End::Plan(PlanFault::Usage), ""),
    };
    let args: Vec<String> = args.collect(rt.alloc())?;
    let mut out = WriteSink::new(rt.stdout());
    let performed = perform_words(rt, words_after_program(&args), &mut out);
    performed.told
}

// Runs the words after the program's name. The bounds of `R` allow it files and memory,
// and no standard output.
fn perform_words<R: AllocGlobal + Files<File = File>, W: Sink>(
    rt: &R,
    words: &[String],
    out: &mut W,
) -> Performed
    ensures { Performs (map string_bytes words.now)
        (record { performed = result; before = W.state out.old; after = W.state out.new }) }
{
    let alloc = rt.alloc();
    let plan = match plan(alloc, words) {
        Ok(plan) => plan,
        Err(PlanFault::Memory) => {
            let told = Err(AllocError);
            return Performed { told, run: None };
        }
        Err(fault) => {
            let told = ending(alloc, &End::Plan(fault), "");
            return Performed { told, run: None };
        }
    };
    let mut packets = DiskShelf::open(rt, alloc, plan.packets.as_slice());
    // If the packet files can't all be opened, no other file is opened.
    let mut scanned = match &packets {
        Ok(_) => DiskShelf::open(rt, alloc, files_to_scan(&plan)),
        Err(why) => Err(*why),
    };
    let told = run_opened(alloc, &plan, &mut packets, &mut scanned, out);
    let run = Some(Run { packets, scanned });
    Performed { told, run }
}
