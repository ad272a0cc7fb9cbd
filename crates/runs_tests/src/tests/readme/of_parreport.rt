use crate::runs::{is_same, is_text, must, packet_file, replaced, words_of};
use parreport::{PlanFault, Sink, files_to_scan, plan, run_opened};
use parshelf::DiskShelf;
use std::fs::{File, Files};
use std::process::Abort;
use std::{fs, process};

// Runs the plan of these arguments over its files on disk, and returns the exit status and the line
// for standard error.
fn run_arguments<R: AllocGlobal + Files<File = File>>(
    rt: &R,
    words: &[String],
    out: &mut impl Sink,
) -> Result<(u8, Vec<u8>), PlanFault> {
    let alloc = rt.alloc();
    let plan = plan(alloc, words)?;
    let mut packets = DiskShelf::open(rt, alloc, plan.packets.as_slice());
    let mut scanned = DiskShelf::open(rt, alloc, files_to_scan(&plan));
    Ok(run_opened(alloc, &plan, &mut packets, &mut scanned, out)?)
}

// Runs `packets` over the file at a path, and checks its exit status, its text, and its line for
// standard error.
fn lists(
    rt: &(impl Abort + AllocGlobal + Files<File = File>),
    path: &str,
    status: u8,
    text: &str,
    line: &str,
) {
    let mut out = must(rt, parreport::MemSink::new(rt.alloc(), 4096, 4096, false));
    let words = words_of(rt, replaced(rt, "packets PATH", "PATH", path).as_str());
    let (ended, told) = must(rt, run_arguments(rt, &words, &mut out));
    is_same(rt, &path, &ended, &status);
    is_text(
        rt,
        &path,
        out.text(),
        replaced(rt, text, "PATH", path).as_str(),
    );
    is_text(rt, &path, &told, replaced(rt, line, "PATH", path).as_str());
}

// Packet files, and the texts of `packets` over them.
static LISTED: [(&str, &str); 3] = [
    (
        "creator",
        "PATH 0 64 creator 00000000000000000000000000000000\npackets 1\n",
    ),
    (
        "packet_in_packet",
        "PATH 3 132 recvslic 00000000000000000000000000000000\n\
        PATH 71 64 creator 00000000000000000000000000000000\npackets 2\n",
    ),
    (
        "g",
        "PATH 0 92 main 617cdc72ba53d94fe713fea2ae18f776\n\
        PATH 92 128 filedesc 617cdc72ba53d94fe713fea2ae18f776\n\
        PATH 220 120 ifsc 617cdc72ba53d94fe713fea2ae18f776\n\
        PATH 340 76 recvslic 617cdc72ba53d94fe713fea2ae18f776\npackets 4\n",
    ),
];

#[test]
fn the_readme_of_parreport_lists_packets(rt: HostRuntime) {
    let number = process::id(rt.process());
    let path = must(
        &rt,
        format!(in rt.alloc(); "/tmp/parv_{number}_readme.par2"),
    );
    let path = path.as_str();
    for (name, text) in &LISTED {
        must(&rt, fs::write(&rt, path, packet_file(&rt, name)));
        lists(&rt, path, 0, text, "");
    }
    must(&rt, fs::remove_file(&rt, path));
    lists(&rt, path, 6, "", "parv: cannot open PATH\n");
}
