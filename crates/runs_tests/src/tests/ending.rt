use crate::runs::{is_same, is_text, must};
use parreport::{End, PlanFault, RunFault, Status, ending};
use parshelf::ReadFault;
use std::process::Abort;

const READ: RunFault = RunFault::Read {
    packet: true,
    file: 0,
    fault: ReadFault::Failed,
};

// An end, its exit status, and its line if the argument is a, a line end and b.
type Ending = (End, u8, &'static str);

static ENDINGS: [Ending; 16] = [
    (End::Status(Status::Listed), 0, ""),
    (End::Status(Status::Complete), 0, ""),
    (End::Status(Status::Possible), 1, ""),
    (End::Status(Status::Impossible), 2, ""),
    (
        End::Plan(PlanFault::Usage),
        3,
        "parv: usage: parv packets|set|find|verify [options] FILES\n",
    ),
    (End::Plan(PlanFault::Value), 3, "parv: bad value\n"),
    (
        End::Plan(PlanFault::NoPacketFile),
        3,
        "parv: no packet file\n",
    ),
    (End::Plan(PlanFault::Memory), 8, "parv: out of memory\n"),
    (End::CannotOpen, 6, "parv: cannot open a\\x0ab\n"),
    (End::Memory, 8, "parv: out of memory\n"),
    (End::Run(READ), 6, "parv: read fault in a\\x0ab\n"),
    (End::Run(RunFault::Write), 6, "parv: write fault\n"),
    (End::Run(RunFault::Memory), 8, "parv: out of memory\n"),
    (
        End::Run(RunFault::OtherSet),
        3,
        "parv: cursor of another set\n",
    ),
    (
        End::Run(RunFault::OtherList),
        3,
        "parv: cursor of other files\n",
    ),
    (
        End::Run(RunFault::TooManyTails),
        4,
        "parv: no usable set: too many tails\n",
    ),
];

// Checks the exit status and the line of an end.
fn is_told(rt: &(impl Abort + AllocGlobal), (end, status, line): &Ending) {
    let (found, told) = must(rt, ending(rt.alloc(), end, "a\nb"));
    is_same(rt, end, &found, status);
    is_text(rt, end, &told, line);
}

#[test]
fn each_end_has_its_exit_status_and_line(rt: HostRuntime) {
    for end in &ENDINGS {
        is_told(&rt, end);
    }
}
