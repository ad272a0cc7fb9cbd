use crate::runs::{is_same, must};
use parfield::Hash16;
use parreport::{Cause, Command, PlanFault, RunFault, Status};
use parset::{Aside, SetFault};
use parshelf::ReadFault;
use std::fmt::Display;
use std::process::Abort;

// Checks the text of an error, plain and in the alternative form.
fn is_told(rt: &(impl Abort + AllocGlobal), fault: &impl Display, wanted: &str) {
    let plain = must(rt, format!(in rt.alloc(); "{fault}"));
    let other = must(rt, format!(in rt.alloc(); "{fault:#}"));
    let told = (plain.as_str(), other.as_str());
    is_same(rt, &"text", &told, &(wanted, wanted));
}

static OF_WORDS: [(PlanFault, &str); 4] = [
    (PlanFault::Usage, "usage"),
    (PlanFault::Value, "bad value"),
    (PlanFault::NoPacketFile, "no packet file"),
    (PlanFault::Memory, "out of memory"),
];

#[test]
fn faults_of_words_have_their_own_texts(rt: HostRuntime) {
    for (fault, text) in &OF_WORDS {
        is_told(&rt, fault, text);
    }
}

const READ: RunFault = RunFault::Read {
    packet: true,
    file: 0,
    fault: ReadFault::Failed,
};

static OF_RUNS: [(RunFault, &str); 7] = [
    (RunFault::Set(Cause::NoMain), "no usable set"),
    (READ, "read fault"),
    (RunFault::Write, "write fault"),
    (RunFault::Memory, "out of memory"),
    (RunFault::OtherSet, "cursor of another set"),
    (RunFault::OtherList, "cursor of other files"),
    (RunFault::TooManyTails, "no usable set: too many tails"),
];

#[test]
fn faults_of_runs_have_their_own_texts(rt: HostRuntime) {
    for (fault, text) in &OF_RUNS {
        is_told(&rt, fault, text);
    }
}

// Tests compare values, so different values have to be unequal.
#[test]
fn values_are_told_apart(rt: HostRuntime) {
    let (one, two) = (Hash16([1; 16]), Hash16([2; 16]));
    let equal = [
        one == two,
        SetFault::NoMain == SetFault::Memory,
        SetFault::NoDesc(one) == SetFault::NoDesc(two),
        Aside::Name == Aside::SetId,
        Command::Packets == Command::Set,
        Status::Complete == Status::Possible,
        RunFault::Write == RunFault::Memory,
    ];
    is_same(&rt, &"equal", &equal, &[false; 7]);
}
