use crate::runs::{all_end_so, is_same, must, there, words_of};
use parplan::plan;
use std::process::Abort;

// A line has arguments, ` = `, and a part of the text of their plan, or of the error if they have
// none.
const PLANS: &str = "\
frobnicate v.par2 = Err(Usage)
packets = Err(Usage)
help v.par2 = Err(Usage)
--help = Err(Usage)
packets -h v.par2 = Err(Usage)
packets --version v.par2 = Err(Usage)
v.par2 packets = Err(Usage)
packets -q v.par2 = Err(Usage)
packets --limit 1 v.par2 = Err(Usage)
set --tails v.par2 = Err(Usage)
find -q v.par2 = Err(Usage)
verify --limit 1 v.par2 = Err(Usage)
find -t v.par2 = Err(Usage)
find --tail v.par2 = Err(Usage)
find --tails=true v.par2 = Err(Usage)
find --lim 1 v.par2 = Err(Usage)
find v.par2 --limit = Err(Usage)
find --limit -1 v.par2 = Err(Usage)
find --limit 0 = Err(Usage)
find --limit 0 x.bin = Err(Value)
packets --set Z = Err(Usage)
packets --set Z x.bin = Err(Value)
find --cursor bad = Err(Usage)
find --cursor bad x.bin = Err(Value)
packets -- = Err(Usage)
packets - = Err(NoPacketFile)
packets '' = Err(NoPacketFile)
packets par2 = Err(NoPacketFile)
set x.bin = Err(NoPacketFile)
verify x.bin = Err(NoPacketFile)
find -Bd -Bd v.par2 = Err(Usage)
find --set 00000000000000000000000000000000 --set=Z v.par2 = Err(Usage)
find --limit=1 --limit=1 v.par2 = Err(Usage)
find --cursor=a --cursor=b v.par2 = Err(Usage)
verify --tails v.par2 --tails = Err(Usage)
find -B '' v.par2 = Err(Value)
find --cursor bad v.par2 = Err(Value)
find --cursor 3:617cdc72ba53d94fe713fea2ae18f776:53e12607a1d11cab6b927147969fc38c:0:2:1 v.par2 = Err(Value)
find --cursor 2:617cdc72ba53d94fe713fea2ae18f776:0:2:1 v.par2 = Err(Value)
find --cursor 2:617cdc72ba53d94fe713fea2ae18f776:53e12607a1d11cab6b927147969fc38c:0:02:1 v.par2 = Err(Value)
packets v.par2 = command: Packets,
packets -- v.par2 = command: Packets,
packets help v.par2 = command: Packets,
set v.par2 - = command: Set,
find v.par2 = command: Find { limit: None, cursor: None, tails: false }
find v.par2 -- --tails = command: Find { limit: None, cursor: None, tails: false }
find --limit 7 v.par2 --tails = command: Find { limit: Some(7), cursor: None, tails: true }
find --cursor 00000000000000000000000000000000:1:22:3 v.par2 = \
cursor: Some(CursorText { set: Hash16([0, 0, 0, 0, 0, 0, 0, 0, 0, 0, 0, 0, 0, 0, 0, 0]), \
list: None, at: Cursor { file: 1, offset: 22, slice: 3 } })
find --cursor 2:617cdc72ba53d94fe713fea2ae18f776:53e12607a1d11cab6b927147969fc38c:0:2:1 v.par2 = \
list: Some(Hash16([83, 225, 38, 7, 161, 209, 28, 171, 107, 146, 113, 71, 150, 159, 195, 140])), \
at: Cursor { file: 0, offset: 2, slice: 1 } })
verify v.par2 = command: Verify { quiet: 0, tails: false }
verify -q v.par2 -q = command: Verify { quiet: 2, tails: false }
verify -qqq v.par2 = command: Verify { quiet: 2, tails: false }
verify -q --tails v.par2 = command: Verify { quiet: 1, tails: true }
find --limit 18446744073709551615 v.par2 = limit: Some(18446744073709551615)
find --limit 18446744073709551616 v.par2 = Err(Value)
find --limit 00 v.par2 = Err(Value)
find --limit +1 v.par2 = Err(Value)
find --limit=-1 v.par2 = Err(Value)
find --limit 1a v.par2 = Err(Value)
find --limit '' v.par2 = Err(Value)
packets v.par2 = set: None,
packets --set 0123456789abcdefABCDEF0123456789 v.par2 = \
set: Some(Hash16([1, 35, 69, 103, 137, 171, 205, 239, 171, 205, 239, 1, 35, 69, 103, 137])),
packets --set 0000000000000000000000000000000 v.par2 = Err(Value)
packets --set 000000000000000000000000000000000 v.par2 = Err(Value)
packets --set 0000000000000000000000000000000g v.par2 = Err(Value)
find v.par2 d/x.bin = path: Text { text: \"d/x.bin\" }, name: Text { text: \"d/x.bin\" }
find -Bd v.par2 d/x.bin = path: Text { text: \"d/x.bin\" }, name: Text { text: \"x.bin\" }
find --base=d v.par2 d/x.bin = name: Text { text: \"x.bin\" }
find -B d// v.par2 d/x.bin = name: Text { text: \"d/x.bin\" }
find -B d/x v.par2 d/x.bin = name: Text { text: \"d/x.bin\" }
find -B d/x.bin v.par2 d/x.bin = name: Text { text: \"d/x.bin\" }
find -B / v.par2 d/x.bin = name: Text { text: \"d/x.bin\" }
find -B ./d v.par2 d/x.bin = name: Text { text: \"d/x.bin\" }
packets x.bin .par2 b.PaR2 a.par2 = \
packets: Sequence { items: [Text { text: \".par2\" }, Text { text: \"b.PaR2\" }, Text { text: \"a.par2\" }] }
packets v.par2 -- -q = path: Text { text: \"-q\" }
";

// Checks a line.
fn is_right(rt: &(impl Abort + AllocGlobal), line: &str) {
    let (words, wanted) = there(rt, " = ", line.rsplit_once(" = "));
    let plan = plan(rt.alloc(), &words_of(rt, words));
    let told = must(rt, format!(in rt.alloc(); "{plan:?}"));
    is_same(rt, &(line, told.as_str()), &told.contains(wanted), &true);
}

#[test]
fn arguments_have_a_plan_or_an_error(rt: HostRuntime) {
    for line in PLANS.lines() {
        is_right(&rt, line);
    }
}

// Arguments that are no plan, and how they end.
const ENDS: &str = "\
$ find x.bin
parv: no packet file
= 3

$ find --limit 0 v.par2
parv: bad value
= 3

$ find --limit 07 v.par2
parv: bad value
= 3

$ verify
parv: usage: parv packets|set|find|verify [options] FILES
= 3

$ |
parv: usage: parv packets|set|find|verify [options] FILES
= 3
";

#[test]
fn arguments_without_a_plan_end_with_3(rt: HostRuntime) {
    all_end_so(&rt, ENDS);
}
