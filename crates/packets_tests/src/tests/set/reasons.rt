use super::*;
use parfield::{Kind, Packet};
use parfixtures::joined;
use parsalvage::Kept;
use std::alloc::Global;

// Bodies: the kind of the packet; the number of the first reason to reject the body, or 0; and the
// bytes, where `0*11` is eleven bytes of the value 0. The reason is 1 if the length is wrong, 2 if
// the slice size is, 3 if an ID occurs twice, 5 if the name is wrong, and 7 if a limit is passed.
//
// A Main body has eight bytes of slice size, four of count, and the IDs. After small slice sizes
// come 268,435,456, 268,435,460 and 536,870,912. The last Main bodies have 32,769 IDs, or are as
// long as a body can be. A FileDesc body has 48 bytes of ID and MD5s, eight of length, and the
// name. An IFSC body has 16 bytes of ID, and 20 bytes for each slice.
const BODIES: &str = "\
Main 1
Main 1 4 0*10
Main 0 4 0*11
Main 1 4 0*12
Main 1 4 0*11 97*15
Main 0 4 0*11 97*16
Main 1 4 0*11 97*16 98
Main 0 4 0*11 97*16 98*16
Main 1 4 0*7 1 0*3
Main 0 4 0*7 1 0*3 97*16
Main 1 4 0*7 2 0*3 97*16
Main 0 4 0*7 1 0*3 97*16 98*16
Main 0 4 0*7 2 0*3 97*16 98*16
Main 1 4 0*7 3 0*3 97*16 98*16
Main 1 4 0*7 255*4
Main 1 6 0*7 1 0*3
Main 2 0*12
Main 2 2 0*11
Main 2 6 0*11
Main 2 2 0*2 16 0*8
Main 0 0*3 16 0*8
Main 7 4 0*2 16 0*8
Main 7 0*3 32 0*8
Main 7 4 0*2 16 0*8 97*32
Main 7 4*8 0*4
Main 3 4 0*7 1 0*3 97*32
Main 3 4 0*7 2 0*3 97*32
Main 3 4 0*11 97*16 98*16 97*16
Main 3 4 0*7 2 0*3 98*16 97*32
Main 7 4 0*11 7*524304
Main 2 0*524316
Main 1 0*1048576
Main 7 0*1048577
FileDesc 1
FileDesc 1 0*52
FileDesc 1 0*55
FileDesc 5 0*56
FileDesc 5 0*60
FileDesc 0 0*56 97 0*3
FileDesc 0 0*56 97*4
FileDesc 0 0*56 46*2 47 103
FileDesc 0 0*56 97*4 0*4
FileDesc 1 0*56 97*3
FileDesc 1 0*56 97*5
FileDesc 5 0*56 97 0 98 0
FileDesc 5 0*57 98*3
FileDesc 0 0*48 255*7 127 97 0*3
FileDesc 7 0*55 128 97 0*3
FileDesc 7 0*48 255*8 97 0*3
FileDesc 5 0*55 128 97 0 98 0
FileDesc 1 0*55 128 97*5
FileDesc 0 0*56 120*4096
FileDesc 0 0*56 120*4096 0*4
FileDesc 5 0*56 120*4097 0*3
FileDesc 5 0*56 120*1048520
FileDesc 7 0*56 120*1048521
Ifsc 1
Ifsc 1 0*15
Ifsc 0 0*16
Ifsc 1 0*26
Ifsc 1 0*35
Ifsc 0 0*36
Ifsc 1 0*37
Ifsc 0 0*655376
Ifsc 1 0*655377
Ifsc 7 0*655396
Ifsc 1 0*1048575
Ifsc 7 0*1048576
Ifsc 7 0*1048577
Creator 0
Creator 0 0*1048576
Creator 7 0*1048577
";

// Returns the parts of a text before and after its first space.
fn parted(text: &str) -> (&str, &str) {
    text.split_once(' ').unwrap_or((text, ""))
}

// Appends the bytes of a run.
fn put_run(rt: &impl Abort, bytes: &mut Vec<u8>, run: &str) {
    let (byte, count) = run.split_once('*').unwrap_or((run, "1"));
    let size = bytes.len().saturating_add(must(rt, count.parse::<usize>()));
    must(rt, bytes.resize(size, must(rt, byte.parse::<u8>())));
}

// Returns the bytes of these runs.
fn bytes_of(rt: &(impl Abort + AllocGlobal), runs: &str) -> Vec<u8> {
    let mut bytes = Vec::new(rt.alloc());
    for run in runs.split_whitespace() {
        put_run(rt, &mut bytes, run);
    }
    bytes
}

// Returns why a body in a packet of this kind and set has no fields, if so.
fn fault_in(alloc: Global, kind: &str, body: &[u8], set: Hash16) -> Option<BodyFault> {
    match kind {
        "Main" => main_body(alloc, body, set).err(),
        "FileDesc" => desc_body(alloc, body).err(),
        "Ifsc" => ifsc_body(alloc, body).err(),
        _ => creator_body(alloc, body).err(),
    }
}

// Returns the number of that reason, or 0 if the body has its fields.
fn reason_in(alloc: Global, kind: &str, body: &[u8], set: Hash16) -> u8 {
    match fault_in(alloc, kind, body, set) {
        None => 0,
        Some(BodyFault::Aside(reason)) => reason.number(),
        Some(BodyFault::Memory) => u8::MAX,
    }
}

// Returns the kind of a row, the number of its reason, and its bytes.
fn body_of<'t>(rt: &(impl Abort + AllocGlobal), row: &'t str) -> (&'t str, u8, Vec<u8>) {
    let (kind, rest) = parted(row);
    let (reason, runs) = parted(rest);
    (kind, must(rt, reason.parse::<u8>()), bytes_of(rt, runs))
}

// Returns the number of the reason to reject the same body in a packet of another set. A Main body
// is rejected there at the latest for the set ID.
fn in_another(kind: &str, reason: u8) -> u8 {
    if kind == "Main" && reason == 0 {
        4
    } else {
        reason
    }
}

// Checks the reason of a body, in a packet of its own set and in one of another set.
fn has_reason(rt: &(impl Abort + AllocGlobal), row: &str) {
    let (kind, reason, body) = body_of(rt, row);
    let own = reason_in(rt.alloc(), kind, &body, digest_of(&body));
    let another = reason_in(rt.alloc(), kind, &body, SET);
    is(
        rt,
        &row,
        &(own, another),
        &(reason, in_another(kind, reason)),
    );
}

#[test]
fn bodies_have_their_first_reason(rt: HostRuntime) {
    for row in BODIES.lines() {
        has_reason(&rt, row);
    }
}

// The number of recovery IDs and of all IDs of a Main body, which are all different, the number of
// zeros after them, and the number of the reason, or 0. One of the IDs is zeros.
static LONG_MAINS: [(u32, u32, usize, u8); 6] = [
    (0, 32_768, 0, 0),
    (0, 32_769, 0, 7),
    (32_767, 32_768, 0, 0),
    (32_768, 32_769, 0, 7),
    (0, 32_767, 16, 3),
    (0, 32_768, 16, 7),
];

// Returns the Main body of such a row.
fn long_main(rt: &(impl Abort + AllocGlobal), row: &(u32, u32, usize, u8)) -> Vec<u8> {
    let size = b"\x04\0\0\0\0\0\0\0";
    let mut body = must(rt, joined(rt.alloc(), &[size, &row.0.to_le_bytes()]));
    for id in 0..row.1 {
        must(rt, body.extend_from_slice(&u128::from(id).to_le_bytes()));
    }
    must(rt, body.resize(body.len().saturating_add(row.2), 0));
    body
}

// Checks the reason of that body.
fn has_reason_of(rt: &(impl Abort + AllocGlobal), row: &(u32, u32, usize, u8)) {
    let body = long_main(rt, row);
    let found = reason_in(rt.alloc(), "Main", &body, digest_of(&body));
    is(rt, row, &found, &row.3);
}

#[test]
fn main_bodies_of_many_ids_have_their_first_reason(rt: HostRuntime) {
    for row in &LONG_MAINS {
        has_reason_of(&rt, row);
    }
}

// Lengths of usable IFSC bodies of zeros, and the number of their pairs.
static PAIRS: [(usize, usize); 3] = [(16, 0), (36, 1), (655_376, 32_768)];

// Checks the number of pairs of such a body.
fn has_pairs(rt: &(impl Abort + AllocGlobal), row: &(usize, usize)) {
    let body = must(rt, vec![in rt.alloc(); 0; row.0]);
    let ifsc = must(rt, ifsc_body(rt.alloc(), &body));
    is(rt, row, &ifsc.sums.len(), &row.1);
}

#[test]
fn checksums_have_a_pair_for_each_twenty_bytes(rt: HostRuntime) {
    for row in &PAIRS {
        has_pairs(&rt, row);
    }
}

// More bodies in packets of a set whose slices have four bytes.
const OTHERS: &str = "\
RecvSlic 0 0*8
RecvSlic 1 0*9
RecvSlic 1 0*12
RecvSlic 7 255*4 0*4
Other 0
Other 0 0*1048577
";

// Returns the kind that a word names.
fn kind_of(word: &str) -> Kind {
    match word {
        "Main" => Kind::Main,
        "FileDesc" => Kind::FileDesc,
        "Ifsc" => Kind::Ifsc,
        "Creator" => Kind::Creator,
        "RecvSlic" => Kind::RecvSlic,
        _ => Kind::Other([0; 16]),
    }
}

// Appends a packet of the worked set. Its offset is the number of packets before it.
fn keep(rt: &(impl Abort + AllocGlobal), packets: &mut Vec<Kept>, kind: Kind, body: &[u8]) {
    let packet = Packet {
        at: packets.len(),
        length: 64,
        set: SET,
        kind,
        body,
    };
    let mut kept = must(rt, kept_of(rt.alloc(), 0, &[packet]));
    must(rt, packets.append(&mut kept));
}

// Offsets of rejected packets, and the numbers of the reasons.
type Asides = Vec<(u64, u8)>;

// Appends the packet of a row, and an entry if it is rejected.
fn keep_row(
    rt: &(impl Abort + AllocGlobal),
    packets: &mut Vec<Kept>,
    asides: &mut Asides,
    row: &str,
) {
    let (kind, reason, body) = body_of(rt, row);
    let reason = in_another(kind, reason);
    if reason > 0 {
        must(rt, asides.push((packets.len() as u64, reason)));
    }
    keep(rt, packets, kind_of(kind), &body);
}

// Checks that these packets are rejected.
fn are_aside(rt: &impl Abort, found: &[SetAside], wanted: &[(u64, u8)]) {
    is(rt, &"rejected", &found.len(), &wanted.len());
    for (aside, row) in found.iter().zip(wanted) {
        is(rt, row, &(aside.at, aside.reason.number()), row);
    }
}

// Checks that a set of these packets has one file, one recovery slice and no text, and that these
// packets are rejected.
fn has_asides(rt: &(impl Abort + AllocGlobal), packets: &[Kept], wanted: &[(u64, u8)]) {
    let set = must(rt, build(rt.alloc(), packets, None));
    is(rt, &"parts", &(set.files().len(), set.have()), &(1, 1));
    is(rt, &"creator", &set.creator(), &None);
    are_aside(rt, set.aside(), wanted);
}

// Appends the packets of the rows of a table, and an entry for each that is rejected.
fn keep_rows(
    rt: &(impl Abort + AllocGlobal),
    packets: &mut Vec<Kept>,
    asides: &mut Asides,
    table: &str,
) {
    for row in table.lines() {
        keep_row(rt, packets, asides, row);
    }
}

// Keeps the packets of the rows of two tables, then a Main packet and a description, and checks
// which of all these the set rejects.
fn all_put_aside(rt: &(impl Abort + AllocGlobal)) {
    let mut packets = Vec::new(rt.alloc());
    let mut asides = Vec::new(rt.alloc());
    keep_rows(rt, &mut packets, &mut asides, BODIES);
    keep_rows(rt, &mut packets, &mut asides, OTHERS);
    keep(rt, &mut packets, Kind::Main, &WORKED[64..92]);
    keep(rt, &mut packets, Kind::FileDesc, &WORKED[156..220]);
    has_asides(rt, &packets, &asides);
}

#[test]
fn a_usable_set_puts_aside_a_packet_for_each_reason(rt: HostRuntime) {
    all_put_aside(&rt);
}
