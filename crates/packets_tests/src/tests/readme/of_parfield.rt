use crate::tests::is;
use parfield::{Kind, packet_at};
use parfixtures::WORKED;

// Whether a Main packet begins at an offset of these bytes.
fn is_main_at(bytes: &[u8], at: usize) -> bool {
    match packet_at(bytes, at) {
        Some(packet) => packet.kind == Kind::Main,
        None => false,
    }
}

#[test]
fn the_readme_of_parfield_finds_a_main_packet(rt: HostRuntime) {
    for (at, wanted) in [
        (0, true),
        (1, false),
        (92, false),
        (416, false),
        (usize::MAX, false),
    ] {
        is(&rt, &at, &is_main_at(&WORKED, at), &wanted);
    }
}
