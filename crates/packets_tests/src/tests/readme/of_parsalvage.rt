use crate::tests::{holds, must};
use parfixtures::WORKED;
use parsalvage::{Kept, kept_of, salvage};
use std::alloc::{AllocError, Global};

// The packets of these bytes, as a recovery set needs them.
fn packets_of_bytes(alloc: Global, bytes: &[u8]) -> Result<Vec<Kept>, AllocError> {
    let packets = salvage(alloc, bytes)?;
    kept_of(alloc, 0, &packets)
}

#[test]
fn the_readme_of_parsalvage_keeps_each_packet(rt: HostRuntime) {
    let kept = must(&rt, packets_of_bytes(rt.alloc(), &WORKED));
    holds(&rt, &"packets", kept.len() == 4);
    for (packet, at) in kept.iter().zip([0, 92, 220, 340]) {
        holds(&rt, &at, packet.at == at && packet.file == 0);
    }
}
