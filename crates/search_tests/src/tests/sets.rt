// Indexes of the slices of several files.
use md5::{Digest, Md5};
use parfield::{Hash16, Kind};
use parfixtures::joined;
use parsalvage::{Kept, KeptBody, Part};
use parset::{SetFault, build};
use parwindow::{Index, crc32};
use std::alloc::{AllocError, Global};

// Returns the ID of the file with a number. The IDs are in the order of the numbers.
fn id_of(number: u32) -> [u8; 16] {
    let mut id = [b'f'; 16];
    id[12..].copy_from_slice(&number.to_le_bytes());
    id
}

// Returns the name of the file with a number below 1,000.
fn name_of(number: u32) -> [u8; 4] {
    [
        b'f',
        b'a' + (number / 100 % 10) as u8,
        b'a' + (number / 10 % 10) as u8,
        b'a' + (number % 10) as u8,
    ]
}

// Returns the body of the Main packet of a set of `count` files.
fn main_of(alloc: Global, size: usize, count: u32) -> Result<Vec<u8>, AllocError> {
    let size = size as u64;
    let mut body = joined(alloc, &[&size.to_le_bytes(), &count.to_le_bytes()])?;
    for number in 0..count {
        body.extend_from_slice(&id_of(number))?;
    }
    Ok(body)
}

// Returns a packet of a set.
fn kept(set: Hash16, kind: Kind, body: Vec<u8>) -> Result<Kept, AllocError> {
    Ok(Kept {
        file: 0,
        at: 0,
        length: 64 + body.len() as u64,
        set,
        kind,
        body: KeptBody::Whole(Part::from_vec(body)?),
    })
}

// Appends the description of a file.
fn put_description(
    alloc: Global,
    packets: &mut Vec<Kept>,
    set: Hash16,
    number: u32,
    length: usize,
) -> Result<(), AllocError> {
    let length = (length as u64).to_le_bytes();
    let body = joined(
        alloc,
        &[&id_of(number), &[b'f'; 32], &length, &name_of(number)],
    )?;
    packets.push(kept(set, Kind::FileDesc, body)?)?;
    Ok(())
}

// Returns the MD5 and the CRC-32 of each slice, one after another.
fn sums_of(alloc: Global, size: usize, content: &[u8]) -> Result<Vec<u8>, AllocError> {
    let mut sums = Vec::new(alloc);
    for own in content.chunks(size.max(1)) {
        let mut slice = Vec::from_slice(alloc, own)?;
        slice.resize(size, 0)?;
        sums.extend_from_slice(&Md5::digest(&slice))?;
        sums.extend_from_slice(&crc32(&slice).to_le_bytes())?;
    }
    Ok(sums)
}

// Appends the checksums of a file.
fn put_sums(
    alloc: Global,
    packets: &mut Vec<Kept>,
    set: Hash16,
    number: u32,
    size: usize,
    content: &[u8],
) -> Result<(), AllocError> {
    let sums = sums_of(alloc, size, content)?;
    let body = joined(alloc, &[&id_of(number), &sums])?;
    packets.push(kept(set, Kind::Ifsc, body)?)?;
    Ok(())
}

// Returns the packets of a set of fewer than 1,000 files.
fn packets_of(alloc: Global, size: usize, files: &[&[u8]]) -> Result<Vec<Kept>, AllocError> {
    let main = main_of(alloc, size, u32::try_from(files.len()).unwrap_or(u32::MAX))?;
    let set = Hash16(Md5::digest(&main));
    let mut packets = Vec::new(alloc);
    packets.push(kept(set, Kind::Main, main)?)?;
    let mut number: u32 = 0;
    for content in files {
        put_description(alloc, &mut packets, set, number, content.len())?;
        put_sums(alloc, &mut packets, set, number, size, content)?;
        number = number.saturating_add(1);
    }
    Ok(packets)
}

/// Returns an index of the slices of fewer than 1,000 files, with known checksums.
pub fn index_of_files(alloc: Global, size: usize, files: &[&[u8]]) -> Result<Index, SetFault> {
    let packets = packets_of(alloc, size, files)?;
    let set = build(alloc, &packets, None)?;
    Ok(Index::new(alloc, &set)?)
}
